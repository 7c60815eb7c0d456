//! What an open clearinghouse holds but for its disk, and how it changes.
ghost use Rattle.std.specs.Prelude.{◌≡◌, ℕ, Option, ◌+◌, ◌<◌, Some, None, IfOk, IfSome, OnOk, IsTrue, map, true, false};
ghost use Rattle.std.specs.List.{list_any};
ghost use Rattle.ids.specs.Members as members;
ghost use Rattle.ids.specs.Names.{is_worker};
ghost use Rattle.clearinghouse.specs.House.{opened, name_of, members_of, roster_of, is_root};
ghost use Rattle.clearinghouse.specs.Laws.{IsHouse, IsListing};
ghost use Rattle.clearinghouse.specs.Moves as moves;
ghost use Rattle.clearinghouse.specs.Links.{bearer_at};
ghost use Rattle.clearinghouse.specs.declared.book.Link.TheVariants as link;

use crate::parts::{Enlisted, RootGrant};
use codec::Roster;
use ids::{
    Actor, Count, Epoch, GrantId, Incarnation, ItemChange, Listed, Member, Outcome, SortedMap,
    Status,
};
use saved_values::SavedTable;
use std::alloc::{AllocError, Global};
use std::marker::Model;
use steal_protocol::Replies;

/// Contracts see it as `HouseOf`.
#[derive(Drop)]
pub struct Book {
    pub epoch: Epoch,
    pub version: Count,
    pub workers: SortedMap<Enlisted>,
    pub moment: u64,
    pub limit: u64,
    pub root: Option<RootGrant>,
    pub minted: u64,
    pub replies: Replies,
    pub outcome: Option<Outcome>,
    pub sequence: u64,
    pub saved: SavedTable,
}

impl Model for Book {
    ghost use Rattle.clearinghouse.specs.House.{HouseOf};

    ghost Value = { HouseOf };

    ghost view = { λ b. record {
      epoch = b.epoch;
      version = b.version;
      workers = b.workers;
      moment = b.moment;
      limit = b.limit;
      root = b.root;
      minted = b.minted;
      replies = b.replies;
      outcome = b.outcome;
      sequence = b.sequence;
      saved = b.saved;
    } };
}

/// A worker is heard at a moment.
#[derive(Drop)]
struct Hear {
    now: u64,
}

impl ItemChange<Enlisted> for Hear {
    ghost use Rattle.std.specs.Prelude.{refl};
    ghost use Rattle.clearinghouse.specs.declared.parts.Enlisted.{Enlisted};

    ghost fits = { λ change item. Unit {0} };

    ghost changed = { λ change item. record item { heard = change.now } };

    ghost keeps_name = { λ change item. refl };

    fn apply(&self, item: &mut Enlisted) {
        item.heard = self.now;
    }
}

/// Something else is said of a worker.
#[derive(Drop)]
struct Say {
    status: Status,
}

impl ItemChange<Enlisted> for Say {
    ghost use Rattle.std.specs.Prelude.{refl};

    ghost fits = { λ change item. Unit {0} };

    ghost changed = { λ change item. record item { status = change.status } };

    ghost keeps_name = { λ change item. refl };

    fn apply(&self, item: &mut Enlisted) {
        item.status = self.status;
    }
}

/// Those that are silent for too long at a moment are dead.
#[derive(Drop)]
struct DeclareDead {
    limit: u64,
    now: u64,
}

impl ItemChange<Enlisted> for DeclareDead {
    ghost use Rattle.std.specs.Prelude.{refl};

    ghost fits = { λ change item. Unit {0} };

    ghost changed = { λ change item. moves.declared_dead change.limit change.now item };

    ghost keeps_name = { λ change item. refl };

    fn apply(&self, item: &mut Enlisted) {
        if is_lost(self.limit, self.now, item) {
            item.status = Status::Dead;
        }
    }
}

/// Where a worker's work is: with itself, with nobody, or with whoever has that of its heir, here
/// by the word of its start.
#[derive(Clone, Copy, PartialEq, Eq, Debug)]
pub enum Link {
    Here,
    Nobody,
    At(u64),
}

/// Whether a live member was last heard too long ago.
fn is_lost(limit: u64, now: u64, worker: &Enlisted) -> bool
    ensures { result ≡ moves.is_lost limit now worker.now }
{
    worker.status == Status::Live && now.saturating_sub(worker.heard) > limit
}

impl Book {
    /// The clearinghouse of a new epoch, over what its checkpoint keeps. Takes no memory.
    pub fn opened(
        alloc: Global,
        epoch: Epoch,
        limit: u64,
        outcome: Option<Outcome>,
        sequence: u64,
        saved: SavedTable,
    ) -> Book
        ensures { result ≡ opened limit (record {
          sequence = sequence;
          epoch = epoch;
          outcome = outcome;
          saved = saved;
        }) }
    {
        Book {
            epoch,
            version: Count::of(1).unwrap(),
            workers: SortedMap::new(alloc),
            moment: 0,
            limit,
            root: None,
            minted: 0,
            replies: Replies::new(alloc),
            outcome,
            sequence,
            saved,
        }
    }

    /// Its name in its epoch.
    pub fn name(&self) -> Actor
        ensures { result ≡ name_of self.now }
    {
        self.epoch.house()
    }

    /// What is said of a worker; none of one that isn't listed.
    pub fn status(&self, worker: Incarnation) -> Option<Status>
        ensures { result ≡ members.status_in worker (members_of self.now) }
    {
        self.status_at(worker.word())
    }

    /// The same by the word of the worker's start.
    #[tactic(auto, using(crate::proofs::Looking::status_found))]
    fn status_at(&self, word: u64) -> Option<Status>
        ensures { result ≡ members.status_in word (members_of self.now) }
    {
        match self.workers.get((word, 0)) {
            Some(enlisted) => Some(enlisted.status),
            None => None,
        }
    }

    /// Whether a worker is listed as live.
    pub fn is_live(&self, worker: Incarnation) -> bool
        ensures { result ≡ members.is_live worker (members_of self.now) }
    {
        matches!(self.status(worker), Some(Status::Live))
    }

    /// Who has a worker's work, from heir to heir; nobody where it is dead. At most as many steps
    /// as workers are listed.
    pub fn resolve(&self, worker: Incarnation) -> Option<Incarnation>
        requires { IsListing self.now.version self.now.workers }
        ensures { result ≡ members.resolve (members_of self.now) worker }
    {
        let bearer = self.follow(worker.word(), self.workers.len() + 1)?;
        Incarnation::worker(bearer)
    }

    /// The same by the word of a worker's start, over at most so many workers.
    #[tactic(auto, unfolding(ids::specs::Members::follow))]
    fn follow(&self, word: u64, most: usize) -> Option<u64>
        requires { IsTrue (is_worker word) }
        ensures bearer { result ≡ members.follow most (members_of self.now) word }
        ensures worker { IfSome result (λ bearer. IsTrue (is_worker bearer)) }
    {
        if most == 0 {
            return None;
        }
        match self.link(word) {
            Link::Here => Some(word),
            Link::Nobody => None,
            Link::At(heir) => self.follow(heir, most - 1),
        }
    }

    /// Where a worker's work is.
    fn link(&self, word: u64) -> Link
        requires { IsTrue (is_worker word) }
        ensures bearer { (on : ℕ → Option ℕ) → members.bearer on word
            (members.status_in word (members_of self.now)) ≡ bearer_at on word result }
        ensures worker { (heir : ℕ) → result ≡ link.At heir → IsTrue (is_worker heir) }
    {
        let Some(status) = self.status_at(word) else {
            return Link::Here;
        };
        match status {
            Status::Live => Link::Here,
            Status::Dead => Link::Nobody,
            Status::Left(heir) => Link::At(heir.word()),
        }
    }

    /// Who is listed, to be told.
    pub fn roster(&self, alloc: Global) -> Result<Roster, AllocError>
        ensures { IfOk result (λ r. r ≡ roster_of self.now) }
    {
        let mut members = Listed::with_capacity(alloc, self.workers.len())?;
        for worker in self.workers.values() {
            members.push(Member {
                incarnation: worker.incarnation,
                status: worker.status,
            })?;
        }
        Ok(Roster {
            epoch: self.epoch,
            version: self.version,
            members,
        })
    }

    /// A new worker is listed as live, and heard now.
    pub fn list(&mut self, worker: Incarnation) -> Result<(), AllocError>
        requires { IsHouse self.old }
        ensures { OnOk result (self.new ≡ moves.lists worker self.old) }
    {
        let version = self.next_version();
        self.workers.put(Enlisted {
            incarnation: worker,
            status: Status::Live,
            heard: self.moment,
        })?;
        self.version = version;
        Ok(())
    }

    /// The version after this one.
    fn next_version(&self) -> Count
        requires { IsHouse self.now }
        ensures { result ≡ self.now.version + 1 }
    {
        self.version.next().unwrap()
    }

    /// A listed worker is heard now.
    #[tactic(auto, using(crate::proofs::Looking::live_there))]
    pub fn hear(&mut self, worker: Incarnation)
        requires { members.is_live worker (members_of self.old) ≡ true }
        ensures { self.new ≡ moves.hears worker self.old }
    {
        self.workers
            .change((worker.word(), 0), &Hear { now: self.moment });
    }

    /// Something else is said of a listed worker.
    #[tactic(auto, using(crate::proofs::Looking::live_there))]
    pub fn say(&mut self, worker: Incarnation, status: Status)
        requires house { IsHouse self.old }
        requires listed { members.is_live worker (members_of self.old) ≡ true }
        ensures { self.new ≡ moves.says worker status self.old }
    {
        let version = self.next_version();
        self.workers.change((worker.word(), 0), &Say { status });
        self.version = version;
    }

    /// What becomes of a member that leaves: it left to whoever has its heir's work, if that is
    /// another live member; else it is dead.
    pub fn leaving_status(&self, from: Incarnation, heir: Incarnation) -> Status
        requires { IsListing self.now.version self.now.workers }
        ensures { result ≡ moves.leaving_status from heir (members_of self.now) }
    {
        match self.resolve(heir) {
            Some(heir) if heir.word() != from.word() && self.is_live(heir) => Status::Left(heir),
            _ => Status::Dead,
        }
    }

    /// Whether a member was silent for too long at a moment.
    pub fn any_is_lost(&self, now: u64) -> bool
        ensures { result ≡ list_any (moves.is_lost self.now.limit now) self.now.workers }
    {
        let limit = self.limit;
        self.workers
            .values()
            .any(|worker| is_lost(limit, now, worker))
    }

    /// Those that were silent for too long at a moment are dead.
    pub fn declare_dead(&mut self, now: u64)
        requires { IsHouse self.old }
        ensures { self.new ≡ moves.with_workers (map (moves.declared_dead self.old.limit now) self.old.workers)
            self.old }
    {
        let version = self.next_version();
        let declare_dead = DeclareDead {
            limit: self.limit,
            now,
        };
        self.workers.change_all(&declare_dead);
        self.version = version;
    }

    /// Whether a grant is the root's, while that is out.
    pub fn is_root(&self, grant: GrantId) -> bool
        ensures { result ≡ is_root grant self.now.root }
    {
        match self.root {
            Some(root) => root.grant == grant,
            None => false,
        }
    }
}
