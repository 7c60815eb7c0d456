ghost use Rattle.std.specs.Prelude.{◌≡◌, ◌<◌, ◌+◌, List, OnOk, OnErr, IfOk, IfSome, IsSome, IsSomeAnd, true, None, Some, option_copied, is_some, [], refl};
ghost use Rattle.std.specs.List.{filter, list_all};
ghost use Rattle.subcomputation.specs.Subs.{sub_in, host_in, name_of_sub, put_sub, without_sub, ready_frames, IsBegun, SubOf};
ghost use Rattle.steal_protocol.specs.Requests.{asked, IsAsked, without_request, settled};
ghost use Rattle.steal_protocol.specs.Replies.{put_reply};
ghost use Rattle.node_state.specs.Assemblies.{AssemblyOf, assembly_in, begun, of_living, put_assembly, with_part, without_assembly};
ghost use Rattle.node_state.specs.Node.{starting, ended, is_confirmed, hop_in, holding, name_of_confirmed, put_confirmed, put_seen, name_of_seen};
ghost use Rattle.level_deques.specs.Levels.{IsByLevel};
ghost use Rattle.level_deques.specs.declared.posts.Post.{Post};
ghost use Rattle.node_state.specs.Posts.{post_of, posted_all, posts_after, ready_of_sub};
ghost use Rattle.node_state.specs.Stale.{Covers, stale_by, stale_in, still_ready};
ghost use Rattle.sub_rules.specs.Changes.{readied_in};
ghost use Rattle.ids.specs.Naming.{name_of_frame, name_of_grant, name_of_member};
ghost use Rattle.ids.specs.Ordered.{AreInOrder};
ghost use Rattle.ids.specs.Named.{changed_in};
ghost use Rattle.subcomputation.specs.Told.{opened_sub, updated_sub};
ghost use Rattle.sub_rules.specs.Updates.{opened_in, updated, MayUpdate};
ghost use Rattle.node_state.specs.declared.parts.State.TheVariants.{Member, Leaving};
ghost use Rattle.node_state.specs.Parts.{ArePosts, MayBeMember, MayCome, IsJoined, IsLeaving, IsMember, HasNoNewRecord, MayOpenIn, MayUpdateIn, EachFits, put_some, ready_of, recovery_of, with_posts};
ghost use Rattle.recovery.specs.Plans.{IsPlan};
ghost use Rattle.recovery.specs.Told.{AreWhole, IsWhole};
ghost use Rattle.task_tree.specs.declared.tree.Program.{Program};

use crate::assemblies::{Assembly, OneMore, forget_all, names_of_dead};
use crate::parts::{Confirmed, LastTurn, Seen, Stale, State, name_of};
use codec::{Part, Piece, Roster};
use ids::{
    Actor, FrameNo, GrantId, Hop, Incarnation, Named, Record, SortedMap, Status, TryItemChange,
    Values,
};
use level_deques::{Post, PostTest, Posts};
use recovery::Plan;
use std::alloc::{AllocError, Global};
use std::marker::Model;
use steal_protocol::{AskError, Asker, Replies, Reply, Request};
use sub_rules::{Leaver, Readied, Replacement, Update};
use subcomputation::{ReadiedOf, Sub};

/// A taken grant's name is the grant's.
impl Named for Seen {
    ghost name_of = { name_of_seen };

    fn name(&self) -> (u64, u64) {
        name_of(self.grant)
    }
}

/// A confirmation's name is its thief's.
impl Named for Confirmed {
    ghost name_of = { name_of_confirmed };

    fn name(&self) -> (u64, u64) {
        (self.thief.word(), 0)
    }
}

/// The parts of a node, and the posts of its ready frames: each ready frame of a subcomputation
/// that isn't frozen has one post, of the level of its place, and there are no others. Contracts
/// see the node and its posts.
#[derive(Drop)]
pub struct Parts {
    alloc: Global,
    incarnation: Incarnation,
    state: State,
    subs: SortedMap<Sub>,
    asker: Asker,
    minted: u64,
    replies: Replies,
    confirmed: SortedMap<Confirmed>,
    seen: SortedMap<Seen>,
    assemblies: SortedMap<Assembly>,
    posts: Posts,
    // How many stolen frames became ready again, and what the last turn was. Contracts see neither.
    redone: u64,
    turn: LastTurn,
}

impl Model for Parts {
    ghost use Rattle.node_state.specs.declared.parts.State.TheVariants.{Member};
    ghost use Rattle.node_state.specs.Parts.{PartsOf, AreParts};

    ghost Value = { PartsOf };

    ghost view = { λ p. record { node = record { incarnation = p.incarnation; state = p.state; subs = p.subs; asker = p.asker; minted = p.minted; replies = p.replies; confirmed = p.confirmed; seen = p.seen; assemblies = p.assemblies }; posts = p.posts } };

    ghost invariant = { λ p. AreParts (record { node = record { incarnation = p.incarnation; state = p.state; subs = p.subs; asker = p.asker; minted = p.minted; replies = p.replies; confirmed = p.confirmed; seen = p.seen; assemblies = p.assemblies }; posts = p.posts }) };
}

impl Parts {
    /// A node that starts; takes no memory.
    pub fn new(alloc: Global, incarnation: Incarnation) -> Parts
        ensures { result ≡ record { node = starting incarnation; posts = [] } }
    {
        Parts {
            alloc,
            incarnation,
            state: State::Joining,
            subs: SortedMap::new(alloc),
            asker: Asker::new(),
            minted: 0,
            replies: Replies::new(alloc),
            confirmed: SortedMap::new(alloc),
            seen: SortedMap::new(alloc),
            assemblies: SortedMap::new(alloc),
            posts: Posts::new(alloc),
            redone: 0,
            turn: LastTurn::none(),
        }
    }

    /// Its name.
    pub fn incarnation(&self) -> Incarnation
        ensures { result ≡ self.now.node.incarnation }
    {
        self.incarnation
    }

    /// Where it stands.
    pub fn state(&self) -> &State
        ensures { result.now ≡ self.now.node.state }
    {
        &self.state
    }

    /// Its requests.
    pub fn asker(&self) -> &Asker
        ensures { result.now ≡ self.now.node.asker }
    {
        &self.asker
    }

    /// How many grants it has minted.
    pub fn minted(&self) -> u64
        ensures { result ≡ self.now.node.minted }
    {
        self.minted
    }

    /// How many stolen frames became ready again, since their thieves were lost. No clause speaks
    /// of it.
    pub fn redone(&self) -> u64 {
        self.redone
    }

    /// What the last turn was that changed a subcomputation here. No clause speaks of it.
    pub fn last_turn(&self) -> LastTurn {
        self.turn
    }

    /// Its last answer to each thief.
    pub fn replies(&self) -> &Replies
        ensures { result.now ≡ self.now.node.replies }
    {
        &self.replies
    }

    /// The posts of its ready frames.
    pub fn posts(&self) -> &Posts
        ensures same { result.now ≡ self.now.posts }
        ensures ready { ArePosts self.now.node self.now.posts }
    {
        &self.posts
    }

    /// A node that leaves has no request pending. Does nothing.
    pub fn law_waits_for_nothing(&self)
        requires { IsLeaving self.now.node.state }
        ensures { self.now.node.asker.pending ≡ None }
    {
        let _ = &self.asker;
    }

    /// Whether a grant is the one that a thief has said last that it has.
    pub fn is_confirmed(&self, thief: Incarnation, grant: GrantId) -> bool
        ensures { result ≡ is_confirmed thief grant self.now.node.confirmed }
    {
        let Some(confirmed) = self.confirmed.get((thief.word(), 0)) else {
            return false;
        };
        confirmed.grant == grant
    }

    /// All posts stay while no subcomputation changes. Does nothing.
    pub fn law_nothing_goes(&self)
        ensures { posts_after self.now.node [] self.now.posts ≡ self.now.posts }
    {
        let _ = &self.posts;
    }

    /// The greatest hop with which a grant was taken, if it was.
    pub fn hop(&self, grant: GrantId) -> Option<Hop>
        ensures { result ≡ hop_in grant self.now.node.seen }
    {
        let seen = self.seen.get(name_of(grant))?;
        Some(seen.hop)
    }

    /// The subcomputation of a grant.
    pub fn sub(&self, grant: GrantId) -> Option<&Sub>
        ensures sub { option_copied result ≡ sub_in grant self.now.node.subs }
        ensures name { IfSome result (λ s. s.now.grant ≡ grant) }
        ensures minted { IfSome result (λ s. HasNoNewRecord self.now.node s.now) }
    {
        let sub = self.subs.get(name_of(grant))?;
        Some(sub)
    }

    /// The subcomputations, by rising grant.
    pub fn subs(&self) -> Values<'_, Sub>
        ensures { result ≡ self.now.node.subs }
    {
        self.subs.values()
    }

    /// The subcomputation that has the open record of a grant.
    pub fn host(&self, grant: GrantId) -> Option<&Sub>
        ensures host { option_copied result ≡ host_in grant self.now.node.subs }
        ensures held { IfSome result (λ s. sub_in s.now.grant self.now.node.subs ≡ Some s.now) }
        ensures minted { IfSome result (λ s. HasNoNewRecord self.now.node s.now) }
    {
        self.subs.law_stand_in_order();
        let found = find_host(&self.subs, grant)?;
        Some(found)
    }

    /// Keeps a roster, as a member's, and forgets a pending request whose victim isn't live by what
    /// is said of it.
    pub fn keep_roster(&mut self, roster: Roster, victim: Option<Status>)
        requires { MayBeMember self.old.node.state }
        ensures { self.new ≡ with_posts (record self.old.node {
          state = Member roster;
          asker = settled victim self.old.node.asker;
        }) [] self.old.posts }
    {
        self.state = State::Member(roster);
        self.asker.settle(victim);
    }

    /// Leaves to an heir, by the roster that it has: all that it holds is frozen, and the parts of
    /// Offers that came go.
    pub fn leave(&mut self, heir: Incarnation)
        requires member { IsMember self.old.node.state }
        requires silent { self.old.node.asker.pending ≡ None }
        ensures { (r : Roster) → self.old.node.state ≡ Member r
            → self.new ≡ with_posts (record self.old.node { state = Leaving r heir; assemblies = [] }) [] self.old.posts }
    {
        if let State::Member(roster) = std::mem::replace(&mut self.state, State::Joining) {
            self.state = State::Leaving(roster, heir);
            self.assemblies = SortedMap::new(self.alloc);
            self.posts = Posts::new(self.alloc);
        }
    }

    /// Keeps a roster, as a leaving node's.
    pub fn keep_leaving(&mut self, roster: Roster, heir: Incarnation)
        requires { IsLeaving self.old.node.state }
        ensures { self.new ≡ with_posts (record self.old.node { state = Leaving roster heir }) [] self.old.posts }
    {
        self.state = State::Leaving(roster, heir);
    }

    /// Notes that a thief has its grant, in the place of the one before; refused only when out of
    /// memory, which changes nothing.
    pub fn confirm(&mut self, confirmed: Confirmed) -> Result<(), AllocError>
        ensures ok { OnOk result (self.new
            ≡ with_posts (record self.old.node { confirmed = put_confirmed confirmed self.old.node.confirmed })
            [] self.old.posts) }
        ensures err { OnErr result (self.new ≡ self.old) }
    {
        self.confirmed.put(confirmed)?;
        Ok(())
    }

    /// The parts of a grant's Offer that have come in Pieces, if any has.
    pub fn assembly(&self, grant: GrantId) -> Option<&Assembly>
        ensures { option_copied result ≡ assembly_in grant self.now.node.assemblies }
    {
        let assembly = self.assemblies.get(name_of(grant))?;
        Some(assembly)
    }

    /// Keeps the first part that comes of an Offer, in the place of what came of another one of its
    /// grant; refused only when out of memory, which changes nothing.
    pub fn begin_assembly(&mut self, piece: Piece) -> Result<(), AllocError>
        ensures ok { OnOk result (self.new
            ≡ with_posts (record self.old.node { assemblies = put_assembly (begun piece) self.old.node.assemblies })
            [] self.old.posts) }
        ensures err { OnErr result (self.new ≡ self.old) }
    {
        let begun = Assembly::begin(self.alloc, piece)?;
        self.assemblies.put(begun)?;
        Ok(())
    }

    /// Keeps one part more of the grant's Offer, where it stands; refused only when out of memory,
    /// which changes nothing.
    pub fn add_part(&mut self, grant: GrantId, part: Part) -> Result<(), AllocError>
        requires { IsSome (assembly_in grant self.old.node.assemblies) }
        ensures ok { (a : AssemblyOf) → assembly_in grant self.old.node.assemblies ≡ Some a
            → OnOk result (self.new
            ≡ with_posts (record self.old.node { assemblies = put_assembly (with_part part a) self.old.node.assemblies })
            [] self.old.posts) }
        ensures err { OnErr result (self.new ≡ self.old) }
    {
        self.assemblies
            .try_change(name_of(grant), OneMore { part })?;
        Ok(())
    }

    /// The parts of a grant's Offer go.
    pub fn forget_assembly(&mut self, grant: GrantId)
        ensures { self.new
            ≡ with_posts (record self.old.node { assemblies = without_assembly grant self.old.node.assemblies })
            [] self.old.posts }
    {
        self.assemblies.discard(name_of(grant));
    }

    /// The subcomputations, by their grants.
    pub fn held(&self) -> &SortedMap<Sub>
        ensures { result.now ≡ self.now.node.subs }
    {
        &self.subs
    }

    /// Keeps a roster, as a member's, carries out the recovery by it that was planned, and forgets
    /// a pending request whose victim isn't live by what is said of it, and the parts of the Offers
    /// of those who are dead by the roster; refused only when out of memory, which changes nothing.
    pub fn recover(
        &mut self,
        roster: Roster,
        victim: Option<Status>,
        plan: Plan,
    ) -> Result<(), AllocError>
        requires member { IsMember self.old.node.state }
        requires rising { AreInOrder name_of_member roster.members }
        requires plan { IsPlan roster.members self.old.node.subs plan }
        ensures ok { OnOk result (self.new ≡ with_posts (record self.old.node {
          state = Member roster;
          subs = (recovery_of roster self.old.node).subs;
          asker = settled victim self.old.node.asker;
          assemblies = of_living roster.members self.old.node.assemblies;
        }) (recovery_of roster self.old.node).again self.old.posts) }
        ensures fits { (p : Program) → EachFits p self.old.node → OnOk result (EachFits p self.new.node) }
        ensures err { OnErr result (self.new ≡ self.old) }
    {
        let posts = posted_again(&self.posts, plan.again())?;
        let dead = names_of_dead(self.alloc, &roster, &self.assemblies)?;
        let redone = self.redone.saturating_add(plan.again().len() as u64);
        self.assemblies.law_stand_in_order();
        law_are_whole(&self.subs);
        recovery::law_recoveries_are_told();
        plan.carry_out(&mut self.subs);
        self.state = State::Member(roster);
        self.asker.settle(victim);
        forget_all(&mut self.assemblies, dead.as_slice());
        self.posts = posts;
        self.redone = redone;
        withdraw_stale(&mut self.posts, &self.subs);
        Ok(())
    }

    /// Takes what an Offer of a grant handed on at a hop, which is nothing where a recovery dropped
    /// it, and whose frames are `ready`; refused only when out of memory, which changes nothing.
    pub fn accept(
        &mut self,
        grant: GrantId,
        hop: Hop,
        after: Option<Sub>,
        ready: &[Readied],
    ) -> Result<(), AllocError>
        requires member { IsMember self.old.node.state }
        requires absent { sub_in grant self.old.node.subs ≡ None }
        requires comes { MayCome self.old.node grant ready.now after }
        ensures ok { OnOk result (self.new
            ≡ with_posts (record self.old.node {
              subs = put_some after self.old.node.subs;
              seen = put_seen grant hop self.old.node.seen;
            }) (ready_of grant ready.now) self.old.posts) }
        ensures err { OnErr result (self.new ≡ self.old) }
    {
        self.posts.law_stand_by_level();
        post_ready(&mut self.posts, grant, ready)?;
        if let Err(refused) = note(&mut self.subs, &mut self.seen, grant, hop, after) {
            take_back(&mut self.posts, grant, ready);
            return Err(refused);
        }
        law_frames_stand_in_order(&self.subs, grant);
        withdraw_come(&mut self.posts, &self.subs, grant, ready);
        Ok(())
    }

    /// Ends: it holds nothing any more.
    pub fn end(&mut self)
        ensures { self.new ≡ with_posts (ended self.old.node) [] self.old.posts }
    {
        self.state = State::Ended;
        self.subs = SortedMap::new(self.alloc);
        self.asker.clear();
        self.replies = Replies::new(self.alloc);
        self.confirmed = SortedMap::new(self.alloc);
        self.seen = SortedMap::new(self.alloc);
        self.assemblies = SortedMap::new(self.alloc);
        self.posts = Posts::new(self.alloc);
    }

    /// A member makes a request of a victim: E61 where one waits for its answer, E62 where no count
    /// is left. A refusal changes nothing.
    pub fn ask(&mut self, victim: Actor) -> Result<Request, AskError>
        requires { IsMember self.old.node.state }
        ensures asked { IsAsked (asked victim self.old.node.asker) self.old.node.asker self.new.node.asker result }
        ensures rest { self.new ≡ with_posts (record self.old.node { asker = self.new.node.asker }) [] self.old.posts }
    {
        self.asker.ask(victim)
    }

    /// The request has its answer.
    pub fn clear_request(&mut self)
        ensures { self.new
            ≡ with_posts (record self.old.node { asker = without_request self.old.node.asker }) [] self.old.posts }
    {
        self.asker.clear();
    }

    /// Keeps an answer to a thief; refused only when out of memory, which changes nothing.
    pub fn answer(&mut self, reply: Reply) -> Result<(), AllocError>
        ensures ok { OnOk result (self.new
            ≡ with_posts (record self.old.node { replies = put_reply reply self.old.node.replies })
            [] self.old.posts) }
        ensures err { OnErr result (self.new ≡ self.old) }
    {
        self.replies.keep(reply)?;
        Ok(())
    }

    /// Makes a change that was prepared of the subcomputation that a member holds under a grant,
    /// where it stands, and posts the frames that became ready in it; refused only when out of
    /// memory, which changes nothing.
    pub fn update(
        &mut self,
        grant: GrantId,
        update: Update,
        ready: &[Readied],
    ) -> Result<(), AllocError>
        requires { MayUpdateIn self.old.node grant update ready.now }
        ensures ok { (s : SubOf) → sub_in grant self.old.node.subs ≡ Some s
            → OnOk result (self.new
            ≡ with_posts (record self.old.node { subs = put_sub (updated_sub update s) self.old.node.subs })
            (ready_of grant ready.now) self.old.posts) }
        ensures err { OnErr result (self.new ≡ self.old) }
    {
        let mut turn = LastTurn::none();
        let stale = stale_by(&self.subs, grant, &update, &mut turn);
        self.posts.law_stand_by_level();
        post_ready(&mut self.posts, grant, ready)?;
        law_frames_stand_in_order(&self.subs, grant);
        let change = InPlace {
            alloc: self.alloc,
            update,
        };
        if let Err(refused) = self.subs.try_change(name_of(grant), change) {
            take_back(&mut self.posts, grant, ready);
            return Err(refused);
        }
        law_frames_stand_in_order(&self.subs, grant);
        withdraw(&mut self.posts, &self.subs, stale);
        self.turn = turn;
        Ok(())
    }

    /// Gives a ready frame away of the subcomputation that a member holds under a grant, where it
    /// stands, under the next number: its record stands in its place. Keeps the answer to the
    /// thief. Refused only when out of memory, which changes nothing.
    pub fn give(&mut self, grant: GrantId, opened: Record, reply: Reply) -> Result<(), AllocError>
        requires { MayOpenIn self.old.node grant opened }
        ensures ok { (s : SubOf) → sub_in grant self.old.node.subs ≡ Some s
            → OnOk result (self.new ≡ with_posts (record self.old.node {
              minted = self.old.node.minted + 1;
              subs = put_sub (opened_sub opened s) self.old.node.subs;
              replies = put_reply reply self.old.node.replies;
            }) [] self.old.posts) }
        ensures err { OnErr result (self.new ≡ self.old) }
    {
        // (a frame that is given away takes no turn)
        let mut left = LastTurn::none();
        let stale = stale_in(&self.subs, grant, opened.frame, &mut left);
        law_frames_stand_in_order(&self.subs, grant);
        open_and_answer(&mut self.subs, &mut self.replies, grant, opened, reply)?;
        law_frames_stand_in_order(&self.subs, grant);
        self.minted += 1;
        withdraw(&mut self.posts, &self.subs, stale);
        Ok(())
    }

    /// Takes a subcomputation, under a grant that was never taken here, whose frames are `ready`:
    /// it answers the pending request; refused only when out of memory, which changes nothing.
    pub fn take(&mut self, sub: Sub, ready: &[Readied]) -> Result<(), AllocError>
        requires member { IsMember self.old.node.state }
        requires never { hop_in sub.grant self.old.node.seen ≡ None }
        requires ready { ready.now ≡ readied_in sub.content.frames }
        requires records { HasNoNewRecord self.old.node sub }
        ensures ok { OnOk result (self.new ≡ with_posts (holding sub
            (record self.old.node { asker = without_request self.old.node.asker })) (ready_frames sub)
            self.old.posts) }
        ensures err { OnErr result (self.new ≡ self.old) }
    {
        let grant = sub.grant();
        self.posts.law_stand_by_level();
        post_ready(&mut self.posts, grant, ready)?;
        law_stands_in_order(&sub);
        if let Err(refused) = hold(&mut self.subs, &mut self.seen, sub) {
            take_back(&mut self.posts, grant, ready);
            return Err(refused);
        }
        self.asker.clear();
        withdraw_come(&mut self.posts, &self.subs, grant, ready);
        Ok(())
    }

    /// The subcomputation of a grant goes.
    pub fn remove(&mut self, grant: GrantId)
        requires { IsJoined self.old.node.state }
        ensures { self.new ≡ with_posts (record self.old.node { subs = without_sub grant self.old.node.subs })
            [] self.old.posts }
    {
        self.subs.take(name_of(grant));
        withdraw_stale(&mut self.posts, &self.subs);
    }
}

/// The subcomputation that has the open record of a grant.
fn find_host(subs: &SortedMap<Sub>, grant: GrantId) -> Option<&Sub>
    ensures { option_copied result ≡ host_in grant subs.now }
{
    for sub in subs.values() {
        if sub.content().records.get(grant).is_some() {
            return Some(sub);
        }
    }
    None
}

/// The frames of a subcomputation stand by rising number. Does nothing.
fn law_frames_stand_in_order(subs: &SortedMap<Sub>, grant: GrantId)
    ensures { (s : SubOf) → sub_in grant subs.now ≡ Some s → AreInOrder name_of_frame s.content.frames }
{
    law_are_whole(subs);
}

/// The frames of a subcomputation stand by rising number. Does nothing.
fn law_stands_in_order(sub: &Sub)
    ensures { AreInOrder name_of_frame sub.now.content.frames }
{
    sub.content().frames.law_stand_in_order();
}

/// The posts, and behind them those of frames that are ready again.
fn posted_again(posts: &Posts, again: &[ReadiedOf]) -> Result<Posts, AllocError>
    ensures { IfOk result (λ p. p ≡ posted_all again.now posts.now) }
{
    let mut all = posts.clone()?;
    for ready in again {
        all.post(Post {
            level: ready.frame.level,
            grant: ready.grant,
            frame: ready.frame.frame,
        })?;
    }
    Ok(all)
}

/// Each subcomputation is sound, and its frames and records stand in order. Does nothing.
fn law_are_whole(subs: &SortedMap<Sub>)
    ensures { AreWhole subs.now }
{
    subs.law_stand_in_order();
    for sub in subs.values() {
        law_is_whole(sub);
    }
}

/// A subcomputation is sound, and its frames and records stand in order. Does nothing.
fn law_is_whole(sub: &Sub)
    ensures { IsWhole sub.now }
{
    let content = sub.content();
    content.frames.law_stand_in_order();
    content.records.law_stand_in_order();
}

/// The post of a ready frame of a grant's subcomputation.
fn post_in(grant: GrantId, ready: Readied) -> Post
    ensures { result ≡ post_of (record { grant = grant; frame = ready }) }
{
    Post {
        level: ready.level,
        grant,
        frame: ready.frame,
    }
}

/// Posts frames of a grant's subcomputation that became ready, behind the others; refused only when
/// out of memory, which changes nothing.
fn post_ready(posts: &mut Posts, grant: GrantId, ready: &[Readied]) -> Result<(), AllocError>
    requires { IsByLevel posts.old }
    ensures ok { OnOk result (posts.new ≡ posted_all (ready_of grant ready.now) posts.old) }
    ensures err { OnErr result (posts.new ≡ posts.old) }
{
    for (count, frame) in ready.iter().enumerate() {
        if let Err(refused) = posts.post(post_in(grant, *frame)) {
            take_back(posts, grant, &ready[..count]);
            return Err(refused);
        }
    }
    Ok(())
}

/// Takes posts back that were the last to come. Takes no memory.
fn take_back(posts: &mut Posts, grant: GrantId, ready: &[Readied])
    ensures { (before : List Post) → IsByLevel before → posts.old ≡ posted_all (ready_of grant ready.now) before
        → posts.new ≡ before }
{
    let mut count = ready.len();
    while 0 < count {
        count -= 1;
        posts.take(&post_in(grant, ready[count]));
    }
}

/// What an update of the subcomputation of a grant takes of the posts: all of its frames may go
/// where it ends, and else the post of the frame that leaves does. Notes what turn that is.
fn stale_by(subs: &SortedMap<Sub>, grant: GrantId, update: &Update, turn: &mut LastTurn) -> Stale
    ensures { result ≡ stale_by grant update.now (sub_in grant subs.now) }
{
    match (&update.work, update.leaver) {
        (Replacement::Ends(_), leaver) => {
            note_end(subs, grant, leaver, turn);
            Stale::Any
        }
        (_, Leaver::RecordOf(_)) => Stale::Nothing,
        (work, Leaver::FrameOf(number)) => {
            if let Replacement::Adds(made, _) = work {
                turn.came = made.len();
            }
            stale_in(subs, grant, number, turn)
        }
    }
}

/// What a frame that leaves the subcomputation of a grant takes of the posts: its own, if it is
/// there. Notes which frame it is.
fn stale_in(subs: &SortedMap<Sub>, grant: GrantId, number: FrameNo, turn: &mut LastTurn) -> Stale
    ensures { result ≡ stale_in grant number (sub_in grant subs.now) }
{
    let Some(sub) = subs.get(name_of(grant)) else {
        return Stale::Nothing;
    };
    match sub.content().frames.get(number) {
        Some(frame) => {
            let level = frame.place.level();
            turn.thread = frame.thread;
            turn.level = level;
            turn.went = 1;
            Stale::One(Post {
                level,
                grant,
                frame: number,
            })
        }
        None => Stale::Nothing,
    }
}

/// Notes the turn that ends the subcomputation of a grant, with which all its frames go.
fn note_end(subs: &SortedMap<Sub>, grant: GrantId, leaver: Leaver, turn: &mut LastTurn) {
    if let (Some(sub), Leaver::FrameOf(number)) = (subs.get(name_of(grant)), leaver) {
        let frames = &sub.content().frames;
        if let Some(frame) = frames.get(number) {
            turn.thread = frame.thread;
            turn.level = frame.place.level();
        }
        turn.went = frames.len();
    }
}

/// Takes the posts away of what isn't ready any more, where it is known which of them that may be.
fn withdraw(posts: &mut Posts, subs: &SortedMap<Sub>, stale: Stale)
    requires { Covers subs.now posts.old stale }
    ensures { posts.new ≡ filter (λ p. is_some (ready_of_sub p.frame (sub_in p.grant subs.now))) posts.old }
{
    match stale {
        Stale::Nothing => {}
        Stale::One(post) => posts.take(&post),
        Stale::Any => withdraw_stale(posts, subs),
    }
}

/// Takes the posts away of what isn't ready any more.
fn withdraw_stale(posts: &mut Posts, subs: &SortedMap<Sub>)
    ensures { posts.new ≡ filter (λ p. is_some (ready_of_sub p.frame (sub_in p.grant subs.now))) posts.old }
{
    posts.retain(&StillReady { subs })
}

/// Takes the posts away of frames that came with a grant's subcomputation and aren't ready there.
/// Such frames alone can be stale, so the other posts are looked at only where one of them is.
fn withdraw_come(posts: &mut Posts, subs: &SortedMap<Sub>, grant: GrantId, ready: &[Readied])
    requires { list_all (λ r. is_some (ready_of_sub r.frame (sub_in grant subs.now))) ready.now ≡ true
        → still_ready subs.now posts.old ≡ posts.old }
    ensures { posts.new ≡ filter (λ p. is_some (ready_of_sub p.frame (sub_in p.grant subs.now))) posts.old }
{
    if !are_ready(subs, grant, ready) {
        withdraw_stale(posts, subs);
    }
}

/// Whether each of these frames is ready in the subcomputation of a grant.
fn are_ready(subs: &SortedMap<Sub>, grant: GrantId, ready: &[Readied]) -> bool
    ensures { result ≡ list_all (λ r. is_some (ready_of_sub r.frame (sub_in grant subs.now))) ready.now }
{
    let test = StillReady { subs };
    ready
        .iter()
        .all(|frame| test.stays(&post_in(grant, *frame)))
}

/// Puts a subcomputation under its grant, and remembers with which hop it came, where it never did;
/// running out of memory changes neither.
fn hold(subs: &mut SortedMap<Sub>, seen: &mut SortedMap<Seen>, sub: Sub) -> Result<(), AllocError>
    requires { hop_in sub.grant seen.old ≡ None }
    ensures subs { OnOk result (subs.new ≡ put_sub sub subs.old) }
    ensures seen { OnOk result (seen.new ≡ put_seen sub.grant sub.hop seen.old) }
    ensures err { OnErr result ((subs.new ≡ subs.old) × (seen.new ≡ seen.old)) }
{
    let grant = sub.grant();
    seen.put(Seen {
        grant,
        hop: sub.hop(),
    })?;
    if let Err(refused) = subs.put(sub) {
        seen.take(name_of(grant));
        return Err(refused);
    }
    Ok(())
}

/// Puts what comes of an Offer under its grant, and remembers with which hop it came; running out
/// of memory changes neither.
fn note(
    subs: &mut SortedMap<Sub>,
    seen: &mut SortedMap<Seen>,
    grant: GrantId,
    hop: Hop,
    after: Option<Sub>,
) -> Result<(), AllocError>
    requires absent { sub_in grant subs.old ≡ None }
    requires named { IfSome after (λ s. s.grant ≡ grant) }
    ensures subs { OnOk result (subs.new ≡ put_some after subs.old) }
    ensures seen { OnOk result (seen.new ≡ put_seen grant hop seen.old) }
    ensures err { OnErr result ((subs.new ≡ subs.old) × (seen.new ≡ seen.old)) }
{
    if let Some(sub) = after {
        subs.put(sub)?;
    }
    if let Err(refused) = seen.put(Seen { grant, hop }) {
        subs.take(name_of(grant));
        return Err(refused);
    }
    Ok(())
}

/// Opens a record in the subcomputation of a grant, in the place of its frame, and keeps the answer
/// to a thief; running out of memory changes neither. Where the thief has an answer, its place
/// takes no memory; else the answer is forgotten again.
fn open_and_answer(
    subs: &mut SortedMap<Sub>,
    replies: &mut Replies,
    grant: GrantId,
    opened: Record,
    reply: Reply,
) -> Result<(), AllocError>
    requires { IsSomeAnd (sub_in grant subs.old) (λ s. IsBegun (opened_in opened s.content)) }
    ensures subs { OnOk result (subs.new ≡ changed_in name_of_sub (opened_sub opened) (name_of_grant grant) subs.old) }
    ensures replies { OnOk result (replies.new ≡ put_reply reply replies.old) }
    ensures err { OnErr result ((subs.new ≡ subs.old) × (replies.new ≡ replies.old)) }
{
    let change = Opens { opened };
    if replies.get(reply.thief).is_some() {
        subs.try_change(name_of(grant), change)?;
        replies.replace(reply);
        return Ok(());
    }
    let thief = reply.thief;
    replies.keep(reply)?;
    if let Err(refused) = subs.try_change(name_of(grant), change) {
        replies.forget(thief);
        return Err(refused);
    }
    Ok(())
}

/// The opening of a record in the place of its frame.
#[derive(Drop)]
struct Opens {
    opened: Record,
}

impl TryItemChange<Sub> for Opens {
    ghost fits = { λ change sub. IsBegun (opened_in change.opened sub.content) };

    ghost changed = { λ change sub. opened_sub change.opened sub };

    ghost keeps_name = { λ change sub. refl };

    fn try_apply(self, sub: &mut Sub) -> Result<(), AllocError> {
        sub.open(self.opened)
    }
}

/// A change of a subcomputation that was prepared.
#[derive(Drop)]
struct InPlace {
    alloc: Global,
    update: Update,
}

impl TryItemChange<Sub> for InPlace {
    ghost fits = { λ change sub. MayUpdate change.update sub.content × IsBegun (updated change.update sub.content) };

    ghost changed = { λ change sub. updated_sub change.update sub };

    ghost keeps_name = { λ change sub. refl };

    fn try_apply(self, sub: &mut Sub) -> Result<(), AllocError> {
        sub.update(self.alloc, self.update)
    }
}

/// The test of a post: its frame is ready.
#[derive(Drop)]
struct StillReady<'a> {
    subs: &'a SortedMap<Sub>,
}

impl PostTest for StillReady<'_> {
    ghost stays = { λ t p. is_some (ready_of_sub p.frame (sub_in p.grant t.subs.now)) };

    fn stays(&self, post: &Post) -> bool {
        match self.subs.get(name_of(post.grant)) {
            Some(sub) => sub.is_ready(post.frame),
            None => false,
        }
    }
}
