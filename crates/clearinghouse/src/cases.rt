//! What a packet or a moment does to what an open clearinghouse holds: each kind by a case of its
//! own.
ghost use Rattle.std.specs.Prelude.{◌≡◌, ◌+◌, ◌<◌, ◌≤◌, ◌^◌, ◌++◌, length, Some, None, IfOk, IsTrue, OnOk, [], ◌∷◌, true};
ghost use Rattle.ids.specs.Members.{is_live, status_in};
ghost use Rattle.ids.specs.Names.{house_of};
ghost use Rattle.ids.specs.declared.work.Task.{Task as TaskOf};
ghost use Rattle.codec.specs.Table.{is_short};
ghost use Rattle.codec.specs.declared.body.Body.TheVariants as body;
ghost use Rattle.steal_protocol.specs.Replies.{put_reply};
ghost use Rattle.clearinghouse.specs.Calls.{passes};
ghost use Rattle.clearinghouse.specs.Cases as cases;
ghost use Rattle.clearinghouse.specs.House.{members_of};
ghost use Rattle.clearinghouse.specs.Laws.{IsHouse, IsListing};
ghost use Rattle.clearinghouse.specs.Meeting.{Acts, IsSent};
ghost use Rattle.clearinghouse.specs.Moves as moves;
ghost use Rattle.clearinghouse.specs.Steps.{Does};

use crate::book::Book;
use crate::error::HouseError;
use crate::parts::{Act, RootGrant};
use crate::sending::{roster_alone, send_abort};
use codec::{
    Beat, Body, Datagram, Grant, Join, Leave, Packet, Refuse, ResultAck, Save, Steal, TaskResult,
    alone,
};
use ids::{Address, GrantId, Incarnation, Listed, Numbers, Outcome, Place, Status, Task};
use kind_check::accepted_threads_are_few;
use saved_values::{SavedPlace, SavedTable, SavedValue, copied};
use serial_meaning::Job;
use std::alloc::{AllocError, Global};
use steal_protocol::{Heard, Reply};

/// The root task of a job: thread `main` on the input.
fn root_task(alloc: Global, job: &Job) -> Result<Task, AllocError>
    ensures task { IfOk result (λ task. moves.root_task job.now ≡ Some task) }
    ensures thread { IfOk result (λ task. task.thread < 64) }
    ensures numbers { IfOk result (λ task. length task.numbers ≤ 8) }
{
    accepted_threads_are_few();
    let _ = job.checked();
    Ok(Task {
        place: Place::root(alloc),
        thread: job.main(),
        numbers: Numbers::copy_of(alloc, job.input())?,
    })
}

impl Book {
    /// A packet comes; one of another job is ignored.
    #[tactic(auto, unfolding(crate::specs::Cases::on_packet))]
    pub fn on_packet(
        &mut self,
        alloc: Global,
        job: &Job,
        packet: &Packet,
    ) -> Result<Act, HouseError>
        requires { IsHouse self.old }
        ensures { Acts (cases.on_packet job.now packet.now self.old) result self.old self.new }
    {
        if packet.job() != job.number() {
            return Ok(Act::Ignored);
        }
        self.on_body(alloc, job, packet.to(), packet.body())
    }

    /// The table: a row for each kind, with whom it has to go to.
    #[tactic(auto, unfolding(crate::specs::Cases::on_body))]
    fn on_body(
        &mut self,
        alloc: Global,
        job: &Job,
        to: Address,
        body: &Body,
    ) -> Result<Act, HouseError>
        requires { IsHouse self.old }
        ensures { Acts (cases.on_body job.now to body.now self.old) result self.old self.new }
    {
        let own = to.word() == self.name().word();
        match body {
            Body::Join(join) if to.word() == Address::any_house().word() => {
                self.joined(alloc, job, *join)
            }
            Body::Steal(steal) if own => self.stolen(alloc, job, *steal),
            Body::Result(back) if own => self.returned(alloc, job, *back),
            Body::Leave(leave) if own => self.left(alloc, job, *leave),
            Body::Beat(beat) => self.beats(alloc, job, to, *beat),
            Body::Save(save) if own => self.saved(save),
            _ => Ok(Act::Ignored),
        }
    }

    /// A worker is told who is listed, and nothing changes.
    fn tell(&self, alloc: Global, job: &Job, worker: Incarnation) -> Result<Act, HouseError>
        requires { IsListing self.now.version self.now.workers }
        ensures { Acts (Does (moves.tells job.now worker self.now)) result self.now self.now }
    {
        Ok(Act::Sends(roster_alone(alloc, job, self, worker)?))
    }

    /// A worker asks to be listed: a new one is, one that is listed as live is heard, and each is
    /// told who is listed.
    #[tactic(auto, unfolding(crate::specs::Cases::by_status), using(crate::proofs::Listing::heard_listing))]
    fn joined(&mut self, alloc: Global, job: &Job, join: Join) -> Result<Act, HouseError>
        requires { IsHouse self.old }
        ensures { Acts (cases.joined job.now join.from self.old) result self.old self.new }
    {
        match self.status(join.from) {
            Some(Status::Live) => {
                self.hear(join.from);
                self.tell(alloc, job, join.from)
            }
            Some(Status::Dead | Status::Left(_)) => self.tell(alloc, job, join.from),
            None => self.new_joined(alloc, job, join),
        }
    }

    /// A new worker is listed, if there is room for one more, and told who is listed.
    fn new_joined(&mut self, alloc: Global, job: &Job, join: Join) -> Result<Act, HouseError>
        requires house { IsHouse self.old }
        requires new { status_in join.from (members_of self.old) ≡ None }
        ensures { Acts (cases.new_joined job.now join.from self.old) result self.old self.new }
    {
        if self.workers.len() >= 4096 {
            return Err(HouseError::RosterFull);
        }
        self.list(join.from)?;
        self.tell(alloc, job, join.from)
    }

    /// A thief asks for work: of one that isn't listed as live, or that asks what it asked before
    /// its last request, it is ignored; the same request again gets the same answer.
    #[tactic(auto, unfolding(steal_protocol::specs::Replies::by_order))]
    fn stolen(&mut self, alloc: Global, job: &Job, steal: Steal) -> Result<Act, HouseError>
        requires { IsHouse self.old }
        ensures { Acts (cases.stolen job.now steal self.old) result self.old self.new }
    {
        if !self.is_live(steal.from) {
            return Ok(Act::Ignored);
        }
        match self.replies.hear(steal.from, steal.seq) {
            Heard::Older => Ok(Act::Ignored),
            Heard::Again(packet) => Ok(Act::Sends(alone(alloc, packet)?)),
            Heard::Newer => self.serve(alloc, job, steal),
        }
    }

    /// A request that is newer than the thief's last one: the root task is granted while it isn't
    /// and there is no outcome, and else it is refused.
    fn serve(&mut self, alloc: Global, job: &Job, steal: Steal) -> Result<Act, HouseError>
        ensures { Acts (cases.served job.now steal (cases.free_task job.now self.old) self.old)
            result self.old self.new }
    {
        if self.root.is_some() || self.outcome.is_some() {
            let refuse = Packet::refuse(job.number(), steal.from, Refuse { seq: steal.seq });
            return Ok(Act::Sends(self.answer(alloc, steal, refuse)?));
        }
        let _ = job.main();
        if self.minted == u64::MAX {
            return Err(HouseError::Spent);
        }
        let grant = GrantId::of(self.name(), self.minted + 1).unwrap();
        self.grant(alloc, job, steal, grant)
    }

    /// The root task is granted under a new name, with all values that are saved.
    fn grant(
        &mut self,
        alloc: Global,
        job: &Job,
        steal: Steal,
        grant: GrantId,
    ) -> Result<Act, HouseError>
        requires { grant ≡ record { minter = house_of self.old.epoch; number = self.old.minted + 1 } }
        ensures { (task : TaskOf) → moves.root_task job.now ≡ Some task
            → Acts (Does (moves.grants job.now steal task self.old)) result self.old self.new }
    {
        let given = Grant {
            seq: steal.seq,
            grant,
            task: root_task(alloc, job)?,
            saved: copied(alloc, self.saved.as_slice())?,
        };
        let packet = Packet::grant(job.number(), steal.from, given);
        let sent = self.answer(alloc, steal, packet)?;
        let holder = steal.from;
        self.root = Some(RootGrant { grant, holder });
        self.minted = grant.number();
        Ok(Act::Sends(sent))
    }

    /// A thief is answered, and the answer kept in the place of its last one.
    fn answer(
        &mut self,
        alloc: Global,
        steal: Steal,
        packet: Packet,
    ) -> Result<Listed<Datagram>, AllocError>
        requires { IsTrue (is_short packet.body) }
        ensures sent { IfOk result (λ sent. sent ≡ packet ∷ []) }
        ensures kept { OnOk result (self.new ≡ record self.old {
          replies = put_reply
              (record { thief = steal.from; seq = steal.seq; packet = packet }) self.old.replies;
        }) }
    {
        let sent = alone(alloc, &packet)?;
        self.replies.keep(Reply {
            thief: steal.from,
            seq: steal.seq,
            packet,
        })?;
        Ok(sent)
    }

    /// An outcome comes: that of the root's grant is to be recorded, and any is acknowledged.
    fn returned(&mut self, alloc: Global, job: &Job, back: TaskResult) -> Result<Act, HouseError>
        ensures { Acts (cases.returned job.now back self.old) result self.old self.new }
    {
        let ack = ResultAck { grant: back.grant };
        let sent = alone(alloc, &Packet::result_ack(job.number(), back.from, ack))?;
        if !self.is_root(back.grant) {
            return Ok(Act::Sends(sent));
        }
        if self.sequence == u64::MAX {
            return Err(HouseError::Spent);
        }
        Ok(Act::Records(back.outcome, sent))
    }

    /// A value comes that may be saved: of a sender that isn't listed as live, beside an outcome,
    /// of a place of which no value is saved or one is already, and where it would be dropped at
    /// once it is ignored.
    fn saved(&mut self, save: &Save) -> Result<Act, HouseError>
        ensures { Acts (cases.saved save.now self.old) result self.old self.new }
    {
        if !self.is_live(save.from) || self.outcome.is_some() {
            return Ok(Act::Ignored);
        }
        let Some(place) = SavedPlace::of(&save.place) else {
            return Ok(Act::Ignored);
        };
        let mut saved = self.saved.copied();
        let value = save.value;
        if !saved.put(SavedValue { place, value }) {
            return Ok(Act::Ignored);
        }
        if self.sequence == u64::MAX {
            return Err(HouseError::Spent);
        }
        Ok(Act::Saves(saved))
    }

    /// Values are saved, which were committed.
    pub fn keep_saved(&mut self, saved: SavedTable)
        requires { self.old.sequence + 1 < 2 ^ 64 }
        ensures { self.new ≡ record self.old { saved = saved; sequence = self.old.sequence + 1 } }
    {
        self.saved = saved;
        self.sequence += 1;
    }

    /// The outcome is recorded, which was committed, and the root's grant isn't out any more.
    pub fn record(&mut self, outcome: Outcome)
        requires { self.old.sequence + 1 < 2 ^ 64 }
        ensures { self.new ≡ record self.old { outcome = Some outcome; root = None; sequence = self.old.sequence + 1 } }
    {
        self.outcome = Some(outcome);
        self.root = None;
        self.sequence += 1;
    }

    /// A member leaves; one that is dead or has left is told so again.
    #[tactic(auto, unfolding(crate::specs::Cases::by_status))]
    fn left(&mut self, alloc: Global, job: &Job, leave: Leave) -> Result<Act, HouseError>
        requires { IsHouse self.old }
        ensures { Acts (cases.left job.now leave self.old) result self.old self.new }
    {
        match self.status(leave.from) {
            Some(Status::Live) => self.leaves(alloc, job, leave),
            Some(Status::Dead | Status::Left(_)) => self.tell(alloc, job, leave.from),
            None => Ok(Act::Ignored),
        }
    }

    /// A live member leaves, and is told what becomes of it; then the root's grant is settled.
    fn leaves(&mut self, alloc: Global, job: &Job, leave: Leave) -> Result<Act, HouseError>
        requires house { IsHouse self.old }
        requires live { is_live leave.from (members_of self.old) ≡ true }
        ensures { Acts (cases.leaves job.now leave self.old) result self.old self.new }
    {
        let status = self.leaving_status(leave.from, leave.heir);
        self.say(leave.from, status);
        let mut sent = roster_alone(alloc, job, self, leave.from)?;
        self.settle(alloc, job, &mut sent)?;
        Ok(Act::Sends(sent))
    }

    /// The root's grant by a changed roster: whoever has its holder's work is its holder; where
    /// nobody has, it isn't out any more, and the holder is told to stop.
    fn settle(
        &mut self,
        alloc: Global,
        job: &Job,
        sent: &mut Listed<Datagram>,
    ) -> Result<(), AllocError>
        requires { IsListing self.old.version self.old.workers }
        ensures after { OnOk result (self.new ≡ (moves.settles job.now self.old).after) }
        ensures sent { OnOk result (sent.new ≡ sent.old ++ (moves.settles job.now self.old).sent) }
    {
        let Some(root) = self.root else {
            return Ok(());
        };
        match self.resolve(root.holder) {
            Some(holder) => {
                self.root = Some(RootGrant { holder, ..root });
            }
            None => {
                send_abort(alloc, job, sent, root.holder, root.grant)?;
                self.root = None;
            }
        }
        Ok(())
    }

    /// A Beat: a listed worker of this epoch is heard while it is live, and told who is listed
    /// where its roster is older; one of another epoch is told.
    fn beats(
        &mut self,
        alloc: Global,
        job: &Job,
        to: Address,
        beat: Beat,
    ) -> Result<Act, HouseError>
        requires { IsHouse self.old }
        ensures { Acts (cases.beats job.now to beat self.old) result self.old self.new }
    {
        if to.word() == self.name().word() {
            return self.own_beat(alloc, job, beat);
        }
        if to.word() > Address::any_house().word() {
            return self.tell(alloc, job, beat.from);
        }
        Ok(Act::Ignored)
    }

    /// A Beat of this epoch: a listed worker is heard while it is live.
    #[tactic(auto, unfolding(crate::specs::Cases::by_status), using(crate::proofs::Listing::heard_listing))]
    fn own_beat(&mut self, alloc: Global, job: &Job, beat: Beat) -> Result<Act, HouseError>
        requires { IsHouse self.old }
        ensures { Acts (cases.own_beat job.now beat self.old) result self.old self.new }
    {
        match self.status(beat.from) {
            Some(Status::Live) => {
                self.hear(beat.from);
                self.answer_beat(alloc, job, beat)
            }
            Some(Status::Dead | Status::Left(_)) => self.answer_beat(alloc, job, beat),
            None => Ok(Act::Ignored),
        }
    }

    /// One whose roster is older is told who is listed.
    fn answer_beat(&self, alloc: Global, job: &Job, beat: Beat) -> Result<Act, HouseError>
        requires { IsListing self.now.version self.now.workers }
        ensures { Acts (cases.answered_beat job.now beat self.now) result self.now self.now }
    {
        if beat.version.number() < self.version.number() {
            return self.tell(alloc, job, beat.from);
        }
        Ok(Act::Sends(Listed::new(alloc)))
    }

    /// A moment comes: members that were silent for too long are dead, and then the root's grant is
    /// settled. One that is no later than the last changes nothing.
    #[tactic(auto, unfolding(crate::specs::Calls::passes))]
    pub fn pass(
        &mut self,
        alloc: Global,
        job: &Job,
        now: u64,
    ) -> Result<Listed<Datagram>, AllocError>
        requires { IsHouse self.old }
        ensures { IfOk result (λ sent. IsSent (Does (passes job.now now self.old)) sent self.new) }
    {
        let mut sent = Listed::new(alloc);
        if now <= self.moment {
            return Ok(sent);
        }
        self.moment = now;
        if self.any_is_lost(now) {
            self.declare_dead(now);
            self.settle(alloc, job, &mut sent)?;
        }
        Ok(sent)
    }
}
