//! A node's own calls by plain numbers, which may name nothing.
ghost use Rattle.std.specs.Prelude.{◌≡◌, IfSome, IfNone, IsErrOf, None, Some, false, if◌then◌else◌, is_some};
ghost use Rattle.ids.specs.Members.{is_live};
ghost use Rattle.ids.specs.Names.{is_worker};
ghost use Rattle.ids.specs.Naming.{name_of_member};
ghost use Rattle.ids.specs.Ordered.{AreInOrder};
ghost use Rattle.codec.specs.declared.body.Roster as declared;
ghost use Rattle.frames.specs.Frames.{frame_in};
ghost use Rattle.subcomputation.specs.Subs.{SubOf, sub_in};
ghost use Rattle.node_state.specs.Node.{by_state};
ghost use Rattle.node_state.specs.declared.parts.State.TheVariants as state;
ghost use Rattle.node_steps.specs.Calls as calls;
ghost use Rattle.node_steps.specs.Meeting.{MayLackMemory, Meets, LacksMemoryLast};
ghost use Rattle.node_steps.specs.declared.error.NodeError.TheVariants.{Memory, NotJoined, Stale, Busy, Pending, NoHeir};
ghost use Rattle.node_steps.specs.declared.parts.Victim.TheVariants as victim;

use crate::node::Node;
use body_eval::Done;
use ids::{FrameNo, GrantId, Incarnation, Member, item_of};
use node_state::State;
use node_steps::{NodeError, Step, Victim};
use serial_meaning::{Flat, Whole};
use std::alloc::Global;
use subcomputation::Sub;

impl<'a> Node<'a> {
    /// As `exec_ready`, for a grant and a frame by their numbers: E40 too where these name none, at
    /// a node that is joined.
    pub fn exec_ready_named(
        &mut self,
        alloc: Global,
        minter: u64,
        number: u64,
        frame: u64,
    ) -> Result<Step, NodeError>
        ensures answer { Meets (calls.exec_ready self.old.job (record { minter = minter; number = number })
            frame self.old.node) result self.old self.new }
        ensures out_of_memory { IsErrOf result Memory → MayLackMemory
            (calls.exec_ready self.old.job (record { minter = minter; number = number }) frame self.old.node) }
    {
        match self.named(minter, number, frame) {
            Some((grant, frame)) => self.exec_ready(alloc, grant, frame),
            None => Err(self.unnamed()),
        }
    }

    /// As `exec_turn`, for a grant and a frame by their numbers: E40 too where these name none, at
    /// a node that is joined.
    pub fn exec_turn_named(
        &mut self,
        alloc: Global,
        minter: u64,
        number: u64,
        frame: u64,
        done: &Done,
    ) -> Result<Step, NodeError>
        requires { done.now.program ≡ self.old.job.program }
        ensures answer { Meets (calls.exec_ready self.old.job (record { minter = minter; number = number })
            frame self.old.node) result self.old self.new }
        ensures out_of_memory { IsErrOf result Memory → MayLackMemory
            (calls.exec_ready self.old.job (record { minter = minter; number = number }) frame self.old.node) }
    {
        match self.named(minter, number, frame) {
            Some((grant, frame)) => self.exec_turn(alloc, grant, frame, done),
            None => Err(self.unnamed()),
        }
    }

    /// As `whole_ready`, for a grant and a frame by their numbers: E40 too where these name none,
    /// at a node that is joined.
    pub fn whole_ready_named(
        &mut self,
        alloc: Global,
        flat: &Flat,
        minter: u64,
        number: u64,
        frame: u64,
        most_turns: u64,
    ) -> Result<Step, NodeError>
        requires { flat.now.program ≡ self.old.job.program }
        ensures answer { Meets (calls.whole_ready self.old.job most_turns (record { minter = minter; number = number })
            frame self.old.node) result self.old self.new }
        ensures out_of_memory { IsErrOf result Memory → MayLackMemory (calls.whole_ready self.old.job most_turns
            (record { minter = minter; number = number }) frame self.old.node) }
    {
        match self.named(minter, number, frame) {
            Some((grant, frame)) => self.whole_ready(alloc, flat, grant, frame, most_turns),
            None => Err(self.unnamed()),
        }
    }

    /// As `whole_with`, for a grant and a frame by their numbers: E40 too where these name none, at
    /// a node that is joined.
    pub fn whole_with_named(
        &mut self,
        alloc: Global,
        flat: &Flat,
        minter: u64,
        number: u64,
        frame: u64,
        most_turns: u64,
        whole: &Whole,
    ) -> Result<Step, NodeError>
        requires flat { flat.now.program ≡ self.old.job.program }
        requires whole { whole.now.program ≡ self.old.job.program }
        ensures answer { Meets (calls.whole_ready self.old.job most_turns (record { minter = minter; number = number })
            frame self.old.node) result self.old self.new }
        ensures out_of_memory { IsErrOf result Memory → MayLackMemory (calls.whole_ready self.old.job most_turns
            (record { minter = minter; number = number }) frame self.old.node) }
    {
        match self.named(minter, number, frame) {
            Some((grant, frame)) => {
                self.whole_with(alloc, flat, grant, frame, most_turns, whole)
            }
            None => Err(self.unnamed()),
        }
    }

    /// The grant and the frame of these numbers; none where no subcomputation of that grant is
    /// held, or where no frame of it can have that number.
    fn named(&self, minter: u64, number: u64, frame: u64) -> Option<(GrantId, FrameNo)>
        ensures grant { IfSome result (λ at. at.0 ≡ record { minter = minter; number = number }) }
        ensures frame { IfSome result (λ at. at.1 ≡ frame) }
        ensures none { IfNone result ((s : SubOf) → sub_in (record { minter = minter; number = number })
            self.now.node.subs ≡ Some s → frame_in frame s.content.frames ≡ None) }
    {
        let sub = self.parts().held().get((minter, number))?;
        let frame = frame_named(sub, frame)?;
        Some((sub.grant(), frame))
    }

    /// Why a frame that has no name isn't carried out: E60 where the node isn't joined or has
    /// ended, else E40.
    #[tactic(auto, unfolding(node_state::specs::Node::by_state))]
    fn unnamed(&self) -> NodeError
        ensures { result ≡ by_state self.now.node.state NotJoined (λ _. Stale) (λ _ _. Stale) NotJoined }
    {
        match self.parts().state() {
            State::Member(_) | State::Leaving(_, _) => NodeError::Stale,
            State::Joining | State::Ended => NodeError::NotJoined,
        }
    }

    /// As `ask`, for a worker by its start word: E60 too for a word that is no worker's.
    pub fn ask_named(&mut self, alloc: Global, word: u64) -> Result<Step, NodeError>
        ensures answer { Meets (calls.ask self.old.job (victim.Worker word) self.old.node) result self.old self.new }
        ensures out_of_memory { IsErrOf result Memory → LacksMemoryLast
            (calls.ask self.old.job (victim.Worker word) self.old.node) }
    {
        match Incarnation::worker(word) {
            Some(worker) => self.ask(alloc, Victim::Worker(worker)),
            None => {
                self.law_shows_workers(word);
                Err(NodeError::NotJoined)
            }
        }
    }

    /// As `depart`, for an heir by its start word: E53 too for a word that is no worker's, where
    /// `depart` would say so.
    pub fn depart_named(&mut self, alloc: Global, heir: u64) -> Result<Step, NodeError>
        ensures answer { Meets (calls.depart self.old.job heir self.old.node) result self.old self.new }
        ensures out_of_memory { IsErrOf result Memory → MayLackMemory (calls.depart self.old.job heir self.old.node) }
    {
        match Incarnation::worker(heir) {
            Some(worker) => self.depart(alloc, worker),
            None => {
                self.law_shows_workers(heir);
                Err(self.heirless())
            }
        }
    }

    /// Why a node doesn't leave to a word that is no worker's: E60 where it isn't joined or has
    /// ended, E61 where it leaves already, E50 where a request is pending, else E53.
    #[tactic(auto, unfolding(node_state::specs::Node::by_state))]
    fn heirless(&self) -> NodeError
        ensures { result ≡ by_state self.now.node.state NotJoined (λ _.
            if is_some self.now.node.asker.pending then Pending else NoHeir) (λ _ _. Busy) NotJoined }
    {
        match self.parts().state() {
            State::Joining | State::Ended => NodeError::NotJoined,
            State::Leaving(_, _) => NodeError::Busy,
            State::Member(_) => {
                if self.parts().asker().pending().is_some() {
                    NodeError::Pending
                } else {
                    NodeError::NoHeir
                }
            }
        }
    }

    /// A word that is no worker's isn't shown live by the roster that the node has. Does nothing.
    fn law_shows_workers(&self, word: u64)
        requires { is_worker word ≡ false }
        ensures member { (r : declared.Roster) → self.now.node.state ≡ state.Member r → is_live word r.members ≡ false }
        ensures leaving { (r : declared.Roster) (heir : _) → self.now.node.state ≡ state.Leaving r heir
            → is_live word r.members ≡ false }
    {
        self.law_roster_rises();
        match self.parts().state() {
            State::Member(roster) => law_lists_workers(roster.members.as_slice(), word),
            State::Leaving(roster, _) => law_lists_workers(roster.members.as_slice(), word),
            State::Joining | State::Ended => {}
        }
    }
}

/// The frame of a number in a subcomputation; none for a number above 2^32 - 1, which no frame has.
fn frame_named(sub: &Sub, number: u64) -> Option<FrameNo>
    ensures same { IfSome result (λ frame. frame ≡ number) }
    ensures none { IfNone result (frame_in number sub.now.content.frames ≡ None) }
{
    let _next = sub.content().next.number();
    let Ok(number) = u32::try_from(number) else {
        return None;
    };
    Some(FrameNo::of(number))
}

/// A word that is no worker's isn't shown live by members. Does nothing.
fn law_lists_workers(members: &[Member], word: u64)
    requires order { AreInOrder name_of_member members.now }
    requires other { is_worker word ≡ false }
    ensures { is_live word members.now ≡ false }
{
    let Some(member) = item_of(members, (word, 0)) else {
        return;
    };
    let _worker = member.incarnation.word();
}
