ghost use Rattle.std.specs.Prelude.{◌≡◌, false, IfOk, IfErr, IsErrOf, []};
ghost use Rattle.ids.specs.Naming.{name_of_member};
ghost use Rattle.ids.specs.Ordered.{AreInOrder};
ghost use Rattle.codec.specs.declared.body.Roster as declared;
ghost use Rattle.node_state.specs.declared.parts.State.TheVariants.{Member, Leaving};
ghost use Rattle.node_steps.specs.Calls as calls;
ghost use Rattle.node_steps.specs.Cases as cases;
ghost use Rattle.node_steps.specs.Choosing.{IsCandidate, own_candidate};
ghost use Rattle.node_steps.specs.Meeting.{LacksMemoryLast, MayLackMemory, Meets};
ghost use Rattle.node_steps.specs.declared.error.NodeError.TheVariants.{Memory};

use body_eval::Done;
use codec::{Join, Packet, alone};
use ids::{FrameNo, GrantId, Incarnation, Listed};
use node_calls::{is_own, is_own_whole, send_whole};
use node_state::Parts;
use node_steps::{JobNode, NodeError, Step, Victim};
use serial_meaning::{Flat, Job, Whole};
use std::alloc::Global;
use std::marker::Model;

/// A node of a job: what it holds, and what each packet and each call does at it. Contracts see the
/// job, the node and the posts of its ready frames.
#[derive(Drop)]
pub struct Node<'a> {
    inner: JobNode<'a>,
}

impl<'a> Model for Node<'a> {
    ghost use Rattle.task_tree.specs.Codes.{program_codes};
    ghost use Rattle.node_steps.specs.Meeting.{NodeOn};

    ghost Value = { NodeOn };

    ghost coded = { Prim.hlevel program_codes };

    ghost view = { λ n. n.inner };
}

impl<'a> Node<'a> {
    /// A node that starts, and the Join with which it asks to be listed; refused only when out of
    /// memory (E63).
    pub fn start(
        alloc: Global,
        job: &'a Job,
        incarnation: Incarnation,
    ) -> Result<(Node<'a>, Step), NodeError>
        ensures node { IfOk result (λ r. r.0 ≡ record {
          job = job.now;
          node = (calls.start job.now incarnation).after;
          posts = [];
        }) }
        ensures step { IfOk result (λ r. r.1 ≡ record {
          sent = (calls.start job.now incarnation).sent;
          fills = [];
          ignored = false;
        }) }
        ensures memory { IfErr result (λ e. e ≡ Memory) }
    {
        let join = Packet::join(job.number(), Join { from: incarnation });
        let sent = alone(alloc, &join)?;
        let inner = JobNode {
            job,
            parts: Parts::new(alloc, incarnation),
            whole_turns: 0,
        };
        Ok((
            Node { inner },
            Step {
                sent,
                fills: Listed::new(alloc),
                ignored: false,
            },
        ))
    }

    /// What comes in a packet's bytes is done, by the kind of the packet and by where the node
    /// stands. Bytes that are no packet are refused (E30 to E36), also by a node that has ended; a
    /// packet of another job, or to somebody else, is ignored. E62 where a request would be granted
    /// and no grant is left to mint, E63 where there is no memory. A refusal changes nothing.
    pub fn on_bytes(&mut self, alloc: Global, bytes: &[u8]) -> Result<Step, NodeError>
        ensures { Meets (cases.on_bytes self.old.job (own_candidate self.old.posts) bytes.now self.old.node)
            result self.old self.new }
    {
        node_packets::on_bytes(&mut self.inner, alloc, bytes)
    }

    /// Asks a victim for work, which is another worker that the roster shows live, or the
    /// clearinghouse. E60 where the node isn't joined or has ended, or the victim isn't such a one;
    /// E61 where a request is pending, or the node leaves; E62 where no count of requests is left;
    /// E63 where there is no memory, behind all of these. A refusal changes nothing.
    pub fn ask(&mut self, alloc: Global, victim: Victim) -> Result<Step, NodeError>
        ensures answer { Meets (calls.ask self.old.job victim self.old.node) result self.old self.new }
        ensures out_of_memory { IsErrOf result Memory → LacksMemoryLast (calls.ask self.old.job victim self.old.node) }
    {
        node_calls::ask(&mut self.inner, alloc, victim)
    }

    /// Sends again what isn't answered yet: a joining node its Join, a member its Beat, its pending
    /// Steal, and the Result of each finished subcomputation, by rising grant; a leaving node its
    /// Beat, the Offers of what it holds and the Grants of the thieves that it awaits, each by
    /// rising grant, and, where there are neither, its Leave. E60 where the node has ended, E63
    /// where there is no memory. It changes nothing.
    pub fn resend(&self, alloc: Global) -> Result<Step, NodeError>
        ensures answer { Meets (calls.resend self.now.job self.now.node) result self.now self.now }
        ensures out_of_memory { IsErrOf result Memory → MayLackMemory (calls.resend self.now.job self.now.node) }
    {
        node_calls::resend(&self.inner, alloc)
    }

    /// Leaves to an heir, which is another worker that the roster shows live: what the node holds
    /// is frozen and offered to it, by rising grant, in Pieces where an Offer has more than 65,536
    /// bytes, and where it holds nothing and awaits no thief it says at once that it has left. E60
    /// where the node isn't joined or has ended; E61 where it leaves already; E50 where a request
    /// is pending; E53 where the heir isn't another live member; E52 where a subcomputation has
    /// moved 2^32 - 1 times; E51 where an Offer has more than 1,073,741,824 bytes; E63 where there
    /// is no memory, which may come in the place of E51. A refusal changes nothing.
    pub fn depart(&mut self, alloc: Global, heir: Incarnation) -> Result<Step, NodeError>
        ensures answer { Meets (calls.depart self.old.job heir self.old.node) result self.old self.new }
        ensures out_of_memory { IsErrOf result Memory → MayLackMemory (calls.depart self.old.job heir self.old.node) }
    {
        node_calls::depart(&mut self.inner, alloc, heir)
    }

    /// Carries out a ready frame of a grant's subcomputation by a turn that was evaluated, of this
    /// job's program, whoever found it. E60 where the node isn't joined or has ended; E40 where the
    /// frame isn't ready here with that thread and those numbers, as none is at a leaving node; E62
    /// where no frame numbers are left; E63 where there is no memory. A refusal changes nothing.
    pub fn exec(
        &mut self,
        alloc: Global,
        grant: GrantId,
        frame: FrameNo,
        done: &Done,
    ) -> Result<Step, NodeError>
        requires { done.now.program ≡ self.old.job.program }
        ensures answer { Meets (calls.exec self.old.job done.now grant frame self.old.node) result self.old self.new }
        ensures out_of_memory { IsErrOf result Memory → MayLackMemory
            (calls.exec self.old.job done.now grant frame self.old.node) }
    {
        node_calls::exec(&mut self.inner, alloc, grant, frame, done)
    }

    /// Evaluates a ready frame of a grant's subcomputation, and carries it out by that turn. E60
    /// where the node isn't joined or has ended; E40 where the frame isn't ready here, as none is
    /// at a leaving node; E62 where no frame numbers are left; E63 where there is no memory. A
    /// refusal changes nothing.
    pub fn exec_ready(
        &mut self,
        alloc: Global,
        grant: GrantId,
        frame: FrameNo,
    ) -> Result<Step, NodeError>
        ensures answer { Meets (calls.exec_ready self.old.job grant frame self.old.node) result self.old self.new }
        ensures out_of_memory { IsErrOf result Memory → MayLackMemory
            (calls.exec_ready self.old.job grant frame self.old.node) }
    {
        node_calls::exec_ready(&mut self.inner, alloc, grant, frame)
    }

    /// As `exec_ready`, with a turn that was evaluated before, of the job's program: one of the
    /// ready frame's thread on its numbers is that frame's own and is used; another one is put
    /// aside, and the body is evaluated here.
    pub fn exec_turn(
        &mut self,
        alloc: Global,
        grant: GrantId,
        frame: FrameNo,
        done: &Done,
    ) -> Result<Step, NodeError>
        requires { done.now.program ≡ self.old.job.program }
        ensures answer { Meets (calls.exec_ready self.old.job grant frame self.old.node) result self.old self.new }
        ensures out_of_memory { IsErrOf result Memory → MayLackMemory
            (calls.exec_ready self.old.job grant frame self.old.node) }
    {
        if is_own(&self.inner, grant, frame, done) {
            self.exec(alloc, grant, frame, done)
        } else {
            self.exec_ready(alloc, grant, frame)
        }
    }

    /// Evaluates the task of a ready frame of a grant's subcomputation with all that comes of it,
    /// in at most so many turns, and carries the frame out by the number that it gives. E60 where
    /// the node isn't joined or has ended; E40 where the frame isn't ready here, as none is at a
    /// leaving node; E41 where the task takes more turns, or gives nothing in the room below its
    /// place; E63 where there is no memory. A refusal changes nothing.
    pub fn whole_ready(
        &mut self,
        alloc: Global,
        flat: &Flat,
        grant: GrantId,
        frame: FrameNo,
        most_turns: u64,
    ) -> Result<Step, NodeError>
        requires { flat.now.program ≡ self.old.job.program }
        ensures answer { Meets (calls.whole_ready self.old.job most_turns grant frame self.old.node)
            result self.old self.new }
        ensures out_of_memory { IsErrOf result Memory → MayLackMemory
            (calls.whole_ready self.old.job most_turns grant frame self.old.node) }
    {
        node_calls::whole_ready(&mut self.inner, alloc, flat, grant, frame, most_turns)
    }

    /// As `whole_ready`, with a task that was evaluated whole before, of the job's program: one of
    /// the ready frame's thread on its numbers, in the room below its place, that took no more
    /// turns gives that frame's own value and is used; another one is put aside, and the frame's
    /// task is evaluated here.
    pub fn whole_with(
        &mut self,
        alloc: Global,
        flat: &Flat,
        grant: GrantId,
        frame: FrameNo,
        most_turns: u64,
        whole: &Whole,
    ) -> Result<Step, NodeError>
        requires flat { flat.now.program ≡ self.old.job.program }
        requires whole { whole.now.program ≡ self.old.job.program }
        ensures answer { Meets (calls.whole_ready self.old.job most_turns grant frame self.old.node)
            result self.old self.new }
        ensures out_of_memory { IsErrOf result Memory → MayLackMemory
            (calls.whole_ready self.old.job most_turns grant frame self.old.node) }
    {
        if is_own_whole(&self.inner, grant, frame, most_turns, whole) {
            send_whole(&mut self.inner, alloc, grant, frame, whole)
        } else {
            self.whole_ready(alloc, flat, grant, frame, most_turns)
        }
    }

    /// In how many turns the task was evaluated that was last carried out whole; 0 where none was.
    /// No clause speaks of it.
    pub fn last_whole(&self) -> u64 {
        self.inner.whole_turns
    }

    /// What it holds.
    pub fn parts(&self) -> &Parts
        ensures { result.now ≡ record { node = self.now.node; posts = self.now.posts } }
    {
        &self.inner.parts
    }

    /// The members of the roster that a node has stand by rising incarnation. Does nothing.
    pub(crate) fn law_roster_rises(&self)
        ensures member { (r : declared.Roster) → self.now.node.state ≡ Member r → AreInOrder name_of_member r.members }
        ensures leaving { (r : declared.Roster) (heir : _) → self.now.node.state ≡ Leaving r heir
            → AreInOrder name_of_member r.members }
    {
        self.inner.law_roster_rises();
    }

    /// The frame that a thief would be granted now is one that is ready, and none only where none
    /// is. Does nothing.
    pub fn law_may_choose(&self)
        ensures { IsCandidate self.now.node (own_candidate self.now.posts) }
    {
        let _ = self.inner.parts.posts();
    }
}
