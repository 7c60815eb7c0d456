//! A node of a host.
ghost use Rattle.std.specs.Prelude.{◌≡◌, ◌<◌, ◌==◌, [], Err, IfErr, IfOk, IfSome, None, OnOk, Some, length};
ghost use Rattle.node_steps.specs.Calls as calls;
ghost use Rattle.node_steps.specs.Cases as cases;
ghost use Rattle.node_steps.specs.Choosing.{own_candidate};
ghost use Rattle.node_steps.specs.Meeting.{LacksMemoryLast, MayLackMemory, Meets};
ghost use Rattle.node_steps.specs.declared.error.NodeError.TheVariants.{Memory};
ghost use Rattle.node_steps.specs.declared.parts.Victim.TheVariants as victim;
ghost use Rattle.actors.specs.Actors.{Did, IsCarried, IsGiven, IsWorked, MeetsUnless, NodeCalled, NodeTells, carried};
ghost use Rattle.actors.specs.declared.error.NodeCallError.TheVariants.{Unsent};

use crate::error::NodeCallError;
use crate::outbox::Outbox;
use grain::{Grain, KeptValues, TaskSizes, evaluate, takes_its_numbers};
use ids::{FrameNo, GrantId, Incarnation};
use node_core::{Node, NodeError, Step, Victim, Work};
use serial_meaning::{Flat, Job, Whole};
use std::alloc::Global;
use std::marker::Model;

/// A frame that was carried out, by its numbers: by its own turn, or by its task's whole value,
/// which was found in so many turns.
#[derive(Clone, Copy)]
pub struct Worked {
    pub minter: u64,
    pub number: u64,
    pub frame: u64,
    pub turns: Option<u64>,
}

/// How many threads are taken to evaluate at once in a run of hosts. A node isn't told how many do.
const EVALUATORS: u64 = 16;

/// A node of a host, and the packets that wait for it. Contracts see the node with its job, and
/// these packets in their order.
///
/// A call that may send is refused where packets wait (`Unsent`), and changes nothing. Else it is
/// one case of the protocol: what the node sends waits then, and it is told whether a packet was
/// ignored, or why the node refuses the call.
#[derive(Drop)]
pub struct NodeActor<'a> {
    alloc: Global,
    job: &'a Job,
    node: Node<'a>,
    flat: Flat,
    sizes: TaskSizes,
    kept: KeptValues,
    outbox: Outbox,
}

impl<'a> Model for NodeActor<'a> {
    ghost use Rattle.std.specs.Prelude.{◌≡◌};
    ghost use Rattle.task_tree.specs.Codes.{program_codes};
    ghost use Rattle.actors.specs.Actors.{NodeActorOf};

    ghost Value = { NodeActorOf };

    ghost coded = { Prim.hlevel program_codes };

    ghost view = { λ a. record { on = a.node; waits = a.outbox } };

    ghost invariant = { λ a. (a.job.now ≡ a.node.job) × (a.flat.program ≡ a.node.job.program) × (a.kept ≡ a.node.job.program) };
}

impl<'a> NodeActor<'a> {
    /// A node that starts; its Join waits. Each call of `work` evaluates a task in at most so many
    /// turns. Refused only when out of memory (E63).
    pub fn start(
        alloc: Global,
        job: &'a Job,
        incarnation: Incarnation,
        most_turns: u64,
    ) -> Result<NodeActor<'a>, NodeError>
        ensures actor { IfOk result (λ a. a ≡ record {
          on = record { job = job.now; node = (calls.start job.now incarnation).after; posts = [] };
          waits = (calls.start job.now incarnation).sent;
        }) }
        ensures memory { IfErr result (λ e. e ≡ Memory) }
    {
        let flat = Flat::of(alloc, job.checked())?;
        let sizes = TaskSizes::new(
            alloc,
            Grain {
                most_turns,
                evaluators: EVALUATORS,
            },
        )?;
        let kept = KeptValues::new(alloc, job.checked());
        let (node, step) = Node::start(alloc, job, incarnation)?;
        let mut outbox = Outbox::new(alloc);
        outbox.keep(step.sent);
        Ok(NodeActor {
            alloc,
            job,
            node,
            flat,
            sizes,
            kept,
            outbox,
        })
    }

    /// The node.
    pub fn node(&self) -> &Node<'a>
        ensures { result.now ≡ self.now.on }
    {
        &self.node
    }

    /// Whether more than so many frames are ready. Refused only when out of memory (E63).
    pub fn has_ready(&self, count: u64) -> Result<bool, NodeError> {
        let Ok(index) = usize::try_from(count) else {
            return Ok(false);
        };
        Ok(self.node.ready_at(self.alloc, index)?.is_some())
    }

    /// Whether no packet waits.
    pub fn is_clear(&self) -> bool
        ensures { result ≡ (length self.now.waits == 0) }
    {
        self.outbox.is_empty()
    }

    /// Copies the first packet that waits to a buffer that is long enough, and it waits no longer.
    /// How many bytes it has; 0 where none waits.
    pub fn give(&mut self, buffer: &mut [u8]) -> usize
        ensures given { IsGiven result buffer.old buffer.new self.old.waits self.new.waits }
        ensures node { self.new.on ≡ self.old.on }
    {
        self.outbox.give(buffer)
    }

    /// What comes in a packet's bytes is done: the case of `Node::on_bytes`.
    pub fn take(&mut self, bytes: &[u8]) -> Result<bool, NodeCallError>
        ensures unsent { 0 < length self.old.waits → (result ≡ Err Unsent) × (self.new ≡ self.old) }
        ensures called { self.old.waits ≡ [] → NodeCalled (Meets (cases.on_bytes self.old.on.job (own_candidate self.old.on.posts)
            bytes.now self.old.on.node)) result self.old self.new }
    {
        self.check_clear()?;
        let answer = self.node.on_bytes(self.alloc, bytes);
        self.tell(answer)
    }

    /// Carries out the ready frame that comes first, the newest of the deepest level: by its task's
    /// whole value, where one evaluation or a value that an earlier one kept gives it, else by its
    /// own turn. None where no frame is ready.
    pub fn work(&mut self) -> Result<Option<Worked>, NodeCallError>
        ensures unsent { 0 < length self.old.waits → (result ≡ Err Unsent) × (self.new ≡ self.old) }
        ensures worked { self.old.waits ≡ [] → IsWorked result self.old self.new }
    {
        self.check_clear()?;
        let work = match self.node.ready_at(self.alloc, 0) {
            Ok(Some(work)) => work,
            Ok(None) => return Ok(None),
            Err(error) => return Err(NodeCallError::Node(error)),
        };
        let (grant, frame) = (work.grant, work.frame);
        let found = self.value_of(work);
        let turns = self.carry_out(grant, frame, found)?;
        Ok(Some(Worked {
            minter: grant.minter().word(),
            number: grant.number(),
            frame: u64::from(frame.number()),
            turns,
        }))
    }

    /// The whole value of a ready frame's task, where it is tried and found, or was kept.
    fn value_of(&mut self, work: Work) -> Option<Whole>
        ensures same { self.new ≡ self.old }
        ensures own { IfSome result (λ w. w.program ≡ self.old.on.job.program) }
    {
        let checked = self.job.checked();
        if !takes_its_numbers(checked, &work) || self.sizes.is_short(checked, &work) {
            return None;
        }
        if let Some(whole) = self.kept.take(&work) {
            self.sizes.use_kept(&whole);
            return Some(whole);
        }
        let most_turns = self.sizes.most_turns();
        if most_turns == 0 || self.sizes.was_large(&work) {
            return None;
        }
        let Work {
            thread,
            numbers,
            room,
            ..
        } = work;
        match evaluate(
            self.alloc,
            checked,
            &self.flat,
            room,
            thread,
            numbers,
            most_turns,
            self.sizes.levels(thread),
        ) {
            Ok(whole) => {
                self.sizes.succeed(&whole);
                Some(whole)
            }
            Err((_, left)) => {
                self.kept.add(self.sizes.fail(thread, left));
                None
            }
        }
    }

    /// A ready frame is carried out by its task's whole value, where that was found, or by its own
    /// turn. In how many turns it was found.
    fn carry_out(
        &mut self,
        grant: GrantId,
        frame: FrameNo,
        found: Option<Whole>,
    ) -> Result<Option<u64>, NodeCallError>
        requires { IfSome found (λ w. w.program ≡ self.old.on.job.program) }
        ensures { IsCarried grant frame result self.old self.new }
    {
        match found {
            Some(whole) => {
                let turns = whole.turns();
                self.send_whole(grant, frame, &whole)?;
                Ok(Some(turns))
            }
            None => {
                self.send_turn(grant, frame)?;
                Ok(None)
            }
        }
    }

    /// A ready frame is carried out by its task's whole value.
    fn send_whole(
        &mut self,
        grant: GrantId,
        frame: FrameNo,
        whole: &Whole,
    ) -> Result<bool, NodeCallError>
        requires { whole.now.program ≡ self.old.on.job.program }
        ensures { Did (carried self.old.on.job grant frame (Some whole.now.turns) self.old.on.node) result self.old self.new }
    {
        let answer = self
            .node
            .whole_with(self.alloc, &self.flat, grant, frame, whole.turns(), whole);
        self.tell(answer)
    }

    /// A ready frame is carried out by its own turn.
    fn send_turn(&mut self, grant: GrantId, frame: FrameNo) -> Result<bool, NodeCallError>
        ensures { Did (carried self.old.on.job grant frame None self.old.on.node) result self.old self.new }
    {
        let answer = self.node.exec_ready(self.alloc, grant, frame);
        self.tell(answer)
    }

    /// Carries out a ready frame, by its numbers: the case of `Node::exec_ready`.
    pub fn exec(&mut self, minter: u64, number: u64, frame: u64) -> Result<bool, NodeCallError>
        ensures unsent { 0 < length self.old.waits → (result ≡ Err Unsent) × (self.new ≡ self.old) }
        ensures called { self.old.waits ≡ [] → NodeCalled (MeetsUnless (calls.exec_ready self.old.on.job
            (record { minter = minter; number = number }) frame self.old.on.node) MayLackMemory) result self.old self.new }
    {
        self.check_clear()?;
        let answer = self
            .node
            .exec_ready_named(self.alloc, minter, number, frame);
        self.tell(answer)
    }

    /// Carries out a ready frame, by its numbers, with its task's whole value in at most so many
    /// turns: the case of `Node::whole_ready`.
    pub fn whole(
        &mut self,
        minter: u64,
        number: u64,
        frame: u64,
        most_turns: u64,
    ) -> Result<bool, NodeCallError>
        ensures unsent { 0 < length self.old.waits → (result ≡ Err Unsent) × (self.new ≡ self.old) }
        ensures called { self.old.waits ≡ [] → NodeCalled (MeetsUnless (calls.whole_ready self.old.on.job most_turns
            (record { minter = minter; number = number }) frame self.old.on.node) MayLackMemory) result self.old self.new }
    {
        self.check_clear()?;
        let answer = self
            .node
            .whole_ready_named(self.alloc, &self.flat, minter, number, frame, most_turns);
        self.tell(answer)
    }

    /// Asks the clearinghouse for work: the case of `Node::ask`.
    pub fn ask_house(&mut self) -> Result<bool, NodeCallError>
        ensures unsent { 0 < length self.old.waits → (result ≡ Err Unsent) × (self.new ≡ self.old) }
        ensures called { self.old.waits ≡ [] → NodeCalled (MeetsUnless (calls.ask self.old.on.job victim.House self.old.on.node)
            LacksMemoryLast) result self.old self.new }
    {
        self.check_clear()?;
        let answer = self.node.ask(self.alloc, Victim::House);
        self.tell(answer)
    }

    /// Asks another worker for work, by its start word: the same.
    pub fn ask(&mut self, word: u64) -> Result<bool, NodeCallError>
        ensures unsent { 0 < length self.old.waits → (result ≡ Err Unsent) × (self.new ≡ self.old) }
        ensures called { self.old.waits ≡ [] → NodeCalled (MeetsUnless (calls.ask self.old.on.job (victim.Worker word) self.old.on.node)
            LacksMemoryLast) result self.old self.new }
    {
        self.check_clear()?;
        let answer = self.node.ask_named(self.alloc, word);
        self.tell(answer)
    }

    /// Sends again what isn't answered: the case of `Node::resend`.
    pub fn resend(&mut self) -> Result<bool, NodeCallError>
        ensures unsent { 0 < length self.old.waits → (result ≡ Err Unsent) × (self.new ≡ self.old) }
        ensures called { self.old.waits ≡ [] → NodeCalled (MeetsUnless (calls.resend self.old.on.job self.old.on.node) MayLackMemory)
            result self.old self.new }
    {
        self.check_clear()?;
        let answer = self.node.resend(self.alloc);
        self.tell(answer)
    }

    /// Leaves, and hands its work to an heir, by its start word: the case of `Node::depart`.
    pub fn depart(&mut self, heir: u64) -> Result<bool, NodeCallError>
        ensures unsent { 0 < length self.old.waits → (result ≡ Err Unsent) × (self.new ≡ self.old) }
        ensures called { self.old.waits ≡ [] → NodeCalled (MeetsUnless (calls.depart self.old.on.job heir self.old.on.node) MayLackMemory)
            result self.old self.new }
    {
        self.check_clear()?;
        let answer = self.node.depart_named(self.alloc, heir);
        self.tell(answer)
    }

    /// A call that may send is refused where packets wait.
    fn check_clear(&self) -> Result<(), NodeCallError>
        ensures ok { OnOk result (self.now.waits ≡ []) }
        ensures err { IfErr result (λ e. (e ≡ Unsent) × (0 < length self.now.waits)) }
    {
        if self.outbox.is_empty() {
            Ok(())
        } else {
            Err(NodeCallError::Unsent)
        }
    }

    /// What a call sends waits, and what is told of it is answered.
    fn tell(&mut self, answer: Result<Step, NodeError>) -> Result<bool, NodeCallError>
        ensures told { NodeTells answer result self.old.waits self.new.waits }
        ensures node { self.new.on ≡ self.old.on }
    {
        match answer {
            Ok(step) => {
                let Step { sent, ignored, .. } = step;
                self.outbox.keep(sent);
                Ok(ignored)
            }
            Err(error) => Err(NodeCallError::Node(error)),
        }
    }
}
