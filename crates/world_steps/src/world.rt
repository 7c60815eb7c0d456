//! The world, and its steps.
ghost use Rattle.std.specs.Prelude.{◌≡◌, ◌++◌, ◌&&◌, true, false, if◌then◌else◌, is_some, length, IfOk, Option, OnErr, OnOk, Some, None, option_copied, replicate, slice_get};
ghost use Rattle.disk.specs.Device.{Device};
ghost use Rattle.node_steps.specs.Cases.{Candidate};
ghost use Rattle.node_steps.specs.Choosing.{IsCandidate};
ghost use Rattle.node_steps.specs.declared.error.NodeError.TheVariants.{Memory};
ghost use Rattle.node_state.specs.Node.{NodeOf};
ghost use Rattle.world_steps.specs.Calls.{Came, IsOfJob, IsWholeOfJob, RanOutOfMemory, StepsTo, delivered_in, is_there};
ghost use Rattle.world_steps.specs.Nodes.{can_start};
ghost use Rattle.world_steps.specs.Places.{node_there};
ghost use Rattle.world_steps.specs.Seats.{DeliversPacket};
ghost use Rattle.world_steps.specs.First.{IsFirst};
ghost use Rattle.world_steps.specs.Runs.{IsFormattedFor};
ghost use Rattle.world_steps.specs.World.{WorldOf, first_over, node_in, put_node, recorded, with_used, without_node};
ghost use Rattle.world_steps.specs.declared.parts.EventAnswer.TheVariants as told;
ghost use Rattle.event_script.specs.declared.event.Event.TheVariants as events;

use crate::counts::{Before, RunCounts};
use crate::first_disk::FirstDisk;
use crate::house_slot::{HouseReply, HouseSlot};
use crate::kept::Kept;
use crate::nodes::carry_out;
use crate::parts::{EventAnswer, NoMemory, Word};
use body_eval::Done;
use codec::Datagram;
use disk::{MemDisk, SteadyDisk};
use event_script::{Cut, Event, HouseEvent, NodeEvent, NodePlace};
use ids::{Incarnation, Outcome, SortedMap};
use node_core::{Fill, Node, NodeError, Step, Work};
use serial_meaning::{Flat, Job, Whole};
use std::alloc::Global;
use std::marker::Model;
use std::mem;

/// How many places of nodes there are.
const PLACES: usize = 64;

/// The world of a job: the nodes that are up, the clearinghouse and its disk, the packets that were
/// sent, the values that were put into slots, and the start words that were used. Contracts see the
/// job, these, and whether all that was sent and put into slots has its place.
#[derive(Drop)]
pub struct World<'a, D: SteadyDisk + Drop = MemDisk> {
    job: &'a Job,
    flat: Flat,
    nodes: Vec<Option<Node<'a>>>,
    seat: HouseSlot<'a, D>,
    net: Kept<Datagram>,
    fills: Kept<Fill>,
    used: SortedMap<Word>,
    counts: Box<RunCounts>,
}

impl<'a, D: SteadyDisk + Drop> Model for World<'a, D> {
    ghost use Rattle.std.specs.Prelude.{◌&&◌};
    ghost use Rattle.task_tree.specs.Codes.{program_codes};
    ghost use Rattle.world_steps.specs.Calls.{WorldOn};
    ghost use Rattle.world_steps.specs.Places.{IsWorld, ups};

    ghost Value = { WorldOn };

    ghost coded = { Prim.hlevel program_codes };

    ghost view = { λ w. record { job = w.job.now; world = record { nodes = ups w.nodes.items; house = w.seat.house; disk = w.seat.disk; net = w.net.all; fills = w.fills.all; used = w.used }; is_placed = w.net.is_placed && w.fills.is_placed } };

    ghost invariant = { λ w. IsWorld w.job.now w.seat.job w.flat.program w.nodes.items };
}

impl<'a> World<'a, MemDisk> {
    /// The first world of a job: no node is up, the clearinghouse is down over a disk that was
    /// formatted for the job, which can be cut and isn't armed, and nothing was sent. Refused only
    /// when out of memory (E9).
    pub fn new(alloc: Global, job: &'a Job) -> Result<World<'a, MemDisk>, NoMemory>
        ensures { IfOk result (λ w. (d : Device) × IsFormattedFor job.now d
            × (w ≡ record { job = job.now; world = first_over d; is_placed = true })) }
    {
        World::over(alloc, FirstDisk::formatted(alloc, job)?)
    }
}

impl<'a, D: SteadyDisk + Drop> World<'a, D> {
    /// The first world of a job over a disk with which a run of it begins: no node is up, the
    /// clearinghouse is down over that disk, and nothing was sent. Refused only when out of memory
    /// (E9).
    pub fn over(alloc: Global, first: FirstDisk<'a, D>) -> Result<World<'a, D>, NoMemory>
        ensures { IfOk result (λ w. IsFirst first.entry.job (D.device first.entry.disk)
            × (w ≡ record { job = first.entry.job; world = first_over (D.device first.entry.disk); is_placed = true })) }
    {
        let job = first.job();
        let flat = Flat::of(alloc, job.checked())?;
        let nodes = no_nodes(alloc)?;
        let counts = RunCounts::boxed(alloc)?;
        let _disk = first.disk();
        Ok(World {
            job,
            flat,
            nodes,
            seat: HouseSlot::over(first),
            net: Kept::new(alloc),
            fills: Kept::new(alloc),
            used: SortedMap::new(alloc),
            counts,
        })
    }

    /// Its disk. What else it holds goes.
    pub fn into_disk(self) -> D
        ensures { D.device result ≡ self.entry.world.disk }
    {
        let World { seat, .. } = self;
        seat.into_disk()
    }

    /// The job.
    pub fn job(&self) -> &'a Job
        ensures { result.now ≡ self.now.job }
    {
        self.job
    }

    /// How many packets were sent.
    pub fn packets(&self) -> usize
        ensures { result ≡ length self.now.world.net }
    {
        self.net.len()
    }

    /// The packet after so many others.
    pub fn packet(&self, index: u64) -> Option<&Datagram>
        ensures { option_copied result ≡ slice_get self.now.world.net index }
    {
        self.net.get(index)
    }

    /// How many values were put into slots.
    pub fn fills(&self) -> usize
        ensures { result ≡ length self.now.world.fills }
    {
        self.fills.len()
    }

    /// The value after so many others.
    pub fn fill(&self, index: u64) -> Option<&Fill>
        ensures { option_copied result ≡ slice_get self.now.world.fills index }
    {
        self.fills.get(index)
    }

    /// The ready frame of the node of a place that comes after so many others, from the deepest
    /// level on and in a level the newest first; none where fewer are ready, or no node is up
    /// there. It tells whoever acts for the node what to do next, and no clause speaks of it: an
    /// event that names the frame is carried out by what the world holds. Refused only when out of
    /// memory (E9).
    pub fn ready(
        &self,
        alloc: Global,
        place: NodePlace,
        index: usize,
    ) -> Result<Option<Work>, NoMemory> {
        let Some(node) = &self.nodes[usize::from(place.index())] else {
            return Ok(None);
        };
        match node.ready_at(alloc, index) {
            Ok(work) => Ok(work),
            Err(_) => Err(NoMemory),
        }
    }

    /// The node that is up at a place.
    pub fn node(&self, place: NodePlace) -> Option<&Node<'a>>
        ensures { node_there (option_copied result) ≡ node_in place self.now.world.nodes }
    {
        self.nodes[usize::from(place.index())].as_ref()
    }

    /// The outcome that an open clearinghouse has recorded.
    pub fn outcome(&self) -> Option<Outcome>
        ensures { result ≡ recorded self.now.world }
    {
        self.seat.outcome()
    }

    /// An event is carried out. For an Exec a turn may be at hand, of the job's program: one that
    /// is the ready frame's own, of its thread on its numbers, is used, and another one is put
    /// aside. What doesn't apply, or is refused, changes nothing. A device call that fails stops
    /// the clearinghouse; by itself only one of an opening does, when out of memory. E9 where the
    /// event finds no memory: the world is as it was, but a clearinghouse that was to answer is
    /// stopped.
    pub fn step(
        &mut self,
        alloc: Global,
        event: &Event,
        turn: Option<&Done>,
    ) -> Result<EventAnswer, NoMemory>
        requires { IsOfJob self.old.job (option_copied turn) }
        ensures job { self.new.job ≡ self.old.job }
        ensures step { IfOk result (λ t. StepsTo self.old.job event.now self.old.world self.new.world t) }
        ensures out_of_memory { OnErr result (RanOutOfMemory event.now self.old self.new) }
    {
        self.step_with(alloc, event, turn, None)
    }

    /// The same, where also for a Whole a task of the job's program may be at hand that was
    /// evaluated whole: one of the ready frame's thread on its numbers, in the room below its place
    /// and in no more turns, is used, and another one is put aside.
    pub fn step_with(
        &mut self,
        alloc: Global,
        event: &Event,
        turn: Option<&Done>,
        whole: Option<&Whole>,
    ) -> Result<EventAnswer, NoMemory>
        requires turn { IsOfJob self.old.job (option_copied turn) }
        requires whole { IsWholeOfJob self.old.job (option_copied whole) }
        ensures job { self.new.job ≡ self.old.job }
        ensures step { IfOk result (λ t. StepsTo self.old.job event.now self.old.world self.new.world t) }
        ensures out_of_memory { OnErr result (RanOutOfMemory event.now self.old self.new) }
    {
        let before = Before::of(event, self.nodes.as_slice());
        let told = self.carry_out(alloc, turn, whole, event)?;
        self.count(event, before, told);
        Ok(told)
    }

    /// What was counted so far. No clause speaks of it.
    pub fn counts(&self) -> &RunCounts {
        &self.counts
    }

    /// Counts an event that was carried out, before which this was seen.
    fn count(&mut self, event: &Event, before: Before, told: EventAnswer)
        ensures { self.new ≡ self.old }
    {
        self.counts
            .note(event, before, told, self.nodes.as_slice(), &self.net);
    }

    /// An event is carried out, as `step` says.
    fn carry_out(
        &mut self,
        alloc: Global,
        turn: Option<&Done>,
        whole: Option<&Whole>,
        event: &Event,
    ) -> Result<EventAnswer, NoMemory>
        requires turn { IsOfJob self.old.job (option_copied turn) }
        requires whole { IsWholeOfJob self.old.job (option_copied whole) }
        ensures job { self.new.job ≡ self.old.job }
        ensures step { IfOk result (λ t. StepsTo self.old.job event.now self.old.world self.new.world t) }
        ensures out_of_memory { OnErr result (RanOutOfMemory event.now self.old self.new) }
    {
        match event {
            Event::Start(place, word) => self.start(alloc, *place, *word),
            Event::AtNode(place, event) => { self.at_node(alloc, *place, *event, turn, whole) }
            Event::Crash(place) => Ok(self.crash(*place)),
            Event::AtHouse(event) => self.at_house(alloc, *event),
            Event::HouseCrash => {
                self.seat.fall();
                Ok(self.unheard())
            }
            Event::Cut(cut) => self.cut(alloc, cut.as_ref()),
        }
    }

    /// What is told of an event of the clearinghouse that has no answer.
    fn unheard(&self) -> EventAnswer
        ensures { result ≡ told.House None 0 (recorded self.now.world) }
    {
        EventAnswer::House(None, 0, self.seat.outcome())
    }

    /// All that was sent and put into slots gets its place. Refused only when out of memory, and
    /// only where something has none.
    fn place(&mut self) -> Result<(), NoMemory>
        ensures job { self.new.job ≡ self.old.job }
        ensures same { self.new.world ≡ self.old.world }
        ensures placed { OnOk result (self.new.is_placed ≡ true) }
        ensures refused { OnErr result ((self.old.is_placed ≡ false) × (self.new.is_placed ≡ false)) }
    {
        self.net.place()?;
        self.fills.place()?;
        Ok(())
    }

    /// A node did a step: what it sent and put into slots is kept.
    fn did(&mut self, step: Step) -> EventAnswer
        requires { self.old.is_placed ≡ true }
        ensures job { self.new.job ≡ self.old.job }
        ensures kept { self.new.world ≡ record self.old.world {
          net = self.old.world.net ++ step.sent;
          fills = self.old.world.fills ++ step.fills;
        } }
        ensures told { result ≡ told.Did (length step.sent) (length step.fills) }
    {
        let told = EventAnswer::Did(step.sent.len(), step.fills.len());
        self.net.hold(step.sent);
        self.fills.hold(step.fills);
        let _ = self.place();
        told
    }

    /// Whether a node is up at a place.
    fn is_up(&self, place: NodePlace) -> bool
        ensures { result ≡ is_some (node_in place self.now.world.nodes) }
    {
        self.nodes[usize::from(place.index())].is_some()
    }

    /// Takes the node of a place away; whether one was up there.
    fn remove(&mut self, place: NodePlace) -> bool
        ensures job { self.new.job ≡ self.old.job }
        ensures was { result ≡ is_some (node_in place self.old.world.nodes) }
        ensures gone { self.new.world ≡ record self.old.world { nodes = without_node place self.old.world.nodes } }
    {
        mem::replace(&mut self.nodes[usize::from(place.index())], None).is_some()
    }

    /// Whether a node can start at a place with a start word: no node is up there, and the word is
    /// a worker's and wasn't used before.
    fn starts(&self, place: NodePlace, word: u64) -> Option<Incarnation>
        ensures { result ≡ (if can_start place word self.now.world then Some word else None) }
    {
        let incarnation = Incarnation::worker(word)?;
        if self.used.get((word, 0)).is_some() || self.is_up(place) {
            return None;
        }
        Some(incarnation)
    }

    /// A node is up at a place, with a start word that is used now.
    fn enter(&mut self, place: NodePlace, word: u64, node: Node<'a>) -> Result<(), NoMemory>
        requires { node.job ≡ self.old.job }
        ensures job { self.new.job ≡ self.old.job }
        ensures placed { self.new.is_placed ≡ self.old.is_placed }
        ensures ok { OnOk result (self.new.world ≡ record (with_used word self.old.world)
            { nodes = put_node place node.entry.node self.old.world.nodes }) }
        ensures err { OnErr result (self.new.world ≡ self.old.world) }
    {
        self.used.put(Word::of(word))?;
        self.nodes[usize::from(place.index())] = Some(node);
        Ok(())
    }

    /// A node starts at a place with a start word, if it can.
    fn start(&mut self, alloc: Global, place: NodePlace, word: u64) -> Result<EventAnswer, NoMemory>
        ensures job { self.new.job ≡ self.old.job }
        ensures step { IfOk result (λ t. StepsTo self.old.job (events.Start place word)
            self.old.world self.new.world t) }
        ensures out_of_memory { OnErr result (RanOutOfMemory (events.Start place word) self.old self.new) }
    {
        let Some(incarnation) = self.starts(place, word) else {
            return Ok(EventAnswer::Unfit);
        };
        self.place()?;
        let Ok((node, step)) = Node::start(alloc, self.job, incarnation) else {
            return Err(NoMemory);
        };
        self.enter(place, word, node)?;
        Ok(self.did(step))
    }

    /// Something comes to the node of a place, if one is up there.
    fn at_node(
        &mut self,
        alloc: Global,
        place: NodePlace,
        event: NodeEvent,
        turn: Option<&Done>,
        whole: Option<&Whole>,
    ) -> Result<EventAnswer, NoMemory>
        requires turn { IsOfJob self.old.job (option_copied turn) }
        requires whole { IsWholeOfJob self.old.job (option_copied whole) }
        ensures job { self.new.job ≡ self.old.job }
        ensures step { IfOk result (λ t. StepsTo self.old.job (events.AtNode place event)
            self.old.world self.new.world t) }
        ensures out_of_memory { OnErr result (RanOutOfMemory (events.AtNode place event) self.old self.new) }
    {
        self.law_may_choose(place);
        if !self.fits(place, event) {
            return Ok(EventAnswer::Unfit);
        }
        self.place()?;
        match self.come(alloc, place, event, turn, whole) {
            Ok(step) if step.ignored => Ok(EventAnswer::Ignored),
            Ok(step) => Ok(self.did(step)),
            Err(error) => refusal(error),
        }
    }

    /// Whether a node is up at a place, and the packet that an event delivers is there.
    fn fits(&self, place: NodePlace, event: NodeEvent) -> bool
        ensures { result ≡ (is_some (node_in place self.now.world.nodes) && is_there event self.now.world.net) }
    {
        if !self.is_up(place) {
            return false;
        }
        match event {
            NodeEvent::Deliver(index) => self.net.get(index).is_some(),
            NodeEvent::Exec(_)
            | NodeEvent::Whole(_, _)
            | NodeEvent::Ask(_)
            | NodeEvent::Resend
            | NodeEvent::Depart(_) => true,
        }
    }

    /// Something comes to the node of a place, which is up.
    fn come(
        &mut self,
        alloc: Global,
        place: NodePlace,
        event: NodeEvent,
        turn: Option<&Done>,
        whole: Option<&Whole>,
    ) -> Result<Step, NodeError>
        requires own { IsOfJob self.old.job (option_copied turn) }
        requires whole { IsWholeOfJob self.old.job (option_copied whole) }
        requires up { is_some (node_in place self.old.world.nodes) ≡ true }
        requires there { is_there event self.old.world.net ≡ true }
        ensures job { self.new.job ≡ self.old.job }
        ensures placed { self.new.is_placed ≡ self.old.is_placed }
        ensures came { Came self.old self.new.world place event result }
    {
        let at = usize::from(place.index());
        let Some(node) = &mut self.nodes[at] else {
            unreachable!();
        };
        carry_out(
            alloc,
            node,
            event,
            handed(&self.net, event),
            &self.flat,
            turn,
            whole,
        )
    }

    /// A node that is up may be asked to choose a frame. Does nothing.
    fn law_may_choose(&self, place: NodePlace)
        ensures { (n : NodeOf) → node_in place self.now.world.nodes ≡ Some n → (choice : Option Candidate)
            × IsCandidate n choice }
    {
        if let Some(node) = &self.nodes[usize::from(place.index())] {
            node.law_may_choose();
        }
    }

    /// The node of a place loses its memory, if one is up there.
    fn crash(&mut self, place: NodePlace) -> EventAnswer
        ensures job { self.new.job ≡ self.old.job }
        ensures step { StepsTo self.old.job (events.Crash place) self.old.world self.new.world result }
    {
        if !self.is_up(place) {
            return EventAnswer::Unfit;
        }
        let _ = self.remove(place);
        EventAnswer::Did(0, 0)
    }

    /// What the clearinghouse replied is kept.
    fn replied(&mut self, reply: HouseReply) -> EventAnswer
        requires { self.old.is_placed ≡ true }
        ensures job { self.new.job ≡ self.old.job }
        ensures kept { self.new.world ≡ record self.old.world { net = self.old.world.net ++ reply.sent } }
        ensures told { result ≡ told.House reply.refused (length reply.sent) (recorded self.old.world) }
    {
        let sent = reply.sent.len();
        self.net.hold(reply.sent);
        let _ = self.place();
        EventAnswer::House(reply.refused, sent, self.seat.outcome())
    }

    /// Something comes to the clearinghouse, if it applies.
    fn at_house(&mut self, alloc: Global, event: HouseEvent) -> Result<EventAnswer, NoMemory>
        ensures job { self.new.job ≡ self.old.job }
        ensures step { IfOk result (λ t. StepsTo self.old.job (events.AtHouse event) self.old.world self.new.world t) }
        ensures out_of_memory { OnErr result (RanOutOfMemory (events.AtHouse event) self.old self.new) }
    {
        if !self.seat.applies(event, delivered(&self.net, event)) {
            return Ok(self.unheard());
        }
        if self.place().is_err() {
            self.seat.lack_memory();
            return Err(NoMemory);
        }
        let reply = self.seat.meet(alloc, event, delivered(&self.net, event))?;
        Ok(self.replied(reply))
    }

    /// An event of the clearinghouse is cut off, if it applies.
    fn cut(&mut self, alloc: Global, cut: &Cut) -> Result<EventAnswer, NoMemory>
        ensures job { self.new.job ≡ self.old.job }
        ensures step { IfOk result (λ t. StepsTo self.old.job (events.Cut cut.now) self.old.world self.new.world t) }
        ensures out_of_memory { OnErr result (RanOutOfMemory (events.Cut cut.now) self.old self.new) }
    {
        if !self.seat.can_cut() {
            return Ok(self.unheard());
        }
        if !self
            .seat
            .applies(cut.event, delivered(&self.net, cut.event))
        {
            return Ok(self.unheard());
        }
        let Ok(bytes) = Vec::from_slice(alloc, cut.bytes.as_slice()) else {
            self.seat.lack_memory();
            return Err(NoMemory);
        };
        if self.place().is_err() {
            self.seat.lack_memory();
            return Err(NoMemory);
        }
        let packet = delivered(&self.net, cut.event);
        let reply = self.seat.cut(alloc, cut.calls, bytes, cut.event, packet)?;
        Ok(self.replied(reply))
    }
}

/// What is told of a refused call of a node.
fn refusal(error: NodeError) -> Result<EventAnswer, NoMemory>
    ensures told { IfOk result (λ t. (t ≡ told.Refused error) × (error ≡ Memory → ⊥)) }
    ensures lacks { OnErr result (error ≡ Memory) }
{
    match error {
        NodeError::Memory => Err(NoMemory),
        NodeError::Bytes(_)
        | NodeError::Stale
        | NodeError::NoValue
        | NodeError::Pending
        | NodeError::TooBig
        | NodeError::HopSpent
        | NodeError::NoHeir
        | NodeError::NotJoined
        | NodeError::Busy
        | NodeError::Spent => Ok(EventAnswer::Refused(error)),
    }
}

/// No node is up at any place.
fn no_nodes<'a>(alloc: Global) -> Result<Vec<Option<Node<'a>>>, NoMemory>
    ensures { IfOk result (λ v. v.items ≡ replicate 64 None) }
{
    let mut nodes = Vec::with_capacity(alloc, PLACES)?;
    for _ in 0..PLACES {
        if nodes.push(None).is_err() {
            return Err(NoMemory);
        }
    }
    Ok(nodes)
}

/// The packet that an event of a node delivers, if it is there.
fn handed(net: &Kept<Datagram>, event: NodeEvent) -> Option<&Datagram>
    ensures { option_copied result ≡ delivered_in event net.now.all }
{
    match event {
        NodeEvent::Deliver(index) => net.get(index),
        NodeEvent::Exec(_)
        | NodeEvent::Whole(_, _)
        | NodeEvent::Ask(_)
        | NodeEvent::Resend
        | NodeEvent::Depart(_) => None,
    }
}

/// The packet that an event of the clearinghouse delivers, if it is there.
fn delivered(net: &Kept<Datagram>, event: HouseEvent) -> Option<&Datagram>
    ensures { (w : WorldOf) → w.net ≡ net.now.all → DeliversPacket event (option_copied result) w }
{
    match event {
        HouseEvent::Deliver(index) => net.get(index),
        HouseEvent::Tick(_) | HouseEvent::Restart => None,
    }
}
