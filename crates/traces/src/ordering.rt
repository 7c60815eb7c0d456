//! One order of many traces.
ghost use Rattle.std.specs.Prelude.{◌≡◌, ◌≢◌, [], ◌∷◌, ◌++◌, Some, true, false, IfOk, IfSome, option_copied, slice_get, slice_set};
ghost use Rattle.event_script.specs.declared.event.Event.{Event as EventOf};
ghost use Rattle.event_script.specs.declared.event.Event.TheVariants as event_of;
ghost use Rattle.traces.specs.Merges.{all_taken, Comes, Ends, IsFree, IsMerge, Leads, Opens, Passes, Starts, Takes, Moves, begun, delivery, gone, name_sent};
ghost use Rattle.traces.specs.Merging.{IsKept, coming_events, if_there, merge_of};
ghost use Rattle.traces.specs.Texts.{events_of, sent_of};
ghost use Rattle.traces.specs.declared.line.TraceLine.{TraceLine as LineOf};
ghost use Rattle.traces.specs.declared.line.TraceLine.TheVariants as line;
ghost use Rattle.traces.specs.declared.seat.Seat.TheVariants as at_seat;

use crate::line::TraceLine;
use crate::merged::{Entry, Merged};
use crate::name::{NameKey, PacketName};
use crate::seat::Seat;
use crate::trace::{Numbered, Trace};
use event_script::{Event, HouseEvent, NodeEvent, NodePlace};
use std::alloc::{AllocError, Global};
use std::collections::{BTreeMap, VecDeque};
use std::marker::Model;
use thiserror::Error;

/// Why an order doesn't go on by a line.
#[derive(Clone, Copy, Debug, PartialEq, Eq, Error)]
pub enum Stuck {
    /// A packet came that no trace tells as sent before.
    #[error("a packet came that nobody sent")]
    NotSent,
    /// More than 64 nodes are up.
    #[error("more than 64 nodes are up")]
    Full,
    /// Another clearinghouse is open.
    #[error("another clearinghouse is open")]
    TwoHouses,
    /// It is no event of this actor where it stands.
    #[error("it is no event of this actor")]
    Misplaced,
}

/// Why no order of traces is found.
#[derive(Clone, Copy, Debug, PartialEq, Eq, Error)]
pub enum MergeFault {
    /// At a line of the trace that comes after so many others no order goes on: the line's number
    /// from 1, and why.
    #[error("line {1}: {2}")]
    Line(usize, u64, Stuck),
    /// E9: there is no memory.
    #[error("E{number}", number = ids::error_numbers::MEMORY)]
    Memory,
}

impl From<AllocError> for MergeFault {
    fn from(_error: AllocError) -> MergeFault {
        MergeFault::Memory
    }
}

/// An actor: the lines of its trace that are left, and where it stands.
#[derive(Drop)]
pub(crate) struct Actor {
    lines: VecDeque<Numbered>,
    stands: Option<Seat>,
}

impl Model for Actor {
    ghost use Rattle.traces.specs.Merges.{ActorOf};

    ghost Value = { ActorOf };

    ghost view = { λ a. record { lines = a.lines.items; stands = a.stands } };
}

impl Actor {
    /// Takes its next line, behind which it stands there.
    fn go(&mut self, then: Option<Seat>) -> Option<Numbered>
        ensures taken { (l : LineOf) (ls : _) → self.old.lines ≡ l ∷ ls
            → (result ≡ Some l) × (self.new ≡ record { lines = ls; stands = then }) }
    {
        let taken = self.lines.pop_front();
        self.stands = then;
        taken
    }

    /// Its next line.
    fn next(&self) -> Option<&Numbered>
        ensures { option_copied result ≡ slice_get self.now.lines 0 }
    {
        self.lines.front()
    }

    /// Where it stands.
    fn stands(&self) -> Option<Seat>
        ensures { result ≡ self.now.stands }
    {
        self.stands
    }

    /// Whether it has a line left, and stands there.
    fn holds(&self, seat: &Seat) -> bool
        ensures { result ≡ false → self.now.stands ≡ Some seat.now → self.now.lines ≡ [] }
    {
        match &self.stands {
            Some(own) => !self.lines.is_empty() && is_one_seat(own, seat),
            None => false,
        }
    }
}

/// What comes of a line: where its actor stands then, and the events, one after the other.
#[derive(Drop)]
pub(crate) struct Coming {
    then: Option<Seat>,
    first: Option<Event>,
    second: Option<Event>,
}

impl Coming {
    /// No event.
    #[tactic(auto, unfolding(crate::specs::Merging::if_there))]
    fn none(then: Option<Seat>) -> Coming
        ensures stands { result.then ≡ then }
        ensures events { coming_events result ≡ [] }
    {
        Coming {
            then,
            first: None,
            second: None,
        }
    }

    #[tactic(auto, unfolding(crate::specs::Merging::if_there))]
    fn one(then: Option<Seat>, first: Event) -> Coming
        ensures stands { result.then ≡ then }
        ensures events { coming_events result ≡ first ∷ [] }
    {
        Coming {
            then,
            first: Some(first),
            second: None,
        }
    }

    #[tactic(auto, unfolding(crate::specs::Merging::if_there))]
    fn two(then: Option<Seat>, first: Event, second: Event) -> Coming
        ensures stands { result.then ≡ then }
        ensures events { coming_events result ≡ first ∷ second ∷ [] }
    {
        Coming {
            then,
            first: Some(first),
            second: Some(second),
        }
    }
}

/// Traces that are being merged: the actors, what was merged, and the names of the packets that
/// were sent, with, for each, the first packet that has it.
#[derive(Drop)]
pub(crate) struct Merging {
    actors: Vec<Actor>,
    entries: Vec<Entry>,
    sent: Vec<PacketName>,
    numbers: BTreeMap<NameKey, usize>,
}

/// A packet is delivered to who stands there.
fn delivered(seat: Seat, packet: u64) -> Coming
    ensures stands { result.then ≡ Some seat }
    ensures events { coming_events result ≡ delivery packet seat ∷ [] }
{
    match seat {
        Seat::Place(place) => Coming::one(
            Some(Seat::Place(place)),
            Event::AtNode(place, NodeEvent::Deliver(packet)),
        ),
        Seat::House => Coming::one(
            Some(Seat::House),
            Event::AtHouse(HouseEvent::Deliver(packet)),
        ),
    }
}

/// Who stands there is gone.
fn crashed(seat: Seat) -> Event
    ensures { result ≡ gone seat }
{
    match seat {
        Seat::Place(place) => Event::Crash(place),
        Seat::House => Event::HouseCrash,
    }
}

/// Whether two seats are one.
fn is_one_seat(one: &Seat, other: &Seat) -> bool
    ensures { result ≡ false → one.now ≢ other.now }
{
    match one {
        Seat::Place(place) => match other {
            Seat::Place(second) => place.index() == second.index(),
            Seat::House => false,
        },
        Seat::House => match other {
            Seat::Place(_) => false,
            Seat::House => true,
        },
    }
}

impl Merging {
    /// Nobody has begun.
    fn of(alloc: Global, traces: Vec<Trace>) -> Result<Merging, AllocError>
        ensures begun { IfOk result (λ m. merge_of m ≡ begun traces.items) }
        ensures kept { IfOk result (λ m. IsKept m) }
    {
        let mut actors = Vec::new(alloc);
        for trace in traces {
            actors.push(Actor {
                lines: trace.lines,
                stands: None,
            })?;
        }
        Ok(Merging {
            actors,
            entries: Vec::new(alloc),
            sent: Vec::new(alloc),
            numbers: BTreeMap::new(alloc),
        })
    }

    /// Whether of the others nobody stands there who has a line left.
    fn is_free(&self, seat: &Seat, a: usize) -> bool
        ensures { result ≡ true → IsFree seat.now a self.now.actors.items }
    {
        for b in 0..self.actors.len() {
            if b != a && self.is_held(b, seat) {
                return false;
            }
        }
        true
    }

    /// Whether actor b has a line left, and stands there.
    fn is_held(&self, b: usize, seat: &Seat) -> bool
        ensures { result ≡ false → (other : _) → slice_get self.now.actors.items b ≡ Some other → other.stands ≡ Some seat.now → other.lines ≡ [] }
    {
        match self.actors.get(b) {
            Some(other) => other.holds(seat),
            None => false,
        }
    }

    /// The first place of a node that is free.
    fn free_place(&self, a: usize) -> Option<NodePlace>
        ensures { IfSome result (λ p. IsFree (at_seat.Place p) a self.now.actors.items) }
    {
        for index in 0..64 {
            if let Some(place) = NodePlace::of(index)
                && self.is_free(&Seat::Place(place), a)
            {
                return Some(place);
            }
        }
        None
    }

    /// Whether a name is that of the packet that was sent after so many others.
    fn is_named(&self, number: usize, name: &PacketName) -> bool
        ensures { result ≡ true → slice_get self.now.sent.items number ≡ Some name.now }
    {
        match self.sent.get(number) {
            Some(found) => found.is(name),
            None => false,
        }
    }

    /// What comes of a packet that came.
    fn taking(&self, name: &PacketName, at: Option<Seat>) -> Result<Coming, Stuck>
        ensures { IfOk result (λ c. Takes (merge_of self.now) name.now at c.then (coming_events c)) }
    {
        let Some(seat) = at else {
            return Err(Stuck::Misplaced);
        };
        let Some(number) = self.numbers.get(&name.key()) else {
            return Err(Stuck::NotSent);
        };
        let number = *number;
        if self.is_named(number, name) {
            Ok(delivered(seat, number as u64))
        } else {
            Err(Stuck::NotSent)
        }
    }

    /// What comes of a node's own event.
    fn acting(event: NodeEvent, at: Option<Seat>) -> Result<Coming, Stuck>
        ensures { (m : _) (a p : _) → IfOk result (λ c. Comes m a (line.Did (event_of.AtNode p event)) at c.then (coming_events c)) }
    {
        if let NodeEvent::Deliver(_) = event {
            return Err(Stuck::Misplaced);
        }
        let Some(seat) = at else {
            return Err(Stuck::Misplaced);
        };
        match seat {
            Seat::Place(place) => Ok(Coming::one(
                Some(Seat::Place(place)),
                Event::AtNode(place, event),
            )),
            Seat::House => Err(Stuck::Misplaced),
        }
    }

    /// What comes of an event of the clearinghouse of actor a.
    fn housing(&self, a: usize, event: HouseEvent, at: Option<Seat>) -> Result<Coming, Stuck>
        ensures { IfOk result (λ c. Comes (merge_of self.now) a (line.Did (event_of.AtHouse event)) at c.then (coming_events c)) }
    {
        match event {
            HouseEvent::Deliver(_) => Err(Stuck::Misplaced),
            HouseEvent::Restart => self.opening(a),
            HouseEvent::Tick(moment) => Merging::passing(moment, at),
        }
    }

    /// What comes of an opening by actor a.
    fn opening(&self, a: usize) -> Result<Coming, Stuck>
        ensures { IfOk result (λ c. Opens (merge_of self.now) a c.then (coming_events c)) }
    {
        if !self.is_free(&Seat::House, a) {
            return Err(Stuck::TwoHouses);
        }
        Ok(Coming::two(
            Some(Seat::House),
            Event::HouseCrash,
            Event::AtHouse(HouseEvent::Restart),
        ))
    }

    /// What comes of a moment.
    fn passing(moment: u64, at: Option<Seat>) -> Result<Coming, Stuck>
        ensures { IfOk result (λ c. Passes moment at c.then (coming_events c)) }
    {
        let Some(seat) = at else {
            return Err(Stuck::Misplaced);
        };
        match seat {
            Seat::House => Ok(Coming::one(
                Some(Seat::House),
                Event::AtHouse(HouseEvent::Tick(moment)),
            )),
            Seat::Place(_) => Err(Stuck::Misplaced),
        }
    }

    /// What comes of the start of a node by actor a.
    fn starting(&self, a: usize, word: u64) -> Result<Coming, Stuck>
        ensures { IfOk result (λ c. Starts (merge_of self.now) a word c.then (coming_events c)) }
    {
        match self.free_place(a) {
            Some(place) => Ok(Coming::two(
                Some(Seat::Place(place)),
                Event::Crash(place),
                Event::Start(place, word),
            )),
            None => Err(Stuck::Full),
        }
    }

    /// What comes of who stands there, and is let go.
    fn ending(at: Option<Seat>) -> Result<Coming, Stuck>
        ensures { IfOk result (λ c. Ends at c.then (coming_events c)) }
    {
        match at {
            Some(seat) => Ok(Coming::one(None, crashed(seat))),
            None => Err(Stuck::Misplaced),
        }
    }

    /// What comes of a line of actor a, that stands there.
    fn coming(&self, a: usize, at: Option<Seat>, line: &TraceLine) -> Result<Coming, Stuck>
        ensures { IfOk result (λ c. Comes (merge_of self.now) a line.now at c.then (coming_events c)) }
    {
        match line {
            TraceLine::Sent(_) => Ok(Coming::none(at)),
            TraceLine::Took(name) => self.taking(name, at),
            TraceLine::Did(event) => match event {
                Event::Start(_, word) => self.starting(a, *word),
                Event::AtNode(_, event) => Merging::acting(*event, at),
                Event::Crash(_) | Event::HouseCrash => Merging::ending(at),
                Event::AtHouse(event) => self.housing(a, *event, at),
                Event::Cut(_) => Err(Stuck::Misplaced),
            },
        }
    }

    /// Adds an event, if there is one.
    #[tactic(auto, using(crate::proofs::Entries::events_event, crate::proofs::Entries::sent_event), unfolding(crate::specs::Merging::if_there))]
    fn add(&mut self, event: Option<Event>) -> Result<(), AllocError>
        ensures events { IfOk result (λ _. events_of self.new.entries.items ≡ events_of self.old.entries.items ++ if_there event) }
        ensures names { IfOk result (λ _. sent_of self.new.entries.items ≡ sent_of self.old.entries.items) }
        ensures actors { self.new.actors.items ≡ self.old.actors.items }
        ensures sent { self.new.sent.items ≡ self.old.sent.items }
    {
        if let Some(event) = event {
            self.entries.push(Entry::Event(event))?;
        }
        Ok(())
    }

    /// Adds what a line tells as sent.
    fn note(&mut self, a: usize, taken: Numbered) -> Result<(), AllocError>
        ensures events { IfOk result (λ _. events_of self.new.entries.items ≡ events_of self.old.entries.items) }
        ensures names { IfOk result (λ _. sent_of self.new.entries.items ≡ sent_of self.old.entries.items ++ name_sent taken) }
        ensures actors { self.new.actors.items ≡ self.old.actors.items }
        ensures sent { IfOk result (λ _. self.new.sent.items ≡ self.old.sent.items ++ name_sent taken) }
    {
        let Numbered { number, line } = taken;
        match line {
            TraceLine::Sent(name) => self.note_sent(a, number, name),
            TraceLine::Took(_) | TraceLine::Did(_) => Ok(()),
        }
    }

    #[tactic(auto, using(crate::proofs::Entries::events_sent, crate::proofs::Entries::sent_sent))]
    /// Adds a packet that was sent, as this line of the trace of actor a tells.
    fn note_sent(&mut self, a: usize, number: u64, name: PacketName) -> Result<(), AllocError>
        ensures events { IfOk result (λ _. events_of self.new.entries.items ≡ events_of self.old.entries.items) }
        ensures names { IfOk result (λ _. sent_of self.new.entries.items ≡ sent_of self.old.entries.items ++ name ∷ []) }
        ensures actors { self.new.actors.items ≡ self.old.actors.items }
        ensures sent { IfOk result (λ _. self.new.sent.items ≡ self.old.sent.items ++ name ∷ []) }
    {
        let key = name.key();
        if self.numbers.get(&key).is_none() {
            self.numbers.insert(key, self.sent.len())?;
        }
        self.sent.push(name)?;
        self.entries.push(Entry::Sent(name, a, number))?;
        Ok(())
    }

    /// Actor a goes on by its next line, of which this comes.
    fn go(&mut self, a: usize, coming: Coming) -> Result<(), AllocError>
        requires kept { IsKept self.old }
        requires comes { (l : LineOf) (ls : _) (at : _)
            → slice_get self.old.actors.items a ≡ Some (record { lines = l ∷ ls; stands = at })
            → Comes (merge_of self.old) a l at coming.then (coming_events coming) }
        requires next { (l : LineOf) × (ls : _) × (at : _) × (slice_get self.old.actors.items a ≡ Some (record { lines = l ∷ ls; stands = at })) }
        ensures moves { IfOk result (λ _. Moves a (merge_of self.old) (merge_of self.new)) }
        ensures kept { IfOk result (λ _. IsKept self.new) }
    {
        let Some(taken) = self.advance(a, coming.then) else {
            return Ok(());
        };
        self.note(a, taken)?;
        self.add(coming.first)?;
        self.add(coming.second)?;
        Ok(())
    }

    /// Takes the next line of actor a, behind which it stands there.
    fn advance(&mut self, a: usize, then: Option<Seat>) -> Option<Numbered>
        ensures taken { (l : LineOf) (ls : _) (at : _)
            → slice_get self.old.actors.items a ≡ Some (record { lines = l ∷ ls; stands = at })
            → (result ≡ Some l) × (self.new.actors.items ≡ slice_set self.old.actors.items a (record { lines = ls; stands = then })) }
        ensures entries { self.new.entries.items ≡ self.old.entries.items }
        ensures sent { self.new.sent.items ≡ self.old.sent.items }
    {
        self.actors.get_mut(a)?.go(then)
    }

    /// Actor a goes on by its next line; whether it did. It doesn't where it has none left, or
    /// where others have to go on first.
    fn step(&mut self, a: usize) -> Result<bool, MergeFault>
        requires { IsKept self.old }
        ensures moves { IfOk result (λ _. Leads (merge_of self.old) (merge_of self.new)) }
        ensures kept { IfOk result (λ _. IsKept self.new) }
    {
        let Some(actor) = self.actors.get(a) else {
            return Ok(false);
        };
        let Some(next) = actor.next() else {
            return Ok(false);
        };
        let number = next.number;
        match self.coming(a, actor.stands(), next.line()) {
            Ok(coming) => {
                self.go(a, coming)?;
                Ok(true)
            }
            Err(Stuck::Misplaced) => Err(MergeFault::Line(a, number, Stuck::Misplaced)),
            // (what others do may make it possible)
            Err(_) => Ok(false),
        }
    }

    /// Each actor goes on as far as it can; whether one did.
    fn round(&mut self) -> Result<bool, MergeFault>
        requires { IsKept self.old }
        ensures moves { IfOk result (λ _. Leads (merge_of self.old) (merge_of self.new)) }
        ensures kept { IfOk result (λ _. IsKept self.new) }
    {
        let mut moved = false;
        for a in 0..self.actors.len() {
            if self.go_on(a)? {
                moved = true;
            }
        }
        Ok(moved)
    }

    /// All go on as far as they can. In each round but the last one some actor goes on.
    fn run(&mut self) -> Result<(), MergeFault>
        requires { IsKept self.old }
        ensures moves { IfOk result (λ _. Leads (merge_of self.old) (merge_of self.new)) }
        ensures kept { IfOk result (λ _. IsKept self.new) }
    {
        for _ in 0..=self.all_left() {
            if !self.round()? {
                return Ok(());
            }
        }
        Ok(())
    }

    /// Actor a goes on as far as it can; whether it did.
    fn go_on(&mut self, a: usize) -> Result<bool, MergeFault>
        requires { IsKept self.old }
        ensures moves { IfOk result (λ _. Leads (merge_of self.old) (merge_of self.new)) }
        ensures kept { IfOk result (λ _. IsKept self.new) }
    {
        let mut moved = false;
        for _ in 0..self.left(a) {
            if !self.step(a)? {
                return Ok(moved);
            }
            moved = true;
        }
        Ok(moved)
    }

    /// How many lines of actor a are left.
    fn left(&self, a: usize) -> usize {
        match self.actors.get(a) {
            Some(actor) => actor.lines.len(),
            None => 0,
        }
    }

    /// How many lines are left.
    fn all_left(&self) -> usize {
        let mut count: usize = 0;
        for actor in self.actors.as_slice() {
            count = count.saturating_add(actor.lines.len());
        }
        count
    }

    /// Whether no line is left.
    fn is_over(&self) -> bool
        ensures { result ≡ all_taken self.now.actors.items }
    {
        self.actors.iter().all(|actor| actor.lines.is_empty())
    }

    /// Whether a packet of this name is among those that are yet to be sent.
    fn is_to_be_sent(&self, name: &PacketName) -> bool {
        self.actors.iter().any(|actor| {
            actor.lines.iter().any(|next| match &next.line {
                TraceLine::Sent(other) => other.is(name),
                _ => false,
            })
        })
    }

    /// The line that has no place: the first one that takes what nobody sends, or else the first
    /// that is left.
    fn stuck(&self) -> MergeFault {
        let mut first = None;
        for (a, actor) in self.actors.iter().enumerate() {
            let Some(next) = actor.next() else {
                continue;
            };
            if let TraceLine::Took(name) = next.line()
                && !self.is_to_be_sent(name)
            {
                return MergeFault::Line(a, next.number, Stuck::NotSent);
            }
            if first.is_none() {
                first = Some(MergeFault::Line(a, next.number, self.why(a, actor, next)));
            }
        }
        first.unwrap_or(MergeFault::Memory)
    }

    /// Why actor a doesn't go on by its next line.
    fn why(&self, a: usize, actor: &Actor, next: &Numbered) -> Stuck {
        match self.coming(a, actor.stands(), next.line()) {
            Ok(_) => Stuck::Misplaced,
            Err(stuck) => stuck,
        }
    }
}

/// One order of traces: each actor's lines stand in it, all and in their order, and each packet
/// that came behind its sending. Refused where none is found, by a line of a trace at which it
/// doesn't go on: it takes a packet that nobody sent, or is none of an actor that stands where this
/// one does, or more than 64 nodes would be up, or two clearinghouses open; and when out of memory
/// (E9).
pub fn merge(alloc: Global, traces: Vec<Trace>) -> Result<Merged, MergeFault>
    ensures { IfOk result (λ m. IsMerge traces.items (events_of m.entries.items) (sent_of m.entries.items)) }
{
    let mut merge = Merging::of(alloc, traces)?;
    merge.run()?;
    if !merge.is_over() {
        return Err(merge.stuck());
    }
    Ok(Merged {
        entries: merge.entries,
    })
}
