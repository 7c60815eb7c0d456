ghost use Rattle.std.specs.Prelude.{◌≡◌, IfSome, Some};
ghost use Rattle.ids.specs.declared.outcome.Outcome.{Outcome as OutcomeOf};
ghost use Rattle.serial_meaning.specs.Job.{meaning_of};
ghost use Rattle.world_steps.specs.Agrees.{StoredAgree};
ghost use Rattle.chronicle.specs.History.{actor_number, outcome_told};
ghost use Rattle.chronicle.specs.Seats.{IsSeatIn};
ghost use Rattle.runner_parts.specs.Turns.{IsFoundOf};

use board::Board;
use chronicle::{ActorSeat, Chronicle, Committed, Continued, Receiver, Wanted};
use disk::SteadyDisk;
use event_script::{Event, FrameOf, NodeEvent, NodePlace};
use runner_parts::{Counts, End, Found, Gate, Leavers, Pace, RunBells, RunConfig};
use start_words::WordTable;
use std::alloc::Global;
use std::sync::Wait;
use world_steps::NoMemory;

/// What the actors of a run share.
#[derive(Drop)]
pub(crate) struct Shared<'s, 'a, G: Gate + Sync, D: SteadyDisk + Drop> {
    pub(crate) chronicle: &'s Chronicle<'a, D>,
    pub(crate) words: &'s WordTable,
    pub(crate) board: &'s Board,
    pub(crate) counts: &'s Counts,
    pub(crate) bells: &'s RunBells,
    pub(crate) pace: &'s Pace,
    pub(crate) leavers: &'s Leavers,
    pub(crate) config: &'s RunConfig,
    pub(crate) gate: &'s G,
}

impl<'s, 'a, G: Gate + Sync, D: SteadyDisk + Drop> Shared<'s, 'a, G, D> {
    /// Wakes those that sleep to whom packets were sent behind so many.
    pub(crate) fn wake_receivers(&self, before: u64) {
        if self.chronicle.sent() <= before {
            return;
        }
        if self.chronicle.sent_to(Receiver::Clearinghouse) > before {
            self.bells.wake_house();
        }
        for place in 0..usize::from(self.config.nodes()) {
            let receiver = Receiver::Worker(self.bells.word(place));
            if self.chronicle.sent_to(receiver) > before {
                self.bells.wake_node(place);
            }
        }
    }
}

/// An event of the seat's actor is committed. None where there is no memory, which ends the run, or
/// the event isn't the actor's.
pub(crate) fn commit<'a, R: Wait, D: SteadyDisk + Drop>(
    rt: &R,
    chronicle: &Chronicle<'a, D>,
    counts: &Counts,
    seat: &mut ActorSeat<'a, D>,
    event: Event,
) -> Option<Committed>
    requires { IsSeatIn chronicle.now seat.old }
    ensures same { IsSeatIn chronicle.entry.now seat.new }
    ensures outcome { IfSome result (λ c. StoredAgree chronicle.entry.now.job chronicle.entry.now.first → (o : OutcomeOf)
        → outcome_told c.told ≡ Some o → o ≡ meaning_of chronicle.entry.now.job) }
{
    if !seat.owns(&event) {
        return None;
    }
    let Ok(committed) = chronicle.commit(rt, seat, event) else {
        counts.end_by(End::Memory);
        return None;
    };
    counts.count_event();
    Some(committed)
}

/// A frame of the node of a place is carried out by what was found for it, with a ready frame of
/// the node that isn't among these, if one is found right behind the event. None as for `commit`.
pub(crate) fn commit_found<'a, R: Wait, D: SteadyDisk + Drop>(
    rt: &R,
    alloc: Global,
    chronicle: &Chronicle<'a, D>,
    counts: &Counts,
    seat: &mut ActorSeat<'a, D>,
    place: NodePlace,
    frame: FrameOf,
    found: &Found,
    besides: &[FrameOf],
) -> Option<Continued>
    requires seat { IsSeatIn chronicle.now seat.old }
    requires own { IsFoundOf chronicle.now.job.program found.now }
    ensures { IsSeatIn chronicle.entry.now seat.new }
{
    let event = event_of(place, frame, found);
    if !seat.owns(&event) {
        return None;
    }
    let Ok(continued) = enter_found(rt, alloc, chronicle, seat, event, found, place, besides) else {
        counts.end_by(End::Memory);
        return None;
    };
    counts.count_event();
    Some(continued)
}

/// The event by which a frame of the node of a place is carried out, by what was found for it.
fn event_of(place: NodePlace, frame: FrameOf, found: &Found) -> Event {
    match found {
        Found::Turn(_) => Event::AtNode(place, NodeEvent::Exec(frame)),
        Found::Whole(whole) => Event::AtNode(place, NodeEvent::Whole(frame, whole.turns())),
    }
}

/// The event is committed, by what was found. Refused only when out of memory.
fn enter_found<'a, R: Wait, D: SteadyDisk + Drop>(
    rt: &R,
    alloc: Global,
    chronicle: &Chronicle<'a, D>,
    seat: &mut ActorSeat<'a, D>,
    event: Event,
    found: &Found,
    place: NodePlace,
    besides: &[FrameOf],
) -> Result<Continued, NoMemory>
    requires seat { IsSeatIn chronicle.now seat.old }
    requires owns { actor_number event ≡ seat.old.actor }
    requires own { IsFoundOf chronicle.now.job.program found.now }
    ensures { IsSeatIn chronicle.entry.now seat.new }
{
    let (turn, whole) = match found {
        Found::Turn(turn) => (Some(turn), None),
        Found::Whole(whole) => (None, Some(whole)),
    };
    let wanted = Wanted {
        alloc,
        place,
        besides,
    };
    chronicle.commit_evaluated(rt, seat, event, turn, whole, Some(&wanted))
}
