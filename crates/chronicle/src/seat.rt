ghost use Rattle.std.specs.Prelude.{◌≡◌, ◌==◌, IfSome};
ghost use Rattle.turn_lock.specs.Histories.{own};
ghost use Rattle.chronicle.specs.History.{actor_of, actor_number};

use crate::kept::Kept;
use disk::{MemDisk, SteadyDisk};
use event_script::Event;
use std::marker::Model;
use turn_lock::LockSeat;

/// The right of one actor to commit its events. It has no clone. Contracts see the chronicle that
/// it is of, the number of its actor, and the entries of this actor's events; while the kept value
/// is out with the seat, `taken` is its history.
#[derive(Drop)]
pub struct ActorSeat<'a, D: SteadyDisk + Drop = MemDisk> {
    pub(crate) seat: LockSeat<Kept<'a, D>>,
}

impl<'a, D: SteadyDisk + Drop> Model for ActorSeat<'a, D> {
    ghost use Rattle.task_tree.specs.Codes.{program_codes};
    ghost use Rattle.chronicle.specs.Seats.{ActorSeatOf, seat_of};

    ghost Value = { ActorSeatOf };

    ghost coded = { Prim.hlevel program_codes };

    ghost view = { λ s. seat_of s.seat };
}

impl<'a, D: SteadyDisk + Drop> ActorSeat<'a, D> {
    /// The number of its actor: 0 is the clearinghouse, and p + 1 the node of place p. While the
    /// kept value is out with the seat, the history has of the actor just the seat's entries.
    pub fn actor(&self) -> u64
        ensures actor { result ≡ self.now.actor }
        ensures own { IfSome self.now.taken (λ log. own actor_of self.now.actor log ≡ self.now.entries) }
    {
        self.seat.actor()
    }

    /// Whether an event is one of its actor.
    pub fn owns(&self, event: &Event) -> bool
        ensures { result ≡ (actor_number event.now == self.now.actor) }
    {
        let number = match event {
            Event::Start(place, _) | Event::AtNode(place, _) | Event::Crash(place) => u64::from(
                place.index(),
            ) + 1,
            Event::AtHouse(_) | Event::HouseCrash | Event::Cut(_) => 0,
        };
        number == self.seat.actor()
    }
}
