ghost use Rattle.std.specs.Prelude.{◌≡◌, None, ◌∷◌};
ghost use Rattle.turn_lock.specs.Claims.{claim};

use crate::history::KeepsHistory;
use crate::law::{Gather, SeatView};
use crate::lock::TurnLock;
use crate::seat::LockSeat;
use atomic_table::Seat;
use std::marker::Model;

/// Seats that came back to end their lock, made by `TurnLock::gathering`. It takes no memory,
/// however many they are. Contracts see the lock that they are of, and for each seat, the last one
/// first, its actor with this actor's entries.
#[derive(Drop)]
pub struct Gathering<T: KeepsHistory> {
    pub(crate) all: Seat<Option<T>, SeatView<T::Entry, T::Fixed>>,
}

impl<T: KeepsHistory> Model for Gathering<T> {
    ghost use Rattle.std.specs.Prelude.{◌≡◌, None, []};
    ghost use Rattle.turn_lock.specs.Seats.{GatheredOf};

    ghost Value = { GatheredOf T.Entry };

    ghost view = { λ g. record { table = g.all.table_id; claims = g.all.me.0.claims } };

    ghost invariant = { λ g. (g.all.me.0.taken ≡ None) × (g.all.me.1 ≡ []) };
}

impl<T: KeepsHistory + Drop> Gathering<T> {
    /// Takes in one seat more, of the same lock, which hasn't the value.
    pub fn add(&mut self, lock: &TurnLock<T>, seat: LockSeat<T>)
        requires lock { self.old.table ≡ lock.now.table }
        requires seat { (seat.table ≡ lock.now.table) × (seat.taken ≡ None) }
        ensures { self.new ≡ record {
          table = self.old.table;
          claims = claim seat.actor seat.entries ∷ self.old.claims;
        } }
    {
        let LockSeat { seat, actor: _ } = seat;
        lock.table.shared.join_seat::<Gather>(&mut self.all, seat);
    }
}
