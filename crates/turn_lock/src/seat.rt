ghost use Rattle.std.specs.Prelude.{◌≡◌, ◌<◌, ◌≤◌, IfSome};
ghost use Rattle.turn_lock.specs.Histories.{own};

use crate::history::KeepsHistory;
use crate::law::SeatView;
use atomic_table::Seat;
use std::marker::Model;

/// The right of one actor to take the value out of a lock and to put it back. It has no clone, and
/// can go to another thread.
///
/// Contracts see what the seat knows: the lock that it is of and how many actors that has, its
/// actor, this actor's entries in the history, the newest last, and what stays the same of the
/// value. While the value is out with the seat, `taken` is the history that it had when it was
/// taken; else it is `None`.
#[derive(Drop)]
pub struct LockSeat<T: KeepsHistory> {
    pub(crate) seat: Seat<Option<T>, SeatView<T::Entry, T::Fixed>>,
    pub(crate) actor: u64,
}

impl<T: KeepsHistory> Model for LockSeat<T> {
    ghost use Rattle.turn_lock.specs.Claims.{first_entries};
    ghost use Rattle.turn_lock.specs.Seats.{SeatOf};

    ghost Value = { SeatOf T.Entry T.Fixed };

    ghost use Rattle.turn_lock.specs.Ends.{IsSeat};

    ghost view = { λ s. record { table = s.seat.table_id; actors = s.seat.me.0.actors; actor = s.actor; entries = first_entries s.seat.me.0.claims; taken = s.seat.me.0.taken; fixed = s.seat.me.0.fixed } };

    ghost invariant = { λ s. IsSeat T.actor_of s.seat s.actor (first_entries s.seat.me.0.claims) };
}

impl<T: KeepsHistory> LockSeat<T> {
    /// The number of its actor. The clauses tell besides what is so of each seat: how high that
    /// number can be, and, while the value is out with the seat, that the history taken has of the
    /// actor just the seat's entries.
    pub fn actor(&self) -> u64
        ensures actor { result ≡ self.now.actor }
        ensures below { self.now.actor < self.now.actors }
        ensures few { self.now.actors ≤ 1024 }
        ensures own { IfSome self.now.taken (λ log. own T.actor_of self.now.actor log ≡ self.now.entries) }
    {
        self.actor
    }
}
