// The rule that the word, the slot and the seats' views keep, and what each step tells the seat
// that takes it.
ghost use Rattle.turn_lock.specs.Views.{first_view, no_view, Accounted, Takes, Puts, Comes, left_of, dealt_of, gathered};

use crate::history::KeepsHistory;
use atomic_table::{Join, Play, Split, TableRule};
use std::collections::LinkedList;
use std::marker::Model;

// What is claimed for an actor: its entries, the newest last. No value of it is made.
pub(crate) struct Claim<E> {
    pub actor: u64,
    pub entries: LinkedList<E>,
}

impl<E> Model for Claim<E> {
    ghost use Rattle.turn_lock.specs.Claims.{ClaimOf};

    ghost Value = { ClaimOf E };

    ghost view = { λ c. record { actor = c.actor; entries = c.entries } };
}

// What a seat knows: the claims of the actors that it stands for; while it has the value, the
// history that this had when it was taken; what stays the same of the value; and how many actors
// there are (0: not known). No value of it is made.
pub(crate) struct SeatView<E, A> {
    pub claims: LinkedList<Claim<E>>,
    pub taken: Option<LinkedList<E>>,
    pub fixed: Option<A>,
    pub actors: u64,
}

// What a lock is told once: the number of actors, and what stays the same of its value.
#[derive(Drop)]
pub(crate) struct Terms<A> {
    pub actors: usize,
    pub fixed: A,
}

// The history of the value, where it is or as it was taken, has for each actor just the entries
// that its seat claims.
pub(crate) struct Law;

impl<T: KeepsHistory> TableRule<Option<T>, SeatView<T::Entry, T::Fixed>, Terms<T::Fixed>> for Law {
    ghost holds = { Accounted T.history T.actor_of T.fixed };

    ghost first = { first_view };
}

// The value leaves the slot, and the view has its history; or another actor has it, and nothing
// changes.
pub(crate) struct Took;

impl<T: KeepsHistory> Play<Option<T>, SeatView<T::Entry, T::Fixed>> for Took {
    ghost then = { Takes T.history T.actor_of T.fixed };
}

// The value is in the slot again, and the view claims what its history has.
pub(crate) struct PutBack;

impl<T: KeepsHistory> Play<Option<T>, SeatView<T::Entry, T::Fixed>> for PutBack {
    ghost then = { Puts T.history T.actor_of };
}

// A new view that stands for nobody.
pub(crate) struct Came;

impl<T: KeepsHistory> Play<Option<T>, SeatView<T::Entry, T::Fixed>> for Came {
    ghost then = { Comes };
}

// The first actor, for a new seat.
pub(crate) struct Deal;

impl<E, A> Split<SeatView<E, A>> for Deal {
    ghost left = { left_of };

    ghost right = { dealt_of };
}

// The actors of two views.
pub(crate) struct Gather;

impl<E, A> Join<SeatView<E, A>> for Gather {
    ghost both = { gathered };

    ghost spent = { no_view };
}
