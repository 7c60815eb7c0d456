// The rule that the deque and the tokens of a pool keep, and what each step tells the token that
// takes it.
ghost use Rattle.std.specs.Prelude.{◌+◌, ◌-◌, ◌++◌, []};
ghost use Rattle.local_pool.specs.Hands.{hand, Accounted, Offers, Takes, FoundEmpty};

use crossbeam_deque::protocol::{Join, Outcome, Protocol, Split};
use std::collections::LinkedList;

// What a token knows: whether it is the owner's (1, else 0), its parts of the right to take, the
// tickets that it offered, and those that it took. `never_empty` is 0, as only who finds the pool
// empty is told (`MayBeEmpty`). No value of it is made.
pub(crate) struct Hand<T> {
    pub never_empty: u64,
    pub owners: u64,
    pub parts: u64,
    pub offered: LinkedList<T>,
    pub taken: LinkedList<T>,
}

// What was offered is what was taken and what the deque has.
pub(crate) struct Law;

impl<T> Protocol<T, Hand<T>> for Law {
    ghost holds = { Accounted };

    ghost first = { hand 0 1 1025 [] [] };

    ghost guest = { hand 0 0 0 [] [] };
}

// The tickets go to the end of what the owner offered.
pub(crate) struct Offered;

impl<T> Outcome<T, Hand<T>> for Offered {
    ghost then = { Offers };
}

// The tickets go to the end of what the token took.
pub(crate) struct Took;

impl<T> Outcome<T, Hand<T>> for Took {
    ghost then = { Takes };

    ghost empty = { FoundEmpty };
}

// One part, for a new worker.
pub(crate) struct Deal;

impl<T> Split<Hand<T>> for Deal {
    ghost left = { λ v. hand v.never_empty v.owners (v.parts - 1) v.offered v.taken };

    ghost right = { λ v. hand v.never_empty 0 1 [] [] };
}

// All parts and tickets of two tokens.
pub(crate) struct Gather;

impl<T> Join<Hand<T>> for Gather {
    ghost both = { λ v w. hand v.never_empty (v.owners + w.owners) (v.parts + w.parts) (v.offered ++ w.offered) (v.taken ++ w.taken) };

    ghost spent = { hand 0 0 0 [] [] };
}
