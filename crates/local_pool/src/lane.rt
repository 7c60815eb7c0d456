// The rule that the queue of turns and its passes keep, and what each step tells the pass that
// takes it.
ghost use Rattle.std.specs.Prelude.{◌+◌, ◌-◌, ◌++◌, [], None};
ghost use Rattle.local_pool.specs.Lanes.{lane, Ruled, Marks, Puts, Takes, Found};

use crate::stamped::Stamped;
use crossbeam_queue::protocol::{Join, Lesson, Outcome, Protocol, Split};
use std::collections::LinkedList;

// What a pass knows: its parts of the right to put and take; the turns that it put and that it
// took, each with its number; and the stamp of all turns, once there is one. `never` is 0, of which
// a count of the turns tells a little (`MayHaveAny`). No value of it is made.
pub(crate) struct Lane<D, S> {
    pub never: u64,
    pub parts: u64,
    pub put: LinkedList<(u64, D)>,
    pub taken: LinkedList<(u64, D)>,
    pub stamp: Option<S>,
}

// The turns that were put have one order and one stamp; those that were taken come first.
pub(crate) struct Order;

impl<D: Stamped> Protocol<D, Lane<D, D::Stamp>> for Order {
    ghost holds = { Ruled D.stamp };

    ghost first = { lane 0 1025 [] [] None };
}

// The turn is the first, and its stamp is that of all turns from now on.
pub(crate) struct DidMark;

impl<D: Stamped> Outcome<D, Lane<D, D::Stamp>> for DidMark {
    ghost then = { Marks D.stamp };
}

impl<D: Stamped> Lesson<D, Lane<D, D::Stamp>> for DidMark {
    ghost fact = { Found D.stamp };
}

// The turn goes to the end of what the pass put.
pub(crate) struct DidPut;

impl<D: Stamped> Outcome<D, Lane<D, D::Stamp>> for DidPut {
    ghost then = { Puts };
}

impl<D: Stamped> Lesson<D, Lane<D, D::Stamp>> for DidPut {
    ghost fact = { Found D.stamp };
}

// The turn goes to the end of what the pass took.
pub(crate) struct DidTake;

impl<D: Stamped> Outcome<D, Lane<D, D::Stamp>> for DidTake {
    ghost then = { Takes D.stamp };
}

impl<D: Stamped> Lesson<D, Lane<D, D::Stamp>> for DidTake {
    ghost fact = { Found D.stamp };
}

// One part and the stamp, for a new pass.
pub(crate) struct DealPass;

impl<D, S> Split<Lane<D, S>> for DealPass {
    ghost left = { λ v. lane v.never (v.parts - 1) v.put v.taken v.stamp };

    ghost right = { λ v. lane v.never 1 [] [] v.stamp };
}

// All parts and turns of two passes.
pub(crate) struct GatherPasses;

impl<D, S> Join<Lane<D, S>> for GatherPasses {
    ghost both = { λ v w. lane v.never (v.parts + w.parts) (v.put ++ w.put) (v.taken ++ w.taken) v.stamp };

    ghost spent = { lane 0 0 [] [] None };
}
