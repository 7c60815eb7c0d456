// The rule that the word and the pens keep, and what each step tells the pen that takes it.
ghost use Rattle.std.specs.Prelude.{[]};
ghost use Rattle.start_words.specs.Hands.{hand, Drawn, Draws, Comes, kept_of, dealt, gathered};

use atomic_table::{Join, Play, Split, TableRule};
use std::collections::LinkedList;

// What a pen knows: its parts of the right to draw, and the numbers that it drew. No value of it is
// made.
pub(crate) struct Hand {
    pub parts: u64,
    pub drawn: LinkedList<u64>,
}

// The numbers in the pens' views are 1 to the word's count, each in one view, once. The key is the
// number of pens.
pub(crate) struct Law;

impl TableRule<(), Hand, usize> for Law {
    ghost holds = { Drawn };

    ghost first = { λ pens. hand pens [] };
}

// The number goes to the view of the pen that drew it.
pub(crate) struct Drew;

impl Play<(), Hand> for Drew {
    ghost then = { Draws };
}

// A new view with no part and no number.
pub(crate) struct Came;

impl Play<(), Hand> for Came {
    ghost then = { Comes };
}

// One part, for a new pen.
pub(crate) struct Deal;

impl Split<Hand> for Deal {
    ghost left = { kept_of };

    ghost right = { dealt };
}

// All parts and numbers of two views.
pub(crate) struct Gather;

impl Join<Hand> for Gather {
    ghost both = { gathered };

    ghost spent = { hand 0 [] };
}
