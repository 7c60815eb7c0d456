//! A lock round a value that keeps a history: threads take the value out in turn, add entries to
//! its history, and put it back.
//!
//! **Seats.** Each entry is of one actor. A lock has a fixed number of actors, and each of them has
//! one seat, without which the value can't be taken. A seat goes to the thread that acts for its
//! actor, and comes back in the end.
//!
//! **The lock** is one word and one slot of `atomic_table`, and takes no `Mutex`. The word is 0
//! while the value is in the slot, else the number of the actor that has it, counted from 1. Two
//! kinds of step change it. To take, a seat swaps its number for the 0 and the value leaves the
//! slot; a try that finds another number changes nothing. To put, the value goes back into the slot
//! and the word becomes 0. In between the value is its taker's own, as any other value that it has.
//!
//! **The rule** that holds between any two steps (`specs/Views.antt`) speaks of what each seat
//! knows, its view: the entries of its actor. While the value is in the slot, its history has for
//! each actor just the entries of the view that claims this actor, in their order, and no others.
//! While it is out, the history that it had when it was taken does, and its taker's view remembers
//! that history. A step changes the view of the seat that takes it and no other: by a put, the view
//! has the entries that the history now has of its actor.
//!
//! **Proved**, whatever threads do and in whatever order. The value is with one thread at a time:
//! it is moved, never copied. Who takes it finds of its own actor just the entries that its seat
//! knows, whatever others wrote in between. A refused try names another actor of the lock, and
//! changes nothing. Once all seats are back, `close` gives the value, whose history has each
//! actor's entries, in their order, each once, and no others: none is lost, doubled, changed or
//! invented. Of a value that comes out no more is known than this, what never changes of it
//! (`KeepsHistory::Fixed`), and what its type keeps as an invariant: so an invariant is to say what
//! a history means for the rest of the value.
//!
//! **Shown by tests alone**: that `new` succeeds while there is memory; that a try finds the value
//! where it is in the lock, and else the actor that has it; that a thread which sleeps counts as
//! waiting, and is woken by a put; that `take` comes to an end. For the last there is also an
//! argument. A thread sleeps only while the word has the number that it saw there, of a holder that
//! is still to put the value back. It says that it waits before it looks at the word, and each
//! `put` frees the word, looks then whether anybody waits, and wakes one sleeper if so. This one
//! takes the value, and wakes the next when it puts it back, or sleeps behind another holder, which
//! will. So no sleeper is left behind as long as each holder puts the value back. Nothing is
//! promised of the order in which threads get it, nor that each does.
#![tactic(auto)]

mod gathering;
mod history;
mod law;
mod lock;
mod seat;
#[cfg(test)]
mod tests;

pub use gathering::Gathering;
pub use history::KeepsHistory;
pub use lock::TurnLock;
pub use seat::LockSeat;
