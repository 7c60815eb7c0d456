//! A world under a lock, with the history that led to it: what several threads do to the world is
//! one run of it.
//!
//! **Actors and seats.** Each event is of one actor: the clearinghouse is actor 0, and the node of
//! place p is actor p + 1. Each actor has one seat, which goes to the thread that acts for it, and
//! without which its events can't be committed. Once all seats are back, `finish` gives the trace
//! of all that was committed.
//!
//! **What is kept.** Under the lock of `turn_lock` lies a history, a list of events with what was
//! told of each, and the world. A commit takes both out, carries out its event as a step of that
//! world, puts the event with its answer at the end of the history, and puts both back. So events
//! come one after another, and the thread bodies of the program can be evaluated outside the lock:
//! a turn that was evaluated before is used where it is the ready frame's own, and put aside else.
//!
//! **Proved**, whatever threads do and in whatever order. A history under the lock is that of a
//! run, over the very disk that the chronicle was made with, and the world beside it is the one to
//! which that run leads; `finish` gives the disk of that world. Once an event found no memory (E9),
//! each later one does, the history stays, and the world differs at most in that a clearinghouse
//! that was to answer is stopped. `Kept::enter` adds exactly its event, with the answer of a step
//! from the world that was kept; by `commit` and `commit_evaluated` this entry becomes the seat's
//! next one, or on E9 nothing of the seat changes. The trace of `finish` has of each actor just the
//! entries of its seat, in their order, and no others; it is the history of a run. Where what is
//! saved on the first disk agrees, as it does on one that was formatted for the job, an outcome
//! that is told is the job's meaning, and all is promised of this run that `run_laws` promises: no
//! slot is filled twice, each value is the serial program's, no grant has two live holders, an
//! outcome stays. The script of a trace is read again as just its events, so that whoever has it
//! can replay the run. What `ready` and `commit_evaluated` hand out fits the program, so that its
//! turn can be evaluated with no further test.
//!
//! A chronicle may be shared by threads, and a seat may go to another one (`proofs/Crossing`).
//!
//! **Shown by runs alone**: that `new` and a commit succeed while there is memory, and that
//! `ready`, `commit_evaluated`, `packet_for` and `commit_delivery` find what is there.
//!
//! **Not promised**: that a commit ever gets its turn, and in which order actors do, beyond each
//! actor's own; of `ready`, `packet_for`, `sent` and `sent_to`, and of a frame that
//! `commit_evaluated` hands out, which are hints, that they tell what the world has, by the time
//! that somebody acts on it. That a commit's step is one from the world that it found under the
//! lock is said by `Kept::enter`, and of the trace as a whole; the clause of `commit` itself can't
//! name what a lock held.
#![tactic(auto)]

mod beginning;
mod chronicle;
mod kept;
mod seat;
mod sent;
mod trace;

pub use beginning::Beginning;
pub use chronicle::{
    Arrived, Chronicle, Continued, Delivery, Finished, Receiver, Wanted, delivery_to,
};
pub use kept::{Committed, Entry, Kept};
pub use seat::ActorSeat;
pub use trace::Trace;
