//! What a run does, in words: a line for each event, with the thread body that ran, the packets
//! that were sent and the values that were put into slots.
//!
//! A worker is written by its start word, the clearinghouse in epoch N as `HN` and that of any
//! epoch as `house`, and a grant by its minter and its number, as `3/1` or `H1/1`. The words are
//! for people: nothing reads them back, and no clause speaks of them.
#![tactic(auto)]

mod fault;
mod names;
mod narrator;
mod packet;
mod stats;
mod telling;
mod turn;

pub use fault::NarratorFault;
pub use narrator::Narrator;
pub use packet::write_packet;
pub use stats::{write_counts, write_turns};
pub use turn::{Ran, ran_in, write_task, write_turn};
