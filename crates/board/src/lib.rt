//! The board on which the outcome of a job stands once it is known: set once, and read by all
//! threads without waiting.
#![tactic(auto)]

mod notes;
mod posting;
#[cfg(test)]
mod tests;
#[cfg(test)]
mod turn_tests;

pub use notes::Note;
pub use posting::Board;
pub use serial_meaning::Outcome;
