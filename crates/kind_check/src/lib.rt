//! The kinds of names in a task program: an accepted program's bodies are never stuck.
#![tactic(auto)]

mod checked;
mod checker;
mod code;
mod expressions;
mod index;
mod laws;
mod least;
mod names;
mod resolve;
mod scope;
mod statements;
mod tables;
mod turn;
mod walk;

pub use checked::{Checked, KindError, KindFault};
pub use checker::check;
pub use code::{BlockCode, Code, EndCode, Leaf, SlotCode};
pub use laws::{accepted_threads_are_few, equal_programs_are_alike, joins_have_few_holes};
pub use turn::{Kid, Slot, Turn};
