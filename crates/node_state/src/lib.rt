//! The parts of a node, and which of its ready frames is chosen.
#![tactic(auto)]

mod assemblies;
mod node;
mod parts;

pub use assemblies::Assembly;
pub use node::Parts;
pub use parts::{Confirmed, LastTurn, Seen, State};
