//! Subcomputations: what a grant's task became at the node that holds it.
#![tactic(auto)]

mod laws;
mod sub;

pub use laws::{fitting_tasks_are_few, renaming_keeps_fitting};
pub use sub::{ReadiedOf, Sub, SubRedo};
