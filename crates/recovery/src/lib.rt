//! Recovery: what a newer roster does to the subcomputations of a node.
#![tactic(auto)]

mod alone;
mod laws;
mod plan;

pub use alone::{Alone, recover_alone};
pub use laws::{law_recoveries_are_told, recovery_alone_is_recovery_beside};
pub use plan::{Plan, Settled, Stopped, make_plan};
