//! The run of a job on one node.
#![tactic(auto)]

mod begin;
mod fault;
mod laws;
mod run;
mod turn;

pub use fault::RunFault;
pub use laws::runs_end_once;
pub use run::{evaluate, evaluate_counted};
