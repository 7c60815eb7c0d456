//! A worker that starts anew can bring a run to its outcome alone.
//!
//! Where the clearinghouse of a run is open, has no outcome and doesn't grant the root to anybody,
//! eight events of one new worker lead to the outcome, for a job whose meaning is a value: it
//! starts, is listed, hears that it is, asks for work, is granted the root's task, takes it,
//! evaluates it whole and tells its value (`a_newcomer_alone_finishes`). What other nodes hold, and
//! which packets were lost, doesn't matter. The root is free behind a moment at which its holder
//! was silent for too long, and where a clearinghouse was opened (`a_newcomer_can_come`). So
//! whatever became of all other work, it can be had again. That these events come isn't said, nor
//! that memory suffices for them.
#![tactic(auto)]

mod newcomers;

pub use newcomers::{a_newcomer_alone_finishes, a_newcomer_can_come};
