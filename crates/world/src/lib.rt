//! Runs of a world: the nodes and the clearinghouse of a job, by lists of events and by scripts.
//!
//! `run` and `replay` carry out events one after another and say what is true of every run
//! (specs/Runs): each event is a step of the world, as crate `world_steps` defines it; in each
//! world no slot was filled twice and each value in one is the serial program's, no grant has two
//! live holders, a recorded outcome is the job's meaning and stays, what was sent and what is held
//! agrees with the serial meaning, and the work of each wanted grant is somewhere, or is cut off.
//! That it is so of every list of events is the law of crate `run_laws`.
#![tactic(auto)]

mod runs;
mod watch;

pub use event_script::line;
pub use runs::{ReplayError, RunEnd, replay, replay_watched, run};
pub use watch::{Both, Unwatched, Watch};
pub use world_steps::{EventAnswer, NoMemory, RunCounts, World};
