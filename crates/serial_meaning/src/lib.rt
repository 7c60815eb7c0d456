//! The serial meaning of a job: the outcome that every run of it must have.
#![tactic(auto)]

mod compile;
mod counting;
mod flat;
mod instr;
mod job;
mod keeping;
mod kept;
mod laws;
mod machine;
mod meaning;
mod sources;
mod whole;

pub use counting::{CountsTurns, TurnCounts, Uncounted};
pub use flat::Flat;
pub use ids::Outcome;
pub use job::{Job, JobError};
pub use keeping::{ALL_LEVELS, Keeper, UnderWay};
pub use laws::{
    equal_programs_mean_alike, full_frame_holds_its_task, join_has_its_successors_value,
    kids_value_fills_its_slot, sent_value_is_the_tasks, successor_agrees,
    too_deep_anywhere_is_too_deep,
};
pub use meaning::{SerialError, serial, serial_counted};
pub use whole::{Unfinished, Whole};
