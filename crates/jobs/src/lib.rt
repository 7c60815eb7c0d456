//! Jobs: how a program's text, an input and a number become a job, and which fault is told where
//! they don't.
#![tactic(auto)]

mod fault;
mod files;
mod job;
mod laws;

pub use fault::{FileFault, JobFault};
pub use files::{bytes_within, text_bytes};
pub use job::{job_of, program_of};
pub use laws::one_text_one_outcome;
