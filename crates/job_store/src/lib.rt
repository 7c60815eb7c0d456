//! The store of a job on a disk, opened, and made where the disk is empty.
//!
//! **Proved**: what is opened is the record that the disk has, of the job that is asked for, or
//! that of a job that has just begun where the disk was empty; a disk that isn't the job's is
//! refused, and nothing on it changes.
#![tactic(auto)]

mod open;

pub use open::open_store;
