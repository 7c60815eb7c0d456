//! The fields of packets: how each stands in bytes, and its reader, its writer and the test of what
//! can be written.
#![tactic(auto)]

mod fault;
pub mod fits;
mod input;
mod laws;
pub mod read;
pub mod skip;
pub mod write;

pub use fault::{Fault, ReadError};
pub use input::Input;
pub use laws::one_spelling;
