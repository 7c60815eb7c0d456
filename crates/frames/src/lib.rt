//! The frames of one subcomputation, by their numbers.
#![tactic(auto)]

mod store;

pub use store::{Filled, Frames, is_full};
