//! Who has the work of a worker that left: its heir, or that one's heir, and so on.
#![tactic(auto)]

mod bearers;

pub use bearers::{Bearers, Bearing, bearer_of};
