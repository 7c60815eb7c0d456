//! The frames that were stolen from a subcomputation, by the grants that gave them away.
#![tactic(auto)]

mod store;

pub use store::Records;
