//! The ready frames of a node, by the levels of their places.
#![tactic(auto)]

mod level;
mod posts;

pub use posts::{Post, PostTest, Posts};
