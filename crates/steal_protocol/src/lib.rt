//! Requests for work: a thief has one at a time, and a victim keeps its last answer to each thief.
#![tactic(auto)]

mod asker;
mod replies;

pub use asker::{AskError, Asker, Request};
pub use replies::{Heard, Replies, Reply};
