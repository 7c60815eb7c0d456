//! A node: what each packet and each call does at it, and what it shows of itself.
#![tactic(auto)]

mod named;
mod node;
mod views;

pub use node::Node;
pub use node_steps::{Fill, NodeError, Step, Victim, Work};
pub use views::{SubState, SubView};
