//! The pool of a node: tickets that its owner offers and that body workers steal without waiting,
//! each handed out once, and the queue by which finished turns come back, first in, first out, all
//! with the same stamp.
#![tactic(auto)]

mod lane;
mod law;
mod owner;
mod pool;
mod stamped;
#[cfg(test)]
mod tests;
mod turns;
mod worker;

pub use owner::Owner;
pub use pool::LocalPool;
pub use stamped::Stamped;
pub use turns::{TurnKeeper, TurnPass, TurnQueue};
pub use worker::BodyWorker;
