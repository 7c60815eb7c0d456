//! One turn: the end that the body of a thread reaches on numbers.
#![tactic(auto)]

mod body;
mod done;
mod expression;
mod walk;

pub use body::turn;
pub use done::Done;
pub use expression::operate;
pub use kind_check::{Kid, Slot, Turn};
