//! Departure: a node that leaves offers what it holds to its heir, which accepts what fits.
#![tactic(auto)]

mod accepting;
mod freezing;

pub use accepting::accept_offer;
pub use freezing::{FreezeError, Move};
