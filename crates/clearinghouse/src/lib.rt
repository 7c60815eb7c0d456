//! The clearinghouse: it lists the workers of an epoch, grants the root task, and keeps the outcome
//! in a checkpoint.
#![tactic(auto)]

mod book;
mod cases;
mod error;
mod house;
mod laws;
mod parts;
mod sending;

pub use error::HouseError;
pub use house::House;
pub use laws::{each_step, few_versions, full_roster, late_moment, refusals, stopped};
pub use parts::{Enlisted, HouseStep, RootGrant, Stop};
