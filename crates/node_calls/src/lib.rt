//! What each call of its own does at a node.
#![tactic(auto)]

mod calls;
mod departing;
mod turns;
mod wholes;

pub use calls::{ask, resend};
pub use departing::depart;
pub use turns::{exec, exec_ready, is_own};
pub use wholes::{is_own_whole, send_whole, whole_ready};
