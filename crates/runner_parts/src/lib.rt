//! What the threads of a run have of it, beside the world and its lock: how it is made and which
//! faults come, their bells and counts, who is listed and leaves, and the tickets of a node's body
//! workers.
#![tactic(auto)]

mod bells;
mod config;
mod counts;
mod desk;
mod fates;
mod gate;
mod leavers;
mod line;
mod members;
mod pace;
mod plans;
mod probe;
mod resting;
mod turn;

pub use bells::{Bells, RunBells};
pub use config::{Faults, RunConfig};
pub use counts::{Counts, End, Turns};
pub use desk::{Desk, Home, Returned, Ticket, most_tickets};
pub use fates::{Fate, Fates};
pub use gate::{Gate, Open};
pub use leavers::Leavers;
pub use line::Line;
pub use members::Members;
pub use pace::Pace;
pub use plans::Plans;
pub use probe::can_make;
pub use resting::{
    YIELDS, asks_in_vain, is_beginning, is_to_sleep, pause, pauses, rest, rest_idle, wait,
};
pub use turn::{Evaluated, Finished, Found};
