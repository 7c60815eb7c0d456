//! The steps of a node: what each packet and each call leads to (`specs`), what a call tells of it,
//! and what those of both kinds share.
#![tactic(auto)]

mod changes;
mod error;
mod leaving;
mod node;
mod parts;
mod rosters;
mod sending;
mod work;

pub use error::NodeError;
pub use leaving::given_by;
pub use node::JobNode;
pub use parts::{Fill, Step, Victim};
pub use rosters::{News, news_of, says_live, status_of};
pub use sending::{
    fills_of, ignored, quiet, send_aborts, send_end, send_on, send_results, send_stops, sends,
};
pub use work::{Work, room_of, work_in};
