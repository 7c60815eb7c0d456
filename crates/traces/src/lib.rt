//! Traces of actors, put into one order.
//!
//! Each node and each clearinghouse of a run over many machines may write down what it did, a line
//! each: its own events as lines of a script, by place 0, and `# take NAME` and `# sent NAME` for
//! the packets that came and that it sent. A packet's name is a digest of its bytes (specs/Names).
//! No clock and no common order is needed: `merge` finds an order in which each actor's lines
//! stand, all and in their order, and each packet comes behind its sending (specs/Merges), or tells
//! a line at which it can't go on. The order in which it all happened is such an order.
//! `Merged::script` is it as a script, in which comments tell the names of the packets in the order
//! in which they are sent.
#![tactic(auto)]

mod label;
mod line;
mod merged;
mod name;
mod ordering;
mod seat;
mod trace;

pub use label::Label;
pub use line::{Told, TraceLine};
pub use merged::{Entry, Merged};
pub use name::{PacketName, names_in, tells_packet};
pub use ordering::{MergeFault, Stuck, merge};
pub use seat::Seat;
pub use trace::{Trace, TraceFault};
