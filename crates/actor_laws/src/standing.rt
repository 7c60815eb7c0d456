//! By its own roster nobody waits for somebody who is gone, and who goes on is live.
//!
//! A node stands (specs/Standing) where, by its own roster, nobody is gone, which is dead or left,
//! for whom it waits: the hosts of what it holds, the holders of its records, and the victim of its
//! request. It lasts (specs/Lasting) where it is live by its own roster, and, as a leaver that
//! holds something, so is its heir. The root's grant stands (specs/Root) where its holder is live
//! by the clearinghouse's members. Each packet and each call keeps all three: so recovery and
//! departures leave nobody waiting for a worker of whom it was told that it is gone.

mod house;
mod node;

pub use house::what_the_clearinghouse_does_stands;
pub use node::{what_a_node_does_lasts, what_a_node_does_stands};
