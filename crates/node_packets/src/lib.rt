//! What each packet does at a node.
#![tactic(auto)]

mod grants;
mod leaving;
mod offers;
mod outcomes;
mod packets;
mod pieces;
mod requests;

pub use packets::on_bytes;
