//! What each step of one actor, a worker or the clearinghouse, does, whatever the others do: the
//! laws of one step.
//!
//! Each step is a list of moves on tables that show the actor ([`node_moves`], [`house_moves`]),
//! and keeps agreement with the serial meaning, by value ([`actor_agreement`]). What goes over the
//! wire in Pieces is read as whole packets ([`whole_offers`]). Nobody waits for somebody who is
//! gone by its own roster ([`standing`]), and what a member does with what comes now is told by its
//! state ([`next`]). `run_laws` puts them together into laws of whole runs.
#![tactic(auto)]

pub mod actor_agreement;
pub mod house_moves;
pub mod next;
pub mod node_moves;
pub mod standing;
pub mod whole_offers;
