//! Each step of a node and of the clearinghouse keeps agreement with the serial meaning, by value.
//!
//! A node agrees (specs/Values) where each content that it holds does, and what its last answers to
//! thieves give away; a packet where the task of its Grant or the content of its Offer does.
//! `what_a_node_does_agrees`: whatever packet that agrees comes to a node that agrees, in whatever
//! state, and whatever call is made of it, it agrees after that, and so does all that it sends; and
//! each value that is put into a slot is the one that the serial run puts there.
//! `what_the_house_does_agrees` says it of the clearinghouse. That a Result tells the outcome of
//! the task that was granted, and that a grant is new, is no matter of one step: it is asked here,
//! and follows from the whole run.

mod laws;

pub use laws::{what_a_node_does_agrees, what_the_house_does_agrees};
