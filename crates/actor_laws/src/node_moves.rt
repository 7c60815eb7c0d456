//! Each step of a worker is a list of moves on tables that show it.
//!
//! Tables show a worker (specs/Shows) where what each of its readers gives stands in the rows of
//! its name: its mode and roster, how many grants it minted and Steals it sent, what it waits for,
//! what it took and holds, its last answers, and which thieves have confirmed. A packet is shown
//! where what it says is in the tables: a Grant or an Offer is a transfer, a Result, a Steal or a
//! Leave one of those that were sent, and so on by its kind.
//!
//! `what_a_node_does_is_moves`: whatever packet comes to a worker that is shown, in whatever state,
//! and whatever call is made of it, there are right moves of its own name after which it is shown
//! as it is then, with all that it sends and fills; no other transfer is new. Each row of the
//! protocol's table has its lemma, by what it does: Granting, Taking, Changing (a turn), Hearing,
//! Rostering and Recovering, Offering, Departing, Leaving and LeavingRows, Resending; Table puts
//! them together. Which guard of a move is met by what is said there: by the case's own test, by
//! the rows, or by what is kept in all tables that moves lead to.

mod laws;

pub use laws::what_a_node_does_is_moves;
