//! Each step of the open clearinghouse is a list of moves on tables that show it.
//!
//! Tables show it (specs/Shows) where what each of its readers gives stands in the rows of its name
//! in its epoch: its roster, the root's grant, its last answers, the outcome. Who holds the root's
//! grant, when members were heard and the moment stand in no table.
//!
//! `what_the_house_does_is_moves`: whatever packet comes to an open clearinghouse that is shown,
//! and whatever moment, there are right moves after which it is shown as it is then, with all that
//! it sends; the rows of all other names stay. A Steal is Stealing, a Result Returning, a Join
//! Joining, a Beat Hearing, a Leave Leaving, a moment Moments, and what a changed roster does to
//! the root's grant Settling. A list of workers that changes is published as the next roster
//! (Publishing): nobody is taken off, who was dead or left stays so, and one that is newly left
//! said so, to this epoch, and left to one that lives.

mod laws;

pub use laws::what_the_house_does_is_moves;
