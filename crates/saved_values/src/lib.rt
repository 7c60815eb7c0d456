//! Values of tasks that were saved, each with its task's place, so that a run which begins anew
//! needn't compute them again.
//!
//! A place whose value is saved has 1 to 23 steps, of which the last one goes to a kid. Places
//! stand in one order: shorter ones first, and those of one length by their steps from the root on.
//! So what is kept first is what stands for most work, where tasks halve theirs. A table has at
//! most 64 values by that order; where it is full, the last one goes.
//!
//! **Proved**: the order of places is a total one, in which places are equal that are the same; a
//! table stays in that order, without a place that comes twice; `SavedTable::put` takes a value
//! just where its place isn't saved and it isn't dropped at once, and else changes nothing;
//! `value_at` gives what is saved of a place, and `below` what is saved below one. A place and a
//! table take no memory.
#![tactic(auto)]

mod list;
mod place;
mod table;
mod value;

pub use list::SavedList;
pub use place::{MOST_SAVED_STEPS, SavedPlace};
pub use table::{MOST_SAVED, SavedTable, below, copied, law_places_are_ordered};
pub use value::SavedValue;
