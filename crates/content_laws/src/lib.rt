//! Each change of a subcomputation's content is a move on the tables of whole runs.
//!
//! Whole runs are proved safe over views, in which the content of a subcomputation is a few tables
//! by frame number (`table_laws`). The code changes lists of frames and of records (`sub_rules`).
//! Here the two are tied together: tables *show* a content where what its readers give at each
//! number is in them (specs/Shown), and from a content that is shown each change leads to one that
//! is shown by the tables after one move, which has its guard and its cause (specs/Moved). The
//! theorems are contracts of functions that do nothing.
//!
//! Of a content they ask what its holder keeps: it is sound, and its frames and its records stand
//! in their order. That it agrees with the serial meaning isn't needed: that follows of the moves
//! alone.
#![tactic(auto)]

mod laws;

pub use laws::{
    changes_keep_contents, contents_are_shown, ends_leave_nothing, frames_done_again_are_moves,
    grants_are_moves, records_are_shown, renames_are_moves, results_are_moves,
    results_told_again_are_moves, tasks_begin, turns_are_moves,
};
