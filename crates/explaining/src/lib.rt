//! What a person is told of a fault, behind the line that says it: where it is, what stands there,
//! and what is wrong with it.
//!
//! A fault of a text has its file, line and column, each counted from 1, a sentence, the line as it
//! stands there, and carets below what is meant. A tab counts as one column. Bytes that aren't
//! printed are shown escaped, and a long line is cut around the carets.
#![tactic(auto)]

mod files;
mod forms;
mod habits;
mod kinds;
mod lines;
mod place;
mod sentences;
mod told;
mod unexpected;
mod wanted;

pub use files::{explain_files, explain_replay, explain_text};
pub use sentences::sentence_of;
pub use told::{explain_job, explain_line, explain_number};
