//! Commands of transcripts on scripts of events.
//!
//! - `script TEXT` reads a text, with `|` for the end of a line, as a script of events, and
//!   `script-bytes HEX` reads bytes as one.
//!
//! It answers each event by its line, `no events` where there are none, or the first line that is
//! refused, as `line 3`. Behind E9, when out of memory, the same call is made once more.
#![tactic(auto)]

mod scripts;

pub use scripts::Scripts;
