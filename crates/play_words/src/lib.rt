//! Transcripts: the words of a command line, bytes in hexadecimal digits, what becomes of a
//! command, and what commands answer.
#![tactic(auto)]

mod answers;
mod hex;
mod kept;
mod line;
mod numbers;
mod played;

pub use answers::{Answers, Ended};
pub use hex::bytes_of_hex;
pub use kept::keep;
pub use line::CommandLine;
pub use numbers::{byte, numbers_of, signed64, size, word32, word64};
pub use played::Played;
