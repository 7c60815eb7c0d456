//! Texts of task programs: the reader, and the printer.
#![tactic(auto)]

mod error;
mod parsing;
mod printing;
mod reader;

pub use error::{ParseError, PrintError};
pub use parsing::{LONGEST_TEXT, answers_are_exact, parse};
pub use printing::{equal_programs_print_alike, print};
pub use task_tree::{Argument, Block, End, Expr, Given, Let, Name, Operator, Program, Thread, Use};
