//! The tree of a task program, apart from how it is read and printed.
#![tactic(auto)]

mod tree;

pub use task_tokens::Operator;
pub use tree::{Argument, Block, End, Expr, Given, Let, Name, Program, Thread, Use};
