//! The tokens of a task program's text, each the longest that stands there, with its byte offset.
#![tactic(auto)]

mod front;
mod kinds;
mod tokenizing;

pub use kinds::{Operator, Run, Sign, Token, TokenKind, Word};
pub use tokenizing::tokenize;
