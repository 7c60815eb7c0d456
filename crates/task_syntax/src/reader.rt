//! The reader: a recursive descent over the tokens of a text. Each function answers what it read
//! and the tokens behind.

mod blocks;
mod expressions;
mod statements;
mod threads;
mod tokens;

pub use threads::program;
