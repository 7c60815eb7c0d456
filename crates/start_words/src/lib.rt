//! Start words: numbers that threads draw from one word without waiting, none of them twice.
#![tactic(auto)]

mod law;
mod pen;
mod table;
#[cfg(test)]
mod tests;

pub use pen::{Pen, PenSpent};
pub use table::WordTable;
