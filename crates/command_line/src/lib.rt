//! What a command line of `cilknow` asks for, and which files it names.
//!
//! [`read_words`] reads the words, says what is wrong with them, or gives the text of a help. Words
//! that are understood and ask for nothing that is there are a [`Misuse`]. [`Named`] has the files
//! that are named, by their [`Place`] on the command line.
#![tactic(auto)]

mod helps;
mod misuse;
mod named;
mod words;

pub use misuse::Misuse;
pub use named::{Named, Place, beside_of, folder_of, is_one_file};
pub use words::{
    Asked, DrawWords, FaultWords, JobWords, MergeWords, RunWords, Subcommand, Words, read_words,
};
