//! Replaying files: a program's text and a script of events, from the files that hold them to what
//! the run came to.
#![tactic(auto)]

mod fault;
mod files;
mod naming;
mod noting;
mod replayed;
mod words;

pub use fault::ReplayFault;
pub use files::{replay_files, replay_words};
pub use naming::replay_named;
pub use replayed::{Replayed, replay_script, write_replayed};
pub use words::{
    ReplayWords, WordsFault, explain_word, file_word, flag, help_of, input_of, input_word,
    names_word, number_word, own_words, packets_word, replay_words_of, with_replay_words,
};
