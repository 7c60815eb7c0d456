use crate::numbers::{signed64, word64};

/// A command line of a transcript, taken apart into its words, parted by single blanks.
#[derive(Clone, Copy)]
pub struct CommandLine<'a> {
    text: &'a str,
}

impl<'a> CommandLine<'a> {
    pub fn of(text: &'a str) -> CommandLine<'a> {
        CommandLine { text }
    }

    /// The text from a word on, counted from 0; none where there are fewer words.
    fn from(&self, index: usize) -> Option<&'a str> {
        let mut rest = self.text;
        for _ in 0..index {
            match rest.split_once(' ') {
                Some((_, behind)) => rest = behind,
                None => return None,
            }
        }
        Some(rest)
    }

    /// The word at an index, counted from 0; none where there are fewer words.
    pub fn word(&self, index: usize) -> Option<&'a str> {
        let rest = self.from(index)?;
        match rest.split_once(' ') {
            Some((word, _)) => Some(word),
            None => Some(rest),
        }
    }

    /// The text from a word on, empty where there are fewer words.
    pub fn rest(&self, index: usize) -> &'a str {
        match self.from(index) {
            Some(rest) => rest,
            None => "",
        }
    }

    /// The word at an index as a number; none where it is no number from 0 to 2^64 - 1 in decimal
    /// digits.
    pub fn number(&self, index: usize) -> Option<u64> {
        word64(self.word(index)?)
    }

    /// The word at an index as a number; none where it is no number of 64 bits with a sign in
    /// decimal digits.
    pub fn signed(&self, index: usize) -> Option<i64> {
        signed64(self.word(index)?)
    }
}
