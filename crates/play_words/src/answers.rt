use crate::hex::digit_of;
use std::alloc::{AllocError, Global};
use std::fmt::{Debug, Display};
use std::io::{self, ErrorKind, Write};

/// So many bytes are gathered before they are handed on, and room is there for as many again.
const MOST: usize = 1 << 15;

/// Why a transcript isn't played on.
#[derive(Clone, Copy)]
pub enum Ended {
    /// There is no memory for the lines themselves.
    Memory,
    /// The lines, or a file of theirs, can't be read or written.
    Output,
}

/// What commands answer, gathered until it is printed. No call of it fails: once there was no
/// memory, for its text or for whoever writes it, it says so and takes no more.
#[derive(Drop)]
pub struct Answers {
    text: Vec<u8>,
    ended: Option<Ended>,
}

impl Answers {
    pub fn new(alloc: Global) -> Result<Answers, AllocError> {
        Ok(Answers {
            text: Vec::with_capacity(alloc, 2 * MOST)?,
            ended: None,
        })
    }

    /// There was no memory: nothing more is written.
    pub fn lack_memory(&mut self) {
        self.ended = Some(Ended::Memory);
    }

    /// A file failed: nothing more is written.
    pub fn fail(&mut self, error: &io::Error) {
        self.ended = Some(match error.kind() {
            ErrorKind::OutOfMemory => Ended::Memory,
            _ => Ended::Output,
        });
    }

    /// Why the transcript isn't played on, where it isn't.
    pub fn ended(&self) -> Option<Ended> {
        self.ended
    }

    /// What was made; none where there was no memory for it, which is kept in mind.
    pub fn made<T>(&mut self, made: Result<T, AllocError>) -> Option<T> {
        match made {
            Ok(it) => Some(it),
            Err(_) => {
                self.lack_memory();
                None
            }
        }
    }

    /// An item was put somewhere, or there was no memory for it, which is kept in mind.
    pub fn put(&mut self, put: Result<(), AllocError>) {
        if put.is_err() {
            self.lack_memory();
        }
    }

    /// Adds bytes.
    pub fn bytes(&mut self, bytes: &[u8]) {
        if self.ended.is_none() && self.text.extend_from_slice(bytes).is_err() {
            self.lack_memory();
        }
    }

    /// Adds a text.
    pub fn text(&mut self, text: &str) {
        self.bytes(text.as_bytes());
    }

    /// Adds the character of a number.
    pub fn character(&mut self, byte: u8) {
        if byte < 128 {
            self.bytes(&[byte]);
        } else {
            self.bytes(&[192 + byte / 64, 128 + byte % 64]);
        }
    }

    /// Adds what a value is shown as.
    pub fn shown<T: Display>(&mut self, value: &T) {
        if self.ended.is_none() && write!(self.text, "{value}").is_err() {
            self.lack_memory();
        }
    }

    /// Adds what a value is shown as to whoever seeks a fault.
    pub fn debugged<T: Debug>(&mut self, value: &T) {
        if self.ended.is_none() && write!(self.text, "{value:?}").is_err() {
            self.lack_memory();
        }
    }

    /// Adds a number.
    pub fn number(&mut self, number: u64) {
        self.shown(&number);
    }

    /// Adds a number that has a sign.
    pub fn signed(&mut self, number: i64) {
        self.shown(&number);
    }

    /// Adds bytes as pairs of hexadecimal digits; `-` for no bytes.
    pub fn hex(&mut self, bytes: &[u8]) {
        if bytes.is_empty() {
            self.text("-");
        }
        for byte in bytes {
            self.bytes(&[digit_of(*byte / 16), digit_of(*byte % 16)]);
        }
    }

    /// Ends a line.
    pub fn end(&mut self) {
        self.text("\n");
    }

    /// Answers a line.
    pub fn line(&mut self, text: &str) {
        self.text("> ");
        self.text(text);
        self.end();
    }

    /// Answers whether something is so.
    pub fn truth(&mut self, is_so: bool) {
        self.line(if is_so { "true" } else { "false" });
    }

    /// Answers how many there are, of what.
    pub fn counted(&mut self, count: usize, what: &str) {
        self.text("> ");
        self.number(count as u64);
        self.text(what);
        self.end();
    }

    /// Answers a refusal.
    pub fn refusal<T: Display>(&mut self, refused: &T) {
        self.text("> ");
        self.shown(refused);
        self.end();
    }

    /// Answers a refusal. Where it is for want of memory, the call may be made once more.
    pub fn try_again<T: Display>(&mut self, refused: &T, is_for_memory: bool) -> Option<()> {
        self.refusal(refused);
        is_for_memory.then_some(())
    }

    /// Answers the number of a refusal.
    pub fn refusal_number(&mut self, number: u8) {
        self.text("> E");
        self.number(u64::from(number));
        self.end();
    }

    /// Whether enough was gathered to be handed on.
    pub fn is_full(&self) -> bool {
        self.text.len() >= MOST
    }

    /// What was gathered.
    pub fn gathered(&self) -> &[u8] {
        self.text.as_slice()
    }

    /// What was gathered was handed on.
    pub fn clear(&mut self) {
        self.text.clear();
    }
}
