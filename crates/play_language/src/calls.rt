//! Calls on texts and programs, each made once more behind E9.

use body_eval::Done;
use ids::Listed;
use kind_check::Checked;
use play_words::Answers;
use serial_meaning::{Job, Outcome, SerialError, serial};
use std::alloc::{AllocError, Global};
use task_syntax::{PrintError, Program, print};
use task_tokens::{Token, tokenize};

/// The longest text whose tokens are shown, in bytes.
const LONGEST: usize = 1_000_000;

/// The tokens of a text; none where it is too long to be shown, or there is no memory.
pub fn tokens(alloc: Global, text: &[u8], out: &mut Answers) -> Option<Listed<Token>> {
    if text.len() > LONGEST {
        return None;
    }
    for _ in 0..2 {
        match tokenize(alloc, text) {
            Ok(tokens) => return Some(tokens),
            Err(_) => out.line("E9"),
        }
    }
    None
}

/// A printed program; none where it is refused.
pub fn printed(alloc: Global, program: &Program, out: &mut Answers) -> Option<Vec<u8>> {
    for _ in 0..2 {
        match print(alloc, program) {
            Ok(text) => return Some(text),
            Err(refused) => out.try_again(&refused, refused == PrintError::Memory)?,
        }
    }
    None
}

/// The turn of a thread; none where there is no such thread, or it takes another count of numbers.
fn done_of(
    alloc: Global,
    checked: &Checked,
    thread: u8,
    numbers: &[i64],
) -> Result<Option<Done>, AllocError> {
    if usize::from(thread) >= checked.threads()
        || checked.program().thread(thread).numbers.len() != numbers.len()
    {
        return Ok(None);
    }
    let numbers = Vec::from_slice(alloc, numbers)?;
    Ok(Some(Done::of(alloc, checked, thread, numbers)?))
}

/// The turn of a thread on numbers; none where there is none, or no memory.
pub fn done(
    alloc: Global,
    checked: &Checked,
    thread: u8,
    numbers: &[i64],
    out: &mut Answers,
) -> Option<Done> {
    for _ in 0..2 {
        match done_of(alloc, checked, thread, numbers) {
            Ok(done) => return done,
            Err(_) => out.line("E9"),
        }
    }
    None
}

/// The meaning of a job; none where it is refused.
pub fn meaning(alloc: Global, job: &Job, turns: u64, out: &mut Answers) -> Option<Outcome> {
    for _ in 0..2 {
        match serial(alloc, job, turns) {
            Ok(outcome) => return Some(outcome),
            Err(refused) => out.try_again(&refused, refused == SerialError::Memory)?,
        }
    }
    None
}
