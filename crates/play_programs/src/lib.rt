//! Programs and jobs of transcripts: each call is made once more behind a refusal when out of
//! memory.
#![tactic(auto)]

use kind_check::{Checked, KindError, check};
use play_words::{Answers, keep};
use serial_meaning::Job;
use std::alloc::Global;
use task_syntax::{ParseError, Program, parse};

/// The program of a text; none where it is refused.
pub fn program_in(alloc: Global, text: &[u8], out: &mut Answers) -> Option<Program> {
    for _ in 0..2 {
        match parse(alloc, text) {
            Ok(program) => return Some(program),
            Err(refused) => out.try_again(&refused, refused == ParseError::Memory)?,
        }
    }
    None
}

/// The accepted program of a text; none where it is refused.
pub fn accepted_in(alloc: Global, text: &[u8], out: &mut Answers) -> Option<Checked> {
    for _ in 0..2 {
        match check(alloc, program_in(alloc, text, out)?) {
            Ok(checked) => return Some(checked),
            Err(refused) => out.try_again(&refused, refused == KindError::Memory)?,
        }
    }
    None
}

/// The job of a program, which stays to the end of the transcript; none where its `main` takes
/// another count of numbers.
pub fn job_of(
    alloc: Global,
    checked: Checked,
    input: Vec<i64>,
    number: u64,
    out: &mut Answers,
) -> Option<&'static Job> {
    match Job::new(checked, input, number) {
        Ok(job) => kept(alloc, job, out),
        Err(_) => None,
    }
}

/// A job, which stays to the end of the transcript.
fn kept(alloc: Global, job: Job, out: &mut Answers) -> Option<&'static Job> {
    match Box::new(alloc, job) {
        Ok(kept) => Some(Box::leak(kept)),
        Err(refused) => {
            out.lack_memory();
            keep(refused.value);
            None
        }
    }
}
