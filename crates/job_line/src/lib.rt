//! The line that names a job: it stands beside a store, so that a run of another program or input
//! is refused.
//!
//! **Not proved**: what the line is, but that all is safe; tests show it.
#![tactic(auto)]

use serial_meaning::Job;
use sha2::{Digest, Sha256};
use std::alloc::{AllocError, Global};
use std::io::Write;
use task_syntax::{PrintError, print};

/// How such a line begins, and how many digits and bytes it has.
pub const HEAD: &[u8] = b"cilknow-job 1 ";

pub const DIGITS: usize = 64;

pub const LENGTH: u64 = 79;

/// The line that names a job by the digest of its program and its input, whatever its number is.
/// The text is the one that the program was read from. Refused only when out of memory.
pub fn line_of(alloc: Global, job: &Job, text: &[u8]) -> Result<Vec<u8>, AllocError> {
    let digest = digest_of(alloc, job, text)?;
    let mut line = Vec::from_slice(alloc, HEAD)?;
    for byte in digest.iter() {
        write!(line, "{:02x}", *byte).map_err(|_| AllocError)?;
    }
    line.push(b'\n')?;
    Ok(line)
}

/// The digest of a program's one form and, as a line, of its input. Where the form would be too
/// long, the text stands for it, behind a line with its length.
fn digest_of(alloc: Global, job: &Job, text: &[u8]) -> Result<[u8; 32], AllocError> {
    let mut hasher = Sha256::new();
    match print(alloc, job.checked().program()) {
        Ok(form) => hasher.update(form.as_slice()),
        Err(PrintError::TooLong) => {
            let head = String::format(alloc, format_args!("text {}\n", text.len()))?;
            hasher.update(head.as_bytes());
            hasher.update(text);
        }
        Err(PrintError::Memory) => return Err(AllocError),
    }
    let line = input_line(alloc, job.input())?;
    hasher.update(line.as_slice());
    Ok(hasher.finalize())
}

/// An input as a line.
fn input_line(alloc: Global, input: &[i64]) -> Result<Vec<u8>, AllocError> {
    let mut line = Vec::from_slice(alloc, b"inputs".as_slice())?;
    for number in input {
        write!(line, " {number}").map_err(|_| AllocError)?;
    }
    line.push(b'\n')?;
    Ok(line)
}
