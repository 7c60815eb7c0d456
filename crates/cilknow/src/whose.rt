//! The file beside a store, which says whose it is: by a digest of a program and an input.

use crate::failure::{Failure, Why};
use command_line::Place;
use job_line::{DIGITS, HEAD, LENGTH};
use std::fs::{self, File};
use std::io::{self, Read, Write};
use std::rt::Files;

/// Writes such a line to the file beside a store, so that it is on the disk.
pub fn write_beside<R: Files<File = File>>(rt: &R, beside: &str, line: &[u8]) -> io::Result<()> {
    let mut file = fs::create(rt, beside)?;
    file.write_all(line)?;
    file.sync_all()
}

/// Whether the file beside a store says that the store is of the job of this line: false where it
/// isn't there. E70 where it names another one, E71 where it names none, and a fault of a file
/// where it can't be read.
pub fn is_said<R: Files<File = File> + AllocGlobal>(
    rt: &R,
    beside: &str,
    line: &[u8],
) -> Result<bool, Failure> {
    match read_beside(rt, beside) {
        Ok(said) if said.as_slice() == line => Ok(true),
        Ok(said) if is_line(said.as_slice()) => Err(Failure::store(70, Why::OtherJob)),
        Ok(_) => Err(Failure::store(71, Why::NoJob)),
        Err(e) if e.kind() == io::ErrorKind::NotFound => Ok(false),
        Err(e) => Err(Failure::file(Place::Beside, e)),
    }
}

/// Refuses a file beside a store that is of another kind, so that it isn't written over: E71 where
/// it is neither such a line nor the beginning of one, as a run that is killed may leave it, and a
/// fault of a file where it can't be read.
pub fn is_ours<R: Files<File = File> + AllocGlobal>(rt: &R, beside: &str) -> Result<(), Failure> {
    match read_beside(rt, beside) {
        Ok(said) if is_beginning(said.as_slice()) => Ok(()),
        Ok(_) => Err(Failure::store(71, Why::NoJob)),
        Err(e) if e.kind() == io::ErrorKind::NotFound => Ok(()),
        Err(e) => Err(Failure::file(Place::Beside, e)),
    }
}

/// Whether bytes are such a line, or the beginning of one, also an empty one.
fn is_beginning(bytes: &[u8]) -> bool {
    for (at, byte) in bytes.iter().enumerate() {
        let fits = match HEAD.get(at) {
            Some(own) => *own == *byte,
            None if at < HEAD.len() + DIGITS => matches!(*byte, b'0'..=b'9' | b'a'..=b'f'),
            None => at == HEAD.len() + DIGITS && *byte == b'\n',
        };
        if !fits {
            return false;
        }
    }
    true
}

/// What the file beside a store has: of a longer one a byte more than a line.
fn read_beside<R: Files<File = File> + AllocGlobal>(rt: &R, beside: &str) -> io::Result<Vec<u8>> {
    let mut bytes = Vec::new(rt.alloc());
    fs::open(rt, beside)?
        .take(LENGTH + 1)
        .read_to_end(&mut bytes)?;
    Ok(bytes)
}

/// Whether bytes are such a line of any job.
fn is_line(bytes: &[u8]) -> bool {
    let Some(rest) = bytes.strip_prefix(HEAD) else {
        return false;
    };
    let Some(digits) = rest.strip_suffix(b"\n".as_slice()) else {
        return false;
    };
    digits.len() == DIGITS
        && digits
            .iter()
            .all(|it| matches!(*it, b'0'..=b'9' | b'a'..=b'f'))
}
