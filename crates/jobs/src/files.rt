use crate::fault::FileFault;
use std::fs;
use std::io::{self, Read};
use std::rt::Files;
use task_syntax::LONGEST_TEXT;

/// One byte more than the longest text.
const MOST_BYTES: u64 = LONGEST_TEXT as u64 + 1;

/// The bytes of a program's text in a file, up to one more than a text can have.
pub fn text_bytes<R: Files + AllocGlobal>(rt: &R, file: &str) -> Result<Vec<u8>, FileFault> {
    bytes_within(rt, file, MOST_BYTES)
}

/// The bytes of a file, up to so many.
pub fn bytes_within<R: Files + AllocGlobal>(
    rt: &R,
    file: &str,
    most: u64,
) -> Result<Vec<u8>, FileFault> {
    let mut bytes = Vec::new(rt.alloc());
    match read_within(rt, file, most, &mut bytes) {
        Ok(()) => Ok(bytes),
        Err(e) if e.kind() == io::ErrorKind::OutOfMemory => Err(FileFault::Memory),
        Err(_) => Err(FileFault::Unreadable),
    }
}

fn read_within<R: Files>(rt: &R, file: &str, most: u64, bytes: &mut Vec<u8>) -> io::Result<()> {
    fs::open(rt, file)?.take(most).read_to_end(bytes)?;
    Ok(())
}
