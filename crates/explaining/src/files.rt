use crate::told::{explain_job, explain_line, explain_number};
use jobs::{JobFault, bytes_within, text_bytes};
use replaying::ReplayFault;
use std::fs;
use std::io::{self, Read, Write};
use std::rt::Files;
use std::str::from_utf8;
use traces::tells_packet;

/// How many bytes of a script are looked at for a line.
const MOST: u64 = 1 << 24;

/// Explains why the text of a file is no job. A file that can't be read any more isn't explained.
pub fn explain_text<R: Files + AllocGlobal, W: Write>(
    rt: &R,
    out: &mut W,
    fault: JobFault,
    file: &str,
) -> io::Result<()> {
    match text_bytes(rt, file) {
        Ok(text) => explain_job(rt.alloc(), out, fault, file, text.as_slice()),
        Err(_) => Ok(()),
    }
}

/// Explains why the files of a text and a script aren't replayed.
pub fn explain_replay<R: Files + AllocGlobal, W: Write>(
    rt: &R,
    out: &mut W,
    fault: ReplayFault,
    file: &str,
    script: &str,
) -> io::Result<()> {
    match fault {
        ReplayFault::Job(job) => explain_text(rt, out, job, file),
        ReplayFault::Line(line) => match bytes_within(rt, script, MOST) {
            Ok(bytes) => explain_line(out, script, bytes.as_slice(), line.number()),
            Err(_) => Ok(()),
        },
        ReplayFault::Packet(number) => match bytes_within(rt, script, u64::MAX) {
            Ok(bytes) => explain_packet(out, script, bytes.as_slice(), number),
            Err(_) => Ok(()),
        },
        ReplayFault::Memory => explain_number(out, 9),
        ReplayFault::File => explain_files(rt, out, &[file, script]),
    }
}

/// Explains that a packet isn't the one that a script tells: whose trace tells it, and in which
/// line.
fn explain_packet<W: Write>(
    out: &mut W,
    script: &str,
    bytes: &[u8],
    number: u64,
) -> io::Result<()> {
    let mut before: u64 = 0;
    for line in bytes.split(|b| *b == b'\n') {
        if !tells_packet(line) {
            continue;
        }
        if before == number {
            let (trace, at) = (word_at(line, TRACE_WORD), word_at(line, LINE_WORD));
            return writeln!(
                out,
                "{script}: {trace} tells in line {at} that another packet is sent here"
            );
        }
        before = before.saturating_add(1);
    }
    writeln!(out, "{script}: no trace tells that this packet is sent")
}

/// Where the trace and its line stand in the comment of a packet.
const TRACE_WORD: usize = 3;

const LINE_WORD: usize = 4;

/// A word of a line; a hyphen where it isn't there.
fn word_at(line: &[u8], index: usize) -> &str {
    match line.split(|b| *b == b' ').nth(index) {
        Some(word) => from_utf8(word).unwrap_or("-"),
        None => "-",
    }
}

/// Tells which of the named files can't be read, and why; where each can, that what is answered
/// can't be written.
pub fn explain_files<R: Files, W: Write>(rt: &R, out: &mut W, files: &[&str]) -> io::Result<()> {
    for file in files {
        if let Err(error) = look_at(rt, *file) {
            return writeln!(out, "{file}: {error}");
        }
    }
    writeln!(
        out,
        "standard output can't be written, or a file that couldn't be read can be read now"
    )
}

/// Whether a file can be read, by its first byte. What is no file and no folder is left alone,
/// since it may keep its reader waiting.
fn look_at<R: Files>(rt: &R, file: &str) -> io::Result<()> {
    let metadata = fs::metadata(rt, file)?;
    if metadata.is_file() || metadata.is_dir() {
        let mut first = [0u8; 1];
        fs::open(rt, file)?.read(&mut first)?;
    }
    Ok(())
}
