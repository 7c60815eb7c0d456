//! What stores and clearinghouses show, in words, and what words say of them.

use checkpoint::CheckpointRecord;
use ids::Outcome;
use play_packets::{add_times, outcome, write_field, write_outcome};
use play_words::{Answers, CommandLine, bytes_of_hex};
use std::alloc::Global;

/// Of more bytes the count is shown.
pub const MOST_SHOWN: usize = 1_000;

/// The bytes that the words from an index on spell: pairs of hexadecimal digits, or `HEX times
/// COUNT`.
pub fn bytes_in(
    alloc: Global,
    line: &CommandLine<'_>,
    index: usize,
    out: &mut Answers,
) -> Option<Vec<u8>> {
    if line.word(index.saturating_add(1)) != Some("times") {
        return bytes_of_hex(alloc, line.rest(index), out);
    }
    let times = line.number(index.saturating_add(2))?;
    let part = bytes_of_hex(alloc, line.word(index)?, out)?;
    let mut bytes = Vec::new(alloc);
    add_times(&mut bytes, &part, times, out);
    Some(bytes)
}

/// Writes an outcome, or that there is none.
pub fn write_found(out: &mut Answers, outcome: Option<Outcome>) {
    match outcome {
        Some(outcome) => write_outcome(out, outcome),
        None => out.text("none"),
    }
}

/// Writes a record, its sequence, and how many values are saved.
pub fn write_kept(out: &mut Answers, kept: &CheckpointRecord, sequence: u64) {
    write_field(out, "> record job=", kept.job);
    write_field(out, " epoch=", kept.epoch.number());
    out.text(" outcome=");
    write_found(out, kept.outcome);
    write_field(out, " sequence=", sequence);
    write_field(out, " saved=", kept.saved.as_slice().len() as u64);
    out.end();
}

/// Writes whether a disk can be cut.
pub fn write_kind(out: &mut Answers, can_cut: bool) {
    out.line(if can_cut {
        "can be cut"
    } else {
        "can't be cut"
    });
}

/// Writes how many calls of a disk failed.
pub fn write_failures(out: &mut Answers, failures: u64) {
    write_field(out, "> failures ", failures);
    out.end();
}

/// The outcome that a word says, if it says one or that there is none.
pub fn outcome_in(text: &str) -> Option<Option<Outcome>> {
    if text == "none" {
        Some(None)
    } else {
        Some(Some(outcome(text)?))
    }
}

/// The calls and the bytes that the words of a command `arm` or `fails` name.
pub fn plan_in(alloc: Global, line: &CommandLine<'_>, out: &mut Answers) -> Option<(u64, Vec<u8>)> {
    let calls = line.number(2)?;
    let bytes = bytes_in(alloc, line, 3, out)?;
    Some((calls, bytes))
}
