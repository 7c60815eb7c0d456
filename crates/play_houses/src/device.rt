//! Commands on a bare disk.

use crate::bench::{Bench, Held, go_on};
use crate::shown::{MOST_SHOWN, bytes_in, plan_in, write_failures, write_kind};
use disk::{DeviceFailed, Disk};
use play_packets::{size_at, write_bytes};
use play_words::{Answers, CommandLine};
use std::alloc::Global;

/// Writes what a call answered.
fn write_answer(answer: Result<(), DeviceFailed>, is_planned: bool, out: &mut Answers) {
    match answer {
        Ok(()) => out.line("ok"),
        Err(failed) => {
            out.refusal(&failed);
            go_on(is_planned, out);
        }
    }
}

/// Whether a place is behind the end of the file: a call at it fails.
fn is_behind<D: Disk>(disk: &mut D, alloc: Global, at: usize) -> bool {
    match disk.read(alloc, usize::MAX) {
        Ok(bytes) => at > bytes.len(),
        Err(_) => false,
    }
}

fn read<D: Disk>(disk: &mut D, is_planned: bool, alloc: Global, most: usize, out: &mut Answers) {
    match disk.read(alloc, most) {
        Ok(bytes) => write_bytes(out, &bytes, MOST_SHOWN),
        Err(failed) => write_answer(Err(failed), is_planned, out),
    }
}

/// Writes bytes at a place, or cuts the file there where there are none to be written.
fn change<D: Disk>(
    disk: &mut D,
    is_planned: bool,
    alloc: Global,
    (at, written): (usize, Option<&[u8]>),
    out: &mut Answers,
) {
    let answer = match written {
        Some(bytes) => disk.write_at(at, bytes),
        None => disk.cut(at),
    };
    let is_expected = is_planned || answer.is_ok() || is_behind(disk, alloc, at);
    write_answer(answer, is_expected, out);
}

/// Plays a command that takes no other word.
fn show<D: Disk>(disk: &mut D, is_planned: bool, verb: &str, out: &mut Answers) -> Option<()> {
    match verb {
        "sync" => write_answer(disk.sync(), is_planned, out),
        "crash" => disk.crash(),
        "failures" => write_failures(out, disk.failures()),
        "kind" => write_kind(out, disk.can_cut()),
        _ => return None,
    }
    Some(())
}

/// Plays a command on a bare disk.
pub fn play_disk<D: Disk>(
    bench: &mut Bench<D>,
    alloc: Global,
    line: &CommandLine<'_>,
    out: &mut Answers,
) -> Option<()> {
    let is_planned = bench.is_planned;
    let Some(Held::Bare(disk)) = &mut bench.held else {
        return None;
    };
    match line.word(1)? {
        "read" => read(disk, is_planned, alloc, size_at(line, 2)?, out),
        "write" => {
            let at = size_at(line, 2)?;
            let bytes = bytes_in(alloc, line, 3, out)?;
            change(disk, is_planned, alloc, (at, Some(bytes.as_slice())), out);
        }
        "cut" => change(disk, is_planned, alloc, (size_at(line, 2)?, None), out),
        "arm" => {
            let (calls, bytes) = plan_in(alloc, line, out)?;
            disk.arm(calls, bytes);
        }
        verb => return show(disk, is_planned, verb, out),
    }
    Some(())
}
