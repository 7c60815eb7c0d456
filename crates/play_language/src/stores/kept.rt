//! Frames by their numbers.

use super::words::range;
use frames::{Filled, Frames};
use ids::{Frame, FrameNo, Listed};
use play_packets::{read_frames, write_field, write_frame};
use play_words::{Answers, CommandLine, keep};
use std::alloc::Global;

/// What became of fills: how many frames still wait, how many are ready, and the level of the last
/// of these.
#[derive(Clone, Copy)]
struct Tally {
    still: u32,
    ready: u32,
    level: u16,
}

/// Fills a slot of a frame, where it is empty.
fn fill(frames: &mut Frames, number: FrameNo, slot: u8, value: i64, tally: &mut Tally) {
    if !frames.is_empty(number, slot) {
        return;
    }
    match frames.fill(number, slot, value) {
        Filled::Still => tally.still = tally.still.saturating_add(1),
        Filled::Ready(level) => {
            tally.ready = tally.ready.saturating_add(1);
            tally.level = level;
        }
    }
}

/// Fills a slot of frames.
fn write_fill(line: &CommandLine<'_>, frames: &mut Frames, out: &mut Answers) -> Option<()> {
    let (first, last) = range(line, 2)?;
    let slot = u8::try_from(line.number(3)?).ok()?;
    let value = line.signed(4)?;
    let mut tally = Tally {
        still: 0,
        ready: 0,
        level: 0,
    };
    for number in first..=last {
        fill(frames, FrameNo::of(number), slot, value, &mut tally);
    }
    write_tally(tally, out);
    Some(())
}

fn write_tally(tally: Tally, out: &mut Answers) {
    write_field(out, "> ", u64::from(tally.still));
    write_field(out, " still wait, ", u64::from(tally.ready));
    write_field(out, " are ready, level ", u64::from(tally.level));
    out.end();
}

/// Puts frames. Whether there was memory for all of them.
fn put(list: Listed<Frame>, frames: &mut Frames) -> bool {
    let mut are_put = true;
    for frame in list.into_vec() {
        are_put = frames.insert(frame).is_ok() && are_put;
    }
    are_put
}

/// Puts the frames that a word spells; once more behind a refusal, which is when out of memory.
fn write_put(
    alloc: Global,
    line: &CommandLine<'_>,
    frames: &mut Frames,
    out: &mut Answers,
) -> Option<()> {
    let text = line.word(2)?;
    for _ in 0..2 {
        if put(read_frames(alloc, text, out)?, frames) {
            out.counted(frames.len(), " frames");
            break;
        }
        out.line("E9");
    }
    Some(())
}

/// Writes a frame, or that there is none.
fn write_found(out: &mut Answers, found: Option<&Frame>) {
    match found {
        Some(frame) => {
            out.text(">");
            write_frame(out, frame);
            out.end();
        }
        None => out.line("none"),
    }
}

/// Takes ready frames, and writes the last one and how many are left.
fn write_taken(line: &CommandLine<'_>, frames: &mut Frames, out: &mut Answers) -> Option<()> {
    let (first, last) = range(line, 2)?;
    for number in first..last {
        keep(frames.remove_ready(FrameNo::of(number)));
    }
    let taken = frames.remove_ready(FrameNo::of(last));
    write_found(out, taken.as_ref());
    keep(taken);
    out.counted(frames.len(), " frames");
    Some(())
}

fn write_frames(frames: &Frames, out: &mut Answers) {
    out.counted(frames.len(), " frames");
    for frame in frames.values() {
        write_found(out, Some(frame));
    }
}

/// Writes all frames of a copy.
fn write_all(frames: &Frames, out: &mut Answers) {
    for _ in 0..2 {
        match frames.clone() {
            Ok(copy) => {
                write_frames(&copy, out);
                keep(copy);
                break;
            }
            Err(_) => out.line("E9"),
        }
    }
}

/// Writes how many slots of a frame are empty.
fn write_missing(frames: &Frames, number: FrameNo, out: &mut Answers) {
    out.text("> ");
    out.shown(&frames.missing(number));
    out.end();
}

/// Plays a command on frames.
pub fn play_frames(
    alloc: Global,
    line: &CommandLine<'_>,
    frames: &mut Frames,
    out: &mut Answers,
) -> Option<()> {
    match line.word(1)? {
        "put" => return write_put(alloc, line, frames, out),
        "fill" => return write_fill(line, frames, out),
        "take" => return write_taken(line, frames, out),
        "all" => write_all(frames, out),
        "get" => {
            let (number, _) = range(line, 2)?;
            write_found(out, frames.get(FrameNo::of(number)));
        }
        "missing" => {
            let (number, _) = range(line, 2)?;
            write_missing(frames, FrameNo::of(number), out);
        }
        _ => return None,
    }
    Some(())
}
