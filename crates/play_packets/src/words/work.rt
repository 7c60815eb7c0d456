//! Tasks, frames and records in words.

use crate::words::fields::{frame_ends, frame_number, grant, returned, worker};
use crate::words::lists::{numbers, place, slots};
use ids::{Frame, FrameNo, GrantId, Listed, Numbers, Record, Return, Task};
use play_words::{Answers, byte, word64};
use std::alloc::Global;

/// The task of a thread at a place on numbers.
pub fn task(alloc: Global, thread: u8, at: &str, on: &str, out: &mut Answers) -> Option<Task> {
    let place = place(alloc, at, out)?;
    match numbers(alloc, on, out) {
        Some(numbers) => Some(Task {
            place,
            thread,
            numbers: Numbers::from_vec(numbers.into_vec()),
        }),
        None => None,
    }
}

/// The frame of a number and of words `PLACE;THREAD;SLOTS;RETURN`.
fn frame(alloc: Global, number: FrameNo, text: &str, out: &mut Answers) -> Option<Frame> {
    let (at, rest) = text.split_once(';')?;
    let (thread, rest) = rest.split_once(';')?;
    let (filled, returns) = rest.split_once(';')?;
    let thread = byte(thread)?;
    let returns = returned(returns)?;
    let place = place(alloc, at, out)?;
    match slots(alloc, filled, out) {
        Some(slots) => Some(Frame {
            number,
            place,
            thread,
            slots,
            returns,
        }),
        None => None,
    }
}

/// Adds a frame. Whether it is one.
fn add_frame(
    alloc: Global,
    list: &mut Listed<Frame>,
    number: u32,
    text: &str,
    out: &mut Answers,
) -> bool {
    match frame(alloc, FrameNo::of(number), text, out) {
        Some(frame) => {
            out.put(list.push(frame));
            true
        }
        None => false,
    }
}

/// Adds a frame for each number from the first to the last. Whether they are frames.
fn add_framed(
    alloc: Global,
    list: &mut Listed<Frame>,
    (first, last): (u32, u32),
    text: &str,
    out: &mut Answers,
) -> bool {
    for number in first..=last {
        if !add_frame(alloc, list, number, text, out) {
            return false;
        }
    }
    true
}

/// Adds a frame `NUMBER;PLACE;THREAD;SLOTS;RETURN`, or with `FROM..TO` in the number's place one
/// for each number. Whether it is so.
pub fn add_frames(alloc: Global, list: &mut Listed<Frame>, text: &str, out: &mut Answers) -> bool {
    match text.split_once(';') {
        Some((numbers, rest)) => match frame_ends(numbers) {
            Some(ends) => add_framed(alloc, list, ends, rest, out),
            None => false,
        },
        None => false,
    }
}

/// The same frames in a list; none where the text is no such word.
pub fn read_frames(alloc: Global, text: &str, out: &mut Answers) -> Option<Listed<Frame>> {
    let mut list = Listed::new(alloc);
    let is_word = add_frames(alloc, &mut list, text, out);
    is_word.then_some(list)
}

/// The task of words `PLACE;THREAD;NUMBERS;RETURN`, and where its value returns.
fn given(alloc: Global, text: &str, out: &mut Answers) -> Option<(Task, Return)> {
    let (at, rest) = text.split_once(';')?;
    let (thread, rest) = rest.split_once(';')?;
    let (on, returns) = rest.split_once(';')?;
    let thread = byte(thread)?;
    let returns = returned(returns)?;
    match task(alloc, thread, at, on, out) {
        Some(task) => Some((task, returns)),
        None => None,
    }
}

/// The record of a grant, if it is one, and of words `HOLDER;FRAME;PLACE;THREAD;NUMBERS;RETURN`.
fn record(alloc: Global, grant: Option<GrantId>, text: &str, out: &mut Answers) -> Option<Record> {
    let grant = grant?;
    let (holder, rest) = text.split_once(';')?;
    let (frame, rest) = rest.split_once(';')?;
    let holder = worker(holder)?;
    let frame = frame_number(frame)?;
    match given(alloc, rest, out) {
        Some((task, returns)) => Some(Record {
            grant,
            holder,
            frame,
            task,
            returns,
        }),
        None => None,
    }
}

/// Adds a record. Whether it is one.
fn add_record(
    alloc: Global,
    list: &mut Listed<Record>,
    grant: Option<GrantId>,
    text: &str,
    out: &mut Answers,
) -> bool {
    match record(alloc, grant, text, out) {
        Some(record) => {
            out.put(list.push(record));
            true
        }
        None => false,
    }
}

/// Adds a record for each grant from the first one to that of the last number. Whether they are
/// records.
fn add_recorded(
    alloc: Global,
    list: &mut Listed<Record>,
    (first, last): (GrantId, u64),
    text: &str,
    out: &mut Answers,
) -> bool {
    for number in first.number()..=last {
        if !add_record(alloc, list, GrantId::of(first.minter(), number), text, out) {
            return false;
        }
    }
    true
}

/// The first grant of `MINTER/FROM..TO`, which may be one grant, and the number of the last.
fn granted(text: &str) -> Option<(GrantId, u64)> {
    match text.split_once("..") {
        Some((first, last)) => Some((grant(first)?, word64(last)?)),
        None => {
            let only = grant(text)?;
            Some((only, only.number()))
        }
    }
}

/// Adds a record `GRANT;HOLDER;FRAME;PLACE;THREAD;NUMBERS;RETURN`, or with `MINTER/FROM..TO` in the
/// grant's place one for each number of a grant. Whether it is so.
pub fn add_records(
    alloc: Global,
    list: &mut Listed<Record>,
    text: &str,
    out: &mut Answers,
) -> bool {
    match text.split_once(';') {
        Some((grants, rest)) => match granted(grants) {
            Some(ends) => add_recorded(alloc, list, ends, rest, out),
            None => false,
        },
        None => false,
    }
}
