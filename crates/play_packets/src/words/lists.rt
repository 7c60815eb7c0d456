//! Lists in words.

use crate::words::fields::{ends, status};
use ids::{Incarnation, Listed, Member, Place, Slots};
use play_words::{Answers, byte, bytes_of_hex, signed64, word32, word64};
use saved_values::{SavedPlace, SavedValue};
use std::alloc::Global;

/// Adds a member `WORD:STATUS`, or with `FROM..TO` in the word's place one for each word; none
/// where it is no such text.
fn add_members(list: &mut Listed<Member>, text: &str, out: &mut Answers) -> Option<()> {
    let (words, said) = text.split_once(':')?;
    let (first, last) = ends(words)?;
    for word in first..=last {
        let status = status(said, word)?;
        out.put(list.push(Member {
            incarnation: Incarnation::worker(word)?,
            status,
        }));
    }
    Some(())
}

fn add_all_members(list: &mut Listed<Member>, text: &str, out: &mut Answers) -> bool {
    let mut are_members = true;
    for part in text.split(',') {
        are_members = are_members && add_members(list, part, out).is_some();
    }
    are_members
}

/// Members that commas part, `-` for none.
pub fn members(alloc: Global, text: &str, out: &mut Answers) -> Option<Listed<Member>> {
    let mut list = Listed::new(alloc);
    let is_list = text == "-" || add_all_members(&mut list, text, out);
    is_list.then_some(list)
}

/// Adds numbers that commas part. Whether they are numbers.
fn add_numbers(list: &mut Listed<i64>, text: &str, out: &mut Answers) -> bool {
    let mut are_numbers = true;
    for part in text.split(',') {
        match signed64(part) {
            Some(number) => out.put(list.push(number)),
            None => are_numbers = false,
        }
    }
    are_numbers
}

/// Numbers that commas part, `-` for none; none where they are no numbers.
pub fn numbers(alloc: Global, text: &str, out: &mut Answers) -> Option<Listed<i64>> {
    let mut list = Listed::new(alloc);
    let is_list = text == "-" || add_numbers(&mut list, text, out);
    is_list.then_some(list)
}

fn slot(text: &str) -> Option<Option<i64>> {
    if text == "_" {
        Some(None)
    } else {
        Some(Some(signed64(text)?))
    }
}

fn add_slots(list: &mut Slots, text: &str, out: &mut Answers) -> bool {
    let mut are_slots = true;
    for part in text.split(',') {
        match slot(part) {
            Some(slot) => out.put(list.push(slot)),
            None => are_slots = false,
        }
    }
    are_slots
}

pub fn slots(alloc: Global, text: &str, out: &mut Answers) -> Option<Slots> {
    let mut list = Slots::new(alloc);
    let is_list = text == "-" || add_slots(&mut list, text, out);
    is_list.then_some(list)
}

/// A step, or `STEP*TIMES`.
fn repeated_step(text: &str) -> Option<(u8, u16)> {
    match text.split_once('*') {
        Some((step, times)) => Some((byte(step)?, u16::try_from(word64(times)?).ok()?)),
        None => Some((byte(text)?, 1)),
    }
}

/// Adds a step, or `STEP*TIMES`. Whether it is so.
fn add_step(list: &mut Listed<u8>, text: &str, out: &mut Answers) -> bool {
    let Some((step, times)) = repeated_step(text) else {
        return false;
    };
    for _ in 0..times {
        out.put(list.push(step));
    }
    true
}

fn add_steps(list: &mut Listed<u8>, text: &str, out: &mut Answers) -> bool {
    let mut are_steps = true;
    for part in text.split('.') {
        are_steps = are_steps && add_step(list, part, out);
    }
    are_steps
}

/// Steps joined by dots, `-` for none; `STEP*TIMES` is so many of a step.
pub fn steps(alloc: Global, text: &str, out: &mut Answers) -> Option<Listed<u8>> {
    let mut list = Listed::new(alloc);
    let is_list = text == "-" || add_steps(&mut list, text, out);
    is_list.then_some(list)
}

/// The place that steps lead to.
pub fn place(alloc: Global, text: &str, out: &mut Answers) -> Option<Place> {
    Place::of(steps(alloc, text, out)?)
}

/// The value of words `PLACE:VALUE`, and its place.
fn saved_value(alloc: Global, text: &str, out: &mut Answers) -> Option<SavedValue> {
    let (at, value) = text.split_once(':')?;
    let value = signed64(value)?;
    let place = SavedPlace::of_steps(steps(alloc, at, out)?.as_slice())?;
    Some(SavedValue { place, value })
}

/// Adds values that are saved, parted by commas. Whether they are such.
fn add_saved(alloc: Global, list: &mut Listed<SavedValue>, text: &str, out: &mut Answers) -> bool {
    let mut are_values = true;
    for part in text.split(',') {
        match saved_value(alloc, part, out) {
            Some(value) => out.put(list.push(value)),
            None => are_values = false,
        }
    }
    are_values
}

/// Values that are saved, `-` for none.
pub fn saved_values(alloc: Global, text: &str, out: &mut Answers) -> Option<Listed<SavedValue>> {
    let mut list = Listed::new(alloc);
    let is_list = text == "-" || add_saved(alloc, &mut list, text, out);
    is_list.then_some(list)
}

/// Adds bytes so many times.
pub fn add_times(bytes: &mut Vec<u8>, part: &[u8], times: u64, out: &mut Answers) {
    for _ in 0..times {
        out.put(bytes.extend_from_slice(part));
    }
}

/// Bytes in hexadecimal digits, `-` for none; `HEX*TIMES` is these so many times.
pub fn bytes(alloc: Global, text: &str, out: &mut Answers) -> Option<Listed<u8>> {
    let (hex, times) = text.split_once('*').unwrap_or((text, "1"));
    let times = word32(times)?;
    let spelled = bytes_of_hex(alloc, hex, out)?;
    let mut bytes = Vec::new(alloc);
    add_times(&mut bytes, &spelled, u64::from(times), out);
    Some(Listed::from_vec(bytes))
}
