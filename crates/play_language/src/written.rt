//! Texts as they are written in a command.

use play_words::{Answers, word32};
use std::alloc::Global;

/// What stands before a byte of a written text.
#[derive(Clone, Copy)]
enum Before {
    Plain,
    /// A backslash.
    Escape,
    /// A backslash and `x`.
    Hex,
    /// Behind these a first digit, of this value.
    Digit(u8),
}

fn digit(byte: u8) -> Option<u8> {
    match byte {
        b'0'..=b'9' => Some(byte - b'0'),
        b'a'..=b'f' => Some(byte - b'a' + 10),
        _ => None,
    }
}

/// What stands before the next byte, and the byte that ends here, if one does; none where the byte
/// can't stand here.
fn behind(before: Before, byte: u8) -> Option<(Before, Option<u8>)> {
    match before {
        Before::Plain if byte == b'\\' => Some((Before::Escape, None)),
        Before::Plain => Some((Before::Plain, Some(byte))),
        Before::Escape if byte == b'n' => Some((Before::Plain, Some(b'\n'))),
        Before::Escape if byte == b'x' => Some((Before::Hex, None)),
        Before::Escape => None,
        Before::Hex => Some((Before::Digit(digit(byte)?), None)),
        Before::Digit(high) => {
            let spelled = high.checked_mul(16)?.checked_add(digit(byte)?)?;
            Some((Before::Plain, Some(spelled)))
        }
    }
}

/// Adds the bytes of a written text without repeated pieces; whether each escape in it is one.
fn add(bytes: &mut Vec<u8>, written: &str, out: &mut Answers) -> bool {
    let mut before = Before::Plain;
    for byte in written.as_bytes() {
        let Some((next, ended)) = behind(before, *byte) else {
            return false;
        };
        if let Some(ended) = ended
            && bytes.push(ended).is_err()
        {
            out.lack_memory();
        }
        before = next;
    }
    matches!(before, Before::Plain)
}

/// Adds the bytes of a piece so many times.
fn add_times(bytes: &mut Vec<u8>, piece: &str, times: u32, out: &mut Answers) -> bool {
    for _ in 0..times {
        if !add(bytes, piece, out) {
            return false;
        }
    }
    true
}

/// A repeated piece `PIECE*TIMES⟧WRITTEN`: the piece, how often it stands, and what is behind.
fn repeated(text: &str) -> Option<(&str, u32, &str)> {
    let (piece, behind) = text.split_once('⟧')?;
    let (piece, times) = piece.rsplit_once('*')?;
    Some((piece, word32(times)?, behind))
}

/// Adds the bytes of `PIECE*TIMES⟧WRITTEN`; whether it is so.
fn add_repeated(bytes: &mut Vec<u8>, text: &str, out: &mut Answers) -> bool {
    match repeated(text) {
        Some((piece, times, behind)) => {
            add_times(bytes, piece, times, out) && add(bytes, behind, out)
        }
        None => false,
    }
}

/// Adds the bytes of a written text; whether it is one.
fn add_parts(bytes: &mut Vec<u8>, written: &str, out: &mut Answers) -> bool {
    match written.split_once('⟦') {
        None => add(bytes, written, out),
        Some((first, others)) => {
            let mut is_written = add(bytes, first, out);
            for part in others.split('⟦') {
                is_written = is_written && add_repeated(bytes, part, out);
            }
            is_written
        }
    }
}

/// The bytes of a written text; none where an escape or a repeated piece in it is none.
pub fn bytes_of(alloc: Global, written: &str, out: &mut Answers) -> Option<Vec<u8>> {
    let mut bytes = Vec::new(alloc);
    if add_parts(&mut bytes, written, out) {
        Some(bytes)
    } else {
        None
    }
}
