//! What to write in the place of forms that other languages have.

use crate::place::{byte_at, end_before, part, word_at};
use crate::wanted::{Sort, Wanted, stands_behind};
use std::alloc::Global;

const COMMENT: &str = "a comment is written `// ..`, up to the end of its line";

/// What to write in the place of what stands at an offset, where these sorts can stand; none where
/// it is no such form.
pub(crate) fn habit_at(
    alloc: Global,
    text: &[u8],
    at: usize,
    wanted: &Wanted,
) -> Option<&'static str> {
    let word = word_at(text, at);
    if word.is_empty() {
        return sign(text, at, wanted);
    }
    match word {
        b"return" => Some(
            "a number is returned by `send_argument(k, ..);`, where `k` is the thread's continuation",
        ),
        b"fn" | b"def" | b"func" | b"function" if wanted.has(Sort::Thread) => {
            Some("a thread is written `thread name(k, n) { .. }`")
        }
        b"if" if is_behind_else(text, at, wanted) => Some("write `else { if .. }`"),
        b"while" | b"for" | b"loop" if wanted.has(Sort::Let) => {
            Some("there are no loops: a thread spawns itself again")
        }
        b"spawn" if wanted.has(Sort::SpawnNext) => {
            Some("`spawn_next` comes first, with a hole for each `spawn`")
        }
        _ if wanted.has(Sort::Let) && is_given(alloc, text, at, word) => {
            Some("write `let` in front: a name gets its number once")
        }
        _ => None,
    }
}

/// Whether a block is wanted behind an `else`.
fn is_behind_else(text: &[u8], at: usize, wanted: &Wanted) -> bool {
    let before = part(text, 0, end_before(text, at));
    wanted.has(Sort::OpenBrace) && !wanted.has(Sort::Operator) && before.ends_with(b"else")
}

/// Whether a name stands at an offset, and a single `=` behind it, with blanks in front of that or
/// none.
fn is_given(alloc: Global, text: &[u8], at: usize, word: &[u8]) -> bool {
    has_assign(text, at.saturating_add(word.len()))
        && stands_behind(alloc, part(text, 0, at), b"let".as_slice(), word)
}

fn has_assign(text: &[u8], at: usize) -> bool {
    let mut seen = false;
    for byte in text.iter().skip(at) {
        if seen {
            return *byte != b'=';
        }
        match *byte {
            b'=' => seen = true,
            b' ' | b'\t' => {}
            _ => return false,
        }
    }
    seen
}

/// The same for a byte that is none of a name.
fn sign(text: &[u8], at: usize, wanted: &Wanted) -> Option<&'static str> {
    let behind = byte_at(text, at.saturating_add(1));
    match byte_at(text, at) {
        b'>' if behind == b'=' => where_operator(wanted, "write `b <= a` for `a >= b`"),
        b'>' => where_operator(wanted, "write `b < a` for `a > b`"),
        b'=' if behind != b'>' => where_operator(wanted, "write `==` to compare"),
        b'-' => where_number(wanted, "write `0 - 1` for `-1`"),
        b'!' => where_number(wanted, "write `x == 0` for `!x`"),
        b'.' if behind.is_ascii_digit() => Some("numbers are whole"),
        b'"' | b'\'' => Some("there are only numbers, no texts"),
        b'/' if behind == b'*' => Some(COMMENT),
        b'#' => Some(COMMENT),
        byte => second(text, at, byte, wanted),
    }
}

/// The same for the second byte of a sign.
fn second(text: &[u8], at: usize, byte: u8, wanted: &Wanted) -> Option<&'static str> {
    let before = byte_at(text, at.saturating_sub(1));
    match (before, byte) {
        (b'|', b'|') => where_number(
            wanted,
            "write `|` for `||`: both sides are evaluated, and it is the same on 0 and 1",
        ),
        (b'&', b'&') => where_number(
            wanted,
            "write `&` for `&&`: both sides are evaluated, and it is the same on 0 and 1",
        ),
        (b'/', b'*') => where_number(wanted, COMMENT),
        _ => None,
    }
}

fn where_operator(wanted: &Wanted, habit: &'static str) -> Option<&'static str> {
    if wanted.has(Sort::Operator) {
        Some(habit)
    } else {
        None
    }
}

fn where_number(wanted: &Wanted, habit: &'static str) -> Option<&'static str> {
    if wanted.has(Sort::Number) {
        Some(habit)
    } else {
        None
    }
}
