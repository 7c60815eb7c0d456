//! A token that can't stand where it does.

use crate::habits::habit_at;
use crate::place::{Place, end_before, part, place_at, place_of, token_at};
use crate::wanted::{Sort, Wanted, stands_behind};
use std::alloc::Global;
use std::io::{self, Write};

/// Explains that the token at an offset of a text can't stand there, or that the text can't end
/// there. Where a semicolon is missing in front of it, or the text ends, the place is behind the
/// last token.
pub(crate) fn explain_unexpected<W: Write>(
    alloc: Global,
    out: &mut W,
    file: &str,
    text: &[u8],
    at: usize,
) -> io::Result<()> {
    let token = token_at(text, at);
    let before = part(text, 0, at);
    let behind = place_at(text, end_before(text, at), 0);
    let wanted = Wanted::behind(alloc, before);
    if token.is_empty() {
        let said = if wanted.is_empty() {
            "the text ends where more is wanted"
        } else {
            "the text ends where "
        };
        return write_all(out, file, text, behind, said, Some(&wanted));
    }
    if wanted.has(Sort::Semicolon) && stands_behind(alloc, before, b";".as_slice(), token) {
        return write_all(out, file, text, behind, "`;` is missing here", None);
    }
    let said = if wanted.is_empty() {
        "can't stand here"
    } else {
        "can't stand here: "
    };
    write_all(out, file, text, place_of(text, at), said, Some(&wanted))?;
    match habit_at(alloc, text, at, &wanted) {
        Some(habit) => writeln!(out, "hint: {habit}"),
        None => Ok(()),
    }
}

/// Writes what is wrong at a place of a text, and what is wanted; and what is meant, where bytes
/// are.
fn write_all<W: Write>(
    out: &mut W,
    file: &str,
    text: &[u8],
    place: Place,
    said: &str,
    wanted: Option<&Wanted>,
) -> io::Result<()> {
    place.write_front(out, file, text, place.has_bytes())?;
    write!(out, "{said}")?;
    if let Some(wanted) = wanted {
        wanted.write(out)?;
    }
    writeln!(out)?;
    place.write_line(out, text)
}
