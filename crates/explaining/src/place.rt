use std::io::{self, Write};

/// How many bytes of a line are shown at most, and how many of them in front of the place.
const WIDTH: usize = 100;

const BEFORE: usize = 60;

/// How many carets there are at most.
const CARETS: usize = 40;

/// Bytes of a text that are meant: their line and column, each from 1 on, where that line begins,
/// where they begin, and how many they are.
#[derive(Clone, Copy)]
pub(crate) struct Place {
    line: usize,
    column: usize,
    start: usize,
    at: usize,
    len: usize,
}

/// Whether a byte is one of a name or a number.
fn is_of_name(byte: u8) -> bool {
    byte.is_ascii_alphanumeric() || byte == b'_'
}

/// Whether two bytes are one operator.
fn is_operator(first: u8, second: u8) -> bool {
    matches!(
        (first, second),
        (b'=' | b'!' | b'<', b'=') | (b'<', b'<') | (b'>', b'>')
    )
}

/// So many bytes of a text from an offset on, as far as it goes.
pub(crate) fn part(text: &[u8], at: usize, len: usize) -> &[u8] {
    let behind = text.split_at(at.min(text.len())).1;
    behind.split_at(len.min(behind.len())).0
}

/// The byte at an offset; 0 where the text has none.
pub(crate) fn byte_at(text: &[u8], at: usize) -> u8 {
    match text.get(at) {
        Some(byte) => *byte,
        None => 0,
    }
}

/// The name or number at an offset; empty where none stands there.
pub(crate) fn word_at(text: &[u8], at: usize) -> &[u8] {
    let mut len = 0usize;
    for byte in text.iter().skip(at) {
        if !is_of_name(*byte) {
            break;
        }
        len = len.saturating_add(1);
    }
    part(text, at, len)
}

/// The token at an offset: a name, a number, an operator, or one byte; at the end none.
pub(crate) fn token_at(text: &[u8], at: usize) -> &[u8] {
    let word = word_at(text, at);
    if !word.is_empty() {
        return word;
    }
    let is_long = is_operator(byte_at(text, at), byte_at(text, at.saturating_add(1)));
    part(text, at, if is_long { 2 } else { 1 })
}

/// Where the last token ends of those that begin before an offset; blanks and comments are none.
pub(crate) fn end_before(text: &[u8], at: usize) -> usize {
    let mut end = 0usize;
    let mut in_comment = false;
    for (index, byte) in text.iter().take(at).enumerate() {
        if in_comment {
            in_comment = *byte != b'\n';
        } else if *byte == b'/' && byte_at(text, index.saturating_add(1)) == b'/' {
            in_comment = true;
        } else if !matches!(*byte, b' ' | b'\t' | b'\r' | b'\n') {
            end = index.saturating_add(1);
        }
    }
    end
}

/// The place of an offset in a text: of the token there.
pub(crate) fn place_of(text: &[u8], at: usize) -> Place {
    place_at(text, at, token_at(text, at).len())
}

/// The place of so many bytes of a text.
pub(crate) fn place_at(text: &[u8], at: usize, len: usize) -> Place {
    let mut line = 1usize;
    let mut start = 0usize;
    for (index, byte) in text.iter().take(at).enumerate() {
        if *byte == b'\n' {
            line = line.saturating_add(1);
            start = index.saturating_add(1);
        }
    }
    Place {
        line,
        column: at.saturating_sub(start).saturating_add(1),
        start,
        at,
        len,
    }
}

/// Writes a byte: itself where it is printed, else escaped.
fn write_byte<W: Write>(out: &mut W, byte: u8) -> io::Result<()> {
    if byte == b'\t' || byte == b' ' || byte.is_ascii_graphic() {
        write!(out, "{}", byte as char)
    } else {
        write!(out, "\\x{byte:02x}")
    }
}

/// Writes what holds the place of a byte.
fn write_blank<W: Write>(out: &mut W, byte: u8) -> io::Result<()> {
    if byte == b'\t' {
        write!(out, "\t")
    } else if byte == b' ' || byte.is_ascii_graphic() {
        write!(out, " ")
    } else {
        write!(out, "    ")
    }
}

/// Writes bytes, as many as there are carets at most.
pub(crate) fn write_bytes<W: Write>(out: &mut W, bytes: &[u8]) -> io::Result<()> {
    for byte in bytes.iter().take(CARETS) {
        write_byte(out, *byte)?;
    }
    Ok(())
}

/// Writes bytes between backquotes, with two dots in the place of those behind the first ones.
pub(crate) fn write_quoted<W: Write>(out: &mut W, bytes: &[u8]) -> io::Result<()> {
    write!(out, "`")?;
    write_bytes(out, bytes)?;
    write!(out, "{}", if bytes.len() > CARETS { "..`" } else { "`" })
}

impl Place {
    /// Whether bytes are meant, and not only where they would stand.
    pub(crate) fn has_bytes(&self) -> bool {
        self.len > 0
    }

    /// Writes the file, the line and the column, and the bytes that are meant, if they are to be
    /// told.
    pub(crate) fn write_front<W: Write>(
        &self,
        out: &mut W,
        file: &str,
        text: &[u8],
        is_told: bool,
    ) -> io::Result<()> {
        write!(out, "{file}:{}:{}: ", self.line, self.column)?;
        if is_told {
            write_quoted(out, part(text, self.at, self.len))?;
            write!(out, " ")?;
        }
        Ok(())
    }

    /// Writes the line of the place, and below it carets under what is meant; of a long line the
    /// part around the place.
    pub(crate) fn write_line<W: Write>(&self, out: &mut W, text: &[u8]) -> io::Result<()> {
        let from = self.start.max(self.at.saturating_sub(BEFORE));
        write!(out, "    ")?;
        for byte in text.iter().skip(from).take(WIDTH) {
            if *byte == b'\n' {
                break;
            }
            write_byte(out, *byte)?;
        }
        write!(out, "\n    ")?;
        for byte in part(text, from, self.at.saturating_sub(from)) {
            write_blank(out, *byte)?;
        }
        for _ in 0..self.len.min(CARETS).max(1) {
            write!(out, "^")?;
        }
        writeln!(out)
    }
}
