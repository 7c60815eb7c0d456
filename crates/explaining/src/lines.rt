//! What is wrong with a line of a script that is no event's.

use crate::forms::Form;
use crate::place::{byte_at, part, place_at};
use event_script::Script;
use std::io::{self, Write};

/// Of a script that has so many bytes more may stand in its file.
const LOOKED_AT: usize = 1 << 24;

/// Places are below this number, and below the other one where the first line says so.
const FEW_PLACES: u64 = 16;

const PLACES: u64 = 64;

/// What is wrong.
#[derive(Clone, Copy)]
enum What {
    NotAscii,
    Return,
    Tab,
    BlankInFront,
    BlankBehind,
    TwoBlanks,
    /// There is no such event, but maybe one that is called nearly so.
    NoEvent(Option<Form>),
    NotCut,
    /// An event takes other words behind its name.
    Takes(Form),
    NoNumber,
    LargeNumber,
    HighPlace,
    FarPlace,
    NoAsked,
    NoDigit,
    OddDigits,
}

impl What {
    /// What is said of it, behind the bytes that are meant.
    fn said(self) -> &'static str {
        match self {
            What::NotAscii => "is no byte of ASCII",
            What::Return => "a CR stands at the end of the line, which LF alone ends",
            What::Tab => "a tab stands where one blank parts words",
            What::BlankInFront => "a blank stands in front of the first word",
            What::BlankBehind => "a blank stands behind the last word",
            What::TwoBlanks => "two blanks stand where one parts words",
            What::NoEvent(None) => "is no event, see docs/SCRIPTS.md",
            What::NoEvent(Some(_)) => "is no event",
            What::NotCut => {
                "is none of `house-deliver`, `house-tick` and `house-restart`, which `cut` stops"
            }
            What::Takes(form) => form.takes(),
            What::NoNumber => "is no number, which has decimal digits alone",
            What::LargeNumber => "is a number over 18446744073709551615",
            What::HighPlace => "is a place over 15, which needs `# nodes 64` as line 1",
            What::FarPlace => "is a place over 63",
            What::NoAsked => "is no start word, and isn't `house`",
            What::NoDigit => "is no digit of bytes, which are 0 to 9 and a to f",
            What::OddDigits => "has an odd count of digits, of which two are a byte",
        }
    }

    /// Whether the bytes that are meant are told, too.
    fn tells_bytes(self) -> bool {
        !matches!(
            self,
            What::Return | What::Tab | What::BlankInFront | What::BlankBehind | What::TwoBlanks
        )
    }
}

/// What is wrong with some bytes of a line, or of a script.
#[derive(Clone, Copy)]
pub(crate) struct Mistake {
    at: usize,
    len: usize,
    what: What,
}

impl Mistake {
    /// Writes where it is, what is wrong, the line, and carets below what is meant.
    pub(crate) fn write<W: Write>(&self, out: &mut W, file: &str, script: &[u8]) -> io::Result<()> {
        let place = place_at(script, self.at, self.len);
        place.write_front(out, file, script, self.what.tells_bytes())?;
        write!(out, "{}", self.what.said())?;
        if let What::NoEvent(Some(form)) = self.what {
            write!(out, "; `{}` is one", form.word())?;
        }
        writeln!(out)?;
        place.write_line(out, script)
    }
}

/// What is wrong with a line of a script, from 1 on; none where it isn't the first one that is
/// refused, or may go on.
pub(crate) fn mistake_in(script: &[u8], number: u64) -> Option<Mistake> {
    match Script::new(script) {
        Err(line) if line.number() == number => {}
        _ => return None,
    }
    let start = start_of(script, number);
    let line = until(script, start, b'\n');
    if script.len() >= LOOKED_AT && start.saturating_add(line.len()) >= script.len() {
        return None;
    }
    let found = mistake_of(line, places_of(script))?;
    Some(Mistake {
        at: start.saturating_add(found.at),
        ..found
    })
}

/// Where a line begins, from 1 on.
fn start_of(script: &[u8], number: u64) -> usize {
    let lines = usize::try_from(number.saturating_sub(1)).unwrap_or(usize::MAX);
    behind(script, b'\n', lines).0
}

/// The offset behind so many of the bytes that end a part, or behind all of them where there are
/// fewer; and how many there are before it.
fn behind(text: &[u8], end: u8, count: usize) -> (usize, usize) {
    let mut at = 0usize;
    let mut passed = 0usize;
    for (index, byte) in text.iter().enumerate() {
        if passed >= count {
            break;
        }
        if *byte == end {
            passed = passed.saturating_add(1);
            at = index.saturating_add(1);
        }
    }
    (at, passed)
}

/// The bytes from an offset on, up to the next one that ends them.
fn until(text: &[u8], at: usize, end: u8) -> &[u8] {
    let mut len = 0usize;
    for byte in text.iter().skip(at) {
        if *byte == end {
            break;
        }
        len = len.saturating_add(1);
    }
    part(text, at, len)
}

/// How many places there are.
fn places_of(script: &[u8]) -> u64 {
    if until(script, 0, b'\n') == b"# nodes 64".as_slice() {
        PLACES
    } else {
        FEW_PLACES
    }
}

/// What is wrong with a line in a world of so many places.
fn mistake_of(line: &[u8], places: u64) -> Option<Mistake> {
    if let Some(mistake) = of_bytes(line) {
        return Some(mistake);
    }
    let name = word_of(line, 0)?;
    match Form::of(name.text) {
        None => Some(name.mistaken(What::NoEvent(Form::near(name.text)))),
        Some(Form::Cut) => of_cut(line, name),
        Some(form) => of_words(line, 0, form, places),
    }
}

/// What is wrong with single bytes of a line, whatever its words are.
fn of_bytes(line: &[u8]) -> Option<Mistake> {
    let last = line.len().saturating_sub(1);
    if let Some(at) = not_ascii(line) {
        Some(Mistake {
            at,
            len: 1,
            what: What::NotAscii,
        })
    } else if byte_at(line, last) == b'\r' {
        Some(Mistake {
            at: last,
            len: 1,
            what: What::Return,
        })
    } else {
        of_blanks(line, last)
    }
}

/// The first byte that isn't ASCII.
fn not_ascii(line: &[u8]) -> Option<usize> {
    for (at, byte) in line.iter().enumerate() {
        if *byte >= 128 {
            return Some(at);
        }
    }
    None
}

/// What is wrong with the blanks of a line, whose last byte stands here.
fn of_blanks(line: &[u8], last: usize) -> Option<Mistake> {
    let mut behind_blank = true;
    for (at, byte) in line.iter().enumerate() {
        let what = match *byte {
            b'\t' => What::Tab,
            b' ' if at == 0 => What::BlankInFront,
            b' ' if at == last => What::BlankBehind,
            b' ' if behind_blank => What::TwoBlanks,
            _ => {
                behind_blank = *byte == b' ';
                continue;
            }
        };
        return Some(Mistake { at, len: 1, what });
    }
    None
}

/// A word of a line, and where it begins.
#[derive(Clone, Copy)]
struct Word<'a> {
    at: usize,
    text: &'a [u8],
}

impl<'a> Word<'a> {
    fn mistaken(&self, what: What) -> Mistake {
        Mistake {
            at: self.at,
            len: self.text.len(),
            what,
        }
    }
}

/// The word of an index, if the line has it.
fn word_of(line: &[u8], index: usize) -> Option<Word<'_>> {
    let (at, passed) = behind(line, b' ', index);
    if passed < index {
        return None;
    }
    Some(Word {
        at,
        text: until(line, at, b' '),
    })
}

/// How many words a line has.
fn words_of(line: &[u8]) -> usize {
    let mut count = 1usize;
    for byte in line {
        if *byte == b' ' {
            count = count.saturating_add(1);
        }
    }
    count
}

/// What is wrong with the words behind an event's name, which is the word of an index.
fn of_words(line: &[u8], index: usize, form: Form, places: u64) -> Option<Mistake> {
    let name = word_of(line, index)?;
    let first = index.saturating_add(1);
    if words_of(line).saturating_sub(first) != form.count() {
        return Some(name.mistaken(What::Takes(form)));
    }
    for number in 0..form.count() {
        let word = word_of(line, first.saturating_add(number))?;
        if let Some(what) = of_word(form, number, word.text, places) {
            return Some(word.mistaken(what));
        }
    }
    None
}

/// What is wrong with a word of an event, of which so many stand in front of it behind the name.
fn of_word(form: Form, number: usize, word: &[u8], places: u64) -> Option<What> {
    let is_asked = form == Form::Ask && number == 1;
    if is_asked && word == b"house".as_slice() {
        return None;
    }
    if !are_digits(word) {
        return Some(if is_asked {
            What::NoAsked
        } else {
            What::NoNumber
        });
    }
    match value_of(word) {
        None => Some(What::LargeNumber),
        Some(value) if number == 0 && form.has_place() && value >= places => Some(if value
            < PLACES
        {
            What::HighPlace
        } else {
            What::FarPlace
        }),
        Some(_) => None,
    }
}

fn are_digits(word: &[u8]) -> bool {
    for byte in word {
        if !byte.is_ascii_digit() {
            return false;
        }
    }
    !word.is_empty()
}

/// The number that decimal digits are, up to 2^64 - 1.
fn value_of(digits: &[u8]) -> Option<u64> {
    let mut value = 0u64;
    for digit in digits {
        let tens = value.checked_mul(10)?;
        value = tens.checked_add(u64::from(digit.saturating_sub(b'0')))?;
    }
    Some(value)
}

/// What is wrong with a `cut`.
fn of_cut(line: &[u8], name: Word<'_>) -> Option<Mistake> {
    let (Some(calls), Some(bytes), Some(event)) = (
        word_of(line, 1),
        word_of(line, 2),
        word_of(line, 3),
    ) else {
        return Some(name.mistaken(What::Takes(Form::Cut)));
    };
    if let Some(what) = of_word(Form::Cut, 0, calls.text, PLACES) {
        return Some(calls.mistaken(what));
    }
    if let Some(mistake) = of_hex(bytes) {
        return Some(mistake);
    }
    match Form::of(event.text) {
        Some(form) if form.can_be_cut() => of_words(line, 3, form, PLACES),
        _ => Some(event.mistaken(What::NotCut)),
    }
}

/// What is wrong with a word of bytes.
fn of_hex(word: Word<'_>) -> Option<Mistake> {
    if word.text == b"-".as_slice() {
        return None;
    }
    for (index, byte) in word.text.iter().enumerate() {
        if !matches!(*byte, b'0'..=b'9' | b'a'..=b'f') {
            return Some(Mistake {
                at: word.at.saturating_add(index),
                len: 1,
                what: What::NoDigit,
            });
        }
    }
    if word.text.len() % 2 == 1 {
        return Some(word.mistaken(What::OddDigits));
    }
    None
}
