use crate::answers::Answers;
use std::alloc::Global;

/// The value of a hexadecimal digit, in small or capital letters.
fn digit(byte: u8) -> Option<u8> {
    match byte {
        b'0'..=b'9' => Some(byte - b'0'),
        b'a'..=b'f' => Some(byte - b'a' + 10),
        b'A'..=b'F' => Some(byte - b'A' + 10),
        _ => None,
    }
}

/// The hexadecimal digit of a value, in small letters.
pub fn digit_of(value: u8) -> u8 {
    match value {
        0..=9 => b'0' + value,
        10..=15 => b'a' + (value - 10),
        _ => b'?',
    }
}

/// The byte that two hexadecimal digits spell.
fn pair(high: u8, low: u8) -> Option<u8> {
    let (high, low) = (digit(high)?, digit(low)?);
    high.checked_mul(16)?.checked_add(low)
}

/// What a text of hexadecimal digits is read as, up to a byte: whether it is well so far, and the
/// first digit of a pair.
#[derive(Clone, Copy)]
enum Before {
    Whole,
    Half(u8),
    Wrong,
}

/// Reads a byte of a text: what it is read as then, and the byte that ends here, if one does.
fn behind(before: Before, byte: u8) -> (Before, Option<u8>) {
    match before {
        Before::Whole if byte == b' ' => (Before::Whole, None),
        Before::Whole => (Before::Half(byte), None),
        Before::Half(high) => match pair(high, byte) {
            Some(spelled) => (Before::Whole, Some(spelled)),
            None => (Before::Wrong, None),
        },
        Before::Wrong => (Before::Wrong, None),
    }
}

/// Adds the bytes that pairs of hexadecimal digits spell; whether the text is such pairs.
fn add(bytes: &mut Vec<u8>, text: &str, out: &mut Answers) -> bool {
    let mut before = Before::Whole;
    for byte in text.as_bytes() {
        let (next, ended) = behind(before, *byte);
        if let Some(ended) = ended
            && bytes.push(ended).is_err()
        {
            out.lack_memory();
        }
        before = next;
    }
    matches!(before, Before::Whole)
}

/// The bytes that pairs of hexadecimal digits spell; none where the text is no such pairs, or there
/// is no memory. Blanks between pairs are skipped, and `-` alone spells no bytes.
pub fn bytes_of_hex(alloc: Global, text: &str, out: &mut Answers) -> Option<Vec<u8>> {
    let mut bytes = Vec::new(alloc);
    if text == "-" || add(&mut bytes, text, out) {
        Some(bytes)
    } else {
        None
    }
}
