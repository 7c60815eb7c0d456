//! Numbers in words. Each type is read here alone, as the first text of a type that a library reads
//! is long to prove.

use crate::answers::Answers;
use std::alloc::Global;

/// A number of 64 bits in decimal digits.
pub fn word64(text: &str) -> Option<u64> {
    text.parse::<u64>().ok()
}

/// A number of 64 bits with a sign.
pub fn signed64(text: &str) -> Option<i64> {
    text.parse::<i64>().ok()
}

/// A number of 32 bits.
pub fn word32(text: &str) -> Option<u32> {
    u32::try_from(word64(text)?).ok()
}

/// A byte.
pub fn byte(text: &str) -> Option<u8> {
    u8::try_from(word64(text)?).ok()
}

/// A count.
pub fn size(text: &str) -> Option<usize> {
    usize::try_from(word64(text)?).ok()
}

/// Numbers with signs that blanks part are added to a list; whether they are such. Empty words
/// between them are none, where they may be left out.
fn add_numbers(list: &mut Vec<i64>, words: &str, may_be_empty: bool, out: &mut Answers) -> bool {
    let mut are_numbers = true;
    for word in words.split(' ') {
        match signed64(word) {
            Some(number) => {
                if list.push(number).is_err() {
                    out.lack_memory();
                }
            }
            None => are_numbers = are_numbers && may_be_empty && word.is_empty(),
        }
    }
    are_numbers
}

/// The same numbers in a list.
pub fn numbers_of(
    alloc: Global,
    words: &str,
    may_be_empty: bool,
    out: &mut Answers,
) -> Option<Vec<i64>> {
    let mut list = Vec::new(alloc);
    if add_numbers(&mut list, words, may_be_empty, out) {
        Some(list)
    } else {
        None
    }
}
