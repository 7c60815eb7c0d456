//! Lists of numbers.

use ids::Listed;
use play_packets::{numbers, size_at, write_numbers};
use play_words::{Answers, CommandLine};
use std::alloc::{AllocError, Global};

/// A list that had room for one item, with these.
fn listed(alloc: Global, items: &[i64]) -> Result<Listed<i64>, AllocError> {
    let mut list = Listed::with_capacity(alloc, 1)?;
    for item in items {
        list.push(*item)?;
    }
    Ok(list)
}

fn write_item(out: &mut Answers, item: Option<&i64>) {
    match item {
        Some(item) => {
            out.text(", ");
            out.signed(*item);
        }
        None => out.text(", none"),
    }
}

/// Writes a list after an item was put into it, this item, the one behind the last, and the list
/// once it is cleared.
fn write_list(out: &mut Answers, list: &mut Listed<i64>, at: usize, item: i64) {
    if at < list.len() {
        list.put(at, item);
    }
    out.text("> ");
    write_numbers(out, list.as_slice());
    write_item(out, list.get(at));
    write_item(out, list.get(list.len()));
    list.clear();
    out.text(", ");
    write_numbers(out, list.as_slice());
    out.end();
}

/// The same of a list of these items.
fn write_listed(alloc: Global, items: &[i64], at: usize, item: i64, out: &mut Answers) {
    for _ in 0..2 {
        match listed(alloc, items) {
            Ok(mut list) => {
                write_list(out, &mut list, at, item);
                break;
            }
            Err(_) => out.line("E9"),
        }
    }
}

/// Plays a command on a list.
pub fn play_list(alloc: Global, line: &CommandLine<'_>, out: &mut Answers) -> Option<()> {
    let at = size_at(line, 2)?;
    let item = line.signed(3)?;
    let items = numbers(alloc, line.word(1)?, out)?;
    write_listed(alloc, items.as_slice(), at, item, out);
    Some(())
}
