//! Values that were saved, by the places of their tasks.

use ids::{Listed, Place};
use play_packets::{place, write_steps};
use play_words::{Answers, CommandLine, byte};
use saved_values::{SavedPlace, SavedTable, SavedValue, below};
use std::alloc::Global;

/// Writes such a place; `none` where there is none.
fn write_found(out: &mut Answers, place: Option<SavedPlace>) {
    match place {
        Some(place) => {
            out.text("> ");
            write_steps(out, place.steps());
            out.end();
        }
        None => out.line("none"),
    }
}

/// Writes values, each with its place; `none` where there is none.
fn write_values(out: &mut Answers, values: &[SavedValue]) {
    if values.is_empty() {
        out.line("none");
    }
    for saved in values {
        out.text("> ");
        write_steps(out, saved.place.steps());
        out.text(" is ");
        out.signed(saved.value);
        out.end();
    }
}

fn write_value(out: &mut Answers, value: Option<i64>) {
    match value {
        Some(value) => {
            out.text("> ");
            out.signed(value);
            out.end();
        }
        None => out.line("none"),
    }
}

/// Puts a value into a table, and writes whether it is taken.
fn put(place: &Place, value: i64, table: &mut SavedTable, out: &mut Answers) {
    match SavedPlace::of(place) {
        Some(place) => {
            let is_taken = table.put(SavedValue { place, value });
            out.line(if is_taken { "taken" } else { "not taken" });
        }
        None => out.line("no such place"),
    }
}

/// Those below a place; once more behind a refusal, which is when out of memory.
fn found_below(
    alloc: Global,
    table: &SavedTable,
    place: &Place,
    out: &mut Answers,
) -> Option<Listed<SavedValue>> {
    for _ in 0..2 {
        match below(alloc, table.as_slice(), place) {
            Ok(found) => return Some(found),
            Err(_) => out.line("E9"),
        }
    }
    None
}

/// Plays a command with a place in it.
fn play_placed(
    alloc: Global,
    line: &CommandLine<'_>,
    place: &Place,
    table: &mut SavedTable,
    out: &mut Answers,
) -> Option<()> {
    match line.word(1)? {
        "put" => put(place, line.signed(3)?, table, out),
        "kid" => write_value(out, table.value_at(place, byte(line.word(3)?)?)),
        "task" => write_found(out, SavedPlace::of_task(place)),
        "below" => {
            if let Some(found) = found_below(alloc, table, place, out) {
                write_values(out, found.as_slice());
            }
        }
        _ => return None,
    }
    Some(())
}

/// Plays a command on the values that were saved.
pub fn play_saved(
    alloc: Global,
    line: &CommandLine<'_>,
    table: &mut SavedTable,
    out: &mut Answers,
) -> Option<()> {
    match line.word(1)? {
        "all" => write_values(out, table.copied().as_slice()),
        "clear" => *table = SavedTable::new(),
        _ => {
            let place = place(alloc, line.word(2)?, out)?;
            play_placed(alloc, line, &place, table, out)?;
        }
    }
    Some(())
}
