//! Scripts of events.

use event_script::{Event, Script, line};
use play_words::{Answers, CommandLine, Played, bytes_of_hex};
use std::alloc::Global;

/// Scripts, of which nothing is kept.
#[derive(Drop)]
pub struct Scripts {}

/// The bytes of a text, with a line feed for each `|`.
fn bytes_of(alloc: Global, text: &str, out: &mut Answers) -> Option<Vec<u8>> {
    let mut bytes = out.made(Vec::from_slice(alloc, text.as_bytes()))?;
    for byte in bytes.iter_mut() {
        if *byte == b'|' {
            *byte = b'\n';
        }
    }
    Some(bytes)
}

/// The next event; once more behind a refusal, which is when out of memory.
fn next_event(alloc: Global, script: &mut Script<'_>, out: &mut Answers) -> Option<Event> {
    for _ in 0..2 {
        match script.next(alloc) {
            Ok(event) => return event,
            Err(_) => out.line("E9"),
        }
    }
    None
}

/// Writes an event's line; once more behind a refusal, which is when out of memory.
fn write_event(alloc: Global, event: &Event, out: &mut Answers) {
    for _ in 0..2 {
        match line(alloc, event) {
            Ok(line) => {
                out.text("> ");
                out.bytes(line.as_slice());
                out.end();
                return;
            }
            Err(_) => out.line("E9"),
        }
    }
}

/// Writes the events of a script, a line each.
fn write_events(alloc: Global, script: &mut Script<'_>, out: &mut Answers) {
    for index in 0..usize::MAX {
        match next_event(alloc, script, out) {
            Some(event) => write_event(alloc, &event, out),
            None => {
                if index == 0 {
                    out.line("no events");
                }
                break;
            }
        }
    }
}

/// Reads bytes as a script, and writes its events, or the line that is refused.
fn play(alloc: Global, bytes: &[u8], out: &mut Answers) {
    match Script::new(bytes) {
        Ok(script) => {
            let mut script = script;
            write_events(alloc, &mut script, out);
        }
        Err(refused) => out.refusal(&refused),
    }
}

impl Scripts {
    pub fn new(_alloc: Global) -> Scripts {
        Scripts {}
    }

    /// Plays a command on scripts, and writes what it answers.
    pub fn play(&mut self, alloc: Global, line: &CommandLine<'_>, out: &mut Answers) -> Played {
        let bytes = match line.word(0).unwrap_or("") {
            "script" => bytes_of(alloc, line.rest(1), out),
            "script-bytes" => bytes_of_hex(alloc, line.rest(1), out),
            _ => return Played::NotMine,
        };
        match bytes {
            Some(bytes) => {
                play(alloc, &bytes, out);
                Played::Answered
            }
            None => Played::Malformed,
        }
    }
}
