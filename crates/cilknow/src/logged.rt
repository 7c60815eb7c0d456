use chronicle::{Entry, Trace};
use event_script::{Event, NodeEvent, line};
use log::{Level, Line, Record};
use std::alloc::{AllocError, Global};
use std::str::from_utf8;
use world_steps::EventAnswer;

/// Who tells the lines of a log.
const TARGET: &str = "cilknow";

/// The log of a run: a line at level info, ended by a line feed, for each event of its trace by
/// which a node started, crashed or left, in their order; one that was refused has none. The
/// message is the event's line of the script. A line that finds no memory is left out.
pub fn log_text(alloc: Global, trace: &Trace) -> Vec<u8> {
    let mut text = Vec::new(alloc);
    for entry in trace.entries() {
        if is_logged(entry) {
            let _ = add_line(alloc, &mut text, &entry.event);
        }
    }
    text
}

/// Whether a node started, crashed or left by an event: one that was refused changed nothing.
fn is_logged(entry: &Entry) -> bool {
    let is_of_node = matches!(
        entry.event,
        Event::Start(_, _) | Event::Crash(_) | Event::AtNode(_, NodeEvent::Depart(_))
    );
    is_of_node && matches!(entry.told, EventAnswer::Did(_, _))
}

/// Adds the line of an event whole, or nothing of it where there is no memory.
fn add_line(alloc: Global, text: &mut Vec<u8>, event: &Event) -> Result<(), AllocError> {
    let line = line(alloc, event)?;
    let Ok(message) = from_utf8(line.as_slice()) else {
        return Ok(());
    };
    let record = Record::builder()
        .level(Level::Info)
        .target(TARGET)
        .args(message)
        .build();
    let logged = line_of(alloc, &record)?;
    text.extend_from_slice(logged.as_bytes())
}

/// A record as a line of the log.
fn line_of(alloc: Global, record: &Record<'_, &str>) -> Result<String, AllocError> {
    let shown = Line::new(record);
    String::format(alloc, format_args!("{shown}\n"))
}
