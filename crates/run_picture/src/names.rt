//! The names of thread bodies where they run, and of packets where they are sent.

use crate::deed::Step;
use crate::layout::Layout;
use crate::px::Px;
use crate::record::Recorder;
use crate::rooms::Rooms;
use crate::shown::Sent;
use crate::texts::{ThreadName, count_chars};
use std::fmt;
use std::io::{self, Write};

/// The width of a character.
const CHAR: Px = Px(55);

/// The numbers of packets that were sent at one event: one, or the first and the last one.
#[derive(Clone, Copy)]
struct Numbers(usize, usize);

impl fmt::Display for Numbers {
    fn fmt<W: fmt::Write>(&self, f: &mut fmt::Formatter<W>) -> fmt::Result {
        let Numbers(first, last) = *self;
        if first == last {
            write!(f, "{first}")
        } else {
            write!(f, "{first}-{last}")
        }
    }
}

/// The kind of the first of them, and how many more there are.
#[derive(Clone, Copy)]
struct Kinds(&'static str, usize);

impl fmt::Display for Kinds {
    fn fmt<W: fmt::Write>(&self, f: &mut fmt::Formatter<W>) -> fmt::Result {
        let Kinds(name, more) = *self;
        if more == 0 {
            write!(f, "{name}")
        } else {
            write!(f, "{name} +{more}")
        }
    }
}

/// The packets that one event sent and that are shown: the first one, and the numbers of the first
/// and the last one.
#[derive(Clone, Copy)]
struct Group {
    sent: Sent,
    first: usize,
    last: usize,
}

/// Writes the threads whose bodies ran, and the numbers and kinds of the packets that events sent,
/// where there is room.
pub(crate) fn write_names<O: Write>(
    out: &mut O,
    layout: &Layout,
    run: &Recorder,
) -> io::Result<()> {
    if !layout.has_names() {
        return Ok(());
    }
    let (mut rooms, mut next) = (Rooms::new(), 0usize);
    for (event, step) in run.steps.iter().enumerate() {
        let end = end_of(run, next, event);
        if !layout.folds.is_folded(event) {
            if let Some(thread) = run.thread_of(step) {
                write_body(out, layout, &mut rooms, event, step, thread)?;
            }
            if let Some(group) = group_in(layout, run, next, end) {
                write_group(out, layout, &mut rooms, group)?;
            }
        }
        next = end;
    }
    Ok(())
}

/// The number of the packet behind those that an event sends, of which this is the first one.
fn end_of(run: &Recorder, first: usize, event: usize) -> usize {
    for index in first..run.packets.len() {
        match run.packets.get(index) {
            Some(sent) if sent.at == event => {}
            _ => return index,
        }
    }
    run.packets.len()
}

/// The packets of these numbers that are shown, if there are any.
fn group_in(layout: &Layout, run: &Recorder, first: usize, end: usize) -> Option<Group> {
    let mut group: Option<Group> = None;
    for index in first..end {
        let sent = *run.packets.get(index)?;
        if layout.arrows.shows(sent.kind) {
            let (sent, first) = match group {
                Some(before) => (before.sent, before.first),
                None => (sent, index),
            };
            group = Some(Group {
                sent,
                first,
                last: index,
            });
        }
    }
    group
}

/// Writes the name of the thread whose body an event ran.
fn write_body<O: Write>(
    out: &mut O,
    layout: &Layout,
    rooms: &mut Rooms,
    event: usize,
    step: &Step,
    thread: &[u8],
) -> io::Result<()> {
    let (from, width) = (layout.x(event).plus(Px(30)), CHAR.times(thread.len()));
    let Some(x) = rooms.take(&step.site, from, width, Px::FAR) else {
        return Ok(());
    };
    let (y, name) = (layout.line(step.site).minus(Px(100)), ThreadName(thread));
    writeln!(
        out,
        "<text class=\"body\" x=\"{x}\" y=\"{y}\">{name}</text>"
    )
}

/// Writes the numbers and the kinds of packets that were sent at one event.
fn write_group<O: Write>(
    out: &mut O,
    layout: &Layout,
    rooms: &mut Rooms,
    group: Group,
) -> io::Result<()> {
    let Group { sent, first, last } = group;
    let (numbers, kinds) = (
        Numbers(first, last),
        Kinds(sent.kind.name(), last.saturating_sub(first)),
    );
    let width = CHAR.times(count_chars(numbers).max(count_chars(kinds)));
    let from = layout.x(sent.at).plus(Px(30));
    let Some(x) = rooms.take(&sent.site, from, width, Px::FAR) else {
        return Ok(());
    };
    let line = layout.line(sent.site);
    let (above, below) = (line.minus(Px(190)), line.minus(Px(100)));
    write!(
        out,
        "<text class=\"packet\" x=\"{x}\" y=\"{above}\">{numbers}</text>"
    )?;
    writeln!(
        out,
        "<text class=\"packet\" x=\"{x}\" y=\"{below}\">{kinds}</text>"
    )
}
