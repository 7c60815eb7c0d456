//! The words of a turn: which frame a node carried out, by its body or by its whole value, and what
//! that came to.

use crate::names::MinterName;
use crate::packet::write_thread;
use event_script::{Event, FrameOf, NodeEvent, NodePlace};
use ids::{Frame, FrameNo, Outcome, Progress};
use node_core::{Fill, Node};
use std::io::{self, Write};
use subcomputation::Sub;
use task_tree::Program;
use world::World;

/// A frame that an event carries out, the place whose node does, and whether it is by the frame's
/// whole value.
#[derive(Clone, Copy)]
pub struct Ran {
    pub place: NodePlace,
    pub frame: FrameOf,
    pub is_whole: bool,
}

/// What an event carries out, if it does.
pub fn ran_in(event: &Event) -> Option<Ran> {
    let Event::AtNode(place, event) = event else {
        return None;
    };
    let (frame, is_whole) = match event {
        NodeEvent::Exec(frame) => (frame, false),
        NodeEvent::Whole(frame, _) => (frame, true),
        _ => return None,
    };
    Some(Ran {
        place: *place,
        frame: *frame,
        is_whole,
    })
}

/// Writes an event that carries out a frame: its place, the grant, and the frame's number.
pub(crate) fn write_ran<O: Write>(out: &mut O, ran: &Ran) -> io::Result<()> {
    let (name, frame) = (if ran.is_whole { "whole" } else { "exec" }, ran.frame);
    write!(
        out,
        "{name} {} {}/{} {}",
        ran.place.index(),
        MinterName(frame.minter),
        frame.number,
        frame.frame
    )
}

/// Writes the words of a turn, in the world after it: the event, and behind a colon what it came
/// to, as `exec 0 H1/1 2: main(1) sends 1 to slot 0 of frame 1`. Before the turn `write_task` has
/// written the task, and the turn put so many values into slots. No line's end is written.
pub fn write_turn<O: Write>(
    out: &mut O,
    world: &World<'_>,
    ran: &Ran,
    task: &[u8],
    fills: usize,
) -> io::Result<()> {
    write_ran(out, ran)?;
    write!(out, ": ")?;
    out.write_all(task)?;
    write_end(out, world, ran, fills)
}

/// Writes the thread and the numbers of a frame that is to run, as `main(1)`, in the world before
/// that; nothing where it isn't there.
pub fn write_task<O: Write>(out: &mut O, world: &World<'_>, ran: &Ran) -> io::Result<()> {
    let Some(node) = world.node(ran.place) else {
        return Ok(());
    };
    match (sub_of(node, ran), u32::try_from(ran.frame.frame)) {
        (Some(sub), Ok(number)) => write_number(out, world, sub, number),
        _ => Ok(()),
    }
}

/// The subcomputation of a frame.
fn sub_of<'n>(node: &'n Node<'_>, ran: &Ran) -> Option<&'n Sub> {
    node.parts()
        .held()
        .get((ran.frame.minter, ran.frame.number))
}

/// Writes the words of the frame of a number, if it is there.
fn write_number<O: Write>(
    out: &mut O,
    world: &World<'_>,
    sub: &Sub,
    number: u32,
) -> io::Result<()> {
    match sub.content().frames.get(FrameNo::of(number)) {
        Some(frame) => write_frame(out, world.job().checked().program(), frame),
        None => Ok(()),
    }
}

/// Writes the thread of a frame on what its slots hold, `?` for one that waits.
fn write_frame<O: Write>(out: &mut O, program: &Program, frame: &Frame) -> io::Result<()> {
    write_thread(out, program, frame.thread)?;
    write!(out, "(")?;
    for (index, slot) in frame.slots.as_slice().iter().enumerate() {
        let sign = if index == 0 { "" } else { ", " };
        match slot {
            Some(value) => write!(out, "{sign}{value}")?,
            None => write!(out, "{sign}?")?,
        }
    }
    write!(out, ")")
}

/// Writes what a turn came to, in the world after it: the value that it sent, and whither; or the
/// frames that it made. Of a task that was evaluated whole, the value that it gave.
pub(crate) fn write_end<O: Write>(
    out: &mut O,
    world: &World<'_>,
    ran: &Ran,
    fills: usize,
) -> io::Result<()> {
    let Some(node) = world.node(ran.place) else {
        return Ok(());
    };
    let last = world.fills().saturating_sub(1) as u64;
    if let (true, Some(fill)) = (fills > 0, world.fill(last)) {
        write_value(out, node, ran, fill.value)?;
        return write_slot(out, ran, fill);
    }
    let Some(sub) = sub_of(node, ran) else {
        return Ok(());
    };
    match &sub.content().progress {
        Progress::Active => write_join(out, world, sub, node.parts().last_turn().came),
        Progress::Finished(Outcome::Value(value)) => {
            write_value(out, node, ran, *value)?;
            write!(out, ", the subcomputation's outcome")
        }
        Progress::Finished(Outcome::TooDeep) => {
            write!(
                out,
                " is too deep to join: the subcomputation's outcome is too deep"
            )
        }
    }
}

/// Writes the value that a turn sent; or that a task gave which was evaluated whole, and in how
/// many turns.
fn write_value<O: Write>(out: &mut O, node: &Node<'_>, ran: &Ran, value: i64) -> io::Result<()> {
    if !ran.is_whole {
        return write!(out, " sends {value}");
    }
    let turns = node.last_whole();
    write!(
        out,
        " gives {value} in {turns} turn{}",
        if turns == 1 { "" } else { "s" }
    )
}

/// Writes where a value went.
fn write_slot<O: Write>(out: &mut O, ran: &Ran, fill: &Fill) -> io::Result<()> {
    write!(
        out,
        "{} to slot {} of frame {}",
        if ran.is_whole { "," } else { "" },
        fill.slot,
        fill.frame.number()
    )
}

/// Writes the last frames, so many: the successor that a turn made, and the kids of its holes.
fn write_join<O: Write>(out: &mut O, world: &World<'_>, sub: &Sub, came: usize) -> io::Result<()> {
    let Ok(came) = u32::try_from(came) else {
        return Ok(());
    };
    let behind = sub.content().next.number();
    for index in 0..came {
        let sign = match index {
            0 => " joins ",
            1 => " with ",
            _ => ", ",
        };
        write!(out, "{sign}")?;
        let number = behind.saturating_sub(came.saturating_sub(index));
        write_number(out, world, sub, number)?;
    }
    Ok(())
}
