//! What is told of a fault behind its line, where a command line asks for it.

use crate::command::CommandFault;
use crate::failure::{Failure, Why};
use crate::fault::SoloFault;
use crate::form::FormFault;
use crate::merging::{TraceLine, TracesFault};
use command_line::{Named, Place};
use explaining::{explain_files, explain_number, explain_replay, explain_text};
use jobs::JobFault;
use node_runner::RunError;
use serial_meaning::SerialError;
use std::fs::File;
use std::io::{self, Write};
use std::rt::Files;

/// Explains a fault of a command line that names these files. What can't be read any more isn't
/// explained.
pub fn explain<R: Files<File = File> + AllocGlobal, W: Write>(
    rt: &R,
    out: &mut W,
    failure: &Failure,
    named: &Named<'_>,
) -> io::Result<()> {
    match &failure.why {
        Why::Plain => explain_fault(rt, out, &failure.fault, named),
        Why::File(place, error) => explain_place(out, *place, error, named),
        Why::Misuse(misuse) => writeln!(out, "{misuse}"),
        Why::OtherJob | Why::NoJob => explain_store(out, &failure.why, named),
        Why::Trace(line) => explain_trace(out, line),
    }
}

/// Explains whose trace is refused, in which line, and why.
fn explain_trace<W: Write>(out: &mut W, refused: &TraceLine) -> io::Result<()> {
    write!(out, "{} line {}: ", refused.path, refused.line)?;
    match refused.why {
        Some(stuck) => writeln!(out, "{stuck}"),
        None => writeln!(out, "it is no line of a trace"),
    }
}

/// Explains why a store is refused by the file beside it, and what helps.
fn explain_store<W: Write>(out: &mut W, why: &Why, named: &Named<'_>) -> io::Result<()> {
    let store = named.store.unwrap_or("");
    let beside = named.beside.unwrap_or("");
    match why {
        Why::OtherJob => write!(
            out,
            "{store} is the store of another program or another input"
        )?,
        _ => write!(out, "{beside} doesn't say whose store {store} is")?,
    }
    writeln!(out, ": name another file, or remove {store} and {beside}")
}

/// Explains why a file, or standard output, couldn't be opened, read or written.
fn explain_place<W: Write>(
    out: &mut W,
    place: Place,
    error: &io::Error,
    named: &Named<'_>,
) -> io::Result<()> {
    let path = named.path(place).unwrap_or("standard output");
    if place == Place::Store && error.kind() == io::ErrorKind::WouldBlock {
        return writeln!(out, "{path}: another run has this store");
    }
    writeln!(out, "{path}: {error}")
}

/// Explains a fault by what it says itself.
fn explain_fault<R: Files<File = File> + AllocGlobal, W: Write>(
    rt: &R,
    out: &mut W,
    fault: &CommandFault,
    named: &Named<'_>,
) -> io::Result<()> {
    let text = named.text.unwrap_or("");
    let script = named.script.unwrap_or("");
    match fault {
        CommandFault::Run(SoloFault::Job(job)) => explain_text(rt, out, *job, text),
        CommandFault::Form(FormFault::Text(parse)) => {
            explain_text(rt, out, JobFault::Parse(*parse), text)
        }
        CommandFault::Form(FormFault::Long(print)) => explain_number(out, print.number()),
        CommandFault::Run(fault) => explain_number(out, fault.number()),
        CommandFault::TurnsSpent => explain_number(out, SerialError::TurnsSpent.number()),
        CommandFault::Nodes(RunError::Disk(number)) => explain_number(out, *number),
        CommandFault::Nodes(RunError::TurnsSpent) => explain_number(out, 95),
        CommandFault::Nodes(RunError::Memory) => explain_number(out, 96),
        CommandFault::Replay(fault) => explain_replay(rt, out, *fault, text, script),
        CommandFault::Merge(TracesFault::None) => {
            writeln!(out, "{} has no file NAME.trace", named.folder.unwrap_or(""))
        }
        CommandFault::Merge(TracesFault::Line(line)) => writeln!(out, "line {line}"),
        CommandFault::File => explain_files(rt, out, &[text]),
        CommandFault::Usage => {
            writeln!(
                out,
                "see `cilknow --help`, and `cilknow COMMAND --help` for each command"
            )
        }
    }
}
