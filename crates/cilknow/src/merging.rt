//! Merging the traces of a folder.

use crate::command::write_bytes;
use crate::failure::Failure;
use crate::output::Output;
use command_line::{MergeWords, Misuse, Place, is_one_file};
use std::alloc::Global;
use std::fs::{self, File};
use std::io::{self, Read, Write};
use std::rt::Files;
use thiserror::Error;
use traces::{Label, MergeFault, Stuck, Trace, TraceFault, merge};

/// How the name of a trace's file ends.
const ENDING: &str = ".trace";

/// Why the traces of a folder aren't merged.
#[derive(Clone, Copy, Debug, PartialEq, Eq, Error)]
pub enum TracesFault {
    /// It has none.
    #[error("no trace")]
    None,
    /// A line of one of them has no place in an order, or is none of a trace.
    #[error("line {0}")]
    Line(u64),
}

/// Where a trace was refused: its file, the line, and why it has no place; none where it is no line
/// of a trace.
#[derive(Drop)]
pub struct TraceLine {
    pub path: String,
    pub line: u64,
    pub why: Option<Stuck>,
}

/// The traces of a folder in one order, as a script, which is made in full before any of it is
/// written. The file for it is open before the traces are read.
pub fn answer_merge<R: Files<File = File> + AllocGlobal + Clone + Drop, O: Write>(
    rt: &R,
    words: MergeWords<'_>,
    out: &mut O,
) -> Result<(), Failure> {
    let Some(path) = words.out else {
        let text = merged(rt, words.folder, None)?;
        return write_bytes(out, text.as_slice()).map_err(|e| Failure::file(
            Place::StandardOutput,
            e,
        ));
    };
    let mut output = Output::open(rt, path).map_err(unmerged)?;
    match merged(rt, words.folder, Some(path)) {
        Ok(text) => output.write(text.as_slice()).map_err(unmerged),
        Err(failure) => {
            output.give_up(rt, path);
            Err(failure)
        }
    }
}

/// The script's file can't be opened or written.
fn unmerged(error: io::Error) -> Failure {
    Failure::file(Place::Out, error)
}

/// The folder, or a file in it, can't be read.
fn unread(error: io::Error) -> Failure {
    Failure::file(Place::Folder, error)
}

/// The script of the traces of a folder, none of which is the file to which it is to be written.
fn merged<R: Files<File = File> + AllocGlobal + Clone + Drop>(
    rt: &R,
    folder: &str,
    out: Option<&str>,
) -> Result<Vec<u8>, Failure> {
    let alloc = rt.alloc();
    let names = names_in(rt, folder)?;
    let (mut traces, mut labels) = (Vec::new(alloc), Vec::new(alloc));
    for name in names.as_slice() {
        let path = path_of(alloc, folder, name.as_str())?;
        if let Some(out) = out
            && is_one_file(rt, path.as_str(), out)
        {
            return Err(Failure::misuse(Misuse::OneFile(Place::Folder, Place::Out)));
        }
        let label = Label::of(alloc, name.strip_suffix(ENDING).unwrap_or(""))?;
        if labels.push(label).is_err() || traces.push(trace_in(rt, path)?).is_err() {
            return Err(Failure::memory());
        }
    }
    match merge(alloc, traces) {
        Ok(merged) => Ok(merged.script(alloc, labels.as_slice())?),
        Err(MergeFault::Memory) => Err(Failure::memory()),
        Err(MergeFault::Line(index, line, stuck)) => {
            let name = match names.get(index) {
                Some(name) => name.as_str(),
                None => "",
            };
            let path = path_of(alloc, folder, name)?;
            Err(Failure::line(path, line, Some(stuck)))
        }
    }
}

/// The path of a file in a folder.
fn path_of(alloc: Global, folder: &str, name: &str) -> Result<String, Failure> {
    match String::format(alloc, format_args!("{folder}/{name}")) {
        Ok(path) => Ok(path),
        Err(_) => Err(Failure::memory()),
    }
}

/// The trace in a file.
fn trace_in<R: Files<File = File> + AllocGlobal>(rt: &R, path: String) -> Result<Trace, Failure> {
    let bytes = bytes_in(rt, path.as_str()).map_err(unread)?;
    match Trace::read(rt.alloc(), bytes.as_slice()) {
        Ok(trace) => Ok(trace),
        Err(TraceFault::Memory) => Err(Failure::memory()),
        Err(TraceFault::Line(line)) => Err(Failure::line(path, line, None)),
    }
}

fn bytes_in<R: Files<File = File> + AllocGlobal>(rt: &R, path: &str) -> io::Result<Vec<u8>> {
    let mut bytes = Vec::new(rt.alloc());
    fs::open(rt, path)?.read_to_end(&mut bytes)?;
    Ok(bytes)
}

/// The names of a folder's traces, in their order. Refused where it has none.
fn names_in<R: Files<File = File> + AllocGlobal + Clone + Drop>(
    rt: &R,
    folder: &str,
) -> Result<Vec<String>, Failure> {
    let mut names = Vec::new(rt.alloc());
    for entry in fs::read_dir(rt, folder).map_err(unread)? {
        let entry = entry.map_err(unread)?;
        let name = entry.file_name();
        if name.ends_with(ENDING) && names.push(String::from_str(rt.alloc(), name)?).is_err() {
            return Err(Failure::memory());
        }
    }
    if names.is_empty() {
        return Err(Failure::no_trace());
    }
    names.sort_unstable();
    Ok(names)
}
