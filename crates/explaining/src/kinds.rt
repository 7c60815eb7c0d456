//! What is wrong with the kinds of a program, by its tree.

use crate::place::{end_before, place_at, place_of, word_at, write_bytes, write_quoted};
use crate::sentences::said_of;
use kind_check::KindFault;
use std::io::{self, Write};
use task_syntax::{Argument, Block, End, Expr, Given, Name, Program, Thread, Use};

/// What a name of a body names, by where it stands.
#[derive(Clone, Copy)]
enum Role {
    /// The continuation of the body.
    Own,
    /// A hole of its successor.
    Hole,
    Number,
}

/// The block around an offset that has no block in it.
fn leaf(block: &Block, at: u32) -> &Block {
    match &block.end {
        End::If(_, first, second) => {
            if at <= first.close {
                leaf(first, at)
            } else {
                leaf(second, at)
            }
        }
        _ => block,
    }
}

/// The thread around an offset.
fn thread_around(program: &Program, at: u32) -> Option<&Thread> {
    for thread in program.threads.as_slice() {
        if at <= thread.body.close {
            return Some(thread);
        }
    }
    None
}

/// The first thread of a name.
fn thread_named<'a>(program: &'a Program, name: &[u8]) -> Option<&'a Thread> {
    for thread in program.threads.as_slice() {
        if thread.name.text.as_slice() == name {
            return Some(thread);
        }
    }
    None
}

/// A thread whose name is `main` in other letters.
fn nearly_main(program: &Program) -> Option<&Name> {
    for thread in program.threads.as_slice() {
        if is_main(thread.name.text.as_slice()) {
            return Some(&thread.name);
        }
    }
    None
}

fn is_main(name: &[u8]) -> bool {
    matches!(name, [b'm' | b'M', b'a' | b'A', b'i' | b'I', b'n' | b'N'])
}

/// What the name at an offset of a block names, which no `let` and no `?` names there.
fn role_at(block: &Block, at: u32) -> Role {
    match &block.end {
        End::Send(continuation, _) if continuation.offset == at => Role::Own,
        End::Next(_, continuation, _, _) if continuation.offset == at => Role::Own,
        End::Next(_, _, _, uses) if has_hole_at(uses.as_slice(), at) => Role::Hole,
        _ => Role::Number,
    }
}

fn has_hole_at(uses: &[Use], at: u32) -> bool {
    for each in uses {
        if each.hole.offset == at {
            return true;
        }
    }
    false
}

/// Whether the name at an offset of a block lacks its `?`: it is a whole argument of `spawn_next`,
/// which has no such hole, and it is used as one.
fn lacks_mark(block: &Block, at: u32, name: &[u8]) -> bool {
    let End::Next(_, _, arguments, uses) = &block.end else {
        return false;
    };
    is_argument_at(arguments.as_slice(), at)
        && !is_hole(name, arguments.as_slice())
        && is_used(name, uses.as_slice())
}

/// Whether an argument is the name at an offset, and no more.
fn is_argument_at(arguments: &[Argument], at: u32) -> bool {
    for argument in arguments {
        if let Argument::Value(Expr::Variable(name)) = argument {
            if name.offset == at {
                return true;
            }
        }
    }
    false
}

fn is_hole(name: &[u8], arguments: &[Argument]) -> bool {
    for argument in arguments {
        if let Argument::Hole(hole) = argument {
            if hole.text.as_slice() == name {
                return true;
            }
        }
    }
    false
}

/// The first hole of a block's successor that isn't used.
fn unused_hole(block: &Block) -> Option<&Name> {
    let End::Next(_, _, arguments, uses) = &block.end else {
        return None;
    };
    for argument in arguments.as_slice() {
        if let Argument::Hole(name) = argument {
            if !is_used(name.text.as_slice(), uses.as_slice()) {
                return Some(name);
            }
        }
    }
    None
}

fn is_used(hole: &[u8], uses: &[Use]) -> bool {
    for each in uses {
        if each.hole.text.as_slice() == hole {
            return true;
        }
    }
    false
}

/// How many arguments the thread gets whose name stands at an offset of a block.
fn given_at(block: &Block, at: u32) -> Option<usize> {
    let End::Next(thread, _, arguments, uses) = &block.end else {
        return None;
    };
    if thread.offset == at {
        return Some(arguments.len());
    }
    for each in uses.as_slice() {
        if let Given::Spawned(name, values) = &each.given {
            if name.offset == at {
                return Some(values.len());
            }
        }
    }
    None
}

/// What is said of a fault, behind what is meant.
#[derive(Clone, Copy)]
enum Said<'a> {
    Plain(&'static str),
    /// This hole isn't used.
    Unused(&'a [u8]),
    /// A thread takes so many arguments, and gets so many.
    Counts(usize, usize),
    /// There is no thread `main`, but this one.
    Nearly(&'a [u8]),
}

impl<'a> Said<'a> {
    fn write<W: Write>(&self, out: &mut W) -> io::Result<()> {
        match self {
            Said::Plain(said) => writeln!(out, "{said}"),
            Said::Unused(hole) => {
                write!(out, "ends a block in which the hole ")?;
                write_quoted(out, *hole)?;
                writeln!(out, " isn't used")
            }
            Said::Counts(takes, given) => {
                let s = if *takes == 1 { "" } else { "s" };
                writeln!(
                    out,
                    "takes {takes} argument{s} behind its continuation, not {given}"
                )
            }
            Said::Nearly(name) => {
                write!(out, "there is no thread `main`; ")?;
                write_quoted(out, *name)?;
                writeln!(out, " is another name")
            }
        }
    }
}

/// What stands in a program around the name at an offset.
#[derive(Clone, Copy)]
struct Around<'a> {
    name: &'a [u8],
    at: u32,
    thread: &'a Thread,
    block: &'a Block,
}

/// Explains a fault of the kinds of a program at an offset of its text.
pub(crate) fn explain_kind<W: Write>(
    out: &mut W,
    file: &str,
    text: &[u8],
    program: &Program,
    fault: KindFault,
    at: u32,
) -> io::Result<()> {
    let Some(thread) = thread_around(program, at) else {
        return match fault {
            KindFault::NoMain => explain_no_main(out, file, text, program),
            _ => Ok(()),
        };
    };
    let around = Around {
        name: word_at(text, at as usize),
        at,
        thread,
        block: leaf(&thread.body, at),
    };
    let place = place_of(text, at as usize);
    place.write_front(out, file, text, true)?;
    around.said(program, fault).write(out)?;
    place.write_line(out, text)?;
    match fault {
        KindFault::UnknownName => around.write_hint(out),
        _ => Ok(()),
    }
}

/// Explains that no thread is `main`, which is the only fault behind all threads.
fn explain_no_main<W: Write>(
    out: &mut W,
    file: &str,
    text: &[u8],
    program: &Program,
) -> io::Result<()> {
    let (place, said) = match nearly_main(program) {
        Some(name) => (
            place_of(text, name.offset as usize),
            Said::Nearly(name.text.as_slice()),
        ),
        None => (
            place_at(text, end_before(text, text.len()), 0),
            Said::Plain("there is no thread `main`"),
        ),
    };
    place.write_front(out, file, text, false)?;
    said.write(out)?;
    place.write_line(out, text)
}

impl<'a> Around<'a> {
    /// What is wrong.
    fn said(&self, program: &Program, fault: KindFault) -> Said<'a> {
        match fault {
            KindFault::Arity => self.counts(program),
            KindFault::ContUnused => match unused_hole(self.block) {
                Some(hole) => Said::Unused(hole.text.as_slice()),
                None => Said::Plain(said_of(fault.number())),
            },
            KindFault::KindMismatch => Said::Plain(self.mismatch()),
            KindFault::Limit => Said::Plain(self.limit()),
            _ => Said::Plain(said_of(fault.number())),
        }
    }

    /// Which kind stands where another one is wanted.
    fn mismatch(&self) -> &'static str {
        match role_at(self.block, self.at) {
            Role::Own | Role::Hole => "is a number where a continuation is wanted",
            Role::Number => {
                if self.name == self.thread.continuation.text.as_slice() {
                    "is a continuation where a number is wanted"
                } else {
                    "is a hole, which is a continuation, where a number is wanted"
                }
            }
        }
    }

    /// Of what there are too many.
    fn limit(&self) -> &'static str {
        if self.thread.name.offset == self.at {
            "is thread 65, and there are at most 64"
        } else {
            "is number 9 of its thread, which has at most 8"
        }
    }

    /// How many arguments the thread takes, and how many it gets.
    fn counts(&self, program: &Program) -> Said<'a> {
        let Some(thread) = thread_named(program, self.name) else {
            return Said::Plain(said_of(KindFault::Arity.number()));
        };
        match given_at(self.block, self.at) {
            Some(given) => Said::Counts(thread.numbers.len(), given),
            None => Said::Plain(said_of(KindFault::Arity.number())),
        }
    }

    /// Writes what to write for a name that isn't known, where a continuation is wanted or a `?` is
    /// forgotten.
    fn write_hint<W: Write>(&self, out: &mut W) -> io::Result<()> {
        match role_at(self.block, self.at) {
            Role::Number => {
                if lacks_mark(self.block, self.at, self.name) {
                    self.write_hole(out)
                } else {
                    Ok(())
                }
            }
            Role::Own => {
                write!(out, "hint: the continuation of this thread is ")?;
                write_quoted(out, self.thread.continuation.text.as_slice())?;
                writeln!(out)
            }
            Role::Hole => self.write_hole(out),
        }
    }

    /// Writes how the name becomes a hole.
    fn write_hole<W: Write>(&self, out: &mut W) -> io::Result<()> {
        write!(out, "hint: write `?")?;
        write_bytes(out, self.name)?;
        writeln!(out, "` in `spawn_next` first, so that it is a hole")
    }
}
