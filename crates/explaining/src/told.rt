use crate::kinds::explain_kind;
use crate::lines::mistake_in;
use crate::place::{place_of, write_bytes};
use crate::sentences::{said_at_end, said_of, sentence_of};
use crate::unexpected::explain_unexpected;
use jobs::{JobFault, program_of};
use kind_check::KindError;
use std::alloc::Global;
use std::io::{self, Write};
use task_syntax::{LONGEST_TEXT, ParseError, Program, parse};

/// Explains why a text of a file and an input are no job: at the place of the text, if the fault
/// has one, or by the numbers that `main` takes. A fault that isn't the text's isn't explained:
/// another text stands there by now.
pub fn explain_job<W: Write>(
    alloc: Global,
    out: &mut W,
    fault: JobFault,
    file: &str,
    text: &[u8],
) -> io::Result<()> {
    if fault.number() == 9 {
        return explain_number(out, 9);
    }
    match (fault, program_of(alloc, text)) {
        (JobFault::Input(_), Ok(checked)) => explain_main(out, checked.program()),
        (JobFault::Input(_), Err(_)) => explain_number(out, fault.number()),
        (_, Err(found)) if found == fault => explain_text_fault(alloc, out, fault, file, text),
        _ => Ok(()),
    }
}

/// Explains a fault of a text.
fn explain_text_fault<W: Write>(
    alloc: Global,
    out: &mut W,
    fault: JobFault,
    file: &str,
    text: &[u8],
) -> io::Result<()> {
    match fault {
        JobFault::Parse(ParseError::Unexpected(at)) => {
            explain_unexpected(alloc, out, file, text, at as usize)
        }
        JobFault::Parse(
            ParseError::TooLong(at)
            | ParseError::TooDeepNest(at)
            | ParseError::NumberRange(at)
            | ParseError::NotAscii(at),
        ) => explain_place(out, file, text, at as usize, fault.number()),
        JobFault::Kind(KindError::Fault(kind, at)) => match parse(alloc, text) {
            Ok(program) => explain_kind(out, file, text, &program, kind, at),
            Err(_) => explain_place(out, file, text, at as usize, fault.number()),
        },
        _ => explain_number(out, fault.number()),
    }
}

/// Writes how many numbers `main` takes, and their names.
fn explain_main<W: Write>(out: &mut W, program: &Program) -> io::Result<()> {
    for thread in program.threads.as_slice() {
        if thread.name.text.as_slice() == b"main".as_slice() {
            let count = thread.numbers.len();
            write!(
                out,
                "`main` takes {count} number{}",
                if count == 1 { "" } else { "s" }
            )?;
            for (index, name) in thread.numbers.as_slice().iter().enumerate() {
                write!(out, "{}", if index == 0 { ": " } else { ", " })?;
                write_bytes(out, name.text.as_slice())?;
            }
            return writeln!(out);
        }
    }
    Ok(())
}

/// Explains a fault at an offset of a text by its number.
fn explain_place<W: Write>(
    out: &mut W,
    file: &str,
    text: &[u8],
    at: usize,
    number: u8,
) -> io::Result<()> {
    let place = place_of(text, at);
    let is_inside = at < text.len() && at < LONGEST_TEXT;
    place.write_front(out, file, text, is_inside)?;
    writeln!(
        out,
        "{}",
        if is_inside {
            said_of(number)
        } else {
            said_at_end(number)
        }
    )?;
    place.write_line(out, text)
}

/// Explains a fault by its number; of one without a sentence nothing is written.
pub fn explain_number<W: Write>(out: &mut W, number: u8) -> io::Result<()> {
    let sentence = sentence_of(number);
    if sentence.is_empty() {
        return Ok(());
    }
    writeln!(out, "{sentence}")
}

/// Explains that a line of a script's file, from 1 on, isn't an event's. A line that isn't the
/// first of these bytes which is refused isn't explained: another script stands there by now, or
/// they are a part of it.
pub fn explain_line<W: Write>(
    out: &mut W,
    file: &str,
    script: &[u8],
    number: u64,
) -> io::Result<()> {
    let Some(mistake) = mistake_in(script, number) else {
        return Ok(());
    };
    mistake.write(out, file, script)
}
