//! The words of command lines that replay files, or that take a job.

use clap::error::ErrorKind;
use clap::{Arg, ArgAction, ArgMatches, Command, Error, value_parser};
use std::alloc::{AllocError, Global};
use std::rt::Env;
use std::{env, io};
use thiserror::Error as ErrorText;

/// What the words of a replay ask for: the files of the program's text and of the script, the job's
/// number and its input, whether each event is to be told, and whether the packets have to have the
/// names that the script tells.
#[derive(Drop)]
pub struct ReplayWords<'a> {
    pub file: &'a str,
    pub script: &'a str,
    pub job: u64,
    pub input: Vec<i64>,
    pub packets: bool,
    pub names: bool,
}

/// Why words ask for no answer.
#[derive(Clone, Copy, Debug, PartialEq, Eq, ErrorText)]
pub enum WordsFault {
    /// They ask for nothing that is there.
    #[error("usage")]
    Usage,
    /// E9: there is no memory for them.
    #[error("E{number}", number = ids::error_numbers::MEMORY)]
    Memory,
}

/// The words that a program was started with. Words that aren't UTF-8 are a fault of usage.
pub fn own_words<R: Env + AllocGlobal>(rt: &R) -> Result<Vec<String>, WordsFault> {
    match env::args(rt) {
        Ok(words) => words.collect(rt.alloc()).map_err(|_| WordsFault::Memory),
        Err(e) if e.kind() == io::ErrorKind::OutOfMemory => Err(WordsFault::Memory),
        Err(_) => Err(WordsFault::Usage),
    }
}

/// What is to be shown of a command line that asks for the help or the version; else its fault.
pub fn help_of(error: Error) -> Result<Error, WordsFault> {
    match error.kind() {
        ErrorKind::DisplayHelp | ErrorKind::DisplayVersion => Ok(error),
        ErrorKind::OutOfMemory => Err(WordsFault::Memory),
        _ => Err(WordsFault::Usage),
    }
}

/// The word FILE, of a program's text.
pub fn file_word<'a>(alloc: Global) -> Arg<'a> {
    Arg::new(alloc, "FILE")
        .required(true)
        .action(ArgAction::Set)
        .help("The file of the program's text")
}

/// An option that has no word of its own.
pub fn flag<'a>(alloc: Global, name: &'a str, help: &'a str) -> Arg<'a> {
    Arg::new(alloc, name)
        .long(name)
        .action(ArgAction::SetTrue)
        .help(help)
}

/// The option that asks for more of a fault than its line.
pub fn explain_word<'a>(alloc: Global) -> Arg<'a> {
    flag(alloc, "explain", "Explains a fault, behind its line")
}

/// An option whose word is a number from 0 on, with the one that is meant where it isn't given.
pub fn number_word<'a>(alloc: Global, name: &'a str, usual: &'a str, help: &'a str) -> Arg<'a> {
    Arg::new(alloc, name)
        .long(name)
        .action(ArgAction::Set)
        .value_parser(value_parser!(u64))
        .default_value(usual)
        .help(help)
}

/// The option that asks for a line for each event of a replay.
pub fn packets_word<'a>(alloc: Global) -> Arg<'a> {
    flag(
        alloc,
        "packets",
        "Tells each event, a line each: what it runs and sends, and which slots it fills",
    )
}

/// The option by which the packets have to have the names that a script tells.
pub fn names_word<'a>(alloc: Global) -> Arg<'a> {
    flag(
        alloc,
        "names",
        "Compares the packets with the names that the script of `cilknow merge` tells",
    )
}

/// The words INPUT, the numbers of a job's input.
pub fn input_word<'a>(alloc: Global) -> Arg<'a> {
    Arg::new(alloc, "INPUT")
        .action(ArgAction::Append)
        .num_args(0..)
        .value_parser(value_parser!(i64))
        .help("The numbers that the thread `main` runs on")
}

/// The input that words give; none where they don't have what `input_word` asks for.
pub fn input_of<'a>(
    alloc: Global,
    matches: &ArgMatches<'a>,
) -> Result<Option<Vec<i64>>, AllocError> {
    let mut input = Vec::new(alloc);
    if let Some(numbers) = matches.get_many::<i64>("INPUT") {
        for number in numbers {
            let Ok(number) = number else {
                return Ok(None);
            };
            input.push(number)?;
        }
    }
    Ok(Some(input))
}

/// A command that takes the words of a replay: two files, the job's number and the input.
pub fn with_replay_words<'a>(
    alloc: Global,
    command: Command<'a>,
) -> Result<Command<'a>, AllocError> {
    let script = Arg::new(alloc, "SCRIPT")
        .required(true)
        .action(ArgAction::Set)
        .help("The file of the script, one event a line");
    command
        .arg(file_word(alloc))?
        .arg(script)?
        .arg(number_word(alloc, "job", "1", "The job's number"))?
        .arg(input_word(alloc))
}

/// The words of a replay, in which each event may be to be told, and names may have to be compared;
/// none where they don't have what `with_replay_words` asks for.
pub fn replay_words_of<'a>(
    alloc: Global,
    matches: &ArgMatches<'a>,
    packets: bool,
    names: bool,
) -> Result<Option<ReplayWords<'a>>, AllocError> {
    let Some(input) = input_of(alloc, matches)? else {
        return Ok(None);
    };
    let (Some(file), Some(script), Some(job)) = (
        matches.get_str("FILE"),
        matches.get_str("SCRIPT"),
        matches.get_one("job"),
    ) else {
        return Ok(None);
    };
    Ok(Some(ReplayWords {
        file,
        script,
        job,
        input,
        packets,
        names,
    }))
}
