ghost use Rattle.std.specs.Prelude.{◌≡◌};
ghost use Rattle.cilknow.specs.Status.{of_file, of_job, of_words, status_of};

use crate::explain::explain;
use crate::failure::Failure;
use crate::fault::SoloFault;
use crate::form::{FormFault, form_of};
use crate::merging::{TracesFault, answer_merge};
use crate::output::Output;
use crate::runs::{answer_run, tell_outcome};
use crate::stored::info_in;
use checkpoint::Info;
use command_line::{
    Asked, DrawWords, JobWords, Misuse, Named, Place, Subcommand, Words, beside_of, read_words,
};
use event_words::{write_counts, write_turns};
use jobs::{FileFault, JobFault, job_of, program_of, text_bytes};
use node_runner::RunError;
use replaying::{ReplayFault, ReplayWords, WordsFault, replay_files, replay_words, write_replayed};
use run_picture::{Recorder, Shows, write_picture};
use serial_meaning::{Outcome, SerialError, TurnCounts, serial, serial_counted};
use std::alloc::{AllocError, Global};
use std::convert::AsStr;
use std::fmt;
use std::fs::File;
use std::io::{self, Stderr, Write};
use std::mem::forget;
use std::rt::Files;
use std::sync::Wait;
use std::thread::Threads;
use std::time::Clock;
use thiserror::Error;

/// Why a command ends without its answer.
#[derive(Clone, Copy, Debug, PartialEq, Eq, Error)]
pub enum CommandFault {
    /// The words ask for nothing that is there.
    #[error("usage")]
    Usage,
    /// A file can't be read, or the answer can't be written.
    #[error("file")]
    File,
    /// The text or the input is refused, or there is no outcome.
    #[error(transparent)]
    Run(SoloFault),
    /// E20: more turns than `--turns` would be needed.
    #[error("{spent}", spent = SerialError::TurnsSpent)]
    TurnsSpent,
    /// A run on nodes ends without an outcome.
    #[error(transparent)]
    Nodes(RunError),
    /// A text isn't printed in its one form.
    #[error(transparent)]
    Form(FormFault),
    /// A script isn't replayed.
    #[error(transparent)]
    Replay(ReplayFault),
    /// Traces aren't merged.
    #[error(transparent)]
    Merge(TracesFault),
}

impl CommandFault {
    /// The status that the program ends with: 1 for a text, an input or a script that is refused, 2
    /// for the words, 3 for a run without outcome, 4 for a file.
    pub fn status(self) -> u8
        ensures { result ≡ status_of self }
    {
        match self {
            CommandFault::Run(SoloFault::Memory | SoloFault::TurnsSpent | SoloFault::NumbersSpent)
            | CommandFault::TurnsSpent
            | CommandFault::Nodes(_) => 3,
            CommandFault::Run(SoloFault::Job(fault)) => fault.status(),
            CommandFault::Usage => 2,
            CommandFault::File => 4,
            CommandFault::Form(fault) => fault.status(),
            CommandFault::Replay(fault) => fault.status(),
            CommandFault::Merge(_) => 1,
        }
    }
}

impl From<FileFault> for CommandFault {
    ghost from_gives = { λ e f. f ≡ of_file e };

    fn from(e: FileFault) -> CommandFault {
        match e {
            FileFault::Unreadable => CommandFault::File,
            FileFault::Memory => CommandFault::Run(SoloFault::Memory),
        }
    }
}

impl From<WordsFault> for CommandFault {
    ghost from_gives = { λ e f. f ≡ of_words e };

    fn from(e: WordsFault) -> CommandFault {
        match e {
            WordsFault::Usage => CommandFault::Usage,
            WordsFault::Memory => CommandFault::Run(SoloFault::Memory),
        }
    }
}

impl From<JobFault> for CommandFault {
    ghost from_gives = { λ e f. f ≡ of_job e };

    fn from(e: JobFault) -> CommandFault {
        CommandFault::Run(SoloFault::from(e))
    }
}

/// What is told beside an answer: what was counted, and why.
#[derive(Clone, Copy)]
pub struct Telling {
    pub stats: bool,
    pub explain: bool,
}

/// Why a serial outcome isn't there.
fn unfinished(error: SerialError) -> CommandFault {
    match error {
        SerialError::TurnsSpent => CommandFault::TurnsSpent,
        SerialError::Memory => CommandFault::Run(SoloFault::Memory),
    }
}

/// The serial outcome of a job. What was counted is told where that is asked for.
fn answer_serial<R: Files + AllocGlobal, O: Write, E: Write>(
    rt: &R,
    words: JobWords<'_>,
    telling: Telling,
    out: &mut O,
    err: &mut E,
) -> Result<(), Failure> {
    let alloc = rt.alloc();
    let text = text_bytes(rt, words.file)?;
    let job = job_of(alloc, text.as_slice(), words.input, words.job)?;
    let outcome = if telling.stats {
        let mut counts = TurnCounts::new();
        let outcome = serial_counted(alloc, &job, words.turns, &mut counts).map_err(unfinished)?;
        let _ = write_turns(err, job.checked().program(), &counts);
        outcome
    } else {
        serial(alloc, &job, words.turns).map_err(unfinished)?
    };
    tell_outcome(outcome, telling, out, err)
}

pub fn write_outcome<O: Write>(out: &mut O, outcome: Outcome) -> io::Result<()> {
    match outcome {
        Outcome::Value(value) => writeln!(out, "value {value}")?,
        Outcome::TooDeep => writeln!(out, "too deep")?,
    }
    out.flush()
}

/// Writes what a store keeps, a line each.
fn write_info<O: Write>(out: &mut O, info: Info) -> io::Result<()> {
    let Info {
        job,
        epoch,
        outcome,
        saved,
    } = info;
    writeln!(out, "job {job}")?;
    writeln!(out, "epoch {epoch}")?;
    match outcome {
        Some(outcome) => {
            write!(out, "outcome ")?;
            write_outcome(out, outcome)?;
        }
        None => writeln!(out, "outcome none")?,
    }
    writeln!(out, "saved {saved}")?;
    out.flush()
}

pub fn write_bytes<O: Write>(out: &mut O, bytes: &[u8]) -> io::Result<()> {
    out.write_all(bytes)?;
    out.flush()
}

fn write_line<O: Write>(out: &mut O, text: impl fmt::Display + Drop) -> io::Result<()> {
    writeln!(out, "{text}")?;
    out.flush()
}

/// What a replay comes to. What was counted is told where that is asked for, and so the program is
/// read once more, for its threads' names.
fn answer_replay<R: Files + AllocGlobal + Threads + Clock + Sync, O: Write>(
    rt: &R,
    words: ReplayWords<'_>,
    telling: Telling,
    out: &mut O,
    err: &mut Stderr,
) -> Result<(), Failure> {
    let file = words.file;
    let replayed = replay_words(rt, words, out, err).map_err(CommandFault::Replay)?;
    if telling.stats {
        let text = text_bytes(rt, file)?;
        let checked = program_of(rt.alloc(), text.as_slice())?;
        let _ = write_counts(err, checked.program(), &replayed.counts);
    }
    write_replayed(out, &replayed).map_err(unwritten)
}

/// The picture of a replay, which is made in full before any of it is written. The file for it is
/// open before the replay begins.
fn answer_draw<R: Files<File = File> + AllocGlobal, O: Write>(
    rt: &R,
    words: DrawWords<'_>,
    out: &mut O,
) -> Result<(), Failure> {
    let DrawWords {
        replay,
        work,
        out: path,
    } = words;
    let shows = if work { Shows::Work } else { Shows::All };
    let Some(path) = path else {
        let text = drawn(rt, replay, shows)?;
        return write_bytes(out, text.as_slice()).map_err(unwritten);
    };
    let mut output = Output::open(rt, path).map_err(undrawn)?;
    match drawn(rt, replay, shows) {
        Ok(text) => output.write(text.as_slice()).map_err(undrawn),
        Err(fault) => {
            output.give_up(rt, path);
            Err(Failure::from(fault))
        }
    }
}

/// The picture's file can't be opened or written.
fn undrawn(error: io::Error) -> Failure {
    Failure::file(Place::Out, error)
}

/// Standard output can't be written.
fn unwritten(error: io::Error) -> Failure {
    Failure::file(Place::StandardOutput, error)
}

/// The picture of a replay, with the packets that are asked for.
fn drawn<R: Files + AllocGlobal>(
    rt: &R,
    replay: ReplayWords<'_>,
    shows: Shows,
) -> Result<Vec<u8>, CommandFault> {
    let mut run = Recorder::new(rt.alloc());
    replay_files(
        rt,
        replay.file,
        replay.script,
        replay.input,
        replay.job,
        &mut run,
    )
    .map_err(CommandFault::Replay)?;
    let mut text = Vec::new(rt.alloc());
    if !run.is_whole() || write_picture(&mut text, &run, shows).is_err() {
        return Err(CommandFault::Replay(ReplayFault::Memory));
    }
    Ok(text)
}

fn answer<
    R: Files<File = File> + AllocGlobal + Threads + Wait + Clock + Sync + Clone + Drop,
    O: Write,
>(
    rt: &R,
    request: Subcommand<'_>,
    named: &Named<'_>,
    telling: Telling,
    out: &mut O,
    err: &mut Stderr,
) -> Result<(), Failure> {
    let alloc = rt.alloc();
    let written = match request {
        Subcommand::Check(file) => {
            let text = text_bytes(rt, file)?;
            let checked = program_of(alloc, text.as_slice())?;
            let threads = checked.threads();
            // (the command ends with this line, and so does what it has of memory)
            forget(checked);
            write_line(out, format_args!("ok {threads} threads"))
        }
        Subcommand::Print(file) => {
            let text = text_bytes(rt, file)?;
            let form = form_of(alloc, text.as_slice()).map_err(CommandFault::Form)?;
            write_bytes(out, form.as_slice())
        }
        Subcommand::Serial(words) => return answer_serial(rt, words, telling, out, err),
        Subcommand::Run(words) => return answer_run(rt, words, named, telling, out, err),
        Subcommand::Replay(words) => return answer_replay(rt, words, telling, out, err),
        Subcommand::Draw(words) => return answer_draw(rt, words, out),
        Subcommand::Merge(words) => return answer_merge(rt, words, out),
        Subcommand::Store(path) => write_info(out, info_in(rt, path)?),
    };
    written.map_err(unwritten)
}

/// Shows a text that a command line asks for.
fn shown<O: Write>(text: &str, out: &mut O) -> Result<(), CommandFault> {
    out.write_all(text.as_bytes())
        .map_err(|_| CommandFault::File)?;
    out.flush().map_err(|_| CommandFault::File)
}

/// Carries out a command line, the program's own name its first word: answers go to `out`, and a
/// fault goes to `err` as one line, behind which it is explained where the words ask for that.
/// Where `err` is a terminal it is told there how far a long replay, or a long run on nodes, has
/// come. The status to end with is 0 where all was done, and else that of the fault.
pub fn command<
    R: Files<File = File> + AllocGlobal + Threads + Wait + Clock + Sync + Clone + Drop,
    S: AsStr,
    O: Write,
>(rt: &R, words: &[S], out: &mut O, err: &mut Stderr) -> u8 {
    match read_words(rt.alloc(), words) {
        Asked::Command(line) => carried_out(rt, line, out, err),
        Asked::Text(text) => match shown(text.as_str(), out) {
            Ok(()) => 0,
            Err(fault) => refused(fault, err),
        },
        Asked::Fault(fault, usage) => misused(CommandFault::from(fault), usage, err),
    }
}

/// Carries out what a command line asks for; the status to end with.
fn carried_out<
    R: Files<File = File> + AllocGlobal + Threads + Wait + Clock + Sync + Clone + Drop,
    O: Write,
>(rt: &R, line: Words<'_>, out: &mut O, err: &mut Stderr) -> u8 {
    let Words {
        request,
        explain,
        stats,
    } = line;
    let Ok(beside) = beside_in(rt.alloc(), &request) else {
        return refused(CommandFault::Run(SoloFault::Memory), err);
    };
    let beside = match &beside {
        Some(path) => Some(path.as_str()),
        None => None,
    };
    let named = Named::by(&request, beside);
    let answered = match misuse_of(rt, &request, &named) {
        Some(misuse) => Err(Failure::misuse(misuse)),
        None => answer(rt, request, &named, Telling { stats, explain }, out, err),
    };
    match answered {
        Ok(()) => 0,
        Err(failure) if explain || failure.is_explained() => explained(rt, failure, &named, err),
        Err(failure) => refused(failure.fault, err),
    }
}

/// The file beside the store of a run, where one is named.
fn beside_in(alloc: Global, request: &Subcommand<'_>) -> Result<Option<String>, AllocError> {
    match request {
        Subcommand::Run(words) => match words.store {
            Some(store) => Ok(Some(beside_of(alloc, store)?)),
            None => Ok(None),
        },
        _ => Ok(None),
    }
}

/// Why the words of a request don't go together: by their numbers and options, and then by the
/// files that they name.
fn misuse_of<R: Files>(rt: &R, request: &Subcommand<'_>, named: &Named<'_>) -> Option<Misuse> {
    if let Subcommand::Run(words) = request {
        if let Some(misuse) = words.misuse() {
            return Some(misuse);
        }
    }
    named.one_file(rt)
}

/// Writes a fault of a command line that names these files to `err`, and explains it; the status to
/// end with.
fn explained<R: Files<File = File> + AllocGlobal, E: Write>(
    rt: &R,
    failure: Failure,
    named: &Named<'_>,
    err: &mut E,
) -> u8 {
    let status = refused(failure.fault, err);
    let _ = explain(rt, err, &failure, named);
    status
}

/// Writes a fault of usage to `err`, and what is wrong, if it is asked for; the status to end with.
fn misused<E: Write>(fault: CommandFault, usage: Option<String>, err: &mut E) -> u8 {
    let status = refused(fault, err);
    if let Some(text) = usage {
        let _ = write!(err, "{text}");
    }
    status
}

/// Writes a fault to `err` as one line; the status to end with.
pub fn refused<E: Write>(fault: CommandFault, err: &mut E) -> u8
    ensures { result ≡ status_of fault }
{
    let _ = write_line(err, format_args!("cilknow: {fault}"));
    fault.status()
}
