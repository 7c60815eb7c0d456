//! What a run comes to, and the files that it writes.

use crate::command::{CommandFault, Telling, write_outcome};
use crate::failure::Failure;
use crate::logged::log_text;
use crate::nodes::{Ended, RunDisk, ran_on_nodes};
use crate::output::Output;
use crate::solo::solo;
use crate::stored::found_in;
use chronicle::Trace;
use command_line::{JobWords, Named, Place, RunWords};
use event_words::{write_counts, write_turns};
use jobs::{job_of, program_of, text_bytes};
use node_runner::{Faults, RunConfig};
use serial_meaning::{Job, Outcome, TurnCounts};
use std::alloc::Global;
use std::fs::File;
use std::io::{self, Stderr, Write};
use std::rt::Files;
use std::sync::Wait;
use std::thread::Threads;
use std::time::Clock;
use world_steps::Found;

/// What is told of an outcome that is too deep.
const TOO_DEEP: &str =
    "a chain of joins may be 1,024 steps deep, and here one is deeper; split a loop's range in halves, \
                        so that its joins form a tree";

/// What a run comes to: by one evaluator where nothing asks for threads, else by nodes on threads.
pub fn answer_run<R: Files<File = File> + AllocGlobal + Threads + Wait + Clock + Sync, O: Write>(
    rt: &R,
    words: RunWords<'_>,
    named: &Named<'_>,
    telling: Telling,
    out: &mut O,
    err: &mut Stderr,
) -> Result<(), Failure> {
    let Some(config) = config_of(&words) else {
        return Err(Failure::from(CommandFault::Usage));
    };
    if !words.is_alone() {
        return answer_by_nodes(rt, words.job, &config, named, telling, out, err);
    }
    let outcome = ran_alone(rt, words.job, telling, err)?;
    tell_outcome(outcome, telling, out, err)
}

/// How the nodes run; none where the words disagree.
fn config_of(words: &RunWords<'_>) -> Option<RunConfig> {
    let faults = Faults {
        word: words.faults.word,
        lose: words.faults.lose,
        repeat: words.faults.repeat,
        after: words.faults.after,
        crashes: words.faults.crashes,
        departures: words.faults.departures,
    };
    let config = RunConfig::new(words.nodes, words.bodies, faults, words.job.turns)?;
    Some(config.with_grain(words.grain()))
}

/// Tells an outcome; and where that is asked for, what makes one too deep.
pub fn tell_outcome<O: Write, E: Write>(
    outcome: Outcome,
    telling: Telling,
    out: &mut O,
    err: &mut E,
) -> Result<(), Failure> {
    write_outcome(out, outcome).map_err(|e| Failure::file(Place::StandardOutput, e))?;
    if telling.explain && outcome == Outcome::TooDeep {
        let _ = writeln!(err, "{TOO_DEEP}");
    }
    Ok(())
}

/// The outcome of a job by one evaluator.
fn ran_alone<R: Files + AllocGlobal, E: Write>(
    rt: &R,
    words: JobWords<'_>,
    telling: Telling,
    err: &mut E,
) -> Result<Outcome, Failure> {
    let alloc = rt.alloc();
    let text = text_bytes(rt, words.file)?;
    let mut counts = TurnCounts::new();
    let outcome = solo(
        alloc,
        text.as_slice(),
        words.input,
        words.job,
        words.turns,
        &mut counts,
    )
    .map_err(CommandFault::Run)?;
    if telling.stats {
        let checked = program_of(alloc, text.as_slice())?;
        let _ = write_turns(err, checked.program(), &counts);
    }
    Ok(outcome)
}

/// The outcome of a job by nodes on threads. The files for its trace and its log are open before it
/// begins, and are written once the outcome was told.
fn answer_by_nodes<R: Files<File = File> + AllocGlobal + Threads + Wait + Clock + Sync, O: Write>(
    rt: &R,
    words: JobWords<'_>,
    config: &RunConfig,
    named: &Named<'_>,
    telling: Telling,
    out: &mut O,
    err: &mut Stderr,
) -> Result<(), Failure> {
    let text = text_bytes(rt, words.file)?;
    let job = job_of(rt.alloc(), text.as_slice(), words.input, words.job)?;
    let begins = begins_of(rt, named, &job, text.as_slice(), err)?;
    let outputs = Outputs::open(rt, named)?;
    let ran = match begins {
        Begins::Kept(outcome) => Ok(Ended {
            outcome,
            trace: None,
        }),
        Begins::Over(disk) => ran_on_nodes(rt, &job, config, disk, err),
    };
    match ran {
        Ok(ran) => tell_ran(rt.alloc(), &job, ran, outputs, telling, out, err),
        Err(fault) => {
            outputs.give_up(rt, named);
            Err(Failure::from(CommandFault::Nodes(fault)))
        }
    }
}

/// Tells what a run on nodes came to, and writes its files.
fn tell_ran<O: Write, E: Write>(
    alloc: Global,
    job: &Job,
    ran: Ended,
    outputs: Outputs,
    telling: Telling,
    out: &mut O,
    err: &mut E,
) -> Result<(), Failure> {
    if let (true, Some(trace)) = (telling.stats, &ran.trace) {
        let _ = write_counts(err, job.checked().program(), trace.counts());
    }
    tell_outcome(ran.outcome, telling, out, err)?;
    match outputs.write(alloc, &ran.trace) {
        Ok(()) => Ok(()),
        Err(Unwritten(place, error)) => Err(Failure::file(place, error)),
    }
}

/// How a run on nodes begins: with an outcome that its store keeps, which is all of it, or over a
/// disk.
#[derive(Drop)]
enum Begins<'a> {
    Kept(Outcome),
    Over(RunDisk<'a>),
}

/// How the run of a job begins: over the file of its store, where one is named, and else over a
/// disk in memory.
fn begins_of<'a, R: Files<File = File> + AllocGlobal, E: Write>(
    rt: &R,
    named: &Named<'_>,
    job: &'a Job,
    text: &[u8],
    err: &mut E,
) -> Result<Begins<'a>, Failure> {
    let Some(path) = named.store else {
        return Ok(Begins::Over(RunDisk::Memory));
    };
    match found_in(rt, path, job, text, err)? {
        Found::Kept(outcome, _) => Ok(Begins::Kept(outcome)),
        Found::Begins(first) => Ok(Begins::Over(RunDisk::File(first))),
    }
}

/// A file couldn't be written, for this reason.
#[derive(Clone, Copy)]
struct Unwritten(Place, io::Error);

/// The files for a run's trace and its log, where they are named.
#[derive(Drop)]
struct Outputs {
    trace: Option<Output>,
    log: Option<Output>,
}

impl Outputs {
    /// Opens them, each a file of its own.
    fn open<R: Files<File = File>>(rt: &R, named: &Named<'_>) -> Result<Outputs, Failure> {
        let trace = open_output(rt, named.trace, Place::Trace)?;
        match open_output(rt, named.log, Place::Log) {
            Ok(log) => Outputs { trace, log }.apart(rt, named),
            Err(failure) => {
                give_up_output(rt, trace, named.trace);
                Err(failure)
            }
        }
    }

    /// These, where no two of the files that are named are one, now that they are there.
    fn apart<R: Files<File = File>>(self, rt: &R, named: &Named<'_>) -> Result<Outputs, Failure> {
        match named.one_file(rt) {
            None => Ok(self),
            Some(misuse) => {
                self.give_up(rt, named);
                Err(Failure::misuse(misuse))
            }
        }
    }

    /// There is no outcome: what was made is taken away.
    fn give_up<R: Files<File = File>>(self, rt: &R, named: &Named<'_>) {
        give_up_output(rt, self.trace, named.trace);
        give_up_output(rt, self.log, named.log);
    }

    /// Writes the log of a run and the script of its trace. Where the outcome was kept before,
    /// there is no trace, and the log has no line.
    fn write(self, alloc: Global, trace: &Option<Trace>) -> Result<(), Unwritten> {
        write_log(alloc, self.log, trace)?;
        write_script(alloc, self.trace, trace)
    }
}

fn open_output<R: Files<File = File>>(
    rt: &R,
    path: Option<&str>,
    place: Place,
) -> Result<Option<Output>, Failure> {
    match path {
        Some(path) => match Output::open(rt, path) {
            Ok(output) => Ok(Some(output)),
            Err(error) => Err(Failure::file(place, error)),
        },
        None => Ok(None),
    }
}

fn give_up_output<R: Files<File = File>>(rt: &R, output: Option<Output>, path: Option<&str>) {
    if let (Some(output), Some(path)) = (output, path) {
        output.give_up(rt, path);
    }
}

fn write_script(
    alloc: Global,
    output: Option<Output>,
    trace: &Option<Trace>,
) -> Result<(), Unwritten> {
    let (Some(mut output), Some(trace)) = (output, trace) else {
        return Ok(());
    };
    let Ok(script) = trace.script(alloc) else {
        return Err(Unwritten(Place::Trace, io::Error::from(io::ErrorKind::OutOfMemory)));
    };
    output
        .write(script.as_slice())
        .map_err(|e| Unwritten(Place::Trace, e))
}

fn write_log(
    alloc: Global,
    output: Option<Output>,
    trace: &Option<Trace>,
) -> Result<(), Unwritten> {
    let Some(mut output) = output else {
        return Ok(());
    };
    let text = match trace {
        Some(trace) => log_text(alloc, trace),
        None => Vec::new(alloc),
    };
    output
        .write(text.as_slice())
        .map_err(|e| Unwritten(Place::Log, e))
}
