ghost use Rattle.std.specs.Prelude.{◌≡◌};
ghost use Rattle.nowsim.specs.Status.{of_words, status_of};

use crate::words::{Words, read_words};
use explaining::explain_replay;
use replaying::{ReplayFault, ReplayWords, WordsFault, help_of, replay_words, write_replayed};
use std::alloc::Global;
use std::convert::AsStr;
use std::fmt;
use std::io::{self, Stderr, Write};
use std::rt::Files;
use std::thread::Threads;
use std::time::Clock;
use thiserror::Error;

/// Why the program ends without telling what a run came to.
#[derive(Clone, Copy, Debug, PartialEq, Eq, Error)]
pub enum SimFault {
    /// The words ask for nothing that is there.
    #[error("usage")]
    Usage,
    /// The files aren't replayed, or the answer can't be written.
    #[error(transparent)]
    Replay(ReplayFault),
}

impl SimFault {
    /// The status that the program ends with: 1 for a text, an input or a script that is refused, 2
    /// for the words, 3 when out of memory, 4 for a file.
    pub fn status(self) -> u8
        ensures { result ≡ status_of self }
    {
        match self {
            SimFault::Usage => 2,
            SimFault::Replay(fault) => fault.status(),
        }
    }
}

impl From<WordsFault> for SimFault {
    ghost from_gives = { λ e f. f ≡ of_words e };

    fn from(e: WordsFault) -> SimFault {
        match e {
            WordsFault::Usage => SimFault::Usage,
            WordsFault::Memory => SimFault::Replay(ReplayFault::Memory),
        }
    }
}

/// What the words of a replay give.
fn answer<R: Files + AllocGlobal + Threads + Clock + Sync, O: Write>(
    rt: &R,
    words: ReplayWords<'_>,
    out: &mut O,
    err: &mut Stderr,
) -> Result<(), SimFault> {
    let replayed = replay_words(rt, words, out, err).map_err(SimFault::Replay)?;
    write_replayed(out, &replayed).map_err(|_| SimFault::Replay(ReplayFault::File))
}

/// What is told of a command line that asks for no replay: a fault, or a text to be shown.
fn shown<O: Write>(error: clap::Error, out: &mut O) -> Result<(), SimFault> {
    let help = match help_of(error) {
        Ok(help) => help,
        Err(fault) => return Err(SimFault::from(fault)),
    };
    write_help(out, &help).map_err(|_| SimFault::Replay(ReplayFault::File))
}

fn write_help<O: Write>(out: &mut O, help: &clap::Error) -> io::Result<()> {
    write!(out, "{help}")?;
    out.flush()
}

/// Carries out a command line, the program's own name its first word: what a run came to goes to
/// `out`, and a fault goes to `err` as one line, behind which it is explained where the words ask
/// for that. Where `err` is a terminal it is told there how far a long replay has come. The status
/// to end with is 0 where all was done, and else that of the fault.
pub fn command<R: Files + AllocGlobal + Threads + Clock + Sync, S: AsStr, O: Write>(
    rt: &R,
    words: &[S],
    out: &mut O,
    err: &mut Stderr,
) -> u8 {
    match read_words(rt.alloc(), words) {
        Ok(Some(line)) => carried_out(rt, line, out, err),
        Ok(None) => refused(SimFault::Usage, err),
        Err(error) => {
            let usage = usage_text(rt.alloc(), words, &error);
            match shown(error, out) {
                Ok(()) => 0,
                Err(fault) => misused(fault, usage, err),
            }
        }
    }
}

/// Writes a fault of usage to `err`, and what is wrong, if it is asked for; the status to end with.
fn misused<E: Write>(fault: SimFault, usage: Option<String>, err: &mut E) -> u8 {
    let status = refused(fault, err);
    if let Some(text) = usage {
        let _ = write!(err, "{text}");
    }
    status
}

/// What is wrong with words that aren't understood, where one of them asks for that.
fn usage_text<S: AsStr>(alloc: Global, words: &[S], error: &clap::Error) -> Option<String> {
    for word in words {
        if word.as_str() == "--explain" {
            return String::format(alloc, format_args!("{error}")).ok();
        }
    }
    None
}

/// Carries out a replay; the status to end with.
fn carried_out<R: Files + AllocGlobal + Threads + Clock + Sync, O: Write>(
    rt: &R,
    line: Words<'_>,
    out: &mut O,
    err: &mut Stderr,
) -> u8 {
    let Words { replay, explain } = line;
    let (file, script) = (replay.file, replay.script);
    match answer(rt, replay, out, err) {
        Ok(()) => 0,
        Err(fault) if explain => explained(rt, fault, file, script, err),
        Err(fault) => refused(fault, err),
    }
}

/// Explains a fault of a replay of two files.
fn explain<R: Files + AllocGlobal, E: Write>(
    rt: &R,
    fault: &SimFault,
    file: &str,
    script: &str,
    err: &mut E,
) -> io::Result<()> {
    match fault {
        SimFault::Usage => Ok(()),
        SimFault::Replay(replay) => explain_replay(rt, err, *replay, file, script),
    }
}

/// Writes a fault of a replay of two files to `err`, and explains it; the status to end with.
fn explained<R: Files + AllocGlobal, E: Write>(
    rt: &R,
    fault: SimFault,
    file: &str,
    script: &str,
    err: &mut E,
) -> u8 {
    let _ = write_line(err, format_args!("nowsim: {fault}"));
    let _ = explain(rt, &fault, file, script, err);
    fault.status()
}

/// Writes a fault to `err` as one line; the status to end with.
pub fn refused<E: Write>(fault: SimFault, err: &mut E) -> u8
    ensures { result ≡ status_of fault }
{
    let _ = write_line(err, format_args!("nowsim: {fault}"));
    fault.status()
}

fn write_line<O: Write>(out: &mut O, text: impl fmt::Display + Drop) -> io::Result<()> {
    writeln!(out, "{text}")?;
    out.flush()
}
