//! The program `cilknow`: reads, checks, runs and replays task programs.
#![tactic(auto)]

mod command;
mod explain;
mod failure;
mod fault;
mod form;
mod logged;
mod merging;
mod nodes;
mod output;
mod runs;
mod solo;
mod stored;
mod whose;

pub use command::{CommandFault, command, refused};
pub use failure::{Failure, Why};
pub use fault::SoloFault;
pub use form::{FormFault, form_of};
pub use logged::log_text;
pub use merging::TracesFault;
use replaying::own_words;
pub use solo::solo;
use std::io::{LineWriter, Stdout};
use std::process::ExitCode;
pub use stored::{found_in, info_in};

/// Standard output, to which each line goes at once, so that a program that is killed has told it
/// whole or not at all; or, where there is no memory for a line, in the parts in which it is
/// written.
fn lines(rt: &HostRuntime) -> LineWriter<Stdout> {
    if let Ok(lines) = LineWriter::new(rt.alloc(), rt.stdout()) {
        return lines;
    }
    match LineWriter::with_capacity(rt.alloc(), 0, rt.stdout()) {
        Ok(parts) => parts,
        Err(_) => unreachable!(),
    }
}

fn main(rt: HostRuntime) -> ExitCode {
    let (mut out, mut err) = (lines(&rt), rt.stderr());
    let status = match own_words(&rt) {
        Ok(words) => command(&rt, words.as_slice(), &mut out, &mut err),
        Err(fault) => refused(CommandFault::from(fault), &mut err),
    };
    ExitCode::from(status)
}
