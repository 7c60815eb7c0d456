//! The program `nowsim`: replays a script of events on a task program, and tells what the run came
//! to.
#![tactic(auto)]

mod command;
mod words;

pub use command::{SimFault, command, refused};
use replaying::own_words;
use std::process::ExitCode;

fn main(rt: HostRuntime) -> ExitCode {
    let (mut out, mut err) = (rt.stdout(), rt.stderr());
    let status = match own_words(&rt) {
        Ok(words) => command(&rt, words.as_slice(), &mut out, &mut err),
        Err(fault) => refused(SimFault::from(fault), &mut err),
    };
    ExitCode::from(status)
}
