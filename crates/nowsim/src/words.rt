use clap::{Command, Error};
use replaying::{ReplayWords, explain_word, packets_word, replay_words_of, with_replay_words};
use std::alloc::{AllocError, Global};
use std::convert::AsStr;

const ABOUT: &str =
    "Replays a script of events on a functional Cilk program: nodes, a clearinghouse and the packets between them.";

const AFTER: &str = "\
A program's text is a file of task threads, and a script a file of events, one a line.
An input is a signed 64-bit number; write `--` before a negative one.

Examples:
  nowsim fib.ck run.script 12
  nowsim fib.ck run.script --packets 12

Status:
  0  all events were carried out
  1  the text, its kinds, the input or the script are refused
  2  usage
  3  no memory
  4  a file can't be read or written";

fn all_words<'a>(alloc: Global) -> Result<Command<'a>, AllocError> {
    let command = Command::new(alloc, "nowsim")
        .version("0.1.0")
        .about(ABOUT)
        .after_help(AFTER);
    with_replay_words(alloc, command)?
        .arg(packets_word(alloc))?
        .arg(explain_word(alloc))
}

/// A command line: the replay that it asks for, and whether a fault is to be explained.
#[derive(Drop)]
pub struct Words<'a> {
    pub replay: ReplayWords<'a>,
    pub explain: bool,
}

/// What the words ask for, the program's own name first; none where they ask for nothing that is
/// there. The `Err` is a fault of usage, being out of memory, or the text of the help or the
/// version where they ask for that.
pub fn read_words<'a, S: AsStr>(alloc: Global, words: &'a [S]) -> Result<Option<Words<'a>>, Error> {
    let matches = all_words(alloc)?.try_get_matches_from(words)?;
    let explain = matches.get_flag("explain");
    match replay_words_of(alloc, &matches, matches.get_flag("packets"), false)? {
        Some(replay) => Ok(Some(Words { replay, explain })),
        None => Ok(None),
    }
}
