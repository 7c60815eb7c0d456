//! What is wrong with words that are understood, and ask for nothing that is there.

use crate::named::Place;
use std::fmt::{self, Display, Formatter};

/// The commands.
const COMMANDS: [&str; 8] = [
    "check", "print", "serial", "run", "replay", "draw", "merge", "store",
];

/// Why words ask for nothing that is there.
#[derive(Clone, Copy, Debug, PartialEq, Eq)]
pub enum Misuse {
    /// So many nodes.
    Nodes(u64),
    /// So many body workers a node.
    Bodies(u64),
    /// So many nodes that leave, of so many.
    Departures(u64, u64),
    /// Two options that don't go together.
    Together(Place, Place),
    /// Two words that name one file.
    OneFile(Place, Place),
}

impl Display for Misuse {
    fn fmt<W: fmt::Write>(&self, f: &mut Formatter<W>) -> fmt::Result {
        match *self {
            Misuse::Nodes(count) => write!(f, "`--nodes` is 1 to 64, and not {count}"),
            Misuse::Bodies(count) => write!(f, "`--bodies` is 1 to 8, and not {count}"),
            Misuse::Departures(leave, nodes) => {
                write!(
                    f,
                    "`--depart` is less than `--nodes`: of {nodes} nodes not {leave} can leave"
                )
            }
            Misuse::Together(first, second) => {
                write!(f, "{first} and {second} don't go together")
            }
            Misuse::OneFile(first, second) => write!(f, "{first} and {second} are one file"),
        }
    }
}

/// Whether a word is a command.
pub fn is_command(word: &str) -> bool {
    word == "help" || COMMANDS.iter().any(|it| *it == word)
}

/// That a word is no command, or that there is none; and which commands there are.
#[derive(Clone, Copy, Debug, PartialEq, Eq)]
pub struct NoCommand<'a>(pub Option<&'a str>);

impl<'a> Display for NoCommand<'a> {
    fn fmt<W: fmt::Write>(&self, f: &mut Formatter<W>) -> fmt::Result {
        match self.0 {
            Some(word) if !word.starts_with('-') => write!(f, "`{word}` is no command")?,
            _ => write!(f, "there is no command")?,
        }
        write!(f, "; the commands are")?;
        for (index, command) in COMMANDS.iter().enumerate() {
            write!(f, "{} {command}", if index == 0 { "" } else { "," })?;
        }
        Ok(())
    }
}
