//! A fault of a command, and what is known of it beyond its line.

use crate::command::CommandFault;
use crate::fault::SoloFault;
use crate::merging::{TraceLine, TracesFault};
use command_line::{Misuse, Place};
use jobs::{FileFault, JobFault};
use node_runner::RunError;
use replaying::ReplayFault;
use std::alloc::AllocError;
use std::io;
use traces::Stuck;

/// A fault, and why it came.
#[derive(Drop)]
pub struct Failure {
    pub fault: CommandFault,
    pub why: Why,
}

/// What is known of a fault beyond its line.
#[derive(Drop)]
pub enum Why {
    /// No more.
    Plain,
    /// A file can't be opened, read or written, for this reason.
    File(Place, io::Error),
    /// Words don't go together.
    Misuse(Misuse),
    /// The file beside a store names another program or input.
    OtherJob,
    /// The file beside a store names none.
    NoJob,
    /// A line of a trace has no place.
    Trace(TraceLine),
}

impl Failure {
    /// A file couldn't be opened, read or written; or there was no memory.
    pub fn file(place: Place, error: io::Error) -> Failure {
        if error.kind() == io::ErrorKind::OutOfMemory {
            return Failure::memory();
        }
        Failure {
            fault: CommandFault::File,
            why: Why::File(place, error),
        }
    }

    /// There was no memory.
    pub fn memory() -> Failure {
        Failure::from(CommandFault::Run(SoloFault::Memory))
    }

    /// A store is refused by a number, for a reason that the file beside it gives.
    pub fn store(number: u8, why: Why) -> Failure {
        Failure {
            fault: CommandFault::Nodes(RunError::Disk(number)),
            why,
        }
    }

    /// A folder has no trace.
    pub fn no_trace() -> Failure {
        Failure::from(CommandFault::Merge(TracesFault::None))
    }

    /// A line of the trace in this file has no place, for this reason; or is none of a trace.
    pub fn line(path: String, line: u64, why: Option<Stuck>) -> Failure {
        Failure {
            fault: CommandFault::Merge(TracesFault::Line(line)),
            why: Why::Trace(TraceLine { path, line, why }),
        }
    }

    /// Whether it is always explained: whose trace is refused is told nowhere else.
    pub fn is_explained(&self) -> bool {
        match self.fault {
            CommandFault::Merge(_) | CommandFault::Replay(ReplayFault::Packet(_)) => true,
            _ => false,
        }
    }

    /// Words don't go together.
    pub fn misuse(misuse: Misuse) -> Failure {
        Failure {
            fault: CommandFault::Usage,
            why: Why::Misuse(misuse),
        }
    }
}

impl From<CommandFault> for Failure {
    fn from(fault: CommandFault) -> Failure {
        Failure {
            fault,
            why: Why::Plain,
        }
    }
}

impl From<FileFault> for Failure {
    fn from(e: FileFault) -> Failure {
        Failure::from(CommandFault::from(e))
    }
}

impl From<JobFault> for Failure {
    fn from(e: JobFault) -> Failure {
        Failure::from(CommandFault::from(e))
    }
}

impl From<AllocError> for Failure {
    fn from(_error: AllocError) -> Failure {
        Failure::memory()
    }
}
