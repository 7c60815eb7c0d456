ghost use Rattle.std.specs.Prelude.{◌≡◌};
ghost use Rattle.replaying.specs.Faults.{of_file, of_job, of_narrator, of_replay};
ghost use Rattle.replaying.specs.Status.{status_of};

use event_script::Line;
use event_words::NarratorFault;
use jobs::{FileFault, JobFault};
use thiserror::Error;
use world::ReplayError;

/// Why files aren't replayed.
#[derive(Clone, Copy, Debug, PartialEq, Eq, Error)]
pub enum ReplayFault {
    /// A file can't be read, or what the run came to can't be written.
    #[error("file")]
    File,
    /// E2 to E6, E10 to E18, E21: the program's text and the input are no job.
    #[error(transparent)]
    Job(JobFault),
    /// A line of the script isn't an event's.
    #[error(transparent)]
    Line(Line),
    /// The packet of this number, from 0, isn't one of the name that the script tells; or one of
    /// the two is missing.
    #[error("packet {0}")]
    Packet(u64),
    /// E9: there is no memory.
    #[error("E{number}", number = ids::error_numbers::MEMORY)]
    Memory,
}

impl ReplayFault {
    /// The status that a program ends with: 1 for a text, an input or a script that is refused, 3
    /// when out of memory, 4 for a file.
    pub fn status(self) -> u8
        ensures { result ≡ status_of self }
    {
        match self {
            ReplayFault::Job(fault) => fault.status(),
            ReplayFault::Line(_) | ReplayFault::Packet(_) => 1,
            ReplayFault::Memory => 3,
            ReplayFault::File => 4,
        }
    }
}

impl From<FileFault> for ReplayFault {
    ghost from_gives = { λ e f. f ≡ of_file e };

    fn from(e: FileFault) -> ReplayFault {
        match e {
            FileFault::Unreadable => ReplayFault::File,
            FileFault::Memory => ReplayFault::Memory,
        }
    }
}

impl From<JobFault> for ReplayFault {
    ghost from_gives = { λ e f. f ≡ of_job e };

    fn from(e: JobFault) -> ReplayFault {
        match e {
            JobFault::Memory => ReplayFault::Memory,
            other => ReplayFault::Job(other),
        }
    }
}

impl From<ReplayError> for ReplayFault {
    ghost from_gives = { λ e f. f ≡ of_replay e };

    fn from(e: ReplayError) -> ReplayFault {
        match e {
            ReplayError::Line(line) => ReplayFault::Line(line),
            ReplayError::Memory => ReplayFault::Memory,
        }
    }
}

impl From<NarratorFault> for ReplayFault {
    ghost from_gives = { λ e f. f ≡ of_narrator e };

    fn from(e: NarratorFault) -> ReplayFault {
        match e {
            NarratorFault::Unwritten => ReplayFault::File,
            NarratorFault::Memory => ReplayFault::Memory,
        }
    }
}
