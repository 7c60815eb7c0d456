ghost use Rattle.std.specs.Prelude.{◌≡◌};
ghost use Rattle.jobs.specs.Faults.{number_of_fault, of_kinds, of_text, status_of};
ghost use Rattle.jobs.specs.declared.fault.JobFault.TheVariants as faults;

use kind_check::KindError;
use serial_meaning::JobError;
use task_syntax::ParseError;
use thiserror::Error;

/// Why a file isn't read.
#[derive(Clone, Copy, Debug, PartialEq, Eq, Error)]
pub enum FileFault {
    /// It can't be read.
    #[error("file")]
    Unreadable,
    /// E9: there is no memory for its bytes.
    #[error("E{number}", number = ids::error_numbers::MEMORY)]
    Memory,
}

/// Why a text, an input and a number are no job.
#[derive(Clone, Copy, Debug, PartialEq, Eq, Error)]
pub enum JobFault {
    /// E2 to E6: the text isn't read.
    #[error(transparent)]
    Parse(ParseError),
    /// E10 to E18: the program isn't accepted.
    #[error(transparent)]
    Kind(KindError),
    /// E21: the count of inputs isn't that of `main`.
    #[error(transparent)]
    Input(JobError),
    /// E9: there is no memory.
    #[error("E{number}", number = self.number())]
    Memory,
}

impl JobFault {
    /// The number of the fault.
    pub fn number(self) -> u8
        ensures { result ≡ number_of_fault self }
    {
        match self {
            JobFault::Parse(e) => e.number(),
            JobFault::Kind(e) => e.number(),
            JobFault::Input(e) => e.number(),
            JobFault::Memory => ids::error_numbers::MEMORY,
        }
    }

    /// The status that a program ends with: 1 for a text or an input that is refused, 3 when out of
    /// memory.
    pub fn status(self) -> u8
        ensures { result ≡ status_of self }
    {
        match self {
            JobFault::Parse(_) | JobFault::Kind(_) | JobFault::Input(_) => 1,
            JobFault::Memory => 3,
        }
    }
}

impl From<ParseError> for JobFault {
    ghost from_gives = { λ e f. f ≡ of_text e };

    fn from(e: ParseError) -> JobFault {
        match e {
            ParseError::Memory => JobFault::Memory,
            other => JobFault::Parse(other),
        }
    }
}

impl From<KindError> for JobFault {
    ghost from_gives = { λ e f. f ≡ of_kinds e };

    fn from(e: KindError) -> JobFault {
        match e {
            KindError::Memory => JobFault::Memory,
            other => JobFault::Kind(other),
        }
    }
}

impl From<JobError> for JobFault {
    ghost from_gives = { λ e f. f ≡ faults.Input e };

    fn from(e: JobError) -> JobFault {
        JobFault::Input(e)
    }
}
