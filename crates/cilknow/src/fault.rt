ghost use Rattle.std.specs.Prelude.{◌≡◌};
ghost use Rattle.cilknow.specs.Faults.{of_job, of_run};

use jobs::JobFault;
use one_node::RunFault;
use thiserror::Error;

/// Why a run gives no outcome.
#[derive(Clone, Copy, Debug, PartialEq, Eq, Error)]
#[error("E{number}", number = self.number())]
pub enum SoloFault {
    /// E2 to E6, E10 to E18, E21: the text and the input are no job.
    #[error(transparent)]
    Job(JobFault),
    /// E95: more turns would be needed.
    TurnsSpent,
    /// E62: no frame numbers are left.
    NumbersSpent,
    /// E9: there is no memory.
    Memory,
}

impl SoloFault {
    ghost use Rattle.cilknow.specs.Faults.{number_of_fault};

    /// The number of the fault.
    pub fn number(self) -> u8
        ensures { result ≡ number_of_fault self }
    {
        match self {
            SoloFault::Job(e) => e.number(),
            SoloFault::TurnsSpent => ids::error_numbers::RUN_TURNS_SPENT,
            SoloFault::NumbersSpent => ids::error_numbers::SPENT,
            SoloFault::Memory => ids::error_numbers::MEMORY,
        }
    }
}

impl From<JobFault> for SoloFault {
    ghost from_gives = { λ e f. f ≡ of_job e };

    fn from(e: JobFault) -> SoloFault {
        match e {
            JobFault::Memory => SoloFault::Memory,
            other => SoloFault::Job(other),
        }
    }
}

impl From<RunFault> for SoloFault {
    ghost from_gives = { λ e f. f ≡ of_run e };

    fn from(e: RunFault) -> SoloFault {
        match e {
            RunFault::TurnsSpent => SoloFault::TurnsSpent,
            RunFault::NumbersSpent => SoloFault::NumbersSpent,
            RunFault::Memory => SoloFault::Memory,
        }
    }
}
