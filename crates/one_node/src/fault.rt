ghost use Rattle.std.specs.Prelude.{◌≡◌};
ghost use Rattle.one_node.specs.declared.fault.RunFault.TheVariants.{Memory};

use std::alloc::AllocError;
use thiserror::Error;

/// Why a run ends without its outcome.
#[derive(Clone, Copy, PartialEq, Eq, Debug, Error)]
#[error("E{number}", number = self.number())]
pub enum RunFault {
    /// E95: more turns would be needed.
    TurnsSpent,
    /// E62: no frame numbers are left.
    NumbersSpent,
    /// E9: there is no memory.
    Memory,
}

impl RunFault {
    ghost use Rattle.one_node.specs.Errors.{number_of_error};

    /// The number of the error.
    pub fn number(self) -> u8
        ensures { result ≡ number_of_error self }
    {
        match self {
            RunFault::TurnsSpent => ids::error_numbers::RUN_TURNS_SPENT,
            RunFault::NumbersSpent => ids::error_numbers::SPENT,
            RunFault::Memory => ids::error_numbers::MEMORY,
        }
    }
}

impl From<AllocError> for RunFault {
    ghost from_gives = { λ _ e. e ≡ Memory };

    fn from(_refused: AllocError) -> RunFault {
        RunFault::Memory
    }
}
