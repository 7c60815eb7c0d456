ghost use Rattle.std.specs.Prelude.{◌≡◌};

use checkpoint::StoreError;
use packet_fields::Fault;
use std::alloc::AllocError;
use thiserror::Error;

/// Why a call of the clearinghouse is refused. It changes nothing then, except that E72 and E9 stop
/// the clearinghouse.
#[derive(Clone, Copy, PartialEq, Eq, Debug, Error)]
#[error("E{number}", number = self.number())]
pub enum HouseError {
    /// E30 to E36: the bytes are no packet.
    Bytes(Fault),
    /// E62: an epoch, a commit or a grant can't be counted any more.
    Spent,
    /// E70: the checkpoint is of another job.
    JobMismatch,
    /// E71: the file is no checkpoint.
    Damaged,
    /// E72: a call of the device failed.
    Device,
    /// E73: the checkpoint is of another version.
    Version,
    /// E80: 4,096 members are listed.
    RosterFull,
    /// E9: there is no memory.
    Memory,
}

impl HouseError {
    ghost use Rattle.clearinghouse.specs.Errors.{number_of_error};

    /// The number of the error.
    pub fn number(self) -> u8
        ensures { result ≡ number_of_error self }
    {
        match self {
            HouseError::Bytes(fault) => fault.number(),
            HouseError::Spent => ids::error_numbers::SPENT,
            HouseError::JobMismatch => ids::error_numbers::JOB_MISMATCH,
            HouseError::Damaged => ids::error_numbers::DAMAGED,
            HouseError::Device => ids::error_numbers::DEVICE,
            HouseError::Version => ids::error_numbers::STORE_VERSION,
            HouseError::RosterFull => ids::error_numbers::ROSTER_FULL,
            HouseError::Memory => ids::error_numbers::MEMORY,
        }
    }
}

impl From<AllocError> for HouseError {
    ghost use Rattle.std.specs.Prelude.{◌≡◌};
    ghost use Rattle.clearinghouse.specs.declared.error.HouseError.TheVariants.{Memory};

    ghost from_gives = { λ _ e. e ≡ Memory };

    fn from(_refused: AllocError) -> HouseError {
        HouseError::Memory
    }
}

/// What a checkpoint's store refuses, under the same number.
impl From<StoreError> for HouseError {
    ghost use Rattle.std.specs.Prelude.{◌≡◌};
    ghost use Rattle.clearinghouse.specs.Errors.{error_of_store};

    ghost from_gives = { λ fault e. e ≡ error_of_store fault };

    fn from(fault: StoreError) -> HouseError {
        match fault {
            StoreError::Spent => HouseError::Spent,
            StoreError::JobMismatch => HouseError::JobMismatch,
            StoreError::Damaged => HouseError::Damaged,
            StoreError::Device => HouseError::Device,
            StoreError::Version => HouseError::Version,
        }
    }
}
