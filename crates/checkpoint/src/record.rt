ghost use Rattle.std.specs.Prelude.{◌≡◌, ◌+◌, ◌<◌, ◌^◌, nat_lt, Some, None, if◌then◌else◌};

use disk::DeviceFailed;
use ids::{Epoch, Outcome};
use saved_values::SavedTable;
use std::marker::Model;
use thiserror::Error;

/// The last epoch of the clearinghouse that began: below 2^63, and 0 where none did. Contracts see
/// the number.
#[derive(Clone, Copy, Debug, PartialEq, Eq)]
pub struct LastEpoch {
    number: u64,
}

impl Model for LastEpoch {
    ghost use Rattle.std.specs.Prelude.{ℕ, ◌<◌, ◌^◌};

    ghost Value = { ℕ };

    ghost view = { λ e. e.number };

    ghost invariant = { λ e. e.number < 2 ^ 63 };

    ghost inverse = { λ n. record { number = n } };
}

impl LastEpoch {
    /// The last epoch of this number; none from 2^63 on.
    pub fn of(number: u64) -> Option<LastEpoch>
        ensures { result ≡ (if nat_lt number (2 ^ 63) then Some number else None) }
    {
        if number < 1 << 63 {
            Some(LastEpoch { number })
        } else {
            None
        }
    }

    /// None began.
    pub fn none() -> LastEpoch
        ensures { result ≡ 0 }
    {
        LastEpoch { number: 0 }
    }

    /// This epoch.
    pub fn at(epoch: Epoch) -> LastEpoch
        ensures { result ≡ epoch }
    {
        LastEpoch {
            number: epoch.number(),
        }
    }

    /// The number.
    pub fn number(self) -> u64
        ensures same { result ≡ self }
        ensures small { result < 2 ^ 63 }
    {
        self.number
    }

    /// The epoch to begin next; none behind the last of all.
    pub fn next(self) -> Option<Epoch>
        ensures { result ≡ (if nat_lt (self + 1) (2 ^ 63) then Some (self + 1) else None) }
    {
        Epoch::of(self.number + 1)
    }
}

/// What a checkpoint keeps: the number of the job, the last epoch, the outcome once there is one,
/// and values of tasks that are saved.
#[derive(Drop)]
pub struct CheckpointRecord {
    pub job: u64,
    pub epoch: LastEpoch,
    pub outcome: Option<Outcome>,
    pub saved: SavedTable,
}

/// What a small slot of a store says: a record, or that it has moved into a large one.
#[derive(Drop)]
pub enum Entry {
    Here(CheckpointRecord),
    Moved,
}

/// A slot of a store: the first or the second one of the small ones, or of the large ones.
#[derive(Clone, Copy, PartialEq, Eq, Debug)]
pub enum SlotId {
    Small(bool),
    Large(bool),
}

/// Why a store isn't made or opened, or a record not committed.
#[derive(Clone, Copy, Debug, PartialEq, Eq, Error)]
#[error("E{number}", number = self.number())]
pub enum StoreError {
    /// E62: the sequence is spent. Nothing changed.
    Spent,
    /// E70: the current record is of another job.
    JobMismatch,
    /// E71: the file is no store.
    Damaged,
    /// E72: a call of the device failed, now or since the store was opened.
    Device,
    /// E73: the file is a store of another version.
    Version,
}

impl StoreError {
    ghost use Rattle.checkpoint.specs.Errors.{number_of_error};

    /// The number of the error: 62, or 70 to 73.
    pub fn number(self) -> u8
        ensures { result ≡ number_of_error self }
    {
        match self {
            StoreError::Spent => ids::error_numbers::SPENT,
            StoreError::JobMismatch => ids::error_numbers::JOB_MISMATCH,
            StoreError::Damaged => ids::error_numbers::DAMAGED,
            StoreError::Device => ids::error_numbers::DEVICE,
            StoreError::Version => ids::error_numbers::STORE_VERSION,
        }
    }
}

impl From<DeviceFailed> for StoreError {
    ghost use Rattle.std.specs.Prelude.{◌≡◌};
    ghost use Rattle.checkpoint.specs.declared.record.StoreError.TheVariants.{Device};

    ghost from_gives = { λ _ e. e ≡ Device };

    fn from(_failed: DeviceFailed) -> StoreError {
        StoreError::Device
    }
}
