ghost use Rattle.std.specs.Prelude.{◌≡◌, ◌≢◌, ℕ, IfErr, IfOk, IsErrOf, OnOk};
ghost use Rattle.disk.specs.File.{bytes_of};
ghost use Rattle.checkpoint.specs.Calls.{Passed, Stopped};
ghost use Rattle.checkpoint.specs.Commit.{opening};
ghost use Rattle.checkpoint.specs.Info.{info_of};
ghost use Rattle.checkpoint.specs.Store.{IsRefused, ReadsAsStore};
ghost use Rattle.checkpoint.specs.declared.record.CheckpointRecord.{CheckpointRecord as StoredRecord};

use crate::look::{SIZE, look};
use crate::{CheckpointRecord, StoreError};
use disk::Disk;
use ids::Outcome;
use std::alloc::Global;

/// What a store keeps: the number of its job, the last epoch of the clearinghouse that began, 0
/// where none did, the outcome once there is one, and how many values are saved.
#[derive(Clone, Copy, Debug, PartialEq, Eq)]
pub struct Info {
    pub job: u64,
    pub epoch: u64,
    pub outcome: Option<Outcome>,
    pub saved: usize,
}

/// What a store keeps, whatever its job is, by one read; nothing is written. Refused in this order:
/// E72; E71 for a file that doesn't begin as a store; E73 for another version; E71 for one that is
/// no store.
pub fn inspect<D: Disk>(alloc: Global, disk: &mut D) -> Result<Info, StoreError>
    ensures found { IfOk result (λ i. (n : ℕ) × (r : StoredRecord)
        × ReadsAsStore (bytes_of (D.device disk.old).file) n r × (i ≡ info_of r)) }
    ensures calls { OnOk result (Passed opening (D.planned disk.old) (D.device disk.old) (D.device disk.new)) }
    ensures refused { IfErr result (λ e. e ≢ StoreError.Device
        → ((job : ℕ) → IsRefused e (bytes_of (D.device disk.old).file) job)
        × Passed opening (D.planned disk.old) (D.device disk.old) (D.device disk.new)) }
    ensures stopped { IsErrOf result StoreError.Device → Stopped opening (D.planned disk.old)
        (D.device disk.old) (D.device disk.new) }
{
    let bytes = match disk.read(alloc, SIZE + 1) {
        Ok(bytes) => bytes,
        Err(_) => return Err(StoreError::Device),
    };
    match look(&bytes) {
        Ok(found) => Ok(told(found.record)),
        Err(fault) => Err(fault),
    }
}

// What is told of a record.
fn told(kept: CheckpointRecord) -> Info
    ensures { result ≡ info_of kept }
{
    let CheckpointRecord {
        job,
        epoch,
        outcome,
        saved,
    } = kept;
    Info {
        job,
        epoch: epoch.number(),
        outcome,
        saved: saved.as_slice().len(),
    }
}
