ghost use Rattle.std.specs.Prelude.{◌≡◌, ◌≢◌, ◌⊎◌, ℕ, false, [], IfErr, IfOk};
ghost use Rattle.disk.specs.Crash.{Only};
ghost use Rattle.disk.specs.File.{CrashLeaves, bytes_of};
ghost use Rattle.checkpoint.specs.Format.{fresh};
ghost use Rattle.checkpoint.specs.Store.{IsRefused, ReadsAsStore, KeepsItself};
ghost use Rattle.job_store.specs.Failed.{HasFailed};

use checkpoint::{Store, StoreError, format};
use disk::Disk;
use std::alloc::Global;

/// Opens the store of a job on a disk; where the disk is empty, it is made first. Refused, it gives
/// the disk back, in this order: E72; E71 for a file that doesn't begin as a store; E73 for another
/// version; E71 for one that is no store; E70 for another job; E62 where the sequence of one of the
/// older form is spent; E72. Where a file is there, nothing is written but what makes a store of
/// the older form one of the newer form.
pub fn open_store<D: Disk>(alloc: Global, disk: D, job: u64) -> Result<Store<D>, (StoreError, D)>
    ensures opened { IfOk result (λ s. (s.ended ≡ false) × (s.record.job ≡ job)) }
    ensures made { IfOk result (λ s. bytes_of (D.device disk).file ≡ [] → s.record ≡ fresh job) }
    ensures found { IfOk result (λ s. bytes_of (D.device disk).file ≢ []
        → (n : ℕ) × ReadsAsStore (bytes_of (D.device disk).file) n s.record) }

    // One whose sequence has begun was read, and no more.
    ensures counted { IfOk result (λ s. (s.sequence ≡ 0) ⊎ (ReadsAsStore (bytes_of (D.device disk).file) s.sequence s.record
        × ((D.device s.disk).file ≡ (D.device disk).file))) }

    // Where a crash leaves what a read gives, it has the store's record, whatever a crash leaves.
    ensures kept { IfOk result (λ s. Only (bytes_of (D.device disk).file) (CrashLeaves (D.device disk).file)
        → KeepsItself D.device s) }

    // No call failed.
    ensures passed { IfOk result (λ s. (D.device s.disk).failures ≡ (D.device disk).failures) }
    ensures refused { IfErr result (λ e. e.0 ≢ StoreError.Device → IsRefused e.0 (bytes_of (D.device disk).file) job) }
    ensures failed { IfErr result (λ e. e.0 ≡ StoreError.Device → HasFailed (D.device disk) (D.device e.1)) }
    ensures unchanged { IfErr result (λ e. e.0 ≢ StoreError.Device → (D.device e.1).file ≡ (D.device disk).file) }
{
    let mut disk = disk;
    match disk.read(alloc, 1) {
        Ok(first) if first.is_empty() => make_store(alloc, disk, job),
        Ok(_) => Store::open(alloc, disk, job),
        Err(_) => Err((StoreError::Device, disk)),
    }
}

/// Makes the store of a job on a disk, and opens it. Only the device refuses it.
fn make_store<D: Disk>(alloc: Global, disk: D, job: u64) -> Result<Store<D>, (StoreError, D)>
    ensures made { IfOk result (λ s. (s.ended ≡ false) × (s.record ≡ fresh job)) }
    ensures counted { IfOk result (λ s. s.sequence ≡ 0) }
    ensures kept { IfOk result (KeepsItself D.device) }
    ensures passed { IfOk result (λ s. (D.device s.disk).failures ≡ (D.device disk).failures) }
    ensures refused { IfErr result (λ e. e.0 ≡ StoreError.Device) }
    ensures failed { IfErr result (λ e. HasFailed (D.device disk) (D.device e.1)) }
{
    let mut disk = disk;
    match format(&mut disk, job) {
        Ok(()) => Store::open(alloc, disk, job),
        Err(fault) => Err((fault, disk)),
    }
}
