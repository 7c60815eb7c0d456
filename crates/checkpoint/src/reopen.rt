ghost use Rattle.std.specs.Prelude.{◌≡◌, ◌⊎◌, IsTrue, IsOk, IfOk, IfErr};
ghost use Rattle.disk.specs.Crash.{Only};
ghost use Rattle.disk.specs.Device.{Unarmed};
ghost use Rattle.disk.specs.File.{CrashLeaves, bytes_of};
ghost use Rattle.checkpoint.specs.Commit.{next_of};
ghost use Rattle.checkpoint.specs.Store.{KeepsItself};

use crate::{LastEpoch, Store, StoreError};
use disk::Disk;
use ids::Outcome;
use std::alloc::Global;

/// Commits, whatever comes of it; then a crash; then opens. Answers what the commit answered, and
/// what was opened: the record before or the new one, and the new one where the commit answered
/// `Ok`. Only the device refuses it. After the crash a device that can be cut isn't armed any more,
/// and keeps what is read.
pub fn commit_and_reopen<D: Disk>(
    alloc: Global,
    store: Store<D>,
    epoch: LastEpoch,
    outcome: Option<Outcome>,
) -> (Result<(), StoreError>, Result<Store<D>, (StoreError, D)>)
    ensures found { KeepsItself D.device store →
        IfOk result.1 (λ s. (s.record ≡ store.record) ⊎ (s.record ≡ next_of store.record epoch outcome)) }
    ensures committed { KeepsItself D.device store → IsOk result.0 →
        IfOk result.1 (λ s. s.record ≡ next_of store.record epoch outcome) }
    ensures kept { KeepsItself D.device store → IsTrue (D.device store.disk).can_cut
        → IfOk result.1 (KeepsItself D.device) }
    ensures crashed { IsTrue (D.device store.disk).can_cut →
        IfOk result.1 (λ s. ((D.device s.disk).arming ≡ Unarmed)
        × Only (bytes_of (D.device s.disk).file) (CrashLeaves (D.device s.disk).file)) }
    ensures crashed_back { IsTrue (D.device store.disk).can_cut
        → IfErr result.1 (λ e. (D.device e.1).arming ≡ Unarmed) }
    ensures refused { KeepsItself D.device store → IfErr result.1 (λ e. e.0 ≡ StoreError.Device) }
{
    let mut store = store;
    let job = store.record().job;
    let answer = store.commit(epoch, outcome);
    let mut disk = store.into_disk();
    disk.crash();
    (answer, Store::open(alloc, disk, job))
}
