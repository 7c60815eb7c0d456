//! How a store of the older form becomes one of the newer form.
ghost use Rattle.std.specs.Prelude.{◌≡◌, ◌+◌, ◌<◌, ◌^◌, ℕ, List, [], not, if◌then◌else◌, OnErr, OnOk};
ghost use Rattle.checkpoint.specs.Calls.{DeviceCall, Passed, Stopped};
ghost use Rattle.checkpoint.specs.Commit.{migrating};
ghost use Rattle.checkpoint.specs.Format.{IsBoth, IsMovedBody};

use crate::CheckpointRecord;
use crate::blank::large_slots;
use crate::body::spell_moved;
use crate::look::LARGE;
use crate::publish::publish;
use disk::{DeviceFailed, Disk};

/// Where a small slot begins.
pub fn small_place(second: bool) -> usize
    ensures { result ≡ (if second then 72 else 8) }
{
    if second { 72 } else { 8 }
}

/// By eight device calls a store of the older form becomes one of the newer form. Its record is in
/// the second small slot or in the first one; `gate` tells whether the gate of the other one reads
/// as open.
pub fn migrate<D: Disk>(
    disk: &mut D,
    second: bool,
    gate: bool,
    sequence: u64,
    kept: &CheckpointRecord,
) -> Result<(), DeviceFailed>
    requires unspent { sequence + 1 < 2 ^ 64 }
    requires unsaved { kept.now.saved ≡ [] }
    ensures ok { OnOk result ((large small : List ℕ) × IsBoth large kept.now
        × IsMovedBody small (sequence + 1) kept.now.job kept.now.epoch
        × Passed (migrating large second gate small) (D.planned disk.old) (D.device disk.old) (D.device disk.new)) }
    ensures plan { OnOk result ((i : ℕ) → D.planned disk.new i ≡ D.planned disk.old (i + 8)) }
    ensures err { OnErr result ((large small : List ℕ) × IsBoth large kept.now
        × IsMovedBody small (sequence + 1) kept.now.job kept.now.epoch
        × Stopped (migrating large second gate small) (D.planned disk.old) (D.device disk.old) (D.device disk.new)) }
{
    let large = large_slots(kept.job, kept.epoch, &kept.outcome);
    let small = spell_moved(sequence + 1, kept.job, kept.epoch);
    disk.write_at(LARGE, &large)?;
    disk.sync()?;
    publish(disk, small_place(!second), gate, &small)
}
