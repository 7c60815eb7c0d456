ghost use Rattle.std.specs.Prelude.{◌≡◌, ◌+◌, ◌≤◌, ℕ, List, [], None, length, IsErrOf, OnErr, OnOk};
ghost use Rattle.std.specs.List.{splice};
ghost use Rattle.disk.specs.File.{CrashLeaves};
ghost use Rattle.checkpoint.specs.Calls.{Passed, Stopped};
ghost use Rattle.checkpoint.specs.Commit.{formatting};
ghost use Rattle.checkpoint.specs.Format.{IsBoth, IsFormatted, IsFormattedSmall};

use crate::body::{LARGE_BODY, spell, spell_begun, spell_moved};
use crate::look::{LARGE, NAME, OLD_SIZE, OPEN, SIZE, SMALL, VERSION};
use crate::{LastEpoch, StoreError};
use disk::Disk;
use ids::Outcome;
use saved_values::SavedTable;

/// The bytes of both large slots.
pub const BOTH: usize = 2 + 2 * LARGE_BODY;

fn put_bytes(file: &mut [u8], at: usize, bytes: &[u8])
    requires { at + length bytes.now ≤ length file.old }
    ensures { file.new ≡ splice file.old at (at + length bytes.now) bytes.now }
{
    file[at..at + bytes.len()].copy_from_slice(bytes);
}

/// Both large slots: an open one of sequence 0 with a record of which no values are saved, and
/// zeros.
pub fn large_slots(job: u64, epoch: LastEpoch, outcome: &Option<Outcome>) -> [u8; BOTH]
    ensures { IsBoth result (record { job = job; epoch = epoch; outcome = outcome.now; saved = [] }) }
{
    let body = spell(0, job, epoch, outcome, &SavedTable::new());
    let mut both = [0; BOTH];
    both[0] = OPEN;
    put_bytes(&mut both, 1, &body);
    both
}

// The file of a job that has just begun.
fn blank(job: u64) -> [u8; SIZE]
    ensures { IsFormatted result job }
{
    let epoch = LastEpoch::none();
    let moved = spell_moved(0, job, epoch);
    let large = large_slots(job, epoch, &None);
    let mut file = [0; SIZE];
    put_bytes(&mut file, 0, &NAME);
    file[7] = VERSION;
    file[SMALL] = OPEN;
    put_bytes(&mut file, SMALL + 1, &moved);
    put_bytes(&mut file, LARGE, &large);
    file
}

// The file of such a job, of the older form.
fn blank_small(job: u64) -> [u8; OLD_SIZE]
    ensures { IsFormattedSmall result job }
{
    let begun = spell_begun(job);
    let mut file = [0; OLD_SIZE];
    put_bytes(&mut file, 0, &NAME);
    file[7] = VERSION;
    file[SMALL] = OPEN;
    put_bytes(&mut file, SMALL + 1, &begun);
    file
}

// Makes these bytes the content of a disk, by three device calls.
fn make<D: Disk>(disk: &mut D, file: &[u8]) -> Result<(), StoreError>
    ensures calls { OnOk result (Passed (formatting file.now) (D.planned disk.old) (D.device disk.old)
        (D.device disk.new)) }
    ensures plan { OnOk result ((i : ℕ) → D.planned disk.new i ≡ D.planned disk.old (i + 3)) }
    ensures refused { OnErr result (IsErrOf result StoreError.Device) }
    ensures stopped { OnErr result (Stopped (formatting file.now) (D.planned disk.old) (D.device disk.old)
        (D.device disk.new)) }
{
    disk.cut(0)?;
    disk.write_at(0, file)?;
    disk.sync()?;
    Ok(())
}

/// Makes the store of a job that has just begun, by three device calls. Refused by the device
/// alone, it has to be done again.
pub fn format<D: Disk>(disk: &mut D, job: u64) -> Result<(), StoreError>
    ensures calls { OnOk result ((file : List ℕ) × IsFormatted file job
        × Passed (formatting file) (D.planned disk.old) (D.device disk.old) (D.device disk.new)) }
    ensures left { OnOk result ((c : List ℕ) → CrashLeaves (D.device disk.new).file c → IsFormatted c job) }
    ensures plan { OnOk result ((i : ℕ) → D.planned disk.new i ≡ D.planned disk.old (i + 3)) }
    ensures refused { OnErr result (IsErrOf result StoreError.Device) }
    ensures stopped { OnErr result ((file : List ℕ) × IsFormatted file job
        × Stopped (formatting file) (D.planned disk.old) (D.device disk.old) (D.device disk.new)) }
{
    let file = blank(job);
    make(disk, &file)
}

/// Makes the store of a job that has just begun as one of the older form, by three device calls;
/// opening makes it one of the newer form. Its 136 bytes lie in one page of memory and in one
/// sector of a disk: a system that writes these whole leaves no part of a store where the process
/// is killed or the power fails. Refused by the device alone, it has to be done again.
pub fn format_small<D: Disk>(disk: &mut D, job: u64) -> Result<(), StoreError>
    ensures calls { OnOk result ((file : List ℕ) × IsFormattedSmall file job
        × Passed (formatting file) (D.planned disk.old) (D.device disk.old) (D.device disk.new)) }
    ensures left { OnOk result ((c : List ℕ) → CrashLeaves (D.device disk.new).file c → IsFormattedSmall c job) }
    ensures plan { OnOk result ((i : ℕ) → D.planned disk.new i ≡ D.planned disk.old (i + 3)) }
    ensures refused { OnErr result (IsErrOf result StoreError.Device) }
    ensures stopped { OnErr result ((file : List ℕ) × IsFormattedSmall file job
        × Stopped (formatting file) (D.planned disk.old) (D.device disk.old) (D.device disk.new)) }
{
    let file = blank_small(job);
    make(disk, &file)
}
