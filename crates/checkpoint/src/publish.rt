//! How a slot of a file gets a body.
ghost use Rattle.std.specs.Prelude.{◌≡◌, ◌+◌, ◌<◌, ◌^◌, ◌∷◌, [], ℕ, OnOk, OnErr};
ghost use Rattle.checkpoint.specs.Calls.{Passed, Stopped};
ghost use Rattle.checkpoint.specs.Commit.{closing, publishing, putting};

use crate::look::OPEN;
use disk::{DeviceFailed, Disk};

/// A gate of a slot that doesn't count.
const CLOSED: u8 = 0;

// Writes these bytes and has them on the disk.
fn put<D: Disk>(disk: &mut D, at: usize, bytes: &[u8]) -> Result<(), DeviceFailed>
    ensures ok { OnOk result (Passed (putting at bytes.now) (D.planned disk.old) (D.device disk.old)
        (D.device disk.new)) }
    ensures plan { OnOk result ((i : ℕ) → D.planned disk.new i ≡ D.planned disk.old (i + 2)) }
    ensures err { OnErr result (Stopped (putting at bytes.now) (D.planned disk.old) (D.device disk.old)
        (D.device disk.new)) }
{
    disk.write_at(at, bytes)?;
    disk.sync()
}

// Closes the gate of a slot. Where it reads as closed, no byte is written.
fn close<D: Disk>(disk: &mut D, at: usize, gate: bool) -> Result<(), DeviceFailed>
    ensures ok { OnOk result (Passed (putting at (closing gate)) (D.planned disk.old) (D.device disk.old)
        (D.device disk.new)) }
    ensures plan { OnOk result ((i : ℕ) → D.planned disk.new i ≡ D.planned disk.old (i + 2)) }
    ensures err { OnErr result (Stopped (putting at (closing gate)) (D.planned disk.old) (D.device disk.old)
        (D.device disk.new)) }
{
    if gate {
        put(disk, at, &[CLOSED])
    } else {
        put(disk, at, &[])
    }
}

// Opens the gate of a slot.
fn open<D: Disk>(disk: &mut D, at: usize) -> Result<(), DeviceFailed>
    ensures ok { OnOk result (Passed (putting at (165 ∷ [])) (D.planned disk.old) (D.device disk.old)
        (D.device disk.new)) }
    ensures plan { OnOk result ((i : ℕ) → D.planned disk.new i ≡ D.planned disk.old (i + 2)) }
    ensures err { OnErr result (Stopped (putting at (165 ∷ [])) (D.planned disk.old) (D.device disk.old)
        (D.device disk.new)) }
{
    put(disk, at, &[OPEN])
}

/// Gives a body to the slot at a place, by six device calls. `gate` tells whether its gate reads as
/// open.
pub fn publish<D: Disk>(
    disk: &mut D,
    at: usize,
    gate: bool,
    body: &[u8],
) -> Result<(), DeviceFailed>
    requires { at < 2 ^ 63 }
    ensures ok { OnOk result (Passed (publishing at gate body.now) (D.planned disk.old) (D.device disk.old)
        (D.device disk.new)) }
    ensures plan { OnOk result ((i : ℕ) → D.planned disk.new i ≡ D.planned disk.old (i + 6)) }
    ensures err { OnErr result (Stopped (publishing at gate body.now) (D.planned disk.old) (D.device disk.old)
        (D.device disk.new)) }
{
    close(disk, at, gate)?;
    put(disk, at + 1, body)?;
    open(disk, at)
}
