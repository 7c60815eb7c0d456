ghost use Rattle.std.specs.Prelude.{◌≡◌, ◌⊎◌, ◌+◌, ◌<◌, ◌≤◌, List, ℕ, suc, Bool, true, false, Option, Some, None, IsSome, IsTrue, length, take, IfOk, IfSome, OnOk, OnErr};
ghost use Rattle.disk.specs.Crash.{Only, Shrinks, Follows, Torn, Shortened};
ghost use Rattle.disk.specs.Device.{Device, Failed, Settles, SettlesEither, Unarmed, armed, crashed, passed, stop_after};
ghost use Rattle.disk.specs.File.{CrashLeaves, bytes_of, synced, written_file};

use std::alloc::Global;
use thiserror::Error;

/// A call of a device failed: by the device, or when out of memory.
#[derive(Clone, Copy, Debug, PartialEq, Eq, Error)]
#[error("E{number}", number = ids::error_numbers::DEVICE)]
pub struct DeviceFailed;

/// A device that holds one file.
///
/// Between two syncs each written range, and what stands past the old end, may hold any bytes after
/// a crash; bytes outside stay. After a sync that succeeds a crash leaves what a read gives.
///
/// A call that fails, for whatever reason, is counted, and settles the file as a crash would. In a
/// device that can be cut it isn't carried out, and the bytes are planned. In another one it may
/// have been, and by which bytes the file is settled isn't told: such a device fails each call from
/// then on, and leaves it to whoever opens the file anew to find them.
pub trait Disk {
    /// The file, and what is known of failures.
    ghost device: { Self → Device };

    /// The failures that are planned: the bytes by which the call after so many others is to settle
    /// the file, if it is to fail.
    ghost planned: { Self → ℕ → Option (List ℕ) };

    /// Whether a call failed of a device that can't be cut. No call passes any more.
    ghost lost: { Self → Bool };

    /// The first bytes of the file, at most so many.
    fn read(&mut self, alloc: Global, most: usize) -> Result<Vec<u8>, DeviceFailed>
        ensures bytes { IfOk result (λ bytes. bytes.items ≡ take most (bytes_of (device self.old).file)) }
        ensures ok { OnOk result (device self.new ≡ passed (device self.old) (device self.old).file) }
        ensures err { OnErr result (Failed (device self.old) (device self.new) (planned self.old 0)) }
        ensures settled { OnErr result (Settles (device self.old).file (device self.new).file) }
        ensures crash { Shrinks (CrashLeaves (device self.old).file) (CrashLeaves (device self.new).file) }
        ensures passes { OnOk result (planned self.old 0 ≡ None) }
        ensures lost { OnErr result ((device self.old).can_cut ≡ false → lost self.new ≡ true) }
        ensures there { OnOk result (lost self.old ≡ false) }

        // A device that can be cut wants memory for the bytes alone.
        ensures cause { OnErr result (IsTrue (device self.old).can_cut → IsSome (planned self.old 0)
            ⊎ (0 < most × 0 < length (device self.old).file)) }
        ensures plan { (i : ℕ) → planned self.new i ≡ planned self.old (suc i) };

    /// Writes bytes over those at a place, and past the end. It fails where that place is behind
    /// the end.
    fn write_at(&mut self, at: usize, bytes: &[u8]) -> Result<(), DeviceFailed>
        ensures place { OnOk result (at ≤ length (device self.old).file) }
        ensures ok { OnOk result (device self.new ≡ passed (device self.old)
            (written_file (device self.old).file at bytes.now)) }
        ensures err { OnErr result (Failed (device self.old) (device self.new) (planned self.old 0)) }
        ensures settled { OnErr result (SettlesEither (device self.old).file
            (written_file (device self.old).file at bytes.now) (device self.new).file) }
        ensures crash { Follows (Torn at (length bytes.now)) (CrashLeaves (device self.old).file)
            (CrashLeaves (device self.new).file) }
        ensures passes { OnOk result (planned self.old 0 ≡ None) }
        ensures lost { OnErr result ((device self.old).can_cut ≡ false → lost self.new ≡ true) }
        ensures there { OnOk result (lost self.old ≡ false) }

        // A device that can be cut wants memory for more bytes alone.
        ensures cause { OnErr result (IsTrue (device self.old).can_cut → IsSome (planned self.old 0)
            ⊎ (length (device self.old).file < at + length bytes.now)) }
        ensures plan { (i : ℕ) → planned self.new i ≡ planned self.old (suc i) };

    /// Cuts the file to a length. It fails where the file is shorter.
    fn cut(&mut self, len: usize) -> Result<(), DeviceFailed>
        ensures place { OnOk result (len ≤ length (device self.old).file) }
        ensures ok { OnOk result (device self.new ≡ passed (device self.old) (take len (device self.old).file)) }
        ensures err { OnErr result (Failed (device self.old) (device self.new) (planned self.old 0)) }
        ensures settled { OnErr result (SettlesEither (device self.old).file (take len (device self.old).file)
            (device self.new).file) }
        ensures crash { Follows (Shortened len) (CrashLeaves (device self.old).file)
            (CrashLeaves (device self.new).file) }
        ensures passes { OnOk result (planned self.old 0 ≡ None) }
        ensures lost { OnErr result ((device self.old).can_cut ≡ false → lost self.new ≡ true) }
        ensures there { OnOk result (lost self.old ≡ false) }
        ensures cause { OnErr result (IsTrue (device self.old).can_cut → IsSome (planned self.old 0)
            ⊎ (length (device self.old).file < len)) }
        ensures plan { (i : ℕ) → planned self.new i ≡ planned self.old (suc i) };

    /// Has what was written on the disk for good: after it a crash leaves what a read gives.
    fn sync(&mut self) -> Result<(), DeviceFailed>
        ensures ok { OnOk result (device self.new ≡ passed (device self.old) (synced (device self.old).file)) }
        ensures durable { OnOk result (Only (bytes_of (device self.new).file) (CrashLeaves (device self.new).file)) }
        ensures err { OnErr result (Failed (device self.old) (device self.new) (planned self.old 0)) }
        ensures settled { OnErr result (Settles (device self.old).file (device self.new).file) }
        ensures crash { Shrinks (CrashLeaves (device self.old).file) (CrashLeaves (device self.new).file) }
        ensures passes { OnOk result (planned self.old 0 ≡ None) }
        ensures lost { OnErr result ((device self.old).can_cut ≡ false → lost self.new ≡ true) }
        ensures there { OnOk result (lost self.old ≡ false) }
        ensures cause { OnErr result (IsTrue (device self.old).can_cut → IsSome (planned self.old 0)) }
        ensures plan { (i : ℕ) → planned self.new i ≡ planned self.old (suc i) };

    /// The number of calls that failed, modulo 2^64: some call failed where it changed.
    fn failures(&self) -> u64
        ensures { result ≡ (device self.now).failures };

    /// Whether the device can be armed and crashed. One that can't takes no notice of either.
    fn can_cut(&self) -> bool
        ensures { result ≡ (device self.now).can_cut };

    /// Lets so many calls pass. The next one settles the file, by rising offset, what isn't synced
    /// becoming these bytes in turn and the rest staying as written last. It fails, as does each
    /// one after it up to `crash`.
    fn arm(&mut self, calls: u64, bytes: Vec<u8>)
        ensures armed { IsTrue (device self.old).can_cut → device self.new ≡ armed (device self.old) calls bytes.items }
        ensures unmoved { (device self.old).can_cut ≡ false → self.new ≡ self.old };

    /// Settles what is left unsynced, by the armed bytes if any, and as written last behind their
    /// end. Lets all calls pass from then on.
    fn crash(&mut self)
        ensures crashed { IsTrue (device self.old).can_cut → device self.new ≡ crashed (device self.old) }
        ensures unmoved { (device self.old).can_cut ≡ false → self.new ≡ self.old };

    /// One that can't be armed isn't.
    ghost uncut_unarmed: { (disk : Self) → (device disk).can_cut ≡ false → (device disk).arming ≡ Unarmed };

    /// A device fails at least those calls that it is armed to fail.
    ghost armed_fail: { (disk : Self) (i : ℕ) → IfSome (stop_after (device disk).arming i) (λ bytes. planned disk i ≡ Some bytes) };
}

/// A disk of which no call is planned to fail but those that it is armed to fail.
pub trait SteadyDisk: Disk {
    ghost steady: { (disk : Self) (i : ℕ) → Self.planned disk i ≡ stop_after (Self.device disk).arming i };
}
