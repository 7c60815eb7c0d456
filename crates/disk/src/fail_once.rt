ghost use Rattle.std.specs.Prelude.{◌≡◌, ◌<◌, ℕ, suc, Option, None, IsSome, true, false, OnOk, OnErr};

use crate::{DeviceFailed, Disk, MemDisk};
use std::alloc::Global;

/// A disk in memory of which one chosen call fails, and which then goes on: for tests of what
/// stands on a disk. What is armed stays so.
#[derive(Drop)]
pub struct FailOnce {
    inner: MemDisk,
    // How many calls come before the chosen one; none where it has come.
    chosen: Option<u64>,
    bytes: Vec<u8>,
}

impl FailOnce {
    ghost use Rattle.disk.specs.Device.{Failed, and_once, once_after, passed};
    ghost use Rattle.disk.specs.Memory.{device_of, planned_of};

    /// The call after so many others fails and settles the file by these bytes, unless the disk is
    /// armed to fail it.
    pub fn new(inner: MemDisk, calls: u64, bytes: Vec<u8>) -> FailOnce
        ensures device { ⟦<FailOnce as Disk>⟧.device result ≡ ⟦<MemDisk as Disk>⟧.device inner }
        ensures planned { (i : ℕ) → ⟦<FailOnce as Disk>⟧.planned result i
            ≡ and_once (⟦<MemDisk as Disk>⟧.planned inner i) (once_after (Some calls) bytes.items i) }
    {
        FailOnce {
            inner,
            chosen: Some(calls),
            bytes,
        }
    }

    // Counts a call. Answers whether it is the chosen one.
    fn count_down(&mut self) -> bool
        ensures inner { self.new.inner ≡ self.old.inner }
        ensures bytes { self.new.bytes ≡ self.old.bytes }
        ensures chosen { result ≡ true → self.old.chosen ≡ Some 0 }
        ensures other { result ≡ false → once_after self.old.chosen self.old.bytes.items 0 ≡ None }
        ensures plan { (i : ℕ) → once_after self.new.chosen self.old.bytes.items i
            ≡ once_after self.old.chosen self.old.bytes.items (suc i) }
    {
        match self.chosen {
            None => false,
            Some(0) => {
                self.chosen = None;
                true
            }
            Some(calls) => {
                self.chosen = Some(calls - 1);
                false
            }
        }
    }

    // Lets a call pass, or fails it.
    fn admit(&mut self) -> Result<(), DeviceFailed>
        ensures ok { OnOk result (device_of self.new.inner
            ≡ passed (device_of self.old.inner) (device_of self.old.inner).file) }
        ensures passes { OnOk result (planned_of self.old 0 ≡ None) }
        ensures err { OnErr result (Failed (device_of self.old.inner) (device_of self.new.inner)
            (planned_of self.old 0)) }
        ensures stops { OnErr result (IsSome (planned_of self.old 0)) }
        ensures plan { (i : ℕ) → once_after self.new.chosen self.new.bytes.items i
            ≡ once_after self.old.chosen self.old.bytes.items (suc i) }
    {
        let is_chosen = self.count_down();
        self.inner.admit()?;
        if is_chosen {
            return Err(self.inner.fail(&self.bytes));
        }
        Ok(())
    }
}

impl Disk for FailOnce {
    ghost use Rattle.disk.specs.Memory.{cut_always, device_of, planned_of};
    ghost use Rattle.disk.specs.Device.{and_once-first};

    ghost device = { λ m. device_of m.inner };

    ghost planned = { planned_of };

    ghost lost = { λ m. false };

    ghost uncut_unarmed = { λ m e. cut_always m.inner e };

    ghost armed_fail = { λ m i. and_once-first _ _ };

    fn read(&mut self, alloc: Global, most: usize) -> Result<Vec<u8>, DeviceFailed> {
        self.admit()?;
        self.inner.read_now(alloc, most)
    }

    fn write_at(&mut self, at: usize, bytes: &[u8]) -> Result<(), DeviceFailed> {
        self.admit()?;
        self.inner.write_now(at, bytes)
    }

    fn cut(&mut self, len: usize) -> Result<(), DeviceFailed> {
        self.admit()?;
        self.inner.cut_now(len)
    }

    fn sync(&mut self) -> Result<(), DeviceFailed> {
        self.admit()?;
        self.inner.sync_now();
        Ok(())
    }

    fn failures(&self) -> u64 {
        self.inner.failures()
    }

    fn can_cut(&self) -> bool {
        self.inner.can_cut()
    }

    fn arm(&mut self, calls: u64, bytes: Vec<u8>) {
        self.inner.arm(calls, bytes);
    }

    fn crash(&mut self) {
        self.inner.crash();
    }
}
