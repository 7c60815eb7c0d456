ghost use Rattle.std.specs.Prelude.{◌≡◌, ◌+◌, ◌<◌, ◌≤◌, [], None, IsSome, length, take, true, false, IfOk, OnOk, OnErr};

use crate::cells::{self, Cell};
use crate::{DeviceFailed, Disk, SteadyDisk};
use std::alloc::Global;

/// When a call settles the file and fails, and each one after it fails.
#[derive(Clone, Copy)]
enum Stop {
    /// No call does.
    Never,
    /// After so many calls.
    After(u64),
    /// It did.
    Now,
}

/// A disk in memory. It can be cut: where a call fails, it settles the file.
#[derive(Drop)]
pub struct MemDisk {
    cells: Vec<Cell>,
    stop: Stop,
    bytes: Vec<u8>,
    failures: u64,
}

impl MemDisk {
    ghost use Rattle.disk.specs.Device.{Failed, Unarmed, armed_bytes, passed, stop_after};
    ghost use Rattle.disk.specs.File.{bytes_of, synced, written_file};
    ghost use Rattle.disk.specs.Memory.{counting, device_of, failing, settling};

    /// An empty file; takes no memory.
    pub fn new(alloc: Global) -> MemDisk
        ensures { ⟦<MemDisk as Disk>⟧.device result ≡ record {
          file = [];
          arming = Unarmed;
          failures = 0;
          can_cut = true;
        } }
    {
        MemDisk {
            cells: Vec::new(alloc),
            stop: Stop::Never,
            bytes: Vec::new(alloc),
            failures: 0,
        }
    }

    // Settles the file by the armed bytes, if any.
    fn settle(&mut self)
        ensures { device_of self.new ≡ settling (device_of self.old) (armed_bytes (device_of self.old).arming) }
    {
        match self.stop {
            Stop::After(_) => cells::settle(&mut self.cells, &self.bytes),
            Stop::Never | Stop::Now => cells::settle(&mut self.cells, &[]),
        }
    }

    // Counts a failed call.
    fn count(&mut self) -> DeviceFailed
        ensures { device_of self.new ≡ counting (device_of self.old) }
    {
        self.failures = self.failures.wrapping_add(1);
        DeviceFailed
    }

    /// A call that fails and settles the file by these bytes.
    pub(crate) fn fail(&mut self, bytes: &[u8]) -> DeviceFailed
        ensures { device_of self.new ≡ failing (device_of self.old) bytes.now }
    {
        cells::settle(&mut self.cells, bytes);
        self.count()
    }

    // A call that fails and settles the file by the armed bytes, if any.
    fn give_up(&mut self) -> DeviceFailed
        ensures { device_of self.new ≡ failing (device_of self.old) (armed_bytes (device_of self.old).arming) }
    {
        self.settle();
        self.count()
    }

    /// Lets a call pass, or fails it.
    pub(crate) fn admit(&mut self) -> Result<(), DeviceFailed>
        ensures ok { OnOk result (device_of self.new ≡ passed (device_of self.old) (device_of self.old).file) }
        ensures passes { OnOk result (stop_after (device_of self.old).arming 0 ≡ None) }
        ensures err { OnErr result (Failed (device_of self.old) (device_of self.new)
            (stop_after (device_of self.old).arming 0)) }
        ensures stops { OnErr result (IsSome (stop_after (device_of self.old).arming 0)) }
    {
        match self.stop {
            Stop::Never => Ok(()),
            Stop::After(0) => {
                let failed = self.give_up();
                self.stop = Stop::Now;
                Err(failed)
            }
            Stop::After(calls) => {
                self.stop = Stop::After(calls - 1);
                Ok(())
            }
            Stop::Now => Err(self.give_up()),
        }
    }

    /// `read`, of a call that passes.
    pub(crate) fn read_now(&mut self, alloc: Global, most: usize) -> Result<Vec<u8>, DeviceFailed>
        ensures bytes { IfOk result (λ bytes. bytes.items ≡ take most (bytes_of (device_of self.old).file)) }
        ensures ok { OnOk result (device_of self.new ≡ device_of self.old) }
        ensures err { OnErr result (device_of self.new ≡ failing (device_of self.old)
            (armed_bytes (device_of self.old).arming)) }
        ensures cause { OnErr result (0 < most × 0 < length (device_of self.old).file) }
    {
        match cells::read(alloc, &self.cells, most) {
            Ok(bytes) => Ok(bytes),
            Err(_) => Err(self.give_up()),
        }
    }

    /// `write_at`, of a call that passes.
    pub(crate) fn write_now(&mut self, at: usize, bytes: &[u8]) -> Result<(), DeviceFailed>
        ensures place { OnOk result (at ≤ length (device_of self.old).file) }
        ensures ok { OnOk result (device_of self.new ≡ record (device_of self.old)
            { file = written_file (device_of self.old).file at bytes.now }) }
        ensures err { OnErr result (device_of self.new ≡ failing (device_of self.old)
            (armed_bytes (device_of self.old).arming)) }
        ensures cause { OnErr result (length (device_of self.old).file < at + length bytes.now) }
    {
        if at > self.cells.len() {
            return Err(self.give_up());
        }
        match cells::write(&mut self.cells, at, bytes) {
            Ok(()) => Ok(()),
            Err(_) => Err(self.give_up()),
        }
    }

    /// `cut`, of a call that passes.
    pub(crate) fn cut_now(&mut self, len: usize) -> Result<(), DeviceFailed>
        ensures place { OnOk result (len ≤ length (device_of self.old).file) }
        ensures ok { OnOk result (device_of self.new ≡ record (device_of self.old)
            { file = take len (device_of self.old).file }) }
        ensures err { OnErr result (device_of self.new ≡ failing (device_of self.old)
            (armed_bytes (device_of self.old).arming)) }
        ensures cause { OnErr result (length (device_of self.old).file < len) }
    {
        if len > self.cells.len() {
            return Err(self.give_up());
        }
        self.cells.truncate(len);
        Ok(())
    }

    /// `sync`, of a call that passes.
    pub(crate) fn sync_now(&mut self)
        ensures { device_of self.new ≡ record (device_of self.old) { file = synced (device_of self.old).file } }
    {
        cells::sync(&mut self.cells);
    }
}

impl Disk for MemDisk {
    ghost use Rattle.disk.specs.Device.{planned-alone, stop_after};
    ghost use Rattle.disk.specs.Memory.{cut_always, device_of};

    ghost device = { device_of };

    ghost planned = { λ m. stop_after (device_of m).arming };

    ghost lost = { λ m. false };

    ghost uncut_unarmed = { cut_always };

    ghost armed_fail = { λ m i. planned-alone (stop_after (device_of m).arming i) };

    fn read(&mut self, alloc: Global, most: usize) -> Result<Vec<u8>, DeviceFailed> {
        self.admit()?;
        self.read_now(alloc, most)
    }

    fn write_at(&mut self, at: usize, bytes: &[u8]) -> Result<(), DeviceFailed> {
        self.admit()?;
        self.write_now(at, bytes)
    }

    fn cut(&mut self, len: usize) -> Result<(), DeviceFailed> {
        self.admit()?;
        self.cut_now(len)
    }

    fn sync(&mut self) -> Result<(), DeviceFailed> {
        self.admit()?;
        self.sync_now();
        Ok(())
    }

    fn failures(&self) -> u64 {
        self.failures
    }

    fn can_cut(&self) -> bool {
        true
    }

    fn arm(&mut self, calls: u64, bytes: Vec<u8>) {
        if let Stop::Now = self.stop {
            return;
        }
        self.stop = Stop::After(calls);
        self.bytes = bytes;
    }

    fn crash(&mut self) {
        self.settle();
        self.stop = Stop::Never;
    }
}

impl SteadyDisk for MemDisk {
    ghost use Rattle.std.specs.Prelude.{refl};

    ghost steady = { λ m i. refl };
}
