//! A disk over a file of the system. What a file holds is no matter of proof: the contracts speak
//! of the bytes that this process read and wrote, and each read is held against them.
ghost use Rattle.std.specs.Prelude.{◌≡◌, ◌+◌, ◌%◌, ◌^◌, ◌<◌, ◌≤◌, None, IsTrue, false, not, length, IfOk, refl};

use crate::cells::{self, Cell};
use crate::{DeviceFailed, Disk, SteadyDisk};
use std::alloc::Global;
use std::fs::OpenFile;
use std::io;
use std::os::unix::fs::FileExt;

/// Of a longer file these first bytes are the content: more than a checkpoint has.
const MOST: usize = 8192;

/// A disk over an open file. It can't be cut.
///
/// Its content is at most the first 8,192 bytes of the file: what stands behind them is never read,
/// and a write that would end behind them fails. A read that doesn't give what was read and written
/// before fails. After a call that failed, for whatever reason, each call fails: what the file then
/// holds is for whoever opens it anew to find.
#[derive(Drop)]
pub struct FileDisk<F> {
    file: F,
    cells: Vec<Cell>,
    usable: bool,
    failures: u64,

    // What a write leaves ends within the first bytes, so no write ends behind them.
    ghost within: { length cells.items ≤ 8192 },
}

// The first bytes of a file, at most so many.
fn first_bytes<F: FileExt>(alloc: Global, file: &F, most: usize) -> io::Result<Vec<u8>>
    ensures { IfOk result (λ bytes. length bytes.items ≤ most) }
{
    let mut bytes = vec![in alloc; 0u8; most]?;
    let mut at = 0;
    for _ in 0..u64::MAX {
        match file.read_at(&mut bytes[at..], at as u64) {
            Ok(0) => break,
            Ok(n) => at += n,
            Err(e) if e.kind() == io::ErrorKind::Interrupted => {}
            Err(e) => return Err(e),
        }
    }
    bytes.truncate(at);
    Ok(bytes)
}

// Whether a file has these first bytes, and no others among so many.
fn has_first<F: FileExt>(alloc: Global, file: &F, known: &[u8], most: usize) -> bool {
    match first_bytes(alloc, file, most.min(known.len() + 1)) {
        Ok(bytes) => bytes.as_slice() == known,
        Err(_) => false,
    }
}

// Cuts a file, and has that on the disk.
fn set_len<F: OpenFile>(file: &F, len: u64) -> io::Result<()> {
    file.set_len(len)?;
    file.sync_all()
}

impl<F: FileExt + OpenFile + Drop> FileDisk<F> {
    ghost use Rattle.disk.specs.Crash.{Only};
    ghost use Rattle.disk.specs.Device.{Unarmed};
    ghost use Rattle.disk.specs.File.{CrashLeaves, bytes_of, synced};

    /// Over a file that is open for reading and writing, which it syncs and reads. The entry of a
    /// new file in its folder is for the caller to sync.
    pub fn new(alloc: Global, file: F) -> io::Result<FileDisk<F>>
        ensures durable { IfOk result (λ disk. Only (bytes_of (⟦<FileDisk<F> as Disk>⟧.device disk).file)
            (CrashLeaves (⟦<FileDisk<F> as Disk>⟧.device disk).file)) }
        ensures unarmed { IfOk result (λ disk. (⟦<FileDisk<F> as Disk>⟧.device disk).arming ≡ Unarmed) }
        ensures failures { IfOk result (λ disk. (⟦<FileDisk<F> as Disk>⟧.device disk).failures ≡ 0) }
        ensures uncut { IfOk result (λ disk. (⟦<FileDisk<F> as Disk>⟧.device disk).can_cut ≡ false) }
        ensures within { IfOk result (λ disk. length (⟦<FileDisk<F> as Disk>⟧.device disk).file ≤ 8192) }
    {
        file.sync_all()?;
        let bytes = first_bytes(alloc, &file, MOST)?;
        let mut cells = Vec::new(alloc);
        cells::write(&mut cells, 0, &bytes)?;
        cells::sync(&mut cells);
        Ok(FileDisk {
            file,
            cells,
            usable: true,
            failures: 0,
        })
    }

    // Counts a failed call, after which each call is to fail: so nothing is read any more of what
    // the file is settled to.
    fn give_up(&mut self) -> DeviceFailed
        ensures cells { self.new.cells.items ≡ synced self.old.cells.items }
        ensures failures { self.new.failures ≡ (self.old.failures + 1) % 2 ^ 64 }
        ensures lost { self.new.usable ≡ false }
    {
        self.usable = false;
        cells::sync(&mut self.cells);
        self.failures = self.failures.wrapping_add(1);
        DeviceFailed
    }

    // Whether so many bytes may be written at a place: not behind the end, and within the first
    // bytes that are the content.
    fn can_write(&self, at: usize, len: usize) -> bool
        ensures place { IsTrue result → at ≤ length self.now.cells.items }
        ensures within { IsTrue result → at + len ≤ MOST }
        ensures usable { IsTrue result → not self.now.usable ≡ false }
    {
        self.usable && at <= self.cells.len() && at <= MOST && len <= MOST - at
    }
}

impl<F: FileExt + OpenFile + Drop> Disk for FileDisk<F> {
    ghost use Rattle.disk.specs.Device.{Unarmed};

    ghost device = { λ m. record { file = m.cells.items; arming = Unarmed; failures = m.failures; can_cut = false } };

    ghost planned = { λ m i. None };

    ghost lost = { λ m. not m.usable };

    ghost uncut_unarmed = { λ m _. refl };

    ghost armed_fail = { λ m i. tt };

    fn read(&mut self, alloc: Global, most: usize) -> Result<Vec<u8>, DeviceFailed> {
        match cells::read(alloc, &self.cells, most) {
            Ok(known) if self.usable && has_first(alloc, &self.file, &known, most) => Ok(known),
            _ => Err(self.give_up()),
        }
    }

    fn write_at(&mut self, at: usize, bytes: &[u8]) -> Result<(), DeviceFailed> {
        if !self.can_write(at, bytes.len()) {
            return Err(self.give_up());
        }
        if cells::write(&mut self.cells, at, bytes).is_err() {
            return Err(self.give_up());
        }
        match self.file.write_all_at(bytes, at as u64) {
            Ok(()) => Ok(()),
            Err(_) => Err(self.give_up()),
        }
    }

    fn cut(&mut self, len: usize) -> Result<(), DeviceFailed> {
        if !self.usable {
            return Err(self.give_up());
        }
        if len > self.cells.len() {
            return Err(self.give_up());
        }
        if set_len(&self.file, len as u64).is_err() {
            return Err(self.give_up());
        }
        self.cells.truncate(len);
        Ok(())
    }

    fn sync(&mut self) -> Result<(), DeviceFailed> {
        if !self.usable || self.file.sync_all().is_err() {
            return Err(self.give_up());
        }
        cells::sync(&mut self.cells);
        Ok(())
    }

    fn failures(&self) -> u64 {
        self.failures
    }

    fn can_cut(&self) -> bool {
        false
    }

    fn arm(&mut self, _calls: u64, _bytes: Vec<u8>) {}

    fn crash(&mut self) {}
}

impl<F: FileExt + OpenFile + Drop> SteadyDisk for FileDisk<F> {
    ghost use Rattle.std.specs.Prelude.{refl};

    ghost steady = { λ m i. refl };
}
