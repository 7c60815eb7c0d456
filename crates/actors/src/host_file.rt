//! A file that a host keeps.
//!
//! An actor does no input or output. So the clearinghouse's disk is over a copy of the file's
//! content, and what is done to it waits for the host, which does the same to the file, call by
//! call, before it takes the packets that came with it: then what a crash leaves of the file is
//! what a crash may leave of the disk. Where one of these calls fails, the host lets the actor go,
//! as by a crash.
ghost use Rattle.std.specs.Prelude.{◌≡◌, ◌≤◌, IfOk, length};

use std::alloc::{AllocError, Global};
use std::cell::RefCell;
use std::fs::{Metadata, OpenFile};
use std::io;
use std::os::unix::fs::FileExt;
use std::rc::Rc;

/// What is to be done to a file.
#[derive(Drop)]
enum FileCall {
    /// These bytes are written at this offset, at most the file's length.
    Write(u64, Vec<u8>),
    /// The file is cut to this length, or made as long with zeros.
    SetLen(u64),
    /// All that was written is on the disk for good.
    Sync,
}

/// How many bytes of a call as it is given stand before those that are written.
const HEAD: usize = 9;

impl FileCall {
    /// Copies it to the beginning of a buffer that is long enough. How many bytes it has.
    fn copy_to(&self, buffer: &mut [u8]) -> usize
        ensures { length buffer.new ≡ length buffer.old }
    {
        let (kind, number, bytes): (u8, u64, &[u8]) = match self {
            FileCall::Write(at, bytes) => (1, *at, bytes.as_slice()),
            FileCall::SetLen(len) => (2, *len, &[]),
            FileCall::Sync => (3, 0, &[]),
        };
        let count = bytes.len().saturating_add(HEAD);
        if count <= buffer.len() {
            buffer[0] = kind;
            buffer[1..HEAD].copy_from_slice(&number.to_be_bytes());
            buffer[HEAD..count].copy_from_slice(bytes);
        }
        count
    }
}

/// The content, and what was done to it and waits, in its order.
#[derive(Drop)]
struct Kept {
    alloc: Global,
    bytes: Vec<u8>,
    calls: Vec<FileCall>,
}

/// The file of a host, as its actor has it.
#[derive(Drop)]
pub struct HostFile {
    kept: Rc<RefCell<Kept>>,
}

/// What waits to be done to the file of a host.
#[derive(Drop)]
pub struct FileCalls {
    kept: Rc<RefCell<Kept>>,
}

impl HostFile {
    /// A file of this content; nothing waits.
    pub fn new(alloc: Global, content: &[u8]) -> Result<(HostFile, FileCalls), AllocError> {
        let kept = Kept {
            alloc,
            bytes: Vec::from_slice(alloc, content)?,
            calls: Vec::new(alloc),
        };
        let Ok(kept) = Rc::new(alloc, RefCell::new(kept)) else {
            return Err(AllocError);
        };
        let calls = FileCalls {
            kept: kept.clone()?,
        };
        Ok((HostFile { kept }, calls))
    }
}

impl FileCalls {
    /// Copies the first call that waits to the beginning of a buffer that is long enough, and it
    /// waits no longer: one byte, 1 for bytes that are written, 2 for a new length, 3 for a sync;
    /// then eight, the highest first, the offset or the new length; then the bytes. How many bytes
    /// that has; 0 where none waits.
    pub fn give(&self, buffer: &mut [u8]) -> usize
        ensures { length buffer.new ≡ length buffer.old }
    {
        let Ok(mut kept) = self.kept.as_ref().try_borrow_mut() else {
            return 0;
        };
        let Some(call) = kept.calls.first() else {
            return 0;
        };
        let count = call.copy_to(buffer);
        if count <= buffer.len() {
            let _ = kept.calls.remove(0);
        }
        count
    }

    /// Whether none waits.
    pub fn is_empty(&self) -> bool {
        match self.kept.as_ref().try_borrow() {
            Ok(kept) => kept.calls.is_empty(),
            Err(_) => false,
        }
    }
}

/// Nobody else has the file while one call is made, so none of these comes.
fn busy() -> io::Error {
    io::Error::from(io::ErrorKind::ResourceBusy)
}

fn no_memory() -> io::Error {
    io::Error::from(io::ErrorKind::OutOfMemory)
}

fn no_place() -> io::Error {
    io::Error::from(io::ErrorKind::InvalidInput)
}

impl Kept {
    /// Bytes come over those at an offset, and past the end.
    fn write(&mut self, at: usize, bytes: &[u8]) -> io::Result<()> {
        let Some(old) = self.bytes.len().checked_sub(at) else {
            return Err(no_place());
        };
        let within = old.min(bytes.len());
        let Ok(copy) = Vec::from_slice(self.alloc, bytes) else {
            return Err(no_memory());
        };
        if self.calls.reserve(1).is_err() || self.bytes.reserve(bytes.len() - within).is_err() {
            return Err(no_memory());
        }
        self.bytes[at..at + within].copy_from_slice(&bytes[..within]);
        for byte in &bytes[within..] {
            let _ = self.bytes.push(*byte);
        }
        let _ = self.calls.push(FileCall::Write(at as u64, copy));
        Ok(())
    }

    /// The content is cut, or gets zeros at its end.
    fn set_len(&mut self, len: usize) -> io::Result<()> {
        if self.calls.reserve(1).is_err() || self.bytes.resize(len, 0).is_err() {
            return Err(no_memory());
        }
        let _ = self.calls.push(FileCall::SetLen(len as u64));
        Ok(())
    }

    fn sync(&mut self) -> io::Result<()> {
        match self.calls.push(FileCall::Sync) {
            Ok(()) => Ok(()),
            Err(_) => Err(no_memory()),
        }
    }

    /// The bytes from an offset on, as many as there are and as a buffer has room for.
    fn read(&self, at: usize, buf: &mut [u8]) -> usize
        ensures room { length buf.new ≡ length buf.old }
        ensures few { result ≤ length buf.new }
    {
        let Some(left) = self.bytes.len().checked_sub(at) else {
            return 0;
        };
        let count = left.min(buf.len());
        buf[..count].copy_from_slice(&self.bytes[at..at + count]);
        count
    }
}

impl FileExt for HostFile {
    fn read_at(&self, buf: &mut [u8], offset: u64) -> io::Result<usize> {
        let Ok(at) = usize::try_from(offset) else {
            return Ok(0);
        };
        match self.kept.as_ref().try_borrow() {
            Ok(kept) => Ok(kept.read(at, buf)),
            Err(_) => Err(busy()),
        }
    }

    fn write_at(&self, buf: &[u8], offset: u64) -> io::Result<usize> {
        let Ok(at) = usize::try_from(offset) else {
            return Err(no_place());
        };
        let Ok(mut kept) = self.kept.as_ref().try_borrow_mut() else {
            return Err(busy());
        };
        kept.write(at, buf)?;
        Ok(buf.len())
    }
}

impl OpenFile for HostFile {
    fn metadata(&self) -> io::Result<Metadata> {
        Err(io::Error::from(io::ErrorKind::Unsupported))
    }

    fn set_len(&self, size: u64) -> io::Result<()> {
        let Ok(len) = usize::try_from(size) else {
            return Err(no_place());
        };
        match self.kept.as_ref().try_borrow_mut() {
            Ok(mut kept) => kept.set_len(len),
            Err(_) => Err(busy()),
        }
    }

    fn sync_all(&self) -> io::Result<()> {
        match self.kept.as_ref().try_borrow_mut() {
            Ok(mut kept) => kept.sync(),
            Err(_) => Err(busy()),
        }
    }

    fn sync_data(&self) -> io::Result<()> {
        self.sync_all()
    }
}
