//! The file of a transcript, and files that fail.

use crate::shown::{MOST_SHOWN, bytes_in};
use play_packets::write_bytes;
use play_words::{Answers, CommandLine};
use std::alloc::Global;
use std::cell::Cell;
use std::env;
use std::fs::{self, File, Metadata, OpenFile};
use std::io::{self, ErrorKind};
use std::os::unix::fs::FileExt;
use std::path::{Path, PathBuf};
use std::rt::{Env, Files};

/// How many names are tried for a file.
const NAMES: u32 = 1_000;

/// The path of a name that is tried.
fn path_of(alloc: Global, folder: Path<'_>, number: u32) -> io::Result<PathBuf> {
    let name = format!(in alloc; "transcript-{number}")?;
    Ok(folder.join(alloc, name.as_str())?)
}

/// A new file, whose name is removed at once; none where there is one of this name.
fn opened<R: Files<File = File>>(rt: &R, path: Path<'_>) -> io::Result<Option<File>> {
    match File::create_new(rt, path) {
        Ok(file) => match fs::remove_file(rt, path) {
            Ok(()) => Ok(Some(file)),
            Err(error) => Err(error),
        },
        Err(error) if error.kind() == ErrorKind::AlreadyExists => Ok(None),
        Err(error) => Err(error),
    }
}

/// A new file among those that are kept for a while, open for reading and writing.
fn nameless<R: Env + Files<File = File> + AllocGlobal>(rt: &R) -> io::Result<File> {
    let folder = env::temp_dir(rt)?;
    for number in 0..NAMES {
        let path = path_of(rt.alloc(), folder.as_path(), number)?;
        if let Some(file) = opened(rt, path.as_path())? {
            return Ok(file);
        }
    }
    Err(io::Error::from(ErrorKind::AlreadyExists))
}

/// All bytes of a file.
fn content(alloc: Global, file: &File) -> io::Result<Vec<u8>> {
    let Ok(length) = usize::try_from(file.metadata()?.len()) else {
        return Err(io::Error::from(ErrorKind::OutOfMemory));
    };
    let mut bytes = vec![in alloc; 0u8; length]?;
    file.read_exact_at(&mut bytes, 0)?;
    Ok(bytes)
}

/// Writes bytes into a file.
fn put(file: &File, at: u64, bytes: &[u8], out: &mut Answers) {
    if let Err(error) = file.write_all_at(bytes, at) {
        out.fail(&error);
    }
}

/// Makes the file of a transcript, with these bytes.
fn made<R: Env + Files<File = File> + AllocGlobal>(
    rt: &R,
    bytes: &[u8],
    out: &mut Answers,
) -> Option<File> {
    match nameless(rt) {
        Ok(file) => {
            put(&file, 0, bytes, out);
            Some(file)
        }
        Err(error) => {
            out.fail(&error);
            None
        }
    }
}

/// Shows the bytes of a file.
fn read(alloc: Global, file: &File, out: &mut Answers) {
    match content(alloc, file) {
        Ok(bytes) => write_bytes(out, &bytes, MOST_SHOWN),
        Err(error) => out.fail(&error),
    }
}

/// Plays a command on the file that is there.
fn play_made(file: &File, alloc: Global, line: &CommandLine<'_>, out: &mut Answers) -> Option<()> {
    match line.word(1)? {
        "read" => {
            read(alloc, file, out);
            Some(())
        }
        "write" => {
            let at = line.number(2)?;
            let bytes = bytes_in(alloc, line, 3, out)?;
            put(file, at, &bytes, out);
            Some(())
        }
        _ => None,
    }
}

/// Plays a command on the file of a transcript.
pub fn play_file<R: Env + Files<File = File> + AllocGlobal>(
    kept: &mut Option<File>,
    rt: &R,
    line: &CommandLine<'_>,
    out: &mut Answers,
) -> Option<()> {
    if line.word(1) == Some("new") {
        let bytes = bytes_in(rt.alloc(), line, 2, out)?;
        *kept = made(rt, &bytes, out);
        return Some(());
    }
    match &*kept {
        Some(file) => play_made(file, rt.alloc(), line, out),
        None => None,
    }
}

/// A file that takes all bytes and gives none. Of its calls one fails, the one after so many
/// others.
pub struct FailingFile {
    calls: Cell<u64>,
}

impl Drop for FailingFile {
    fn drop(self) {
        let FailingFile { calls: _ } = self;
    }
}

impl FailingFile {
    /// One of which so many calls pass and the next one fails.
    pub fn after(calls: u64) -> FailingFile {
        FailingFile {
            calls: Cell::new(calls),
        }
    }

    fn pass(&self) -> io::Result<()> {
        let calls = self.calls.get();
        self.calls.set(calls.wrapping_sub(1));
        if calls == 0 {
            Err(io::Error::from(ErrorKind::Other))
        } else {
            Ok(())
        }
    }
}

impl FileExt for FailingFile {
    fn read_at(&self, _buf: &mut [u8], _offset: u64) -> io::Result<usize> {
        self.pass()?;
        Ok(0)
    }

    fn write_at(&self, buf: &[u8], _offset: u64) -> io::Result<usize> {
        self.pass()?;
        Ok(buf.len())
    }
}

impl OpenFile for FailingFile {
    fn metadata(&self) -> io::Result<Metadata> {
        Err(io::Error::from(ErrorKind::Unsupported))
    }

    fn set_len(&self, _size: u64) -> io::Result<()> {
        self.pass()
    }

    fn sync_all(&self) -> io::Result<()> {
        self.pass()
    }

    fn sync_data(&self) -> io::Result<()> {
        self.pass()
    }
}
