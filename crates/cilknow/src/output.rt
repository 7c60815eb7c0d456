//! Files to which an answer is written once it is there.

use std::fs::{self, File, OpenOptions};
use std::io::{self, Write};
use std::os::unix::fs::MetadataExt;
use std::rt::Files;

/// A file that is open for an answer. It is as it was before that is written, and empty where it
/// was made for it.
#[derive(Drop)]
pub struct Output {
    file: File,
    is_new: bool,
}

impl Output {
    /// Opens a file, which is made where it is missing.
    pub fn open<R: Files<File = File>>(rt: &R, path: &str) -> io::Result<Output> {
        match OpenOptions::new().write(true).open(rt, path) {
            Ok(file) => Ok(Output {
                file,
                is_new: false,
            }),
            Err(e) if e.kind() == io::ErrorKind::NotFound => Output::make(rt, path),
            Err(e) => Err(e),
        }
    }

    /// Makes a file. What a link leads to is no new one, since the link stays when it is taken
    /// away.
    fn make<R: Files<File = File>>(rt: &R, path: &str) -> io::Result<Output> {
        match OpenOptions::new()
            .write(true)
            .create_new(true)
            .open(rt, path)
        {
            Ok(file) => Ok(Output { file, is_new: true }),
            Err(e) if e.kind() == io::ErrorKind::AlreadyExists => {
                let file = OpenOptions::new().write(true).create(true).open(rt, path)?;
                Ok(Output {
                    file,
                    is_new: false,
                })
            }
            Err(e) => Err(e),
        }
    }

    /// Writes the answer, in the place of what was in the file.
    pub fn write(&mut self, bytes: &[u8]) -> io::Result<()> {
        if self.file.metadata()?.is_file() {
            self.file.set_len(0)?;
        }
        self.file.write_all(bytes)
    }

    /// There is no answer: a file that was made for it is taken away, if its name still is that
    /// file's.
    pub fn give_up<R: Files<File = File>>(self, rt: &R, path: &str) {
        if !self.is_new {
            return;
        }
        let (Ok(made), Ok(named)) = (self.file.metadata(), fs::symlink_metadata(rt, path)) else {
            return;
        };
        if made.dev() == named.dev() && made.ino() == named.ino() {
            let _ = fs::remove_file(rt, path);
        }
    }
}
