//! The file of a store.

use crate::command::CommandFault;
use crate::failure::Failure;
use crate::whose::{is_ours, is_said, write_beside};
use checkpoint::{Info, StoreError, format_small, inspect};
use command_line::{Place, beside_of, folder_of};
use disk::{Disk, FileDisk};
use job_line::line_of;
use node_runner::RunError;
use serial_meaning::Job;
use std::alloc::Global;
use std::fs::{self, File, OpenOptions};
use std::io::{self, Write};
use std::rt::Files;
use world_steps::{FirstDisk, Found};

/// Opens the store of a job in a file, which is made where it is missing or empty, and which no
/// other run can open until this one ends. The text is the one of the job's program. Before a store
/// is made, the file beside it says whose it is; where that is missing beside another store, this
/// is told on `err`. What is found is the job's outcome, or that a run can begin over the file.
///
/// A fault of a file where one of both can't be opened, or another run has the store; E62 and E70
/// to E73, as `FirstDisk::found` says; and E70 where the file beside the store names another
/// program or input, E71 where it names none, also where there is no store yet. But for E72 a store
/// that is refused isn't written to; nor is a file of another kind.
pub fn found_in<'a, R: Files<File = File> + AllocGlobal, E: Write>(
    rt: &R,
    path: &str,
    job: &'a Job,
    text: &[u8],
    err: &mut E,
) -> Result<Found<'a, FileDisk<File>>, Failure> {
    let alloc = rt.alloc();
    let line = line_of(alloc, job, text)?;
    let beside = beside_of(alloc, path)?;
    is_ours(rt, beside.as_str())?;
    let mut disk = own_disk(rt, path)?;
    if is_empty(alloc, &mut disk)? {
        make_beside(rt, path, beside.as_str(), line.as_slice())?;
        format_small(&mut disk, job.number()).map_err(refused)?;
        return found(alloc, disk, job);
    }
    // (an opening may write, so what is refused is refused before it)
    inspect(alloc, &mut disk).map_err(refused)?;
    let is_said = is_said(rt, beside.as_str(), line.as_slice())?;
    let found = found(alloc, disk, job)?;
    if !is_said {
        let _ = writeln!(err, "cilknow: {path} doesn't say whose it is");
    }
    Ok(found)
}

/// What the store in a file keeps. A fault of a file where it can't be read; else E71 to E73, as
/// `checkpoint::inspect` says.
pub fn info_in<R: Files<File = File> + AllocGlobal>(rt: &R, path: &str) -> Result<Info, Failure> {
    let alloc = rt.alloc();
    let mut disk = shown_disk(rt, path).map_err(store_fault)?;
    inspect(alloc, &mut disk).map_err(refused)
}

/// A disk over a file that is to be shown. Of what is no file nothing is awaited.
fn shown_disk<R: Files<File = File> + AllocGlobal>(
    rt: &R,
    path: &str,
) -> io::Result<FileDisk<File>> {
    let metadata = fs::metadata(rt, path)?;
    if metadata.is_dir() {
        return Err(io::Error::from(io::ErrorKind::IsADirectory));
    }
    if !metadata.is_file() {
        return Err(io::Error::new(io::ErrorKind::InvalidInput, "no regular file"));
    }
    FileDisk::new(rt.alloc(), fs::open(rt, path)?)
}

/// A disk over a file that is this run's alone.
fn own_disk<R: Files<File = File> + AllocGlobal>(
    rt: &R,
    path: &str,
) -> Result<FileDisk<File>, Failure> {
    let file = own_file(rt, path).map_err(store_fault)?;
    FileDisk::new(rt.alloc(), file).map_err(store_fault)
}

/// A file for reading and writing that is this run's alone. It is made where it is missing, in a
/// folder that can be opened.
fn own_file<R: Files<File = File>>(rt: &R, path: &str) -> io::Result<File> {
    let file = match options().open(rt, path) {
        Err(e) if e.kind() == io::ErrorKind::NotFound => {
            fs::open(rt, folder_of(path))?;
            options().create(true).open(rt, path)?
        }
        opened => opened?,
    };
    file.try_lock()?;
    Ok(file)
}

fn options() -> OpenOptions {
    let mut options = OpenOptions::new();
    options.read(true).write(true);
    options
}

/// Whether there is no store yet.
fn is_empty(alloc: Global, disk: &mut FileDisk<File>) -> Result<bool, Failure> {
    match disk.read(alloc, 1) {
        Ok(first) => Ok(first.is_empty()),
        Err(_) => Err(refused(StoreError::Device)),
    }
}

/// Makes the file beside a store. Both names are in their folder for good then.
fn make_beside<R: Files<File = File>>(
    rt: &R,
    path: &str,
    beside: &str,
    line: &[u8],
) -> Result<(), Failure> {
    write_beside(rt, beside, line).map_err(|e| Failure::file(Place::Beside, e))?;
    sync_folder(rt, folder_of(path)).map_err(store_fault)
}

fn sync_folder<R: Files<File = File>>(rt: &R, folder: &str) -> io::Result<()> {
    fs::open(rt, folder)?.sync_all()
}

/// What a disk holds of a job, whose store is made where it is empty.
fn found<'a>(
    alloc: Global,
    disk: FileDisk<File>,
    job: &'a Job,
) -> Result<Found<'a, FileDisk<File>>, Failure> {
    match FirstDisk::found(alloc, job, disk) {
        Ok(found) => Ok(found),
        Err((fault, _)) => Err(refused(fault)),
    }
}

fn store_fault(error: io::Error) -> Failure {
    Failure::file(Place::Store, error)
}

fn refused(fault: StoreError) -> Failure {
    Failure::from(CommandFault::Nodes(RunError::Disk(fault.number())))
}
