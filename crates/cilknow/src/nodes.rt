//! Runs on nodes, whose progress is told on a terminal.

use chronicle::Trace;
use disk::FileDisk;
use node_runner::{Gate, Open, Ran, RunConfig, RunError, run_job};
use progress::{RunProgress, tell};
use serial_meaning::{Job, Outcome};
use std::fs::File;
use std::io::{IsTerminal, Stderr};
use std::sync::Wait;
use std::thread::{Threads, join};
use std::time::Clock;
use world_steps::FirstDisk;

/// The gate that is always open, and notes how far a run has come.
#[derive(Drop)]
struct Noting<'p> {
    progress: &'p RunProgress,
}

impl<'p> Gate for Noting<'p> {
    fn begun(&self, _body: u64) {}

    fn may_go(&self, _body: u64) -> bool {
        true
    }

    fn passed(&self, events: u64, packets: u64) {
        self.progress.note(events, packets);
    }
}

/// The disk over which a run begins: the file of its store, or, where none is named, one in memory.
#[derive(Drop)]
pub enum RunDisk<'a> {
    File(FirstDisk<'a, FileDisk<File>>),
    Memory,
}

/// What a run came to: its outcome, and its trace. Of an outcome that was kept before there is no
/// trace.
#[derive(Drop)]
pub struct Ended {
    pub outcome: Outcome,
    pub trace: Option<Trace>,
}

/// What is left of a run once its disk isn't needed any more.
fn without_disk<D: Drop>(ran: Ran<D>) -> Ended {
    let Ran { outcome, trace, .. } = ran;
    Ended {
        outcome,
        trace: Some(trace),
    }
}

/// A job is run by nodes on threads under a gate, over a disk.
fn ran_under<'a, R: Threads + AllocGlobal + Wait + Clock + Sync, G: Gate + Sync>(
    rt: &R,
    job: &'a Job,
    config: &RunConfig,
    disk: RunDisk<'a>,
    gate: &G,
) -> Result<Ended, RunError> {
    let alloc = rt.alloc();
    match disk {
        RunDisk::File(first) => Ok(without_disk(run_job(rt, alloc, first, config, gate)?)),
        RunDisk::Memory => match FirstDisk::formatted(alloc, job) {
            Ok(first) => Ok(without_disk(run_job(rt, alloc, first, config, gate)?)),
            Err(_) => Err(RunError::Memory),
        },
    }
}

/// A job is run so, and how far that has come is noted, to its end.
fn ran_noted<'a, R: Threads + AllocGlobal + Wait + Clock + Sync>(
    rt: &R,
    job: &'a Job,
    config: &RunConfig,
    disk: RunDisk<'a>,
    progress: &RunProgress,
) -> Result<Ended, RunError> {
    let ran = ran_under(rt, job, config, disk, &Noting { progress });
    progress.end();
    ran
}

/// A job is run by nodes on threads over a disk. Where standard error is a terminal and the run
/// takes long, how far it has come is told there.
pub fn ran_on_nodes<'a, R: Threads + AllocGlobal + Wait + Clock + Sync>(
    rt: &R,
    job: &'a Job,
    config: &RunConfig,
    disk: RunDisk<'a>,
    err: &mut Stderr,
) -> Result<Ended, RunError> {
    if !err.is_terminal() {
        return ran_under(rt, job, config, disk, &Open);
    }
    let progress = RunProgress::new();
    let shared = &progress;
    // (where no second thread can be made, the first closure is called last: then the run has
    // ended, and nothing is told)
    let (_, ran) = join(
        rt,
        || tell(rt, err, shared),
        || ran_noted(rt, job, config, disk, shared),
    );
    ran
}
