ghost use Rattle.std.specs.Prelude.{◌≡◌, All, IfOk, Some, vec_len};
ghost use Rattle.world_steps.specs.Found.{IsKeptOf};
ghost use Rattle.chronicle.specs.Kept.{IsLeftBy};
ghost use Rattle.chronicle.specs.Seats.{IsSeatIn};
ghost use Rattle.node_runner.specs.Runs.{IsContextIn, IsRanOf, IsWorkerOf, KeepsOutcome, TakesOutcomesOf};

use crate::crew::{ActorContext, WorkerContext, contexts};
use crate::error::RunError;
use crate::house::run_house;
use crate::muster::{MOST_PATIENCE, PATIENCE, await_all, rest_long, threads_of};
use crate::node::run_node;
use crate::shared::Shared;
use crate::worker::run_worker;
use board::Board;
use checkpoint::StoreError;
use chronicle::{ActorSeat, Chronicle, Finished, Trace};
use disk::SteadyDisk;
use event_script::NodePlace;
use ids::Outcome;
use runner_parts::{Counts, End, Gate, Leavers, Pace, RunBells, RunConfig, can_make};
use serial_meaning::Job;
use start_words::WordTable;
use std::alloc::{AllocError, Global};
use std::sync::Wait;
use std::thread::{Threads, join, map_vec};
use std::time::Clock;
use world_steps::{FirstDisk, Found};

/// A run that ended with an outcome, and the disk on which its clearinghouse keeps that.
#[derive(Drop)]
pub struct Ran<D: Drop> {
    pub outcome: Outcome,
    pub trace: Trace,
    pub disk: D,
}

/// Runs a job over the disk with which its run begins, on as many nodes as the configuration says,
/// each on a thread of its own and with as many body workers as it says, each on another, with a
/// clearinghouse on one more, under the faults that it says. What was saved on the disk isn't done
/// again. The outcome is the job's meaning, where what was saved there agrees, as it does on a disk
/// that was formatted for the job, and then at each moment of a run over it. The trace is a safe
/// history of the job over the very disk that is given, and tells this outcome first; and the disk
/// that comes back is the one that this history leaves, read once more, and keeps the outcome,
/// whatever a crash leaves of it.
///
/// Refused as `TurnsSpent` (E95) where all turns were taken before there was an outcome, as
/// `Memory` (E96) where there is no memory or the system refuses a thread, and as `Disk` (E97)
/// where the clearinghouse can't go on, or the outcome isn't found on the disk: what that keeps is
/// then for whoever opens it anew to find.
///
/// Where a thread isn't there after half a second all end before anything is committed. Whether the
/// system makes as many is tried then, with threads that do nothing; and they are made anew and
/// waited for twice as long, up to two minutes each time: threads that are slow are waited for.
/// Each loop turn of an actor or a body worker counts as one, and so does each question to the
/// gate. Where 131,072 turns and more may be taken a thread takes several at once, at most 64, and
/// so fewer than one in a hundred may be left to threads that don't begin them.
pub fn run_job<'a, R: Threads + Wait + Clock + Sync, G: Gate + Sync, D: SteadyDisk + Drop + Send>(
    rt: &R,
    alloc: Global,
    first: FirstDisk<'a, D>,
    config: &RunConfig,
    gate: &G,
) -> Result<Ran<D>, RunError>
    ensures ran { IfOk result (IsRanOf D.device first.entry.job (D.device first.entry.disk)) }
    ensures kept { IfOk result (λ r. KeepsOutcome (D.device r.disk).file first.entry.job.number r.outcome) }
{
    let job = first.job();
    let saved = first.saved().copied();
    let mut first = first;
    let mut patience = PATIENCE;
    for _ in 0..u64::MAX {
        // (the first time the threads themselves tell; this thread is one of them)
        if patience > PATIENCE && !can_make(rt, threads_of(config).saturating_sub(1)) {
            return Err(RunError::Memory);
        }
        let counts = Counts::new(config.turns(), patience, config.evaluators());
        let Finished {
            mut trace,
            disk,
            out_of_memory,
        } = traced(rt, alloc, first, config, gate, &counts)?;
        trace.tell_kept(counts.used(), counts.vain());
        if let Some(outcome) = trace.outcome() {
            let disk = kept(alloc, job, outcome, disk)?;
            return Ok(Ran {
                outcome,
                trace,
                disk,
            });
        }
        match counts.end() {
            Some(End::Missing) => {}
            Some(End::Disk(number)) => return Err(RunError::Disk(number)),
            Some(End::Memory) => return Err(RunError::Memory),
            Some(End::Turns) | None => return Err(RunError::TurnsSpent),
        }
        // (where one isn't there none begins, and the disk is as it was)
        if out_of_memory || !trace.entries().is_empty() {
            return Err(RunError::Memory);
        }
        rest_long(rt);
        first = FirstDisk::of(job, disk, saved.copied());
        patience = patience.saturating_mul(2).min(MOST_PATIENCE);
    }
    Err(RunError::Memory)
}

/// The disk of a run that ended with an outcome, where it keeps that, whatever a crash leaves of
/// it: it is read once more.
fn kept<D: SteadyDisk + Drop>(
    alloc: Global,
    job: &Job,
    outcome: Outcome,
    disk: D,
) -> Result<D, RunError>
    ensures { IfOk result (λ d. IsKeptOf (D.device disk) job.now.number (Some outcome) (D.device d).file) }
{
    match FirstDisk::found(alloc, job, disk) {
        Ok(Found::Kept(found, disk)) => {
            if found == outcome {
                Ok(disk)
            } else {
                Err(RunError::Disk(StoreError::Damaged.number()))
            }
        }
        Ok(Found::Begins(_first)) => Err(RunError::Disk(StoreError::Damaged.number())),
        Err((fault, _disk)) => Err(RunError::Disk(fault.number())),
    }
}

/// What a run comes to: its trace, and its disk. Refused only when out of memory.
fn traced<'a, R: Threads + Wait + Clock + Sync, G: Gate + Sync, D: SteadyDisk + Drop + Send>(
    rt: &R,
    alloc: Global,
    first: FirstDisk<'a, D>,
    config: &RunConfig,
    gate: &G,
    counts: &Counts,
) -> Result<Finished<D>, RunError>
    ensures { IfOk result (λ r. IsLeftBy first.entry.job (D.device first.entry.disk) r.trace r.out_of_memory (D.device r.disk)) }
{
    let job = first.job();
    let board = Board::over(alloc, job, first.saved());
    let nodes = config.nodes();
    let Ok((chronicle, seats)) = Chronicle::new(alloc, first, nodes) else {
        return Err(RunError::Memory);
    };
    let Ok((words, pens)) = WordTable::new(alloc, usize::from(nodes)) else {
        return Err(RunError::Memory);
    };
    let Ok((contexts, workers)) = contexts(
        rt,
        alloc,
        job,
        config.bodies(),
        config.task_grain(),
        seats,
        pens,
    ) else {
        return Err(RunError::Memory);
    };
    let Ok(pace) = Pace::new(alloc, config) else {
        return Err(RunError::Memory);
    };
    let Ok(leavers) = Leavers::new(alloc, config) else {
        return Err(RunError::Memory);
    };
    let Ok(bells) = RunBells::new(alloc, nodes) else {
        return Err(RunError::Memory);
    };
    let shared = Shared {
        chronicle: &chronicle,
        words: &words,
        board: &board,
        counts,
        bells: &bells,
        pace: &pace,
        leavers: &leavers,
        config,
        gate,
    };
    let Ok(seats) = all_turns(rt, alloc, &shared, contexts, workers) else {
        return Err(RunError::Memory);
    };
    match chronicle.finish(seats) {
        Some(ended) => Ok(ended),
        None => unreachable!(),
    }
}

/// The turns of all actors and body workers, each on a thread of its own.
fn all_turns<'a, R: Threads + Wait + Clock + Sync, G: Gate + Sync, D: SteadyDisk + Drop + Send>(
    rt: &R,
    alloc: Global,
    shared: &Shared<'_, 'a, G, D>,
    contexts: Vec<ActorContext<'a, D>>,
    workers: Vec<WorkerContext>,
) -> Result<Vec<ActorSeat<'a, D>>, AllocError>
    requires contexts { All (IsContextIn shared.now.chronicle.now shared.now.words.now) contexts.items }
    requires workers { All (IsWorkerOf shared.now.chronicle.now.job) workers.items }
    requires tie { TakesOutcomesOf shared.now.chronicle.now shared.now.board.now }
    ensures seats { IfOk result (λ seats. All (IsSeatIn shared.entry.now.chronicle.now) seats.items) }
    ensures count { IfOk result (λ seats. vec_len seats ≡ vec_len contexts.entry) }
{
    let (_, seats) = join(
        rt,
        || -> ()
            requires { All (IsWorkerOf shared.now.chronicle.now.job) workers.items }
        { all_work(rt, alloc, shared, workers) },
        || -> Result<Vec<ActorSeat<D>>, AllocError>
            requires contexts { All (IsContextIn shared.now.chronicle.now shared.now.words.now) contexts.items }
            requires tie { TakesOutcomesOf shared.now.chronicle.now shared.now.board.now }
            ensures seats { IfOk result (λ seats. All (IsSeatIn shared.entry.now.chronicle.now) seats.items) }
            ensures count { IfOk result (λ seats. vec_len seats ≡ vec_len contexts.entry) }
        { all_act(rt, alloc, shared, contexts) },
    );
    seats
}

/// The turns of all body workers, each on a thread of its own.
fn all_work<R: Threads + Wait + Clock + Sync, G: Gate + Sync, D: SteadyDisk + Drop + Send>(
    rt: &R,
    alloc: Global,
    shared: &Shared<'_, '_, G, D>,
    workers: Vec<WorkerContext>,
)
    requires { All (IsWorkerOf shared.now.chronicle.now.job) workers.items }
{
    let ended = map_vec(
        rt,
        workers,
        &|context: WorkerContext| -> ()
            requires { IsWorkerOf shared.now.chronicle.now.job context }
        { run_worker(rt, alloc, shared, context) },
    );
    if ended.is_err() {
        shared.counts.end_by(End::Memory);
    }
}

/// The turns of all actors, each on a thread of its own.
fn all_act<'a, R: Threads + Wait + Clock + Sync, G: Gate + Sync, D: SteadyDisk + Drop + Send>(
    rt: &R,
    alloc: Global,
    shared: &Shared<'_, 'a, G, D>,
    contexts: Vec<ActorContext<'a, D>>,
) -> Result<Vec<ActorSeat<'a, D>>, AllocError>
    requires contexts { All (IsContextIn shared.now.chronicle.now shared.now.words.now) contexts.items }
    requires tie { TakesOutcomesOf shared.now.chronicle.now shared.now.board.now }
    ensures seats { IfOk result (λ seats. All (IsSeatIn shared.entry.now.chronicle.now) seats.items) }
    ensures count { IfOk result (λ seats. vec_len seats ≡ vec_len contexts.entry) }
{
    let seats = map_vec(
        rt,
        contexts,
        &|context: ActorContext<D>| -> ActorSeat<D>
            requires context { IsContextIn shared.now.chronicle.now shared.now.words.now context }
            requires tie { TakesOutcomesOf shared.now.chronicle.now shared.now.board.now }
            ensures { IsSeatIn shared.entry.now.chronicle.now result }
        { act(rt, alloc, shared, context) },
    );
    if seats.is_err() {
        shared.counts.end_by(End::Memory);
    }
    seats
}

/// The turns of an actor.
fn act<'a, R: Wait + Clock, G: Gate + Sync, D: SteadyDisk + Drop>(
    rt: &R,
    alloc: Global,
    shared: &Shared<'_, 'a, G, D>,
    context: ActorContext<'a, D>,
) -> ActorSeat<'a, D>
    requires context { IsContextIn shared.now.chronicle.now shared.now.words.now context }
    requires tie { TakesOutcomesOf shared.now.chronicle.now shared.now.board.now }
    ensures { IsSeatIn shared.entry.now.chronicle.now result }
{
    let ActorContext { seat, node } = context;
    if !await_all(rt, shared) {
        return seat;
    }
    let number = seat.actor();
    if number == 0 {
        return run_house(rt, alloc, shared, seat);
    }
    match (NodePlace::of(number - 1), node) {
        (Some(place), Some(node)) => run_node(rt, alloc, shared, seat, node.pen, node.desk, place),
        _ => seat,
    }
}
