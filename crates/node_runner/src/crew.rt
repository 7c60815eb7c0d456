ghost use Rattle.std.specs.Prelude.{◌≡◌, ◌≤◌, All, IfOk, IfSome, vec_len};
ghost use Rattle.chronicle.specs.Seats.{ChronicleOf, IsSeatIn};
ghost use Rattle.start_words.specs.Words.{IsPenOf, TableOf};
ghost use Rattle.std.specs.Arc.{arc_value};
ghost use Rattle.runner_parts.specs.Lines.{IsHomeOf, IsPassFor};
ghost use Rattle.node_runner.specs.Runs.{IsContextIn, IsNodeIn, IsWorkerOf};

use chronicle::ActorSeat;
use disk::SteadyDisk;
use grain::{Grain, KeptValues};
use local_pool::{BodyWorker, LocalPool, TurnPass, TurnQueue};
use runner_parts::{Bells, Desk, Finished, Home, Line, Ticket, most_tickets};
use serial_meaning::Job;
use start_words::Pen;
use std::alloc::{AllocError, Global};
use std::sync::{Arc, Wait};

/// For how many turns that come back to a node there is room.
const ROOM: usize = 16;

/// What an actor's thread begins with: its seat, and for a node what it has besides.
#[derive(Drop)]
pub(crate) struct ActorContext<'a, D: SteadyDisk + Drop> {
    pub(crate) seat: ActorSeat<'a, D>,
    pub(crate) node: Option<NodeContext>,
}

/// What a node's thread begins with besides a seat: a pen, and a desk for its body workers.
#[derive(Drop)]
pub(crate) struct NodeContext {
    pub(crate) pen: Pen,
    pub(crate) desk: Desk,
}

/// What a body worker's thread begins with.
#[derive(Drop)]
pub(crate) struct WorkerContext {
    pub(crate) worker: BodyWorker<Ticket>,
    pub(crate) line: Line,
    pub(crate) bells: Arc<Bells, Global>,
}

/// The actors' contexts, a seat each, and a pen and a desk for each node; and those of their body
/// workers, so many a node. The desks know in how many turns a task is evaluated whole.
pub(crate) fn contexts<'a, R: Wait, D: SteadyDisk + Drop>(
    rt: &R,
    alloc: Global,
    job: &Job,
    bodies: u8,
    grain: Grain,
    mut seats: Vec<ActorSeat<'a, D>>,
    mut pens: Vec<Pen>,
) -> Result<(Vec<ActorContext<'a, D>>, Vec<WorkerContext>), AllocError>
    requires { bodies ≤ 8 }
    ensures contexts { (c : ChronicleOf) (w : TableOf) → c.job ≡ job.now → All (IsSeatIn c) seats.entry.items
        → All (IsPenOf w) pens.items → IfOk result (λ r. All (IsContextIn c w) r.0.items) }
    ensures count { IfOk result (λ r. vec_len r.0 ≡ vec_len seats.entry) }
    ensures workers { IfOk result (λ r. All (IsWorkerOf job.now) r.1.items) }
{
    let mut contexts = Vec::with_capacity(alloc, seats.len())?;
    let mut workers = Vec::new(alloc);
    while let Some(seat) = seats.pop() {
        let node = node_of(
            rt,
            alloc,
            job,
            bodies,
            grain,
            &seat,
            &mut pens,
            &mut workers,
        )?;
        contexts.push(ActorContext { seat, node })?;
    }
    Ok((contexts, workers))
}

/// What an actor that is a node has besides its seat.
fn node_of<R: Wait, D: SteadyDisk + Drop>(
    rt: &R,
    alloc: Global,
    job: &Job,
    bodies: u8,
    grain: Grain,
    seat: &ActorSeat<'_, D>,
    pens: &mut Vec<Pen>,
    workers: &mut Vec<WorkerContext>,
) -> Result<Option<NodeContext>, AllocError>
    requires { bodies ≤ 8 }
    ensures pens { (w : TableOf) → All (IsPenOf w) pens.old.items → All (IsPenOf w) pens.new.items }
    ensures node { (w : TableOf) → All (IsPenOf w) pens.old.items → IfOk result (λ n. IfSome n (IsNodeIn job.now w)) }
    ensures workers { All (IsWorkerOf job.now) workers.old.items → All (IsWorkerOf job.now) workers.new.items }
{
    if seat.actor() == 0 {
        return Ok(None);
    }
    let Some(pen) = pens.pop() else {
        return Ok(None);
    };
    let desk = desk_of(rt, alloc, job, seat.actor() - 1, bodies, grain, workers)?;
    Ok(Some(NodeContext { pen, desk }))
}

/// The desk of the node of a place. The contexts of its body workers go behind the others.
fn desk_of<R: Wait>(
    rt: &R,
    alloc: Global,
    job: &Job,
    place: u64,
    bodies: u8,
    grain: Grain,
    workers: &mut Vec<WorkerContext>,
) -> Result<Desk, AllocError>
    requires { bodies ≤ 8 }
    ensures desk { IfOk result (λ d. IsHomeOf job.now.program d.home) }
    ensures workers { All (IsWorkerOf job.now) workers.old.items → All (IsWorkerOf job.now) workers.new.items }
{
    let bodies = usize::from(bodies);
    let (_, owner, thieves) = LocalPool::new(alloc, most_tickets(bodies, grain), bodies)?;
    let first = Finished::first(job.checked());
    let (queue, _, mut passes) = TurnQueue::new(rt, alloc, ROOM, bodies + 1, first)?;
    let queue = Arc::new(alloc, queue)?;
    let Some(pass) = passes.pop() else {
        unreachable!()
    };
    let bells = Arc::new(alloc, Bells::new(place, bodies))?;
    hire(job, &queue, &bells, thieves, passes, workers)?;
    let home = Home {
        line: Line { queue, pass },
        kept: KeptValues::new(alloc, job.checked()),
    };
    let desk = Desk::new(alloc, owner, home, bells, bodies, grain)?;
    Ok(desk)
}

/// The contexts of body workers, with a pass each, go behind the others.
fn hire(
    job: &Job,
    queue: &Arc<TurnQueue<Finished>, Global>,
    bells: &Arc<Bells, Global>,
    mut thieves: Vec<BodyWorker<Ticket>>,
    mut passes: Vec<TurnPass<Finished>>,
    workers: &mut Vec<WorkerContext>,
) -> Result<(), AllocError>
    requires { All (IsPassFor job.now.program (arc_value queue.now)) passes.items }
    ensures { All (IsWorkerOf job.now) workers.old.items → All (IsWorkerOf job.now) workers.new.items }
{
    let _ = job;
    while let Some(pass) = passes.pop() {
        let Some(worker) = thieves.pop() else {
            break;
        };
        let queue = Arc::try_clone(queue)?;
        let line = Line { queue, pass };
        let bells = Arc::try_clone(bells)?;
        workers.push(WorkerContext {
            worker,
            line,
            bells,
        })?;
    }
    Ok(())
}
