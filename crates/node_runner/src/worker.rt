ghost use Rattle.std.specs.Prelude.{◌≡◌, length, IfSome};
ghost use Rattle.kind_check.specs.Total.{Takes};
ghost use Rattle.serial_meaning.specs.Whole.{AreWholesOf};
ghost use Rattle.runner_parts.specs.Lines.{IsLineOf};
ghost use Rattle.runner_parts.specs.Turns.{IsEvaluatedOf};

use crate::crew::WorkerContext;
use crate::muster::await_all;
use crate::shared::Shared;
use board::Note;
use body_eval::Done;
use disk::SteadyDisk;
use event_script::FrameOf;
use grain::{Left, evaluate, takes_its_numbers};
use ids::Numbers;
use kind_check::Checked;
use node_steps::Work;
use runner_parts::{
    Bells, Counts, End, Evaluated, Finished, Found, Gate, Line, Ticket, Turns, YIELDS, rest,
};
use serial_meaning::Flat;
use std::alloc::Global;
use std::marker::Model;
use std::sync::Wait;
use std::thread::yield_now;
use std::time::Clock;

/// What a body worker's thread has in a run: what the actors share, its way back to its node, the
/// flat code, what it knows of the board, and its turns. Contracts see the chronicle.
#[derive(Drop)]
struct WorkerRun<'r, 's, 'a, G: Gate + Sync, D: SteadyDisk + Drop> {
    alloc: Global,
    shared: &'r Shared<'s, 'a, G, D>,
    line: Line,
    flat: Flat,
    note: Note,
    turns: Turns,
}

impl<'r, 's, 'a, G: Gate + Sync, D: SteadyDisk + Drop> Model for WorkerRun<'r, 's, 'a, G, D> {
    ghost use Rattle.std.specs.Prelude.{◌≡◌};
    ghost use Rattle.task_tree.specs.Codes.{program_codes};
    ghost use Rattle.chronicle.specs.Seats.{ChronicleOf};
    ghost use Rattle.runner_parts.specs.Lines.{IsLineOf};

    ghost Value = { ChronicleOf };

    ghost coded = { Prim.hlevel program_codes };

    ghost view = { λ r. r.shared.now.chronicle.now };

    ghost invariant = { λ r. IsLineOf r.shared.now.chronicle.now.job.program r.line
        × (r.flat.program ≡ r.shared.now.chronicle.now.job.program) × (r.note.board ≡ r.shared.now.board.now.board) };
}

/// A body worker's turns, until the run ends: it steals a ticket of its node, evaluates the frame
/// once the gate lets it, and gives back what it found.
pub(crate) fn run_worker<R: Wait + Clock, G: Gate + Sync, D: SteadyDisk + Drop>(
    rt: &R,
    alloc: Global,
    shared: &Shared<'_, '_, G, D>,
    context: WorkerContext,
)
    requires { IsLineOf shared.now.chronicle.now.job.program context.line }
{
    if !await_all(rt, shared) {
        return;
    }
    let WorkerContext {
        mut worker,
        line,
        bells,
    } = context;
    let Ok(flat) = Flat::of(alloc, shared.chronicle.job().checked()) else {
        shared.counts.end_by(End::Memory);
        return;
    };
    let mut run = WorkerRun {
        alloc,
        shared,
        line,
        flat,
        note: shared.board.note(),
        turns: Turns::new(),
    };
    let mut idle: u64 = 0;
    for _ in rt.forever() {
        if !run.take_turn() {
            break;
        }
        let offered = bells.offered();
        if let Some(ticket) = worker.steal() {
            idle = 0;
            bells.take();
            if !run.work(rt, ticket) {
                break;
            }
            bells.give_back();
            shared.bells.wake_node(bells.place());
        } else {
            idle = idle.saturating_add(1);
            wait(rt, &bells, offered, idle);
        }
    }
}

/// A body worker waits that found no ticket in so many turns. It sleeps soon where others are awake
/// for those that are out.
fn wait<R: Wait>(rt: &R, bells: &Bells, offered: u64, idle: u64) {
    if idle >= YIELDS || idle > 1 && bells.has_enough() {
        bells.sleep_worker(rt, offered);
    } else {
        yield_now();
    }
}

impl<'r, 's, 'a, G: Gate + Sync, D: SteadyDisk + Drop> WorkerRun<'r, 's, 'a, G, D> {
    /// Takes a turn. Whether there was one, and the run goes on.
    fn take_turn(&mut self) -> bool
        ensures { self.new ≡ self.old }
    {
        self.shared.counts.take_turn(&mut self.turns)
            && self.shared.board.read(&mut self.note).is_none()
    }

    /// A ticket's frame is evaluated, and what was found goes back. Whether the run goes on, and
    /// there was memory.
    fn work<R: Wait + Clock>(&mut self, rt: &R, ticket: Ticket) -> bool
        ensures { self.new ≡ self.old }
    {
        let checked = self.shared.chronicle.job().checked();
        if !takes_its_numbers(checked, &ticket.work) {
            return true;
        }
        if !self.pass_gate(rt) {
            return false;
        }
        let counts = self.shared.counts;
        let Some(evaluated) = evaluate_ticket(self.alloc, checked, &self.flat, counts, ticket)
        else {
            counts.end_by(End::Memory);
            return false;
        };
        self.give_back(rt, Finished::of(checked, evaluated))
    }

    /// Numbers a body, and asks the gate, each time in a turn, until it lets it be evaluated.
    /// Whether it did before the run ended.
    fn pass_gate<R: Wait + Clock>(&mut self, rt: &R) -> bool
        ensures { self.new ≡ self.old }
    {
        let body = self.shared.counts.body();
        self.shared.gate.begun(body);
        let mut waited: u64 = 0;
        for _ in rt.forever() {
            if !self.take_turn() {
                return false;
            }
            if self.shared.gate.may_go(body) {
                return true;
            }
            waited = waited.saturating_add(1);
            rest(rt, self.shared.config.nodes(), waited);
        }
        false
    }

    /// A turn goes back, as soon as there is room for it. Whether it did before the run ended.
    fn give_back<R: Wait + Clock>(&mut self, rt: &R, finished: Finished) -> bool
        requires { finished.program ≡ self.old.job.program }
        ensures { self.new ≡ self.old }
    {
        let checked = self.shared.chronicle.job().checked();
        let mut finished = finished;
        let mut waited: u64 = 0;
        for _ in rt.forever() {
            match self.line.put(rt, checked, finished) {
                Ok(()) => return true,
                Err(back) => finished = back,
            }
            if !self.take_turn() {
                return false;
            }
            waited = waited.saturating_add(1);
            rest(rt, self.shared.config.nodes(), waited);
        }
        false
    }
}

/// Evaluates a ticket's task whole, in as many turns as it says or are left; where these are none,
/// or that isn't done, its frame's turn, with what was kept on the way. None where there is no
/// memory for that.
fn evaluate_ticket(
    alloc: Global,
    checked: &Checked,
    flat: &Flat,
    counts: &Counts,
    ticket: Ticket,
) -> Option<Evaluated>
    requires flat { flat.now.program ≡ checked.now }
    requires takes { Takes checked.now ticket.work.thread (length ticket.work.numbers) }
    ensures { IfSome result (IsEvaluatedOf checked.now) }
{
    let (number, frame) = (
        ticket.number,
        FrameOf::of(ticket.work.grant, ticket.work.frame),
    );
    let Work {
        thread,
        numbers,
        room,
        ..
    } = ticket.work;
    let most = counts.take_for(ticket.most_turns);
    if most == 0 {
        let left = Left::nothing(alloc);
        return evaluate_turn(alloc, checked, number, frame, thread, numbers, left);
    }
    match evaluate(
        alloc,
        checked,
        flat,
        room,
        thread,
        numbers,
        most,
        ticket.levels,
    ) {
        Ok(whole) => {
            counts.give_back(most - whole.turns());
            Some(Evaluated {
                ticket: number,
                frame,
                found: Found::Whole(whole),
                left: Left::nothing(alloc),
            })
        }
        Err((numbers, left)) => {
            counts.waste(left.turns);
            counts.give_back(most.saturating_sub(left.turns));
            evaluate_turn(alloc, checked, number, frame, thread, numbers, left)
        }
    }
}

/// Evaluates the turn of a ticket's frame, of whose task this is left. None where there is no
/// memory.
fn evaluate_turn(
    alloc: Global,
    checked: &Checked,
    ticket: u64,
    frame: FrameOf,
    thread: u8,
    numbers: Numbers,
    left: Left,
) -> Option<Evaluated>
    requires takes { Takes checked.now thread (length numbers) }
    requires left { AreWholesOf checked.now left.kept.items }
    ensures { IfSome result (IsEvaluatedOf checked.now) }
{
    let turn = Done::on(alloc, checked, thread, numbers).ok()?;
    Some(Evaluated {
        ticket,
        frame,
        found: Found::Turn(turn),
        left,
    })
}
