ghost use Rattle.std.specs.Prelude.{◌≡◌, ◌≤◌, length, IfOk, IfSome};
ghost use Rattle.kind_check.specs.Total.{Takes};
ghost use Rattle.runner_parts.specs.Lines.{IsHomeOf};
ghost use Rattle.runner_parts.specs.Turns.{IsFoundOf};

use crate::bells::Bells;
use crate::line::Line;
use crate::turn::{Evaluated, Found};
use event_script::FrameOf;
use grain::{Grain, KeptValues, TaskSizes, evaluate};
use kind_check::Checked;
use local_pool::Owner;
use node_steps::Work;
use serial_meaning::{Flat, Whole};
use std::alloc::{AllocError, Global};
use std::sync::{Arc, Wait};

/// How many tickets of a node are out at most for each of its body workers.
const TICKETS: usize = 2;

/// And where no other node asks for these frames, and tasks are evaluated whole: a node's own
/// thread may wait some milliseconds for a processor that its workers have, and none of them is to
/// be idle meanwhile.
const TICKETS_ALONE: usize = 8;

/// From how many turns on an evaluation takes long: longer than to wake a thread that sleeps.
const LONG: u64 = 16_384;

/// How many tickets of a node with so many body workers are out at most.
pub fn most_tickets(workers: usize, grain: Grain) -> usize {
    let is_alone = grain.evaluators <= workers as u64;
    let each = if is_alone && grain.most_turns > 0 {
        TICKETS_ALONE
    } else {
        TICKETS
    };
    workers.saturating_mul(each)
}

/// A ready frame of a node that waits for a body worker, with the number of the ticket, and in at
/// most how many turns its task is to be evaluated whole; 0 where only its own turn is. On so many
/// levels below it is kept what was finished and what was under way.
#[derive(Drop)]
pub struct Ticket {
    pub number: u64,
    pub work: Work,
    pub most_turns: u64,
    pub levels: u16,
}

/// What comes to a node of its job's program: turns that come back, and values that evaluations
/// kept.
#[derive(Drop)]
pub struct Home {
    pub line: Line,
    pub kept: KeptValues,
}

/// What came back, without what the desk keeps of it: the frame, and what was found for it.
#[derive(Drop)]
pub struct Returned {
    pub frame: FrameOf,
    pub found: Found,
}

/// What a node's owner has of its body workers: it offers ready frames to them, and takes what they
/// evaluated. It knows which of its tickets are out, neither come back nor forgotten.
#[derive(Drop)]
pub struct Desk {
    owner: Owner<Ticket>,
    pub home: Home,
    bells: Arc<Bells, Global>,
    workers: usize,
    most_tickets: usize,
    sizes: TaskSizes,
    // In how many turns that task was evaluated that came back last, or wasn't.
    last: u64,
    next: u64,
    // The tickets that are out, and the frame of each at the same index.
    tickets: Vec<u64>,
    frames: Vec<FrameOf>,
}

impl Desk {
    /// No ticket is out.
    pub fn new(
        alloc: Global,
        owner: Owner<Ticket>,
        home: Home,
        bells: Arc<Bells, Global>,
        workers: usize,
        grain: Grain,
    ) -> Result<Desk, AllocError>
        ensures { IfOk result (λ d. d.home ≡ home) }
    {
        let most_tickets = most_tickets(workers, grain);
        Ok(Desk {
            owner,
            home,
            bells,
            workers,
            most_tickets,
            sizes: TaskSizes::new(alloc, grain)?,
            last: 0,
            next: 0,
            tickets: Vec::with_capacity(alloc, most_tickets)?,
            frames: Vec::with_capacity(alloc, most_tickets)?,
        })
    }

    /// The bells of the node.
    pub fn bells(&self) -> &Bells {
        &self.bells
    }

    /// The frames of the tickets that are out.
    pub fn frames(&self) -> &[FrameOf] {
        self.frames.as_slice()
    }

    /// Whether a ticket is out.
    pub fn is_waiting(&self) -> bool {
        !self.tickets.is_empty()
    }

    /// Whether each worker has something to do.
    pub fn is_busy(&self) -> bool {
        self.tickets.len() >= self.workers
    }

    /// Whether each worker has something to do, and no ticket waits for one.
    pub fn has_begun_all(&self) -> bool {
        self.tickets.len() == self.workers
    }

    /// Whether no more tickets may be out.
    pub fn is_full(&self) -> bool {
        self.tickets.len() >= self.most_tickets
    }

    /// Whether no more tickets may be out, and to wait for one takes long.
    pub fn has_long_work(&self) -> bool {
        self.is_full() && self.last >= LONG
    }

    /// Offers a ready frame to the workers; whether it is out now. It isn't where there is no
    /// memory, and may be offered again.
    pub fn offer(&mut self, work: Work) -> bool
        ensures { self.new.home ≡ self.old.home }
    {
        let number = self.next;
        if !self.note(number, FrameOf::of(work.grant, work.frame)) {
            return false;
        }
        let ticket = Ticket {
            number,
            most_turns: self.sizes.most_turns(),
            levels: self.sizes.levels(work.thread),
            work,
        };
        if self.owner.offer(ticket).is_err() {
            self.remove(number);
            return false;
        }
        self.next = number.wrapping_add(1);
        self.bells.announce();
        true
    }

    /// Whether a ready frame's task takes one turn, as its thread spawns nothing, and tasks are
    /// evaluated whole. No worker is asked then.
    pub fn is_short(&self, checked: &Checked, work: &Work) -> bool
        requires { Takes checked.now work.now.thread (length work.now.numbers) }
    {
        self.sizes.is_short(checked, work)
    }

    /// Whether a ready frame's task is known to be large, which it isn't any more then, or isn't
    /// tried, as its thread's tasks are.
    pub fn was_large(&mut self, work: &Work) -> bool
        ensures { self.new.home ≡ self.old.home }
    {
        self.sizes.was_large(work)
    }

    /// The value of a ready frame's task, where an evaluation kept it. It isn't kept any more then.
    pub fn value_of(&mut self, checked: &Checked, work: &Work) -> Option<Whole>
        requires { IsHomeOf checked.now self.old.home }
        ensures home { self.new.home ≡ self.old.home }
        ensures own { IfSome result (λ w. w.program ≡ checked.now) }
    {
        let _ = checked;
        let whole = self.home.kept.take(work)?;
        self.sizes.use_kept(&whole);
        Some(whole)
    }

    /// The value of a task whose frame isn't there is kept: the frame may come back.
    pub fn keep(&mut self, checked: &Checked, whole: Whole)
        requires home { IsHomeOf checked.now self.old.home }
        requires own { whole.program ≡ checked.now }
        ensures { IsHomeOf checked.now self.new.home }
    {
        let _ = checked;
        self.home.kept.keep(whole);
    }

    /// Whether a ready frame's task is small by those of its thread before it.
    pub fn is_small(&self, work: &Work) -> bool {
        self.few_turns(work.thread) > 0
    }

    /// In at most how many turns such a task of a thread is evaluated.
    pub fn few_turns(&self, thread: u8) -> u64 {
        self.sizes.few_turns(thread)
    }

    /// Evaluates the task of a ready frame that is small whole, in at most so many turns. Where
    /// that isn't done the frame comes back, whose task counts as small no more.
    pub fn evaluate_small(
        &mut self,
        alloc: Global,
        checked: &Checked,
        flat: &Flat,
        work: Work,
        most_turns: u64,
    ) -> Result<Whole, Work>
        requires flat { flat.now.program ≡ checked.now }
        requires takes { Takes checked.now work.thread (length work.numbers) }
        ensures home { self.new.home ≡ self.old.home }
        ensures own { IfOk result (λ w. w.program ≡ checked.now) }
        ensures within { IfOk result (λ w. w.turns ≤ most_turns) }
    {
        let Work {
            grant,
            frame,
            thread,
            numbers,
            room,
        } = work;
        match evaluate(alloc, checked, flat, room, thread, numbers, most_turns, 0) {
            Ok(whole) => {
                self.sizes.succeed(&whole);
                Ok(whole)
            }
            Err((numbers, _)) => {
                self.sizes.misjudge(thread);
                Err(Work {
                    grant,
                    frame,
                    thread,
                    numbers,
                    room,
                })
            }
        }
    }

    /// A ticket is out. Whether there was memory.
    fn note(&mut self, ticket: u64, frame: FrameOf) -> bool
        ensures { self.new.home ≡ self.old.home }
    {
        if self.tickets.push(ticket).is_err() {
            return false;
        }
        if self.frames.push(frame).is_err() {
            let _ = self.tickets.pop();
            return false;
        }
        true
    }

    /// What comes back next, if something does. Its ticket isn't out any more.
    pub fn take<R: Wait>(&mut self, rt: &R, checked: &Checked) -> Option<Returned>
        requires { IsHomeOf checked.now self.old.home }
        ensures home { IsHomeOf checked.now self.new.home }
        ensures own { IfSome result (λ r. IsFoundOf checked.now r.found) }
    {
        let Evaluated {
            ticket,
            frame,
            found,
            left,
        } = self.home.line.take(rt, checked)?;
        self.remove(ticket);
        match &found {
            Found::Whole(whole) => {
                self.last = whole.turns();
                self.sizes.succeed(whole);
            }
            Found::Turn(turn) => {
                self.last = left.turns;
                self.home.kept.add(self.sizes.fail(turn.thread(), left));
            }
        }
        Some(Returned { frame, found })
    }

    /// Takes those tickets back that no worker has begun, and forgets them.
    pub fn take_back(&mut self)
        ensures { self.new.home ≡ self.old.home }
    {
        for _ in 0..self.tickets.len() {
            let Some(ticket) = self.owner.take_own() else {
                break;
            };
            self.bells.take_back();
            self.remove(ticket.number);
        }
    }

    /// Takes tickets back, and forgets all others too.
    pub fn forget(&mut self)
        ensures { self.new.home ≡ self.old.home }
    {
        self.take_back();
        self.tickets.clear();
        self.frames.clear();
        self.sizes.forget();
        self.home.kept.clear();
    }

    /// A ticket isn't out any more.
    fn remove(&mut self, ticket: u64)
        ensures { self.new.home ≡ self.old.home }
    {
        let Some(index) = self.tickets.iter().position(|out| *out == ticket) else {
            return;
        };
        let _ = self.tickets.swap_remove(index);
        if index < self.frames.len() {
            let _ = self.frames.swap_remove(index);
        }
    }
}
