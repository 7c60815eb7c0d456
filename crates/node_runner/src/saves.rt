//! The values that nodes hand to the clearinghouse to be saved.
//!
//! Each one that it takes is a commit on its disk, under the lock of the chronicle: some
//! microseconds in memory, and milliseconds in a file. So after one it takes none for nine times as
//! long as that took. Meanwhile at most 64 wait, and those of the shortest places come first, as
//! they stand for the most work. One that is left out is a packet that is lost.
ghost use Rattle.std.specs.Prelude.{◌≡◌, IfOk, IfSome, None, Some};
ghost use Rattle.ids.specs.declared.outcome.Outcome.{Outcome as OutcomeOf};
ghost use Rattle.serial_meaning.specs.Job.{meaning_of};
ghost use Rattle.world_steps.specs.Agrees.{StoredAgree};
ghost use Rattle.chronicle.specs.Deliveries.{delivery};
ghost use Rattle.chronicle.specs.History.{actor_number, outcome_told};
ghost use Rattle.chronicle.specs.Seats.{IsSeatIn};

use chronicle::{ActorSeat, Chronicle, Committed, Receiver, delivery_to};
use disk::SteadyDisk;
use runner_parts::{Fate, Fates};
use std::alloc::Global;
use std::sync::Wait;
use std::time::{Clock, Duration};
use world_steps::NoMemory;

/// How many wait at most.
const MOST_WAITING: usize = 64;

/// For how many times as long as the last one took none is taken.
const REST: u32 = 9;

/// One that waits: how many steps its place has, and the number of its packet.
#[derive(Clone, Copy)]
struct Waiting {
    steps: u8,
    index: u64,
}

/// The Saves of a run: from which packet on they are still to be looked at, those that wait, in no
/// order, what becomes of each, and from when on the next one is taken.
#[derive(Drop)]
pub(crate) struct Saves {
    next: u64,
    waiting: Vec<Waiting>,
    fates: Fates,
    due: Duration,
}

impl Saves {
    /// None of the packets was looked at.
    pub(crate) fn new(alloc: Global, fates: Fates) -> Saves {
        Saves {
            next: 0,
            waiting: Vec::new(alloc),
            fates,
            due: Duration::ZERO,
        }
    }

    /// Looks at the next Save, if one was sent, and takes the one that comes first of those that
    /// wait, if it is time: its delivery is committed. Refused only when out of memory.
    pub(crate) fn take<'a, R: Wait + Clock, D: SteadyDisk + Drop>(
        &mut self,
        rt: &R,
        chronicle: &Chronicle<'a, D>,
        seat: &mut ActorSeat<'a, D>,
    ) -> Result<Option<Committed>, NoMemory>
        requires { IsSeatIn chronicle.now seat.old }
        ensures same { IsSeatIn chronicle.entry.now seat.new }
        ensures outcome { IfOk result (λ d. IfSome d (λ committed. StoredAgree chronicle.entry.now.job chronicle.entry.now.first
            → (o : OutcomeOf) → outcome_told committed.told ≡ Some o → o ≡ meaning_of chronicle.entry.now.job)) }
    {
        if !seat.owns(&delivery_to(None, 0)) {
            return Ok(None);
        }
        if self.next < chronicle.sent_to(Receiver::Saves) {
            self.look(rt, chronicle, seat);
        }
        match self.first_due(rt) {
            Some(index) => self.deliver(rt, chronicle, seat, index),
            None => Ok(None),
        }
    }

    /// The delivery of the packet of a number is committed, and for some times as long none is
    /// taken. What is large here is paid for at its entry, so it is no part of each look.
    fn deliver<'a, R: Wait + Clock, D: SteadyDisk + Drop>(
        &mut self,
        rt: &R,
        chronicle: &Chronicle<'a, D>,
        seat: &mut ActorSeat<'a, D>,
        index: u64,
    ) -> Result<Option<Committed>, NoMemory>
        requires seat { IsSeatIn chronicle.now seat.old }
        requires own { actor_number (delivery None 0) ≡ seat.old.actor }
        ensures same { IsSeatIn chronicle.entry.now seat.new }
        ensures outcome { IfOk result (λ d. IfSome d (λ committed. StoredAgree chronicle.entry.now.job chronicle.entry.now.first
            → (o : OutcomeOf) → outcome_told committed.told ≡ Some o → o ≡ meaning_of chronicle.entry.now.job)) }
    {
        let began = rt.monotonic();
        let committed = chronicle.commit(rt, seat, delivery_to(None, index))?;
        if let (Ok(began), Ok(ended)) = (began, rt.monotonic()) {
            let rest = ended.saturating_sub(began).saturating_mul(REST);
            self.due = ended.saturating_add(rest);
        }
        Ok(Some(committed))
    }

    /// The next Save is looked for, and waits, if it isn't lost.
    fn look<'a, R: Wait, D: SteadyDisk + Drop>(
        &mut self,
        rt: &R,
        chronicle: &Chronicle<'a, D>,
        seat: &mut ActorSeat<'a, D>,
    )
        requires { IsSeatIn chronicle.now seat.old }
        ensures { seat.new ≡ seat.old }
    {
        match chronicle.save_for(rt, seat, self.next) {
            Ok((index, steps)) => {
                self.next = index.saturating_add(1);
                match self.fates.next() {
                    Fate::Lost => {}
                    Fate::Once => self.keep(Waiting { steps, index }),
                    Fate::Twice => {
                        self.keep(Waiting { steps, index });
                        self.keep(Waiting { steps, index });
                    }
                }
            }
            Err(seen) => self.next = seen,
        }
    }

    /// One more waits. Where as many wait as may, or when out of memory, the one that comes last is
    /// left out.
    fn keep(&mut self, new: Waiting) {
        if self.waiting.len() < MOST_WAITING && self.waiting.push(new).is_ok() {
            return;
        }
        let mut kept = new;
        for waiting in self.waiting.iter_mut() {
            if is_before(kept, *waiting) {
                let behind = *waiting;
                *waiting = kept;
                kept = behind;
            }
        }
    }

    /// The number of the packet that comes first of those that wait, which waits no longer; none
    /// where none waits, or it isn't time.
    fn first_due<R: Clock>(&mut self, rt: &R) -> Option<u64> {
        if self.waiting.is_empty() || rt.monotonic().ok()? < self.due {
            return None;
        }
        let mut first = self.waiting.pop()?;
        for waiting in self.waiting.iter_mut() {
            if is_before(*waiting, first) {
                let behind = first;
                first = *waiting;
                *waiting = behind;
            }
        }
        Some(first.index)
    }
}

/// Whether one comes before another: that of the shorter place, or of two alike the one that was
/// sent first.
fn is_before(one: Waiting, other: Waiting) -> bool {
    one.steps < other.steps || (one.steps == other.steps && one.index < other.index)
}
