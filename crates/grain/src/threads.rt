//! What is known of the tasks of each thread, by those that were evaluated.

use crate::left::LEVELS;
use ids::limits::MOST_THREADS;
use std::alloc::{AllocError, Global};

/// After how many evaluations in a row of tasks of a thread that didn't come to their end its next
/// ones aren't tried, but for one in so many.
const MOST_FAILED: u32 = 8;

const TRIED: u32 = 64;

/// After how many evaluations in a row of tasks of a thread that came to their end the next ones
/// keep values on few levels.
const MOST_ENDED: u32 = 64;

/// Tasks of a thread are small where none of the last ones took more turns.
const MOST_SMALL: u64 = 4_096;

/// A small task may be evaluated in so many turns as the last ones took, and in one part in so many
/// more.
const MARGIN: u64 = 4;

/// What is known of the tasks of one thread: how many in a row weren't evaluated to their end, and
/// how many weren't tried since the last one that was; whether any was, how many in a row were, and
/// on how many levels the next evaluation keeps values; and how many turns the last ones took at
/// most.
#[derive(Clone, Copy)]
struct Known {
    failed: u32,
    passed: u32,
    has_ended: bool,
    ended: u32,
    levels: u16,
    turns: u64,
}

/// What is known of the tasks of each thread.
#[derive(Drop)]
pub(crate) struct Threads {
    known: Vec<Known>,
}

impl Threads {
    /// No task was tried yet.
    pub(crate) fn new(alloc: Global) -> Result<Threads, AllocError> {
        let mut known = Vec::with_capacity(alloc, usize::from(MOST_THREADS))?;
        for _ in 0..MOST_THREADS {
            known.push(NOTHING)?;
        }
        Ok(Threads { known })
    }

    /// On how many levels below a task of a thread its evaluation keeps what was finished and what
    /// was under way.
    pub(crate) fn levels(&self, thread: u8) -> u16 {
        match self.known.get(usize::from(thread)) {
            Some(known) => known.levels,
            None => LEVELS,
        }
    }

    /// Whether a task of a thread isn't tried, as those before weren't evaluated to their end.
    pub(crate) fn pass_over(&mut self, thread: u8) -> bool {
        match self.known.get_mut(usize::from(thread)) {
            Some(known) if known.failed >= MOST_FAILED => {
                known.passed = (known.passed % TRIED + 1) % TRIED;
                known.passed != 0
            }
            _ => false,
        }
    }

    /// In at most how many turns a task of a thread can be evaluated, where the last ones were
    /// small; 0 where they weren't.
    pub(crate) fn few_turns(&self, thread: u8) -> u64 {
        match self.known.get(usize::from(thread)) {
            Some(known) if known.turns <= MOST_SMALL => known.turns + known.turns / MARGIN,
            _ => 0,
        }
    }

    /// Whether a task of a thread was evaluated to its end so far.
    pub(crate) fn has_ended(&self, thread: u8) -> bool {
        match self.known.get(usize::from(thread)) {
            Some(known) => known.has_ended,
            None => false,
        }
    }

    /// A task of a thread was evaluated to its end in so many turns. Where those before it were
    /// too, the next ones keep few values.
    pub(crate) fn succeed(&mut self, thread: u8, turns: u64) {
        if let Some(known) = self.known.get_mut(usize::from(thread)) {
            known.turns = turns.max(known.turns / 2);
            known.failed = 0;
            known.has_ended = true;
            known.ended = known.ended.saturating_add(1);
            if known.ended >= MOST_ENDED {
                known.levels = LEVELS;
            }
        }
    }

    /// A task of a thread wasn't evaluated to its end. The next ones keep values on so many levels.
    pub(crate) fn fail(&mut self, thread: u8, levels: u16) {
        if let Some(known) = self.known.get_mut(usize::from(thread)) {
            known.failed = known.failed.saturating_add(1);
            known.ended = 0;
            known.levels = levels;
            known.turns = UNKNOWN;
        }
    }

    /// A task of a thread isn't small, though those before it were.
    pub(crate) fn misjudge(&mut self, thread: u8) {
        if let Some(known) = self.known.get_mut(usize::from(thread)) {
            known.turns = UNKNOWN;
        }
    }

    /// Nothing is known any more.
    pub(crate) fn forget(&mut self) {
        self.known.fill(NOTHING);
    }
}

/// The turns of a thread's last tasks where they aren't known: some of them have to be small until
/// the next ones count as small.
const UNKNOWN: u64 = 64 * MOST_SMALL;

const NOTHING: Known = Known {
    failed: 0,
    passed: 0,
    has_ended: false,
    ended: 0,
    levels: LEVELS,
    turns: UNKNOWN,
};
