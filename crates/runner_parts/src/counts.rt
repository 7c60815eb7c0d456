use crossbeam_utils::CachePadded;
use std::sync::Wait;
use std::sync::atomic::AtomicU64;
use std::sync::atomic::Ordering::SeqCst;
use std::time::Duration;

/// Why a run ends, as its actors tell each other.
#[derive(Clone, Copy, Debug, PartialEq, Eq)]
pub enum End {
    /// All turns were taken.
    Turns,
    /// There is no memory.
    Memory,
    /// A thread isn't there, and nothing has begun.
    Missing,
    /// The clearinghouse can't go on with its disk, with the number of its refusal.
    Disk(u8),
}

/// How many turns a thread takes at once at most.
const BATCH: u64 = 64;

/// For so many turns that a run may take a thread takes one at once, and one more for each as many
/// again.
const SHARE: u64 = 65_536;

/// What is added to the count of threads where one gives up waiting for the others: more than there
/// are.
const GIVEN_UP: u64 = 1 << 32;

/// What the actors of a run count together, each number by one step of an atomic word. The words
/// lie on cache lines of their own: a thread that counts turns or bodies takes no line from one
/// that counts events.
#[derive(Drop)]
pub struct Counts {
    limit: u64,
    patience: u64,
    // Of the turns that are left an evaluation takes one in so many at most.
    parts: u64,
    threads: AtomicU64,
    turns: CachePadded<AtomicU64>,
    events: CachePadded<AtomicU64>,
    bodies: CachePadded<AtomicU64>,
    vain: AtomicU64,
    used: AtomicU64,
    end: CachePadded<AtomicU64>,
}

/// The turns that a thread has taken and not begun. It takes some at once, so that threads seldom
/// wait for each other's count.
#[derive(Drop)]
pub struct Turns {
    left: u64,
}

impl Turns {
    /// None is taken.
    pub fn new() -> Turns {
        Turns { left: 0 }
    }
}

/// The words of an end; 0 stands for none.
const TURNS: u64 = 1;

const MEMORY: u64 = 2;

const MISSING: u64 = 3;

const DISK: u64 = 256;

impl Counts {
    /// Nothing is counted yet, so many turns may be taken, a thread that waits for others sleeps so
    /// often before the first one, and so many threads evaluate tasks at once.
    pub fn new(limit: u64, patience: u64, evaluators: u64) -> Counts {
        Counts {
            limit,
            patience,
            parts: evaluators.saturating_mul(2).max(1),
            threads: AtomicU64::new(0),
            turns: CachePadded::new(AtomicU64::new(0)),
            events: CachePadded::new(AtomicU64::new(0)),
            bodies: CachePadded::new(AtomicU64::new(0)),
            vain: AtomicU64::new(0),
            used: AtomicU64::new(0),
            end: CachePadded::new(AtomicU64::new(0)),
        }
    }

    /// How often a thread sleeps at most that waits for others before its first turn.
    pub fn patience(&self) -> u64 {
        self.patience
    }

    /// One more thread is there, of so many; the last one wakes those that wait for it.
    pub fn appear(&self, all: u64) {
        if self.threads.fetch_add(1, SeqCst).wrapping_add(1) == all {
            self.threads.wake_all();
        }
    }

    /// Sleeps until all of so many threads are there, for at most so many microseconds.
    pub fn await_threads<R: Wait>(&self, rt: &R, all: u64, most: u64) {
        let there = self.threads.load(SeqCst);
        if there != all {
            let most = Duration::from_micros(most);
            self.threads
                .park_timeout(rt, (there & 0xffff_ffff) as u32, most);
        }
    }

    /// Whether so many threads, which are all, are there, and none gave up before.
    pub fn are_there(&self, all: u64) -> bool {
        self.threads.load(SeqCst) == all
    }

    /// A thread gives up waiting for all of so many, unless they are there by now. Whether it did:
    /// then they are never all there.
    pub fn give_up(&self, all: u64) -> bool {
        for _ in 0..u64::MAX {
            let there = self.threads.load(SeqCst);
            if there == all {
                return false;
            }
            if there >= GIVEN_UP {
                return true;
            }
            let given_up = there + GIVEN_UP;
            if self
                .threads
                .compare_exchange(there, given_up, SeqCst, SeqCst)
                .is_ok()
            {
                return true;
            }
        }
        true
    }

    /// A thread takes a turn, of those that it has, or else of those that are left to all. Whether
    /// there was one, and the run hasn't ended.
    pub fn take_turn(&self, own: &mut Turns) -> bool {
        if own.left == 0 {
            own.left = self.take_batch();
        }
        own.left = own.left.saturating_sub(1);
        self.end.load(SeqCst) == 0
    }

    /// How many turns a thread gets that has none. The run ends where none is left.
    fn take_batch(&self) -> u64 {
        let batch = (self.limit / SHARE).max(1).min(BATCH);
        let taken = self.turns.fetch_add(batch, SeqCst);
        let left = self.limit.saturating_sub(taken);
        if left == 0 {
            self.end_by(End::Turns);
        }
        left.min(batch)
    }

    /// How many turns of at most so many a thread gets for an evaluation, besides its own. They are
    /// few where few are left, so that all evaluators together leave others half of them.
    pub fn take_for(&self, most: u64) -> u64 {
        let left = self.limit.saturating_sub(self.turns.load(SeqCst));
        let taken = most.min(left.checked_div(self.parts).unwrap_or(0));
        let _ = self.turns.fetch_add(taken, SeqCst);
        taken
    }

    /// Turns that were taken for an evaluation aren't needed.
    pub fn give_back(&self, turns: u64) {
        let _ = self.turns.fetch_sub(turns, SeqCst);
    }

    /// So many turns were evaluated in vain, but for those of values that were kept, as long as
    /// none of these is used.
    pub fn waste(&self, turns: u64) {
        let _ = self.vain.fetch_add(turns, SeqCst);
    }

    /// A value was used that an evaluation kept: its turns weren't taken in vain.
    pub fn use_kept(&self, turns: u64) {
        let _ = self.used.fetch_add(1, SeqCst);
        let _ = self.vain.fetch_sub(turns, SeqCst);
    }

    /// How many values were used that evaluations kept.
    pub fn used(&self) -> u64 {
        self.used.load(SeqCst)
    }

    /// How many turns were evaluated in vain.
    pub fn vain(&self) -> u64 {
        self.vain.load(SeqCst)
    }

    /// An event was committed.
    pub fn count_event(&self) {
        let _ = self.events.fetch_add(1, SeqCst);
    }

    /// How many events were committed.
    pub fn events(&self) -> u64 {
        self.events.load(SeqCst)
    }

    /// The number of a body that is about to be evaluated, from 1 on.
    pub fn body(&self) -> u64 {
        self.bodies.fetch_add(1, SeqCst).wrapping_add(1)
    }

    /// The run ends, if it hasn't yet.
    pub fn end_by(&self, end: End) {
        let word = match end {
            End::Turns => TURNS,
            End::Memory => MEMORY,
            End::Missing => MISSING,
            End::Disk(number) => DISK + u64::from(number),
        };
        let _ = self.end.compare_exchange(0, word, SeqCst, SeqCst);
    }

    /// Why the run ended, if it was for one of these reasons.
    pub fn end(&self) -> Option<End> {
        match self.end.load(SeqCst) {
            0 => None,
            TURNS => Some(End::Turns),
            MISSING => Some(End::Missing),
            word if word >= DISK => Some(End::Disk((word % DISK) as u8)),
            _ => Some(End::Memory),
        }
    }
}
