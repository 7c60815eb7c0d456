//! In how many turns a node lets its body workers evaluate a task.

/// How a run evaluates tasks whole: each in at most so many turns, or, where these are 0, only as
/// its own turn; and how many threads of it evaluate at once.
#[derive(Clone, Copy)]
pub struct Grain {
    pub most_turns: u64,
    pub evaluators: u64,
}

/// So many turns a task may take at least, where a run allows as many: they take about as long as
/// the events of its frame.
const LEAST: u64 = 1_024;

/// The first task of a node may take one in so many of the turns that a run allows, divided by all
/// that evaluate: so each of them has something soon, and little is lost where another node is
/// granted that task meanwhile.
const FIRST: u64 = 8;

/// Where less than one in so many turns of values that were used was in vain, a task may take one
/// in so many of these.
const FEW: u64 = 8;

const PART: u64 = 32;

/// In at most how many turns the next task is evaluated. They are halved where one didn't come to
/// its end in as many, and doubled where one took more than half of them; there are more where
/// little was in vain so far. So what is evaluated in vain is at most some times as much as what
/// isn't, however many of a node's tasks are large. They are no fewer than the first one had, but
/// in a program that goes deep, of which little is kept, as few as are worth it. A thread of which
/// no task came to its end so far tells nothing of others' tasks: beside its large ones those may be
/// small.
///
/// Where one thread evaluates alone nobody waits for a part of what it has, and a task takes as
/// many turns as it needs; once one wasn't evaluated to its end all the same, as it is too deep or
/// the run has no more turns, each takes at most as many as the run allows, and, unless the program
/// goes deep, no fewer.
#[derive(Clone, Copy)]
pub(crate) struct Budget {
    // How many a run allows where several threads evaluate; 0 where each frame takes its own turn.
    grain: u64,
    // How many the first task may take, and where it takes more, the one behind it.
    begin: u64,
    first: u64,
    // How many any one may take now, and how many each one at least, at first and now.
    allowed: u64,
    least: u64,
    floor: u64,
    most: u64,
    // The turns of values by which frames were carried out, and of those that were tried in vain,
    // but for kept values that were used.
    used: u64,
    vain: u64,
}

impl Budget {
    /// None was evaluated yet.
    pub(crate) fn new(grain: Grain) -> Budget {
        let most = grain.most_turns;
        let parts = FIRST.saturating_mul(grain.evaluators);
        let part = most.checked_div(parts).unwrap_or(most);
        let first = part.max(LEAST).min(most);
        let is_alone = grain.evaluators <= 1;
        let least = if is_alone { most } else { first };
        let begin = if is_alone && most > 0 {
            u64::MAX
        } else {
            first
        };
        Budget {
            grain: most,
            begin,
            first,
            allowed: most.max(begin),
            least,
            floor: least,
            most: begin,
            used: 0,
            vain: 0,
        }
    }

    /// Whether tasks are evaluated whole.
    pub(crate) fn is_some(&self) -> bool {
        self.grain > 0
    }

    /// In at most how many turns the next task is evaluated.
    pub(crate) fn most_turns(&self) -> u64 {
        if self.vain < self.used / FEW {
            self.most.max(self.used / PART).min(self.allowed)
        } else {
            self.most
        }
    }

    /// A frame is carried out by its task's value, which was found in so many turns.
    pub(crate) fn succeed(&mut self, turns: u64) {
        self.used = self.used.saturating_add(turns);
        if turns > self.most / 2 {
            self.most = self.most.saturating_mul(2).min(self.allowed);
        }
    }

    /// The same, where the value was kept: these turns weren't in vain.
    pub(crate) fn use_kept(&mut self, turns: u64) {
        self.succeed(turns);
        self.vain = self.vain.saturating_sub(turns);
    }

    /// A task wasn't evaluated to its end in so many turns. Where most of these were deep below it
    /// little may be kept of the next ones too, so that they may be as few as are worth it. Where no
    /// task of its thread was evaluated to its end so far, others' are as they were.
    pub(crate) fn fail(&mut self, turns: u64, is_deep: bool, has_ended: bool) {
        self.vain = self.vain.saturating_add(turns);
        let was_free = self.allowed > self.grain;
        if is_deep && (was_free || has_ended) {
            self.floor = LEAST.min(self.grain);
        }
        if was_free {
            self.allowed = self.grain;
            self.most = self.first.max(self.floor);
        } else if has_ended && turns <= self.most {
            self.most = (self.most / 2).max(self.floor);
        }
    }

    /// Another node starts at the place: nothing is known of its tasks.
    pub(crate) fn forget(&mut self) {
        self.allowed = self.grain.max(self.begin);
        self.floor = self.least;
        self.most = self.begin;
        self.used = 0;
        self.vain = 0;
    }
}
