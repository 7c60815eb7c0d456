//! What a node knows of its tasks' sizes.
ghost use Rattle.std.specs.Prelude.{◌≡◌, length};
ghost use Rattle.kind_check.specs.Total.{Takes};

use crate::budget::{Budget, Grain};
use crate::large::LargeTasks;
use crate::left::Left;
use crate::threads::Threads;
use kind_check::{BlockCode, Checked, EndCode, Leaf};
use node_steps::Work;
use serial_meaning::{ALL_LEVELS, Whole};
use std::alloc::{AllocError, Global};

/// In how many turns a node's next task should be evaluated, and which ones are known to be large,
/// by those before.
#[derive(Drop)]
pub struct TaskSizes {
    budget: Budget,
    large: LargeTasks,
    threads: Threads,
}

impl TaskSizes {
    /// None was evaluated yet.
    pub fn new(alloc: Global, grain: Grain) -> Result<TaskSizes, AllocError> {
        Ok(TaskSizes {
            budget: Budget::new(grain),
            large: LargeTasks::new(alloc),
            threads: Threads::new(alloc)?,
        })
    }

    /// In at most how many turns the next task is evaluated; 0 where only its own turn is.
    pub fn most_turns(&self) -> u64 {
        self.budget.most_turns()
    }

    /// On how many levels below it the evaluation of a thread's next task keeps what was finished
    /// and what was under way.
    pub fn levels(&self, thread: u8) -> u16 {
        self.threads.levels(thread)
    }

    /// Whether a ready frame's task takes one turn, as its thread spawns nothing, and tasks are
    /// evaluated whole.
    pub fn is_short(&self, checked: &Checked, work: &Work) -> bool
        requires { Takes checked.now work.now.thread (length work.now.numbers) }
    {
        self.budget.is_some() && only_sends(checked.body(work.thread))
    }

    /// Whether a ready frame's task is known to be large, which it isn't any more then, or isn't
    /// tried, as its thread's tasks are.
    pub fn was_large(&mut self, work: &Work) -> bool {
        self.large.take(work) || self.threads.pass_over(work.thread)
    }

    /// A task was evaluated to its end.
    pub fn succeed(&mut self, whole: &Whole) {
        self.budget.succeed(whole.turns());
        self.threads.succeed(whole.thread(), whole.turns());
    }

    /// In at most how many turns a ready frame's task is evaluated where it is small by those of
    /// its thread before it, so that it is done sooner than another thread is told of it; 0 where
    /// it isn't.
    pub fn few_turns(&self, thread: u8) -> u64 {
        self.threads.few_turns(thread)
    }

    /// A task took more turns than those of its thread before it.
    pub fn misjudge(&mut self, thread: u8) {
        self.threads.misjudge(thread);
    }

    /// A frame is carried out by a value that was kept.
    pub fn use_kept(&mut self, whole: &Whole) {
        self.budget.use_kept(whole.turns());
    }

    /// A task of a thread wasn't evaluated to its end, and this is left, whose values come back.
    pub fn fail(&mut self, thread: u8, left: Left) -> Vec<Whole>
        ensures { result ≡ left.kept }
    {
        let Left {
            turns,
            kept,
            large,
            levels,
        } = left;
        if turns > 0 {
            let has_ended = self.threads.has_ended(thread);
            self.budget.fail(turns, levels == ALL_LEVELS, has_ended);
            self.threads.fail(thread, levels);
        }
        self.large.learn(large);
        kept
    }

    /// Nothing is known of tasks any more.
    pub fn forget(&mut self) {
        self.large.forget();
        self.threads.forget();
        self.budget.forget();
    }
}

/// Whether a body gives a number however it ends.
fn only_sends(block: &BlockCode) -> bool {
    match &block.end {
        EndCode::Leaf(Leaf::Sends(_)) => true,
        EndCode::Leaf(Leaf::Joins(_, _)) => false,
        EndCode::If(_, first, second) => only_sends(first) && only_sends(second),
    }
}
