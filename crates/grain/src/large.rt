//! Which tasks of a node are known to be large: to take more turns than they may be evaluated in.

use ids::limits::MOST_STEPS;
use node_steps::Work;
use serial_meaning::{UnderWay, Whole};
use std::alloc::Global;

/// From how many tasks on that are known to be large older ones are forgotten.
const MOST_LARGE: usize = 4_096;

/// A task that was under way where an evaluation broke off is known to be large where that
/// evaluation had done one in so many of its turns below it, or so many. One that began later may
/// be small, and what was done of it is done again.
const PART: u64 = 8;

const MOST_AGAIN: u64 = 1_024;

/// The tasks that are known to be large, by how deep their places are: so few are looked at for a
/// ready frame, however many are known.
#[derive(Drop)]
pub(crate) struct LargeTasks {
    alloc: Global,
    by_depth: Vec<Vec<UnderWay>>,
    count: usize,
}

impl LargeTasks {
    /// None was tried yet.
    pub(crate) fn new(alloc: Global) -> LargeTasks {
        LargeTasks {
            alloc,
            by_depth: Vec::new(alloc),
            count: 0,
        }
    }

    /// Whether a ready frame's task is known to be large. It isn't any more then.
    pub(crate) fn take(&mut self, work: &Work) -> bool {
        let Some(tasks) = self.by_depth.get_mut(depth_of(work.room)) else {
            return false;
        };
        let Some(index) = tasks.iter().position(|task| is_same(task, work)) else {
            return false;
        };
        let _ = tasks.swap_remove(index);
        self.count = self.count.saturating_sub(1);
        true
    }

    /// Tasks are known to be large, as far as there is memory.
    pub(crate) fn learn(&mut self, tasks: Vec<UnderWay>) {
        if self.count >= MOST_LARGE {
            self.forget();
        }
        for task in tasks {
            if !self.add(task) {
                break;
            }
        }
    }

    /// A task is known to be large. Whether there was memory.
    fn add(&mut self, task: UnderWay) -> bool {
        let depth = depth_of(task.room);
        for _ in self.by_depth.len()..=depth {
            if self.by_depth.push(Vec::new(self.alloc)).is_err() {
                return false;
            }
        }
        let Some(tasks) = self.by_depth.get_mut(depth) else {
            return false;
        };
        if tasks.push(task).is_err() {
            return false;
        }
        self.count = self.count.saturating_add(1);
        true
    }

    /// Nothing is known any more.
    pub(crate) fn forget(&mut self) {
        self.by_depth.clear();
        self.count = 0;
    }
}

/// How many steps from the root a place is that has so many below it.
fn depth_of(room: u16) -> usize {
    usize::from(MOST_STEPS.saturating_sub(room))
}

/// Of the tasks that were under way where an evaluation of so many turns broke off, from the
/// outermost one on, those that are large by what was kept, which stands in the same order.
pub(crate) fn large_of(under_way: &mut Vec<UnderWay>, kept: &[Whole], turns: u64) {
    let room = room_of_part(kept, (turns / PART).min(MOST_AGAIN));
    if let Some(first) = under_way.iter().position(|task| task.room <= room) {
        under_way.truncate(first);
    }
}

/// How many places can be below the innermost value of those that make up so many turns together,
/// from the innermost one outwards; as many as a number says where they don't.
fn room_of_part(kept: &[Whole], turns: u64) -> u16 {
    let mut done: u64 = 0;
    for value in kept.iter().rev() {
        done = done.saturating_add(value.turns());
        if done >= turns {
            return value.room();
        }
    }
    u16::MAX
}

/// Whether a task that was under way is a ready frame's.
fn is_same(task: &UnderWay, work: &Work) -> bool {
    task.thread == work.thread
        && task.room == work.room
        && task.numbers.as_slice() == work.numbers.as_slice()
}
