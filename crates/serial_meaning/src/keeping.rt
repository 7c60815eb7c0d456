//! What an evaluation keeps of the tasks that it finished, for where it doesn't come to its own
//! end.
ghost use Rattle.std.specs.Prelude.{◌≡◌, ◌≤◌, drop, take, vec_len, IfOk, Some};
ghost use Rattle.serial_meaning.specs.Serial.{serial, serial_turns};
ghost use Rattle.serial_meaning.specs.Whole.{AreWholesOf};

use crate::whole::Whole;
use ids::Numbers;
use kind_check::Checked;
use std::alloc::{AllocError, Global};
use std::marker::Model;
use std::snapshot::Snapshot;

/// How many tasks an evaluation had finished, and how many were under way, when a kid began, and on
/// which level that one is.
#[derive(Clone, Copy)]
pub struct Mark {
    finished: usize,
    begun: usize,
    level: u16,
}

/// Doubles the last numbers of a stack, those from `start` on: a kid takes the upper ones away, and
/// the lower ones are at hand when it is done. Where the upper ones begin.
pub fn double(stack: &mut Vec<i64>, start: usize) -> Result<usize, AllocError>
    requires { start ≤ vec_len stack.old }
    ensures inside { IfOk result (λ b. b ≤ vec_len stack.new) }
    ensures numbers { IfOk result (λ b. drop b stack.new.items ≡ drop start stack.old.items) }
    ensures below { IfOk result (λ b. take b stack.new.items ≡ stack.old.items) }
{
    let end = stack.len();
    stack.extend_from_within(start..)?;
    Ok(end)
}

/// How many turns a task takes at least that is kept.
pub const LEAST_KEPT: u64 = 128;

/// After so many kids that took fewer turns an evaluation doesn't look as deep any more.
const MOST_SMALL: u32 = 64;

/// On so many levels kids are kept where all of them are to be.
pub const ALL_LEVELS: u16 = u16::MAX;

/// A task that has begun: its thread, how many places can be below its own, and where its numbers
/// stand on the stack.
#[derive(Clone, Copy)]
struct Begun {
    thread: u8,
    room: u16,
    start: usize,
    end: usize,
}

/// A task that an evaluation had begun and didn't finish: its thread, how many places can be below
/// its own, and its numbers. It is a hint alone.
#[derive(Drop)]
pub struct UnderWay {
    pub thread: u8,
    pub room: u16,
    pub numbers: Numbers,
}

/// Keeps the tasks of one program that an evaluation finished and that are no part of another one
/// that it finished, and those that it had begun, down to some level below the task itself. That
/// level rises and sinks with the turns that kids take, so that few are looked at which are too
/// small to be kept. Where there is no memory it keeps less.
#[derive(Drop)]
pub struct Keeper {
    // It has no bytes.
    program: Snapshot<Checked>,
    alloc: Global,
    // On how many levels kids are kept, at most and now, and how many were too small so far.
    most_levels: u16,
    levels: u16,
    small: u32,
    finished: Vec<Whole>,
    begun: Vec<Begun>,
    under_way: Vec<UnderWay>,
    // In how many turns the evaluation broke off.
    taken: u64,
}

impl Model for Keeper {
    ghost use Rattle.task_tree.specs.declared.tree.Program.{Program};
    ghost use Rattle.task_tree.specs.Codes.{program_codes};
    ghost use Rattle.serial_meaning.specs.Whole.{AreWholesOf};

    ghost Value = { Program };

    ghost coded = { Prim.hlevel program_codes };

    ghost view = { λ k. k.program.value };

    ghost invariant = { λ k. AreWholesOf k.program.value k.finished.items };
}

impl Keeper {
    /// Nothing of this program's tasks is kept yet, and kids will be on so many levels at most, or
    /// on all of them: kids of the task itself are on the first one.
    pub fn new(alloc: Global, checked: &Checked, levels: u16) -> Keeper
        ensures { result ≡ checked.now }
    {
        Keeper {
            program: Snapshot::of(checked),
            alloc,
            most_levels: levels,
            levels,
            small: 0,
            finished: Vec::new(alloc),
            begun: Vec::new(alloc),
            under_way: Vec::new(alloc),
            taken: 0,
        }
    }

    /// In how many turns the evaluation broke off, where it ran out of turns, or came to where no
    /// place is left. It is a hint alone.
    pub fn taken(&self) -> u64 {
        self.taken
    }

    /// The evaluation broke off in so many turns.
    pub(crate) fn note_taken(&mut self, turns: u64)
        ensures { self.new ≡ self.old }
    {
        self.taken = turns;
    }

    /// The tasks that were finished, and those that were under way where the evaluation ran out of
    /// turns, or came to where no place is left.
    pub fn into_parts(self) -> (Vec<Whole>, Vec<UnderWay>)
        ensures { AreWholesOf self result.0.items }
    {
        (self.finished, self.under_way)
    }

    /// Whether kids of a task on this level are kept; the task itself is on level 0.
    pub(crate) fn keeps_below(&self, level: u16) -> bool {
        level < self.levels
    }

    /// A kid begins on a level: a task of a thread, with so many places below its own, whose
    /// numbers stand from `start` to `end` on the stack.
    pub(crate) fn begins(
        &mut self,
        level: u16,
        thread: u8,
        room: u16,
        start: usize,
        end: usize,
    ) -> Mark
        ensures { self.new ≡ self.old }
    {
        let mark = Mark {
            finished: self.finished.len(),
            begun: self.begun.len(),
            level,
        };
        self.goes_on(thread, room, start, end);
        mark
    }

    /// A task goes on as its successor, which is said in the same way.
    pub(crate) fn goes_on(&mut self, thread: u8, room: u16, start: usize, end: usize)
        ensures { self.new ≡ self.old }
    {
        let _ = self.begun.push(Begun {
            thread,
            room,
            start,
            end,
        });
    }

    /// A kid that began with this mark gave a number, in so many turns.
    pub(crate) fn keeps(
        &mut self,
        checked: &Checked,
        mark: Mark,
        thread: u8,
        room: u16,
        numbers: &[i64],
        turns: u64,
        value: i64,
    )
        requires same { self.old ≡ checked.now }
        requires gives { serial checked.now room thread numbers.now ≡ Some value }
        requires takes { serial_turns checked.now room thread numbers.now ≡ turns }
        ensures { self.new ≡ self.old }
    {
        self.begun.truncate(mark.begun);
        if turns < LEAST_KEPT {
            self.is_small_on(mark.level);
            return;
        }
        self.is_kept_on(mark.level);
        self.finished.truncate(mark.finished);
        if let Ok(numbers) = Numbers::copy_of(self.alloc, numbers) {
            let _ = self
                .finished
                .push(Whole::kept(checked, thread, numbers, room, value, turns));
        }
    }

    /// A kid on a level is too small to be kept. After some of them those on that level aren't
    /// looked at, unless all levels are wanted.
    fn is_small_on(&mut self, level: u16)
        ensures { self.new ≡ self.old }
    {
        if self.most_levels == ALL_LEVELS {
            return;
        }
        if self.small < MOST_SMALL {
            self.small += 1;
        } else {
            self.levels = self.levels.min(level.saturating_sub(1).max(1));
        }
    }

    /// A kid on a level is kept, so those on the next one may be too.
    fn is_kept_on(&mut self, level: u16)
        ensures { self.new ≡ self.old }
    {
        self.levels = self
            .levels
            .max(level.saturating_add(1))
            .min(self.most_levels);
    }

    /// The evaluation ends in the midst, with this stack: the numbers of what is under way are
    /// taken from there.
    pub(crate) fn breaks_off(&mut self, stack: &[i64])
        ensures { self.new ≡ self.old }
    {
        for begun in &self.begun {
            let Some(numbers) = stack.get(begun.start..begun.end) else {
                continue;
            };
            if let Ok(numbers) = Numbers::copy_of(self.alloc, numbers) {
                let _ = self.under_way.push(UnderWay {
                    thread: begun.thread,
                    room: begun.room,
                    numbers,
                });
            }
        }
    }
}
