//! A task that is evaluated whole, and what is left where that takes too many turns.
ghost use Rattle.std.specs.Prelude.{◌≡◌, ◌≤◌, IfErr, IfOk, [], length, true};
ghost use Rattle.kind_check.specs.Total.{Takes};
ghost use Rattle.serial_meaning.specs.Whole.{AreWholesOf};

use crate::large::large_of;
use ids::Numbers;
use kind_check::Checked;
use node_steps::Work;
use serial_meaning::{ALL_LEVELS, Flat, Keeper, UnderWay, Whole};
use std::alloc::Global;

/// On how many levels below a task an evaluation keeps values, where not on all. To do so on all of
/// them takes up to a half longer.
pub(crate) const LEVELS: u16 = 9;

/// What is left of an evaluation that broke off: in how many turns it did; the values of tasks
/// below that it finished; those tasks that are known to be large; and on how many levels the next
/// evaluation should keep values. Of one that wasn't begun nothing is.
#[derive(Drop)]
pub struct Left {
    pub turns: u64,
    pub kept: Vec<Whole>,
    pub large: Vec<UnderWay>,
    pub levels: u16,
}

impl Left {
    /// Nothing.
    pub fn nothing(alloc: Global) -> Left
        ensures { result.kept.items ≡ [] }
    {
        Left {
            turns: 0,
            kept: Vec::new(alloc),
            large: Vec::new(alloc),
            levels: LEVELS,
        }
    }
}

/// Evaluates a ready frame's task whole, in at most so many turns, and keeps values on so many
/// levels below it. Where that isn't done, the task's numbers come back, and what is left.
pub fn evaluate(
    alloc: Global,
    checked: &Checked,
    flat: &Flat,
    room: u16,
    thread: u8,
    numbers: Numbers,
    most_turns: u64,
    levels: u16,
) -> Result<Whole, (Numbers, Left)>
    requires flat { flat.now.program ≡ checked.now }
    requires takes { Takes checked.now thread (length numbers) }
    ensures whole { IfOk result (λ w. w.program ≡ checked.now) }
    ensures within { IfOk result (λ w. w.turns ≤ most_turns) }
    ensures back { IfErr result (λ e. e.0 ≡ numbers) }
    ensures left { IfErr result (λ e. AreWholesOf checked.now e.1.kept.items) }
{
    let mut keeper = Keeper::new(alloc, checked, levels);
    match Whole::of(
        alloc,
        checked,
        flat,
        &mut keeper,
        room,
        thread,
        numbers,
        most_turns,
    ) {
        Ok(whole) => Ok(whole),
        Err((numbers, _)) => {
            let turns = keeper.taken();
            let (kept, mut large) = keeper.into_parts();
            let levels = levels_behind(kept.as_slice(), room, turns);
            large_of(&mut large, kept.as_slice(), turns);
            Err((
                numbers,
                Left {
                    turns,
                    kept,
                    large,
                    levels,
                },
            ))
        }
    }
}

/// Whether the thread of a ready frame is there and takes its numbers, as it does of each frame
/// that a node has.
pub fn takes_its_numbers(checked: &Checked, work: &Work) -> bool
    ensures { result ≡ true → Takes checked.now work.now.thread (length work.now.numbers) }
{
    if usize::from(work.thread) >= checked.threads() {
        return false;
    }
    checked.program().thread(work.thread).numbers.len() == work.numbers.len()
}

/// On how many levels those evaluations should keep values that follow one of a task with so many
/// places below its own, which took so many turns and didn't come to its end: on all of them, where
/// what it kept on the first ones is less than three quarters of what it did.
fn levels_behind(kept: &[Whole], room: u16, turns: u64) -> u16 {
    let mut near: u64 = 0;
    for value in kept {
        if room.saturating_sub(value.room()) <= LEVELS {
            near = near.saturating_add(value.turns());
        }
    }
    if near < turns - turns / 4 {
        ALL_LEVELS
    } else {
        LEVELS
    }
}
