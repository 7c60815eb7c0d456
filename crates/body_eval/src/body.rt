ghost use Rattle.std.specs.Prelude.{◌≡◌, length, IfOk, IsSome, Some};
ghost use Rattle.kind_check.specs.Turns.{turn_of};
ghost use Rattle.kind_check.specs.Total.{Takes, TurnFits};
ghost use Rattle.kind_check.specs.Code.{code_slot, code_slots, leaf_turn};

use crate::expression::{value, values};
use crate::walk::{leaf, plain_leaf};
use ids::Listed;
use kind_check::{Checked, Kid, Leaf, Slot, SlotCode, Turn};
use std::alloc::{AllocError, Global};

/// The end that the body of a thread reaches on these numbers; refused only when out of memory.
#[tactic(auto, using(crate::proofs::Turning::end_known, crate::proofs::Turning::end_turn, crate::proofs::Turning::turn_fits))]
pub fn turn(
    alloc: Global,
    checked: &Checked,
    thread: u8,
    numbers: &[i64],
) -> Result<Turn, AllocError>
    requires { Takes checked.now thread (length numbers.now) }
    ensures reached { IfOk result (λ turn. turn_of checked.now thread numbers.now ≡ Some turn) }
    ensures fits { IfOk result (λ turn. TurnFits checked.now turn) }
{
    // (most bodies let nothing, and need no other environment than their numbers)
    if let Some(end) = plain_leaf(checked, thread, numbers) {
        return turn_at(alloc, numbers, end);
    }
    let mut stack = Vec::from_slice(alloc, numbers)?;
    let end = leaf(checked, thread, &mut stack, 0)?;
    turn_at(alloc, &stack, end)
}

/// The end of a body, in the environment there.
#[tactic(auto, using(crate::proofs::Turning::sent_known, crate::proofs::Turning::sent_turn, crate::proofs::Turning::joined_known, crate::proofs::Turning::joined_turn))]
fn turn_at(alloc: Global, numbers: &[i64], end: &Leaf) -> Result<Turn, AllocError>
    requires { IsSome (leaf_turn numbers.now end.now) }
    ensures { IfOk result (λ turn. leaf_turn numbers.now end.now ≡ Some turn) }
{
    match end {
        Leaf::Sends(number) => Ok(Turn::Sends(value(numbers, number))),
        Leaf::Joins(successor, slots) => {
            Ok(Turn::Joins(*successor, slot_values(alloc, numbers, slots)?))
        }
    }
}

/// The slots of a successor.
fn slot_values(
    alloc: Global,
    numbers: &[i64],
    codes: &Listed<SlotCode>,
) -> Result<Listed<Slot>, AllocError>
    requires { IsSome (code_slots numbers.now codes.now) }
    ensures { IfOk result (λ slots. code_slots numbers.now codes.now ≡ Some slots) }
{
    let mut slots = Listed::with_capacity(alloc, codes.len())?;
    for code in codes.as_slice() {
        slots.push(slot(alloc, numbers, code)?)?;
    }
    Ok(slots)
}

/// A slot: a number, or a kid.
fn slot(alloc: Global, numbers: &[i64], code: &SlotCode) -> Result<Slot, AllocError>
    requires { IsSome (code_slot numbers.now code.now) }
    ensures { IfOk result (λ slot. code_slot numbers.now code.now ≡ Some slot) }
{
    match code {
        SlotCode::Given(number) => Ok(Slot::Filled(value(numbers, number))),
        SlotCode::Spawns(hole, thread, codes) => {
            let arguments = values(alloc, numbers, codes)?;
            Ok(Slot::Awaits(Kid {
                hole: *hole,
                thread: *thread,
                arguments,
            }))
        }
    }
}
