ghost use Rattle.std.specs.Prelude.{◌≡◌, ◌≤◌, vec_len, length, drop, take, IfOk, IfSome, IsSome, OnOk, Some};
ghost use Rattle.kind_check.specs.Code.{code_lets, code_turn, leaf_turn};
ghost use Rattle.kind_check.specs.Total.{Takes};
ghost use Rattle.body_eval.specs.Reached.{Reached};

use crate::expression::value;
use ids::Listed;
use kind_check::{BlockCode, Checked, Code, EndCode, Leaf};
use std::alloc::AllocError;

/// The numbers of a stack from `base` on: an environment.
#[inline(always)]
pub fn above(stack: &Vec<i64>, base: usize) -> &[i64]
    requires { base ≤ vec_len stack.now }
    ensures { result.now ≡ drop base stack.now.items }
{
    stack.as_slice().split_at(base).1
}

/// Adds what is let to the environment from `base` on.
fn bind(stack: &mut Vec<i64>, base: usize, lets: &Listed<Code>) -> Result<(), AllocError>
    requires inside { base ≤ vec_len stack.old }
    requires reaches { IsSome (code_lets (drop base stack.old.items) lets.now) }
    ensures kept { OnOk result (take base stack.new.items ≡ take base stack.old.items) }
    ensures inside { base ≤ vec_len stack.new }
    ensures lets { OnOk result (code_lets (drop base stack.old.items) lets.now ≡ Some (drop base stack.new.items)) }
{
    for each in lets.as_slice() {
        let number = value(above(stack, base), each);
        stack.push(number)?;
    }
    Ok(())
}

/// Where a block ends in the environment from `base` on, to which it adds what is let on the way;
/// what stands before it in the stack stays.
fn block_leaf<'a>(
    stack: &mut Vec<i64>,
    base: usize,
    block: &'a BlockCode,
) -> Result<&'a Leaf, AllocError>
    requires inside { base ≤ vec_len stack.old }
    requires reaches { IsSome (code_turn (drop base stack.old.items) block.now) }
    ensures kept { OnOk result (take base stack.new.items ≡ take base stack.old.items) }
    ensures inside { base ≤ vec_len stack.new }
    ensures leaf { IfOk result (λ l. leaf_turn (drop base stack.new.items) l.now
        ≡ code_turn (drop base stack.old.items) block.now) }
{
    bind(stack, base, &block.lets)?;
    match &block.end {
        EndCode::If(condition, first, second) => {
            if value(above(stack, base), condition) == 0 {
                block_leaf(stack, base, second)
            } else {
                block_leaf(stack, base, first)
            }
        }
        EndCode::Leaf(end) => Ok(end),
    }
}

/// Where a block ends in an environment, if nothing is let on the way. It takes no memory.
fn plain_block_leaf<'a>(numbers: &[i64], block: &'a BlockCode) -> Option<&'a Leaf>
    requires { IsSome (code_turn numbers.now block.now) }
    ensures { IfSome result (λ l. leaf_turn numbers.now l.now ≡ code_turn numbers.now block.now) }
{
    if !block.lets.is_empty() {
        return None;
    }
    match &block.end {
        EndCode::If(condition, first, second) => {
            if value(numbers, condition) == 0 {
                plain_block_leaf(numbers, second)
            } else {
                plain_block_leaf(numbers, first)
            }
        }
        EndCode::Leaf(end) => Some(end),
    }
}

/// Where the body of a thread ends on these numbers, if nothing is let on the way: they are its
/// environment there. It takes no memory.
#[tactic(auto, using(crate::proofs::Turning::thread_there, crate::proofs::Turning::body_reaches, crate::proofs::Turning::leaf_reached))]
pub fn plain_leaf<'a>(checked: &'a Checked, thread: u8, numbers: &[i64]) -> Option<&'a Leaf>
    requires { Takes checked.now thread (length numbers.now) }
    ensures { IfSome result (λ l. Reached checked.now thread numbers.now numbers.now l.now) }
{
    let _program = checked.program();
    plain_block_leaf(numbers, checked.body(thread))
}

/// Where the body of a thread ends, which ran on the numbers from `base` on; they become its
/// environment. What stands before them in the stack stays.
#[tactic(auto, using(crate::proofs::Turning::thread_there, crate::proofs::Turning::body_reaches, crate::proofs::Turning::leaf_reached))]
pub fn leaf<'a>(
    checked: &'a Checked,
    thread: u8,
    stack: &mut Vec<i64>,
    base: usize,
) -> Result<&'a Leaf, AllocError>
    requires inside { base ≤ vec_len stack.old }
    requires takes { Takes checked.now thread (length (drop base stack.old.items)) }
    ensures kept { OnOk result (take base stack.new.items ≡ take base stack.old.items) }
    ensures inside { base ≤ vec_len stack.new }
    ensures reached { IfOk result (λ l. Reached checked.now thread (drop base stack.old.items)
        (drop base stack.new.items) l.now) }
{
    let _program = checked.program();
    block_leaf(stack, base, checked.body(thread))
}
