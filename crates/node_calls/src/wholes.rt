//! A node carries out a ready frame by its whole value.
ghost use Rattle.std.specs.Prelude.{◌≡◌, true, IsErrOf};
ghost use Rattle.kind_check.specs.declared.turn.Turn.TheVariants.{Sends};
ghost use Rattle.sub_rules.specs.Carrying.{ended};
ghost use Rattle.node_steps.specs.Calls as calls;
ghost use Rattle.node_steps.specs.Meeting.{MayLackMemory, Meets};
ghost use Rattle.node_steps.specs.declared.error.NodeError.TheVariants.{Memory};

use crate::turns::{carry_out, ready_work};
use body_eval::Turn;
use ids::{FrameNo, GrantId};
use node_state::State;
use node_steps::{JobNode, NodeError, Step, room_of, work_in};
use serial_meaning::{Flat, Keeper, Unfinished, Whole};
use std::alloc::Global;
use sub_rules::is_stale_for;

/// Evaluates the task of a ready frame of a grant's subcomputation with all that comes of it, and
/// carries the frame out by the number that it gives: the call `Node::whole_ready`, which tells
/// when it is refused.
#[tactic(auto, unfolding(node_steps::specs::Cases::by_option, node_state::specs::Node::by_state))]
pub fn whole_ready(
    node: &mut JobNode,
    alloc: Global,
    flat: &Flat,
    grant: GrantId,
    frame: FrameNo,
    most_turns: u64,
) -> Result<Step, NodeError>
    requires { flat.now.program ≡ node.old.job.program }
    ensures answer { Meets (calls.whole_ready node.old.job most_turns grant frame node.old.node)
        result node.old node.new }
    ensures out_of_memory { IsErrOf result Memory → MayLackMemory
        (calls.whole_ready node.old.job most_turns grant frame node.old.node) }
{
    let checked = node.job.checked();
    let _program = checked.program();
    let work = ready_work!(node, alloc, grant, frame);
    let mut keeper = Keeper::new(alloc, checked, 0);
    match Whole::of(
        alloc,
        checked,
        flat,
        &mut keeper,
        work.room,
        work.thread,
        work.numbers,
        most_turns,
    ) {
        Ok(whole) => send_whole(node, alloc, grant, frame, &whole),
        Err((_, Unfinished::Memory)) => Err(NodeError::Memory),
        Err((_, Unfinished::TooDeep | Unfinished::TurnsSpent)) => Err(NodeError::NoValue),
    }
}

/// Carries out a ready frame of that thread with these numbers by what its task gives.
pub fn send_whole(
    node: &mut JobNode,
    alloc: Global,
    grant: GrantId,
    frame: FrameNo,
    whole: &Whole,
) -> Result<Step, NodeError>
    ensures answer { Meets (calls.exec node.old.job
        (ended node.old.job.program whole.now.thread whole.now.numbers (Sends whole.now.value))
        grant frame node.old.node) result node.old node.new }
    ensures out_of_memory { IsErrOf result Memory → MayLackMemory (calls.exec node.old.job
        (ended node.old.job.program whole.now.thread whole.now.numbers (Sends whole.now.value))
        grant frame node.old.node) }
{
    node.whole_turns = whole.turns();
    carry_out(
        node,
        alloc,
        grant,
        frame,
        whole.thread(),
        whole.numbers(),
        &Turn::Sends(whole.value()),
    )
}

/// Whether a task that was evaluated whole is a ready frame's own: carrying the frame out by
/// its whole value is sending this one's then.
pub fn is_own_whole(
    node: &JobNode,
    grant: GrantId,
    frame: FrameNo,
    most_turns: u64,
    whole: &Whole,
) -> bool
    requires { whole.now.program ≡ node.now.job.program }
    ensures { result ≡ true → calls.whole_ready node.now.job most_turns grant frame node.now.node
        ≡ calls.exec node.now.job
        (ended node.now.job.program whole.now.thread whole.now.numbers (Sends whole.now.value))
        grant frame node.now.node }
{
    let State::Member(_) = node.parts.state() else {
        return false;
    };
    let Some(sub) = node.parts.sub(grant) else {
        return false;
    };
    let Some(found) = sub.content().frames.get(frame) else {
        return false;
    };
    if whole.turns() > most_turns {
        return false;
    }
    if whole.room() != room_of(&found.place) {
        return false;
    }
    !is_stale_for(sub.content(), frame, whole.thread(), whole.numbers())
}
