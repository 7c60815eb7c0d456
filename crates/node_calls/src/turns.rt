//! A node carries out a ready frame, by the end to which its thread comes.
ghost use Rattle.std.specs.Prelude.{◌≡◌, true, IsErrOf};
ghost use Rattle.kind_check.specs.Total.{TurnFits};
ghost use Rattle.sub_rules.specs.Carrying.{ended};
ghost use Rattle.sub_rules.specs.Turning.{TurnFew};
ghost use Rattle.node_steps.specs.Calls as calls;
ghost use Rattle.node_steps.specs.Meeting.{MayLackMemory, Meets};
ghost use Rattle.node_steps.specs.declared.error.NodeError.TheVariants.{Memory};

use body_eval::{Done, Turn};
use ids::{FrameNo, GrantId, Listed};
use node_state::State;
use node_steps::{JobNode, NodeError, Step, work_in};
use std::alloc::Global;
use sub_rules::{is_stale, law_turn_is_few};

/// The work of a ready frame of a grant's subcomputation, as a call of a node begins that evaluates
/// it. Where there is none that call is refused: by E60 where the node isn't joined or has ended,
/// by E40 where the frame isn't ready here, as none is at a leaving node, and by E63 where there is
/// no memory.
macro_rules! ready_work {
    ($node:ident, $alloc:ident, $grant:ident, $frame:ident) => {{
        match $node.parts.state() {
            State::Member(_) => {}
            State::Leaving(_, _) => return Err(NodeError::Stale),
            State::Joining | State::Ended => return Err(NodeError::NotJoined),
        }
        let Some(sub) = $node.parts.sub($grant) else {
            return Err(NodeError::Stale);
        };
        if !sub.is_ready($frame) {
            return Err(NodeError::Stale);
        }
        let Some(work) = work_in($alloc, $grant, sub, $frame)? else {
            return Err(NodeError::Stale);
        };
        work
    }};
}

pub(crate) use ready_work;

/// Carries out a ready frame of a grant's subcomputation by the end to which that thread comes
/// on these numbers, whoever found it. E60 where the node isn't joined or has ended; E40 where
/// the frame isn't ready here with that thread and those numbers, as none is at a leaving node;
/// E62 where no frame numbers are left; E63 where there is no memory. A refusal changes
/// nothing.
#[tactic(auto, unfolding(node_steps::specs::Calls::exec, node_steps::specs::Cases::by_option, node_state::specs::Node::by_state))]
pub fn carry_out(
    node: &mut JobNode,
    alloc: Global,
    grant: GrantId,
    frame: FrameNo,
    thread: u8,
    numbers: &[i64],
    turn: &Turn,
) -> Result<Step, NodeError>
    requires few { TurnFew turn.now }
    requires fits { TurnFits node.old.job.program turn.now }
    ensures answer { Meets (calls.exec node.old.job (ended node.old.job.program thread numbers.now turn.now)
        grant frame node.old.node) result node.old node.new }
    ensures out_of_memory { IsErrOf result Memory → MayLackMemory (calls.exec node.old.job
        (ended node.old.job.program thread numbers.now turn.now) grant frame node.old.node) }
{
    match node.parts.state() {
        State::Member(_) => {}
        State::Leaving(_, _) => return Err(NodeError::Stale),
        State::Joining | State::Ended => return Err(NodeError::NotJoined),
    }
    let Some(sub) = node.parts.sub(grant) else {
        return Err(NodeError::Stale);
    };
    let prepared = sub.prepare_turn(alloc, frame, thread, numbers, turn)?;
    node.change(
        alloc,
        Listed::new(alloc),
        grant,
        prepared,
        Listed::new(alloc),
    )
}

/// The same, by a turn that was evaluated, of this job's program: the call `Node::exec`.
pub fn exec(
    node: &mut JobNode,
    alloc: Global,
    grant: GrantId,
    frame: FrameNo,
    done: &Done,
) -> Result<Step, NodeError>
    requires { done.now.program ≡ node.old.job.program }
    ensures answer { Meets (calls.exec node.old.job done.now grant frame node.old.node) result node.old node.new }
    ensures out_of_memory { IsErrOf result Memory → MayLackMemory
        (calls.exec node.old.job done.now grant frame node.old.node) }
{
    law_turn_is_few(done);
    carry_out(
        node,
        alloc,
        grant,
        frame,
        done.thread(),
        done.numbers(),
        done.turn(),
    )
}

/// Evaluates a ready frame of a grant's subcomputation, and carries it out by that turn: the call
/// `Node::exec_ready`, which tells when it is refused.
#[tactic(auto, unfolding(node_steps::specs::Cases::by_option, node_state::specs::Node::by_state))]
pub fn exec_ready(
    node: &mut JobNode,
    alloc: Global,
    grant: GrantId,
    frame: FrameNo,
) -> Result<Step, NodeError>
    ensures answer { Meets (calls.exec_ready node.old.job grant frame node.old.node) result node.old node.new }
    ensures out_of_memory { IsErrOf result Memory → MayLackMemory
        (calls.exec_ready node.old.job grant frame node.old.node) }
{
    let checked = node.job.checked();
    let _program = checked.program();
    let work = ready_work!(node, alloc, grant, frame);
    let done = Done::on(alloc, checked, work.thread, work.numbers)?;
    exec(node, alloc, grant, frame, &done)
}

/// Whether a turn is a ready frame's own: carrying the frame out by its own turn is carrying it
/// out by this one then.
pub fn is_own(node: &JobNode, grant: GrantId, frame: FrameNo, done: &Done) -> bool
    requires { done.now.program ≡ node.now.job.program }
    ensures { result ≡ true → calls.exec_ready node.now.job grant frame node.now.node
        ≡ calls.exec node.now.job done.now grant frame node.now.node }
{
    let State::Member(_) = node.parts.state() else {
        return false;
    };
    let Some(sub) = node.parts.sub(grant) else {
        return false;
    };
    let _ = done.turn();
    !is_stale(sub.content(), frame, done)
}
