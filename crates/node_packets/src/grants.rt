//! Grants: what a victim gives away, and what a thief takes.
ghost use Rattle.std.specs.Prelude.{◌≡◌, ◌≤◌, ◌<◌, ◌+◌, ◌^◌, nat_lt, if◌then◌else◌, length, Ok, Some, None, IsTrue};
ghost use Rattle.codec.specs.declared.body.Body.TheVariants as body;
ghost use Rattle.node_state.specs.Parts.{IsJoined, IsMember, MayOpenIn};
ghost use Rattle.subcomputation.specs.Fitting.{Fits, task_fits};
ghost use Rattle.sub_rules.specs.Updates.{opened_in};
ghost use Rattle.subcomputation.specs.Subs.{SubOf, sub_in};
ghost use Rattle.subcomputation.specs.Told.{sub_grant_of};
ghost use Rattle.node_steps.specs.Cases as cases;
ghost use Rattle.node_steps.specs.Choosing.{own_candidate};
ghost use Rattle.node_steps.specs.Meeting.{Meets, gives, MeetsBody};
ghost use Rattle.node_steps.specs.Moves as moves;
ghost use Rattle.node_steps.specs.Steps.{Does};
ghost use Rattle.node_state.specs.Node.{hop_in};
ghost use Rattle.saved_values.specs.Saved.{IsSavedList, saved_under};

use codec::{Grant, OfferAck, Packet, Refuse, Steal, alone};
use ids::{Actor, FrameNo, GrantId, Hop, Listed, Task};
use node_state::State;
use node_steps::{JobNode, NodeError, Step, ignored, quiet, says_live, sends, status_of};
use saved_values::{SavedList, SavedValue};
use std::alloc::Global;
use steal_protocol::{Heard, Reply};
use sub_rules::{Opening, Readied};
use subcomputation::Sub;

/// A thief asks for work: one that isn't shown live, or asks again what it asked before its
/// last request, is ignored, and the same request again gets the same answer.
#[tactic(auto, unfolding(node_steps::specs::Cases::on_body, steal_protocol::specs::Replies::by_order, node_state::specs::Node::by_state))]
pub fn member_steal(node: &mut JobNode, alloc: Global, steal: Steal) -> Result<Step, NodeError>
    requires { IsMember node.old.node.state }
    ensures { MeetsBody (body.Steal steal) result node.old node.new }
{
    let State::Member(roster) = node.parts.state() else {
        return Ok(ignored(alloc));
    };
    node.law_roster_rises();
    if !says_live(status_of(roster.members.as_slice(), Actor::worker(steal.from))) {
        return Ok(ignored(alloc));
    }
    node.parts.law_nothing_goes();
    match node.parts.replies().hear(steal.from, steal.seq) {
        Heard::Older => Ok(ignored(alloc)),
        Heard::Again(reply) => Ok(sends(alloc, alone(alloc, reply)?)),
        Heard::Newer => serve(node, alloc, steal),
    }
}

/// A request that is newer than the thief's last one: the newest ready frame of the least level
/// is granted, and where none is ready it is refused.
fn serve(node: &mut JobNode, alloc: Global, steal: Steal) -> Result<Step, NodeError>
    requires { IsMember node.old.node.state }
    ensures { Meets (cases.served node.old.job steal
        (cases.candidate_in node.old.node (own_candidate node.old.posts)) node.old.node)
        result node.old node.new }
{
    let Some(post) = node.parts.posts().shallowest() else {
        return refuse(node, alloc, steal);
    };
    let Some(sub) = node.parts.sub(post.grant) else {
        return refuse(node, alloc, steal);
    };
    if !sub.is_ready(post.frame) {
        return refuse(node, alloc, steal);
    }
    let Some(name) = next_grant(node) else {
        return Err(NodeError::Spent);
    };
    match sub.prepare_grant_out(alloc, post.frame, name, steal.from)? {
        Some(opening) => {
            let saved = sub.saved_below(alloc, &opening.task.place)?;
            give(node, alloc, steal, name, post.grant, opening, saved)
        }
        None => refuse(node, alloc, steal),
    }
}

/// A request is refused.
pub fn refuse(node: &mut JobNode, alloc: Global, steal: Steal) -> Result<Step, NodeError>
    requires { IsJoined node.old.node.state }
    ensures { Meets (Does (moves.refuses node.old.job steal.from steal.seq node.old.node))
        result node.old node.new }
{
    let packet = Packet::refuse(node.job.number(), steal.from, Refuse { seq: steal.seq });
    let sent = alone(alloc, &packet)?;
    node.parts.answer(Reply {
        thief: steal.from,
        seq: steal.seq,
        packet,
    })?;
    Ok(sends(alloc, sent))
}

/// A ready frame of the subcomputation of a grant is given away, and granted under the next
/// number, which is this name, with the values that stand below its place.
fn give(
    node: &mut JobNode,
    alloc: Global,
    steal: Steal,
    name: GrantId,
    host: GrantId,
    opening: Opening,
    saved: Listed<SavedValue>,
) -> Result<Step, NodeError>
    requires may { MayOpenIn node.old.node host opening.opened }
    requires fits { (s : SubOf) → sub_in host node.old.node.subs ≡ Some s
        → Fits node.old.job.program (opened_in opening.opened s.content) }
    requires task { IsTrue (task_fits node.old.job.program opening.task) }
    requires saved { (s : SubOf) → sub_in host node.old.node.subs ≡ Some s
        → saved ≡ saved_under opening.task.place s.saved }
    requires list { IsSavedList saved }
    ensures { (s : SubOf) → sub_in host node.old.node.subs ≡ Some s
        → Meets (Does (gives node.old.job steal name (sub_grant_of s opening) node.old.node))
        result node.old node.new }
{
    law_fitting_task_is_few(node, &opening.task);
    let Opening { opened, task } = opening;
    let grant = Grant {
        seq: steal.seq,
        grant: name,
        task,
        saved,
    };
    let packet = Packet::grant(node.job.number(), steal.from, grant);
    let sent = alone(alloc, &packet)?;
    node.parts.give(
        host,
        opened,
        Reply {
            thief: steal.from,
            seq: steal.seq,
            packet,
        },
    )?;
    Ok(sends(alloc, sent))
}

/// A task that fits the program has a thread below 64, and at most 8 numbers. Does nothing.
fn law_fitting_task_is_few(node: &JobNode, task: &Task)
    requires { IsTrue (task_fits node.now.job.program task.now) }
    ensures thread { task.now.thread < 64 }
    ensures numbers { length task.now.numbers ≤ 8 }
{
    subcomputation::fitting_tasks_are_few();
    let _ = node.job.checked();
}

/// The name of the next grant that is minted here; none where as many were minted as are
/// counted.
fn next_grant(node: &JobNode) -> Option<GrantId>
    ensures { result ≡ (if nat_lt (node.now.node.minted + 1) (2 ^ 64) then Some
        (record { minter = node.now.node.incarnation; number = node.now.node.minted + 1 }) else None) }
{
    let number = node.parts.minted().checked_add(1)?;
    GrantId::of(Actor::worker(node.parts.incarnation()), number)
}

/// A task comes that answers the pending request: it is taken if its grant was never taken here
/// and it fits the program, and the values that come with it stand below it. A grant that was
/// taken here already, and was minted by a worker, is acknowledged again.
#[tactic(auto, unfolding(node_steps::specs::Cases::on_body, node_state::specs::Node::by_state))]
pub fn member_grant(node: &mut JobNode, alloc: Global, grant: Grant) -> Result<Step, NodeError>
    requires member { IsMember node.old.node.state }
    requires saved { IsSavedList grant.saved }
    ensures { MeetsBody (body.Grant grant) result node.old node.new }
{
    let is_seen = node.parts.hop(grant.grant).is_some();
    if !is_seen
        && node.parts.asker().is_answered_by(grant.seq, grant.grant)
        && task_fits(node, &grant.task)
        && saved_fit(&grant.task, grant.saved.as_slice())
    {
        return take(node, alloc, grant);
    }
    acknowledge_grant(node, alloc, grant.grant)
}

/// A grant that was taken here already, and was minted by a worker, is acknowledged again, at
/// hop 0.
pub fn acknowledge_grant(
    node: &mut JobNode,
    alloc: Global,
    grant: GrantId,
) -> Result<Step, NodeError>
    ensures { Meets (cases.acknowledged_again node.old.job grant node.old.node) result node.old node.new }
{
    let is_seen = node.parts.hop(grant).is_some();
    node.parts.law_nothing_goes();
    match grant.minter().incarnation() {
        Some(minter) if is_seen => {
            let ack = OfferAck {
                from: node.parts.incarnation(),
                grant,
                hop: Hop::of(0),
            };
            let packet = Packet::offer_ack(node.job.number(), minter, ack);
            Ok(sends(alloc, alone(alloc, &packet)?))
        }
        _ => Ok(ignored(alloc)),
    }
}

/// A task is taken.
fn take(node: &mut JobNode, alloc: Global, grant: Grant) -> Result<Step, NodeError>
    requires member { IsMember node.old.node.state }
    requires never { hop_in grant.grant node.old.node.seen ≡ None }
    requires fits { IsTrue (task_fits node.old.job.program grant.task) }
    requires saved { IsSavedList grant.saved }
    ensures { Meets (Does (moves.takes node.old.job grant node.old.node)) result node.old node.new }
{
    let ready = [Readied {
        frame: FrameNo::of(0),
        level: grant.task.place.level(),
    }];
    let sub = Sub::granted(alloc, grant.grant, grant.task, SavedList::of(grant.saved))?;
    node.parts.take(sub, &ready)?;
    Ok(quiet(alloc))
}

/// Whether the thread of a task is there, and takes as many numbers as it has.
fn task_fits(node: &JobNode, task: &Task) -> bool
    ensures { result ≡ task_fits node.now.job.program task.now }
{
    let checked = node.job.checked();
    usize::from(task.thread) < checked.threads()
        && checked.program().thread(task.thread).numbers.len() == task.numbers.len()
}

/// Whether each value is of a place below that of a task.
fn saved_fit(task: &Task, saved: &[SavedValue]) -> bool
    ensures { result ≡ cases.saved_fit task.now saved.now }
{
    saved.iter().all(|value| value.place.is_under(&task.place))
}
