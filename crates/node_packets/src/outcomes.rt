//! Outcomes that come, and the end of what isn't wanted any more.
ghost use Rattle.std.specs.Prelude.{◌≡◌, IfOk, Ok, Some};
ghost use Rattle.codec.specs.declared.body.Body.TheVariants as body;
ghost use Rattle.node_state.specs.Parts.{IsMember};
ghost use Rattle.node_steps.specs.Meeting.{MeetsBody};
ghost use Rattle.node_steps.specs.Moves as moves;

use codec::{Abort, Datagram, Packet, ResultAck, Roster, Save, TaskResult, alone};
use ids::{Listed, Outcome, Place};
use node_state::State;
use node_steps::{JobNode, NodeError, Step, ignored, send_aborts, sends};
use saved_values::SavedPlace;
use std::alloc::{AllocError, Global};

/// The outcome of a grant comes: it is acknowledged, and its record closed, if it is open; a
/// value is then handed to the clearinghouse, which may save it.
#[tactic(auto, unfolding(node_steps::specs::Cases::on_body, node_steps::specs::Steps::for_some, node_state::specs::Node::by_state))]
pub fn member_result(
    node: &mut JobNode,
    alloc: Global,
    outcome: TaskResult,
) -> Result<Step, NodeError>
    requires { IsMember node.old.node.state }
    ensures { MeetsBody (body.Result outcome) result node.old node.new }
{
    let ack = ResultAck {
        grant: outcome.grant,
    };
    let sent = alone(
        alloc,
        &Packet::result_ack(node.job.number(), outcome.from, ack),
    )?;
    node.parts.law_nothing_goes();
    let State::Member(roster) = node.parts.state() else {
        return Ok(ignored(alloc));
    };
    let Some(host) = node.parts.host(outcome.grant) else {
        return Ok(sends(alloc, sent));
    };
    let Some(record) = host.content().records.get(outcome.grant) else {
        return Ok(sends(alloc, sent));
    };
    let last = save_of(node, alloc, roster, &record.task.place, outcome.outcome)?;
    let held = host.grant();
    let Some(prepared) = host.prepare_result(alloc, outcome.grant, outcome.outcome)? else {
        return Ok(sends(alloc, sent));
    };
    node.change(alloc, sent, held, prepared, last)
}

/// The Save of the outcome of a task at a place: none for too deep, nor where no value is saved
/// of the place that is left without the steps to successors at its end. Refused only when out
/// of memory.
fn save_of(
    node: &JobNode,
    alloc: Global,
    roster: &Roster,
    place: &Place,
    outcome: Outcome,
) -> Result<Listed<Datagram>, AllocError>
    ensures { IfOk result (λ sent. sent ≡ moves.save_of node.now.job node.now.node.incarnation
        roster.now place.now outcome) }
{
    let Outcome::Value(value) = outcome else {
        return Ok(Listed::new(alloc));
    };
    let Some(place) = SavedPlace::of_task(place) else {
        return Ok(Listed::new(alloc));
    };
    let save = Save {
        from: node.parts.incarnation(),
        place: place.to_place(alloc)?,
        value,
    };
    alone(alloc, &Packet::save(node.job.number(), roster.epoch, save))
}

/// A subcomputation isn't wanted any more: it is dropped, and the holders of its records are
/// told so.
#[tactic(auto, unfolding(node_steps::specs::Cases::on_body, node_steps::specs::Cases::by_option, node_state::specs::Node::by_state))]
pub fn member_abort(node: &mut JobNode, alloc: Global, abort: Abort) -> Result<Step, NodeError>
    requires { IsMember node.old.node.state }
    ensures { MeetsBody (body.Abort abort) result node.old node.new }
{
    let Some(sub) = node.parts.sub(abort.grant) else {
        return Ok(ignored(alloc));
    };
    let mut sent = Listed::new(alloc);
    send_aborts(alloc, node.job, &mut sent, &sub.content().records)?;
    node.parts.remove(abort.grant);
    Ok(sends(alloc, sent))
}
