//! Rosters, and the answers to a node's own request.
ghost use Rattle.std.specs.Prelude.{◌≡◌, Ok};
ghost use Rattle.ids.specs.Naming.{name_of_member};
ghost use Rattle.ids.specs.Ordered.{AreInOrder};
ghost use Rattle.codec.specs.declared.body.Body.TheVariants as body;
ghost use Rattle.node_state.specs.Parts.{IsMember};
ghost use Rattle.node_steps.specs.Cases as cases;
ghost use Rattle.node_steps.specs.Meeting.{Meets, MeetsBody};
ghost use Rattle.node_steps.specs.Moves as moves;
ghost use Rattle.node_steps.specs.Steps.{Does};
ghost use Rattle.node_steps.specs.Cases.{recovers_by};
ghost use Rattle.node_state.specs.declared.parts.State.TheVariants.{Joining};

use codec::{Refuse, ResultAck, Roster};
use ids::{Actor, Listed, Progress, Status};
use node_state::State;
use node_steps::{
    JobNode, News, NodeError, Step, ignored, news_of, quiet, send_stops, sends, status_of,
};
use std::alloc::Global;

/// A roster comes to a joining node: the first that lists it as live makes it a member, and one
/// that lists it as dead or left ends it.
#[tactic(auto, unfolding(node_steps::specs::Cases::by_status))]
pub fn joining_roster(node: &mut JobNode, alloc: Global, roster: Roster) -> Result<Step, NodeError>
    requires joining { node.old.node.state ≡ Joining }
    requires rising { AreInOrder name_of_member roster.members }
    ensures { Meets (cases.joins roster node.old.node) result node.old node.new }
{
    match status_of(
        roster.members.as_slice(),
        Actor::worker(node.parts.incarnation()),
    ) {
        Some(Status::Live) => {
            node.parts.keep_roster(roster, None);
            Ok(quiet(alloc))
        }
        Some(Status::Dead | Status::Left(_)) => {
            node.parts.end();
            Ok(quiet(alloc))
        }
        None => Ok(ignored(alloc)),
    }
}

/// A roster comes to a member: a newer one of its epoch that lists it as live is kept, and what
/// the node holds is recovered by it; one of a greater epoch, or a newer one that lists it as
/// dead or left, ends it.
#[tactic(auto, unfolding(node_steps::specs::Cases::on_body, node_state::specs::Node::by_state))]
pub fn member_roster(node: &mut JobNode, alloc: Global, roster: Roster) -> Result<Step, NodeError>
    requires member { IsMember node.old.node.state }
    requires rising { AreInOrder name_of_member roster.members }
    ensures { MeetsBody (body.Roster roster) result node.old node.new }
{
    let State::Member(kept) = node.parts.state() else {
        return Ok(ignored(alloc));
    };
    match news_of(kept, &roster, node.parts.incarnation()) {
        News::Old => Ok(ignored(alloc)),
        News::Over => {
            node.parts.end();
            Ok(quiet(alloc))
        }
        News::Newer => recover(node, alloc, roster),
    }
}

/// A newer roster is kept, what is held is recovered by it, and a pending request is forgotten
/// whose victim isn't live any more.
fn recover(node: &mut JobNode, alloc: Global, roster: Roster) -> Result<Step, NodeError>
    requires member { IsMember node.old.node.state }
    requires rising { AreInOrder name_of_member roster.members }
    ensures { Meets (Does (recovers_by node.old.job roster node.old.node)) result node.old node.new }
{
    let victim = victim_status(node, &roster);
    let plan = recovery::make_plan(alloc, roster.members.as_slice(), node.parts.held())?;
    let mut sent = Listed::new(alloc);
    send_stops(alloc, node.job, &mut sent, plan.stopped())?;
    node.parts.recover(roster, victim, plan)?;
    Ok(sends(alloc, sent))
}

/// What a roster says of the victim of the pending request.
fn victim_status(node: &JobNode, roster: &Roster) -> Option<Status>
    requires { AreInOrder name_of_member roster.now.members }
    ensures { result ≡ moves.status_of roster.now.members node.now.node.asker.pending }
{
    let request = node.parts.asker().pending()?;
    status_of(roster.members.as_slice(), request.victim)
}

/// The request that a Refuse answers is forgotten.
#[tactic(auto, unfolding(node_steps::specs::Cases::on_body, node_state::specs::Node::by_state))]
pub fn member_refuse(node: &mut JobNode, alloc: Global, refuse: Refuse) -> Result<Step, NodeError>
    requires { IsMember node.old.node.state }
    ensures { MeetsBody (body.Refuse refuse) result node.old node.new }
{
    if !node.parts.asker().is_pending(refuse.seq) {
        return Ok(ignored(alloc));
    }
    node.parts.clear_request();
    Ok(quiet(alloc))
}

/// A finished subcomputation goes, whose outcome has come.
#[tactic(auto, unfolding(node_steps::specs::Cases::on_body, node_steps::specs::Cases::by_option, node_state::specs::Node::by_state))]
pub fn member_result_ack(
    node: &mut JobNode,
    alloc: Global,
    ack: ResultAck,
) -> Result<Step, NodeError>
    requires { IsMember node.old.node.state }
    ensures { MeetsBody (body.ResultAck ack) result node.old node.new }
{
    let Some(sub) = node.parts.sub(ack.grant) else {
        return Ok(ignored(alloc));
    };
    if sub.content().progress == Progress::Active {
        return Ok(ignored(alloc));
    }
    node.parts.remove(ack.grant);
    Ok(quiet(alloc))
}
