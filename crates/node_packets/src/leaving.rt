//! Packets that come to a node that leaves.
ghost use Rattle.std.specs.Prelude.{◌≡◌, Ok, Some, None, [], ◌∷◌, nat_eq, true, false, ◌&&◌, ◌+◌};
ghost use Rattle.std.specs.List.{list_any};
ghost use Rattle.ids.specs.Members.{is_live};
ghost use Rattle.ids.specs.Naming.{name_of_member};
ghost use Rattle.ids.specs.Ordered.{AreInOrder};
ghost use Rattle.codec.specs.declared.body.Body.TheVariants as body;
ghost use Rattle.codec.specs.declared.body.Roster as declared;
ghost use Rattle.subcomputation.specs.Subs.{sub_in};
ghost use Rattle.node_state.specs.Parts.{IsLeaving};
ghost use Rattle.node_state.specs.declared.parts.State.TheVariants.{Leaving};
ghost use Rattle.node_steps.specs.Cases as cases;
ghost use Rattle.node_steps.specs.Meeting.{MeetsBody};
ghost use Rattle.node_steps.specs.Moves as moves;

use crate::grants::{acknowledge_grant, refuse};
use crate::offers::{acknowledged, is_above};
use codec::{Datagram, Grant, Leave, Offer, OfferAck, Roster, Steal, alone};
use ids::{Actor, Incarnation, Listed};
use node_state::{Confirmed, State};
use node_steps::{
    JobNode, News, NodeError, Step, given_by, ignored, news_of, quiet, says_live, sends, status_of,
};
use std::alloc::Global;
use steal_protocol::{Heard, Reply};

/// A newer roster is kept, and nothing that is frozen changes; but a node that holds something
/// ends where its heir isn't live any more.
#[tactic(auto, unfolding(node_steps::specs::Cases::on_body, node_state::specs::Node::by_state))]
pub fn leaving_roster(node: &mut JobNode, alloc: Global, roster: Roster) -> Result<Step, NodeError>
    requires leaving { IsLeaving node.old.node.state }
    requires rising { AreInOrder name_of_member roster.members }
    ensures { MeetsBody (body.Roster roster) result node.old node.new }
{
    let State::Leaving(kept, heir) = node.parts.state() else {
        return Ok(ignored(alloc));
    };
    let heir = *heir;
    match news_of(kept, &roster, node.parts.incarnation()) {
        News::Old => Ok(ignored(alloc)),
        News::Over => {
            node.parts.end();
            Ok(quiet(alloc))
        }
        News::Newer => {
            let is_live = says_live(status_of(roster.members.as_slice(), Actor::worker(heir)));
            if node.parts.held().len() == 0 || is_live {
                node.parts.keep_leaving(roster, heir);
            } else {
                node.parts.end();
            }
            Ok(quiet(alloc))
        }
    }
}

/// A thief asks a leaving node for work, which has none to give: as a member answers where no
/// frame is ready.
#[tactic(auto, unfolding(node_steps::specs::Cases::on_body, steal_protocol::specs::Replies::by_order, node_state::specs::Node::by_state))]
pub fn leaving_steal(node: &mut JobNode, alloc: Global, steal: Steal) -> Result<Step, NodeError>
    requires { IsLeaving node.old.node.state }
    ensures { MeetsBody (body.Steal steal) result node.old node.new }
{
    let State::Leaving(roster, _) = node.parts.state() else {
        return Ok(ignored(alloc));
    };
    node.law_roster_rises();
    if !says_live(status_of(roster.members.as_slice(), Actor::worker(steal.from))) {
        return Ok(ignored(alloc));
    }
    node.parts.law_nothing_goes();
    match node.parts.replies().hear(steal.from, steal.seq) {
        Heard::Older => Ok(ignored(alloc)),
        Heard::Again(reply) => Ok(sends(alloc, alone(alloc, reply)?)),
        Heard::Newer => refuse(node, alloc, steal),
    }
}

/// A grant that was taken here already, and was minted by a worker, is acknowledged again; no
/// task is taken any more.
#[tactic(auto, unfolding(node_steps::specs::Cases::on_body, node_state::specs::Node::by_state))]
pub fn leaving_grant(node: &mut JobNode, alloc: Global, grant: Grant) -> Result<Step, NodeError>
    requires { IsLeaving node.old.node.state }
    ensures { MeetsBody (body.Grant grant) result node.old node.new }
{
    node.parts.law_waits_for_nothing();
    acknowledge_grant(node, alloc, grant.grant)
}

/// An Offer that was taken here already is acknowledged again; none is taken any more.
#[tactic(auto, unfolding(node_steps::specs::Cases::on_body, node_state::specs::Node::by_state))]
pub fn leaving_offer(node: &mut JobNode, alloc: Global, offer: Offer) -> Result<Step, NodeError>
    requires { IsLeaving node.old.node.state }
    ensures { MeetsBody (body.Offer offer) result node.old node.new }
{
    if is_above(node, offer.grant, offer.hop) {
        return Ok(ignored(alloc));
    }
    node.parts.law_nothing_goes();
    let sent = acknowledged(node, alloc, offer.from, offer.grant, offer.hop)?;
    Ok(sends(alloc, sent))
}

/// The heir has a subcomputation at the hop with which it was offered, or an awaited thief has
/// its grant: what is left is awaited no more, and where nothing else is, the node says that it
/// has left.
#[tactic(auto, unfolding(node_steps::specs::Cases::on_body, node_state::specs::Node::by_state))]
pub fn leaving_offer_ack(
    node: &mut JobNode,
    alloc: Global,
    ack: OfferAck,
) -> Result<Step, NodeError>
    requires { IsLeaving node.old.node.state }
    ensures { MeetsBody (body.OfferAck ack) result node.old node.new }
{
    let State::Leaving(roster, heir) = node.parts.state() else {
        return Ok(ignored(alloc));
    };
    let heir = *heir;
    node.law_roster_rises();
    let is_released = is_released(node, heir, &ack);
    let is_confirmed = is_confirmed_by(node, roster, &ack);
    let sent = alone(alloc, &node.leave(roster, heir))?;
    if is_released {
        node.parts.remove(ack.grant);
        return Ok(left_behind(node, alloc, sent));
    }
    if is_confirmed {
        node.parts.confirm(Confirmed {
            thief: ack.from,
            grant: ack.grant,
        })?;
        return Ok(left_behind(node, alloc, sent));
    }
    Ok(ignored(alloc))
}

/// A leaving node sends its Leave if nothing is held and nobody awaited any more.
fn left_behind(node: &JobNode, alloc: Global, leave: Listed<Datagram>) -> Step
    requires { IsLeaving node.now.node.state }
    ensures { (r : declared.Roster) (heir : _) → node.now.node.state ≡ Leaving r heir
        → leave ≡ moves.leave node.now.job node.now.node.incarnation r heir ∷ []
        → result ≡ record {
          sent = moves.leaves node.now.job r heir node.now.node;
          fills = [];
          ignored = false;
        } }
{
    let State::Leaving(roster, _) = node.parts.state() else {
        return quiet(alloc);
    };
    node.law_roster_rises();
    if node.is_done(roster) {
        sends(alloc, leave)
    } else {
        quiet(alloc)
    }
}

/// Whether an awaited thief says with an OfferAck of hop 0 that it has its grant.
fn is_confirmed_by(node: &JobNode, roster: &Roster, ack: &OfferAck) -> bool
    requires { AreInOrder name_of_member roster.now.members }
    ensures { result ≡ (nat_eq ack.now.hop 0 && list_any (cases.confirms ack.now)
        (moves.awaited roster.now node.now.node)) }
{
    if ack.hop.count() != 0 {
        return false;
    }
    for reply in node.parts.replies().values() {
        if confirms(ack, reply) && node.is_awaited(roster, reply) {
            return true;
        }
    }
    false
}

/// Whether the heir says that it has a subcomputation at the hop with which it was offered.
fn is_released(node: &JobNode, heir: Incarnation, ack: &OfferAck) -> bool
    ensures { result ≡ cases.is_released heir ack.now (sub_in ack.now.grant node.now.node.subs) }
{
    match node.parts.sub(ack.grant) {
        None => false,
        Some(sub) => {
            u64::from(ack.hop.count()) == u64::from(sub.hop().count()) + 1
                && ack.from.word() == heir.word()
        }
    }
}

/// Whether an answer is that of the thief and the grant that an OfferAck names.
fn confirms(ack: &OfferAck, reply: &Reply) -> bool
    ensures { result ≡ cases.confirms ack.now reply.now }
{
    match given_by(reply.packet.body()) {
        None => false,
        Some(grant) => reply.thief.word() == ack.from.word() && grant == ack.grant,
    }
}
