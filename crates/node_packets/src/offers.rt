//! Offers that come to a member: what fits is taken, and recovered by the roster that the member
//! has.
ghost use Rattle.std.specs.Prelude.{◌≡◌, Ok, Some, None, [], ◌∷◌, IfOk, IsTrue, true};
ghost use Rattle.codec.specs.Table as table;
ghost use Rattle.codec.specs.declared.body.Body.TheVariants as body;
ghost use Rattle.codec.specs.declared.body.Roster as declared;
ghost use Rattle.recovery.specs.Told.{AreForeign};
ghost use Rattle.subcomputation.specs.Fitting.{Fits, progress_fits};
ghost use Rattle.subcomputation.specs.Subs.{sub_in};
ghost use Rattle.node_state.specs.Node.{hop_in};
ghost use Rattle.node_state.specs.Parts.{IsMember, HasNoNewRecord};
ghost use Rattle.node_state.specs.declared.parts.State.TheVariants.{Member};
ghost use Rattle.node_steps.specs.Cases as cases;
ghost use Rattle.node_steps.specs.Meeting.{MeetsBehind, comes, MeetsBody};
ghost use Rattle.node_steps.specs.Moves as moves;

use codec::{Datagram, Offer, OfferAck, Packet, alone};
use departure::accept_offer;
use ids::{GrantId, Hop, Incarnation, Listed};
use node_state::State;
use node_steps::{JobNode, NodeError, Step, ignored, send_stops, sends};
use recovery::recover_alone;
use std::alloc::{AllocError, Global};
use subcomputation::Sub;

/// An Offer comes: where its hop is above the greatest one with which its grant was taken, it
/// is accepted if it fits and nothing of that name is held, and recovered by the present
/// roster; else it is acknowledged again.
#[tactic(auto, unfolding(node_steps::specs::Cases::on_body, node_state::specs::Node::by_state))]
pub fn member_offer(node: &mut JobNode, alloc: Global, offer: Offer) -> Result<Step, NodeError>
    requires member { IsMember node.old.node.state }
    requires fits { IsTrue (table.offer.fits offer) }
    ensures { MeetsBody (body.Offer offer) result node.old node.new }
{
    let sent = acknowledged(node, alloc, offer.from, offer.grant, offer.hop)?;
    if !is_above(node, offer.grant, offer.hop) {
        node.parts.law_nothing_goes();
        return Ok(sends(alloc, sent));
    }
    if node.parts.sub(offer.grant).is_some() {
        return Ok(ignored(alloc));
    }
    let checked = node.job.checked();
    let own = node.parts.incarnation();
    match accept_offer(alloc, checked, own, node.parts.held(), offer)? {
        Some(sub) => accept(node, alloc, sent, sub),
        None => Ok(ignored(alloc)),
    }
}

/// A subcomputation that fits comes, behind packets that are sent before: it is taken as it is
/// left by a recovery by the present roster.
fn accept(
    node: &mut JobNode,
    alloc: Global,
    before: Listed<Datagram>,
    sub: Sub,
) -> Result<Step, NodeError>
    requires member { IsMember node.old.node.state }
    requires absent { sub_in sub.grant node.old.node.subs ≡ None }
    requires program { Fits node.old.job.program sub.content }
    requires here { progress_fits node.old.node.incarnation node.old.node.subs sub.content sub.content.progress
        ≡ true }
    ensures { (r : declared.Roster) → node.old.node.state ≡ Member r
        → MeetsBehind before (comes node.old.job r sub node.old.node) result node.old node.new }
{
    let State::Member(roster) = node.parts.state() else {
        return Err(NodeError::Memory);
    };
    law_is_foreign(node, &sub);
    recovery::recovery_alone_is_recovery_beside();
    let (grant, hop) = (sub.grant(), sub.hop());
    let alone = recover_alone(alloc, roster.members.as_slice(), sub)?;
    let mut sent = before;
    send_stops(alloc, node.job, &mut sent, alone.stopped.as_slice())?;
    node.parts
        .accept(grant, hop, alone.after, alone.ready.as_slice())?;
    Ok(sends(alloc, sent))
}

/// What fits here has no record of what is held here, and none of a grant that was minted here.
/// Does nothing.
fn law_is_foreign(node: &JobNode, sub: &Sub)
    requires { progress_fits node.now.node.incarnation node.now.node.subs sub.now.content sub.now.content.progress
        ≡ true }
    ensures records { AreForeign sub.now.content.records node.now.node.subs }
    ensures minted { HasNoNewRecord node.now.node sub.now }
{
    let _ = sub.content();
}

/// Whether a hop is above the greatest one with which a grant was taken.
pub fn is_above(node: &JobNode, grant: GrantId, hop: Hop) -> bool
    ensures { result ≡ cases.is_above hop (hop_in grant node.now.node.seen) }
{
    match node.parts.hop(grant) {
        None => true,
        Some(greatest) => greatest.count() < hop.count(),
    }
}

/// The OfferAck to who offers a grant at a hop.
pub fn acknowledged(
    node: &JobNode,
    alloc: Global,
    from: Incarnation,
    grant: GrantId,
    hop: Hop,
) -> Result<Listed<Datagram>, AllocError>
    ensures { IfOk result (λ sent. sent
        ≡ moves.offer_ack node.now.job node.now.node.incarnation from grant hop ∷ []) }
{
    let ack = OfferAck {
        from: node.parts.incarnation(),
        grant,
        hop,
    };
    alone(alloc, &Packet::offer_ack(node.job.number(), from, ack))
}
