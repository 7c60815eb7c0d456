//! Pieces of Offers that come: their parts are kept, and put together once all are there.
ghost use Rattle.std.specs.Prelude.{◌≡◌, IfOk, IfSome, IsTrue, None, length, nat_eq, ◌&&◌};
ghost use Rattle.codec.specs.Pieces.{joined, long_reading};
ghost use Rattle.codec.specs.Table.{fits_body};
ghost use Rattle.codec.specs.Table as table;
ghost use Rattle.codec.specs.declared.body.Body.TheVariants as body;
ghost use Rattle.codec.specs.declared.body.Roster as declared;
ghost use Rattle.ids.specs.Names.{same_grant};
ghost use Rattle.node_state.specs.Assemblies.{assembly_in, part_in, part_of, put_part, without_assembly};
ghost use Rattle.node_state.specs.Parts.{IsLeaving, IsMember};
ghost use Rattle.node_state.specs.declared.parts.State.TheVariants.{Member};
ghost use Rattle.node_steps.specs.Cases as cases;
ghost use Rattle.node_steps.specs.Meeting.{Meets, MeetsBody};

use crate::offers::{acknowledged, is_above, member_offer};
use codec::{Body, Offer, Part, Piece, ReadError, decode_joined};
use ids::{GrantId, SortedMap};
use node_state::Assembly;
use node_steps::{JobNode, NodeError, Step, ignored, quiet, sends};
use std::alloc::{AllocError, Global};

/// A part of an Offer's spelling has at most so many bytes.
const PART_BYTES: usize = 65_536;

/// A Piece comes to a member: where its hop is above the greatest one with which its grant was
/// taken its part is kept, and with the last one the Offer that they spell is taken as one that
/// comes whole; else it is acknowledged again.
#[tactic(auto, unfolding(node_steps::specs::Cases::on_body, node_state::specs::Node::by_state))]
pub fn member_piece(node: &mut JobNode, alloc: Global, piece: Piece) -> Result<Step, NodeError>
    requires { IsMember node.old.node.state }
    ensures { MeetsBody (body.Piece piece) result node.old node.new }
{
    if !is_above(node, piece.grant, piece.hop) {
        return acknowledge_piece(node, alloc, &piece);
    }
    collect(node, alloc, piece)
}

/// A Piece comes to a node that leaves: an Offer that was taken is acknowledged again, none is
/// taken any more.
#[tactic(auto, unfolding(node_steps::specs::Cases::on_body, node_state::specs::Node::by_state))]
pub fn leaving_piece(node: &mut JobNode, alloc: Global, piece: Piece) -> Result<Step, NodeError>
    requires { IsLeaving node.old.node.state }
    ensures { MeetsBody (body.Piece piece) result node.old node.new }
{
    if is_above(node, piece.grant, piece.hop) {
        return Ok(ignored(alloc));
    }
    acknowledge_piece(node, alloc, &piece)
}

/// The Offer of a Piece was taken: it is acknowledged again.
fn acknowledge_piece(node: &mut JobNode, alloc: Global, piece: &Piece) -> Result<Step, NodeError>
    ensures { Meets (cases.acknowledges_piece node.old.job piece.now node.old.node) result node.old node.new }
{
    node.parts.law_nothing_goes();
    let sent = acknowledged(node, alloc, piece.from, piece.grant, piece.hop)?;
    Ok(sends(alloc, sent))
}

/// The part of a Piece is kept beside those that have come of the same Offer, or ignored; with
/// the last one they are put together.
#[tactic(auto, unfolding(node_steps::specs::Cases::collected, node_steps::specs::Cases::collects))]
fn collect(node: &mut JobNode, alloc: Global, piece: Piece) -> Result<Step, NodeError>
    requires { IsMember node.old.node.state }
    ensures { (r : declared.Roster) → node.old.node.state ≡ Member r
        → Meets (cases.collected node.old.job r piece
        (cases.collects piece (assembly_in piece.grant node.old.node.assemblies)) node.old.node)
        result node.old node.new }
{
    let Some(assembly) = node.parts.assembly(piece.grant) else {
        node.parts.begin_assembly(piece)?;
        return Ok(quiet(alloc));
    };
    if assembly.hop().count() < piece.hop.count() {
        node.parts.begin_assembly(piece)?;
        return Ok(quiet(alloc));
    }
    if !belongs(&piece, assembly) {
        return Ok(ignored(alloc));
    }
    if !is_last(&piece, assembly) {
        let (grant, part) = part_of(piece);
        node.parts.add_part(grant, part)?;
        return Ok(quiet(alloc));
    }
    let bytes = joined_with(alloc, assembly.parts(), &piece)?;
    let said = offer_of(node, alloc, &piece, bytes.as_slice())?;
    take_offer(node, alloc, piece.grant, said)
}

/// The Offer that joined bytes spell, where it is to this node and that of a Piece.
fn offer_of(
    node: &JobNode,
    alloc: Global,
    piece: &Piece,
    bytes: &[u8],
) -> Result<Option<Offer>, AllocError>
    ensures said { IfOk result (λ o. o
        ≡ cases.said_by node.now.job piece.now node.now.node (long_reading bytes.now)) }
    ensures fits { IfOk result (λ o. IfSome o (λ x. IsTrue (table.offer.fits x))) }
{
    let packet = match decode_joined(alloc, bytes) {
        Ok(packet) => packet,
        Err(ReadError::Fault(_)) => return Ok(None),
        Err(ReadError::Memory) => return Err(AllocError),
    };
    if packet.job() != node.job.number() || packet.to().word() != node.parts.incarnation().word() {
        return Ok(None);
    }
    Ok(offer_in(packet.into_body(), piece))
}

/// What the parts of a grant's Offer spelled is taken as an Offer that comes whole, and they
/// go.
#[tactic(auto, unfolding(node_steps::specs::Cases::put_together, node_steps::specs::Cases::or_forgets))]
fn take_offer(
    node: &mut JobNode,
    alloc: Global,
    grant: GrantId,
    said: Option<Offer>,
) -> Result<Step, NodeError>
    requires member { IsMember node.old.node.state }
    requires fits { IfSome said (λ o. IsTrue (table.offer.fits o)) }
    ensures { (r : declared.Roster) → node.old.node.state ≡ Member r
        → Meets (cases.put_together node.old.job r said (record node.old.node {
          assemblies = without_assembly grant node.old.node.assemblies;
        })) result node.old node.new }
{
    let Some(offer) = said else {
        forget(node, grant);
        return Ok(ignored(alloc));
    };
    let step = member_offer(node, alloc, offer)?;
    forget(node, grant);
    Ok(step)
}

/// The parts of a grant's Offer go.
fn forget(node: &mut JobNode, grant: GrantId)
    ensures { node.new ≡ record node.old {
      node = record node.old.node { assemblies = without_assembly grant node.old.node.assemblies };
    } }
{
    node.parts.law_nothing_goes();
    node.parts.forget_assembly(grant);
}

/// Whether a Piece is of the same Offer as the parts that have come, and its own hasn't.
fn belongs(piece: &Piece, assembly: &Assembly) -> bool
    ensures { result ≡ cases.belongs piece.now assembly.now }
{
    piece.hop.count() == assembly.hop().count()
        && piece.from.word() == assembly.from().word()
        && piece.pieces == assembly.pieces()
        && assembly.parts().get((piece.number as u64, 0)).is_none()
}

/// Whether with the part of a Piece, which hasn't come before, all are there.
fn is_last(piece: &Piece, assembly: &Assembly) -> bool
    requires { part_in piece.now.number assembly.now.parts ≡ None }
    ensures { result ≡ nat_eq (length (put_part (part_of piece.now) assembly.now.parts)) assembly.now.pieces }
{
    let count = assembly.parts().len();
    let pieces = assembly.pieces() as usize;
    count < pieces && count + 1 == pieces
}

/// The part that a Piece brings, and its grant.
fn part_of(piece: Piece) -> (GrantId, Part)
    ensures { result ≡ (piece.grant, part_of piece) }
{
    let Piece {
        grant,
        number,
        bytes,
        ..
    } = piece;
    (grant, Part { number, bytes })
}

/// The bytes of the parts that have come and of that of a Piece, which hasn't, in their order.
/// There is room for all of them at once: each part has as many as it can but for the last one.
fn joined_with(alloc: Global, parts: &SortedMap<Part>, piece: &Piece) -> Result<Vec<u8>, AllocError>
    requires { part_in piece.now.number parts.now ≡ None }
    ensures { IfOk result (λ bytes. bytes.items ≡ joined (put_part (part_of piece.now) parts.now)) }
{
    let mut bytes = Vec::with_capacity(alloc, usize::from(piece.pieces) * PART_BYTES)?;
    let mut is_in = false;
    for part in parts.values() {
        if !is_in && piece.number < part.number {
            bytes.extend_from_slice(piece.bytes.as_slice())?;
            is_in = true;
        }
        bytes.extend_from_slice(part.bytes.as_slice())?;
    }
    if !is_in {
        bytes.extend_from_slice(piece.bytes.as_slice())?;
    }
    Ok(bytes)
}

/// The Offer that a packet says, if it is that of a Piece.
fn offer_in(body: Body, piece: &Piece) -> Option<Offer>
    requires { IsTrue (fits_body body) }
    ensures said { result ≡ cases.its_offer piece.now body }
    ensures fits { IfSome result (λ o. IsTrue (table.offer.fits o)) }
{
    match body {
        Body::Offer(offer) => {
            if is_its(&offer, piece) {
                Some(offer)
            } else {
                None
            }
        }
        _ => None,
    }
}

/// Whether an Offer has the sender, the grant and the hop of a Piece.
fn is_its(offer: &Offer, piece: &Piece) -> bool
    ensures { result ≡ (nat_eq offer.now.from piece.now.from
        && (same_grant offer.now.grant piece.now.grant && nat_eq offer.now.hop piece.now.hop)) }
{
    offer.from.word() == piece.from.word()
        && offer.grant == piece.grant
        && offer.hop.count() == piece.hop.count()
}
