//! What comes in a packet, by its kind and by where the node stands.
ghost use Rattle.std.specs.Prelude.{IsTrue};
ghost use Rattle.codec.specs.Table.{fits_body};
ghost use Rattle.node_state.specs.declared.parts.State.TheVariants.{Member, Leaving};
ghost use Rattle.node_steps.specs.Cases as cases;
ghost use Rattle.node_steps.specs.Choosing.{own_candidate};
ghost use Rattle.node_steps.specs.Meeting.{Meets, MeetsBody};
ghost use Rattle.node_steps.specs.declared.error.NodeError.TheVariants.{Memory};

use crate::grants::{member_grant, member_steal};
use crate::leaving::{
    leaving_grant, leaving_offer, leaving_offer_ack, leaving_roster, leaving_steal,
};
use crate::offers::member_offer;
use crate::outcomes::{member_abort, member_result};
use crate::pieces::{leaving_piece, member_piece};
use crate::requests::{joining_roster, member_refuse, member_result_ack, member_roster};
use codec::{Body, Join, ReadError, Roster, decode};
use node_state::State;
use node_steps::{JobNode, NodeError, Step, ignored};
use std::alloc::Global;

/// The case of a body, by where the node stands.
macro_rules! on_case {
    ($node:ident, $alloc:ident, $body:ident; $($kind:ident: $joining:ident, $member:ident, $leaving:ident, $ended:ident;)*) => {
        match $body {
            $(Body::$kind(packet) => match $node.parts.state() {
                State::Joining => case!($joining, $node, $alloc, packet),
                State::Member(_) => case!($member, $node, $alloc, packet),
                State::Leaving(_, _) => case!($leaving, $node, $alloc, packet),
                State::Ended => case!($ended, $node, $alloc, packet),
            },)*
        }
    };
}

/// One case: a packet is ignored, or a function does what it says.
macro_rules! case {
    (ignored, $node:ident, $alloc:ident, $packet:ident) => {
        Ok(ignored($alloc))
    };
    ($case:ident, $node:ident, $alloc:ident, $packet:ident) => {
        $case($node, $alloc, $packet)
    };
}

/// What comes in a packet's bytes is done: the call `Node::on_bytes`, which tells when a packet is
/// refused.
#[tactic(auto, unfolding(node_steps::specs::Cases::on_packet))]
pub fn on_bytes(node: &mut JobNode, alloc: Global, bytes: &[u8]) -> Result<Step, NodeError>
    ensures { Meets (cases.on_bytes node.old.job (own_candidate node.old.posts) bytes.now node.old.node)
        result node.old node.new }
{
    let packet = match decode(alloc, bytes) {
        Ok(packet) => packet,
        Err(ReadError::Fault(fault)) => return Err(NodeError::Bytes(fault)),
        Err(ReadError::Memory) => return Err(NodeError::Memory),
    };
    if packet.job() != node.job.number() || packet.to().word() != node.parts.incarnation().word() {
        return Ok(ignored(alloc));
    }
    on_body(node, alloc, packet.into_body())
}

/// The table: a row for each kind, and a column for a joining node, a member, a leaving node
/// and an ended one.
#[tactic(auto, unfolding(node_steps::specs::Cases::on_body, node_state::specs::Node::by_state))]
fn on_body(node: &mut JobNode, alloc: Global, body: Body) -> Result<Step, NodeError>
    requires { IsTrue (fits_body body) }
    ensures { MeetsBody body result node.old node.new }
{
    codec::rosters_rise();
    codec::saved_values_rise();
    on_case! { node, alloc, body;
        Join: ignored, ignored, ignored, ignored;
        Roster: joining_roster, member_roster, leaving_roster, ignored;
        Steal: ignored, member_steal, leaving_steal, ignored;
        Grant: ignored, member_grant, leaving_grant, ignored;
        Refuse: ignored, member_refuse, ignored, ignored;
        Result: ignored, member_result, ignored, ignored;
        ResultAck: ignored, member_result_ack, ignored, ignored;
        Offer: ignored, member_offer, leaving_offer, ignored;
        OfferAck: ignored, ignored, leaving_offer_ack, ignored;
        Leave: ignored, ignored, ignored, ignored;
        Abort: ignored, member_abort, ignored, ignored;
        Beat: ignored, ignored, ignored, ignored;
        Save: ignored, ignored, ignored, ignored;
        Piece: ignored, member_piece, leaving_piece, ignored;
    }
}
