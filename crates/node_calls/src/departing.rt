//! A node leaves: it offers what it holds to its heir, and says that it has left once nothing is
//! held and nobody awaited any more.
ghost use Rattle.std.specs.Prelude.{◌≡◌, ◌++◌, Ok, Some, None, [], ◌∷◌, IfOk, IfErr, IsErrOf, IsTrue, OnOk, nat_eq, false, map, is_some, ◌+◌};
ghost use Rattle.ids.specs.Naming.{name_of_member};
ghost use Rattle.ids.specs.Ordered.{AreInOrder};
ghost use Rattle.codec.specs.Table.{is_short};
ghost use Rattle.codec.specs.declared.body.Body.TheVariants as body;
ghost use Rattle.codec.specs.declared.body.Roster as declared;
ghost use Rattle.departure.specs.Freezing.{AllFit, AreMovable, Freezes, refusal};
ghost use Rattle.node_state.specs.Parts.{IsMember};
ghost use Rattle.node_state.specs.declared.parts.State.TheVariants.{Member, Leaving};
ghost use Rattle.node_steps.specs.Calls as calls;
ghost use Rattle.node_steps.specs.Meeting.{MayLackMemory, Meets};
ghost use Rattle.node_steps.specs.Moves as moves;
ghost use Rattle.node_steps.specs.declared.error.NodeError.TheVariants.{Memory};

use codec::{Beat, Datagram, Grant, Leave, Offer, Packet, Roster, alone, send};
use departure::{FreezeError, Move};
use ids::{GrantId, Incarnation, Listed, Named, SortedMap};
use node_state::State;
use node_steps::{JobNode, NodeError, Step, given_by, send_on, sends};
use std::alloc::{AllocError, Global};
use std::marker::Model;

/// Leaves to an heir: the call `Node::depart`, which tells when it is refused.
#[tactic(auto, unfolding(node_steps::specs::Calls::depart, node_state::specs::Node::by_state))]
pub fn depart(node: &mut JobNode, alloc: Global, heir: Incarnation) -> Result<Step, NodeError>
    ensures answer { Meets (calls.depart node.old.job heir node.old.node) result node.old node.new }
    ensures out_of_memory { IsErrOf result Memory → MayLackMemory (calls.depart node.old.job heir node.old.node) }
{
    match node.parts.state() {
        State::Member(_) => {}
        State::Leaving(_, _) => return Err(NodeError::Busy),
        State::Joining | State::Ended => return Err(NodeError::NotJoined),
    }
    let sent = farewell(node, alloc, heir)?;
    node.parts.leave(heir);
    Ok(sends(alloc, sent))
}

/// What is sent where a member leaves to an heir, or why it may not leave.
fn farewell(
    node: &JobNode,
    alloc: Global,
    heir: Incarnation,
) -> Result<Listed<Datagram>, FreezeError>
    requires { IsMember node.now.node.state }
    ensures answer { (r : declared.Roster) → node.now.node.state ≡ Member r
        → Freezes (refusal (moves.move_to node.now.job heir node.now.node)
        (is_some node.now.node.asker.pending) r.members node.now.node.subs)
        (calls.departs node.now.job r heir node.now.node).sent result }
    ensures movable { IfOk result (λ _. AreMovable (moves.move_to node.now.job heir node.now.node)
        node.now.node.subs) }
    ensures other { IfOk result (λ _. nat_eq heir node.now.node.incarnation ≡ false) }
    ensures silent { IfOk result (λ _. node.now.node.asker.pending ≡ None) }
{
    let State::Member(roster) = node.parts.state() else {
        return Err(FreezeError::Memory);
    };
    node.law_roster_rises();
    let is_pending = node.parts.asker().pending().is_some();
    let step = move_to(node, heir);
    law_all_fit(node);
    let mut sent = step.freeze_all(
        alloc,
        node.job.checked(),
        is_pending,
        roster.members.as_slice(),
        node.parts.held(),
    )?;
    match send_leave(node, alloc, &mut sent, roster, heir) {
        Ok(()) => Ok(sent),
        Err(AllocError) => Err(FreezeError::Memory),
    }
}

/// The node's move to its heir.
fn move_to(node: &JobNode, heir: Incarnation) -> Move
    ensures { result ≡ moves.move_to node.now.job heir node.now.node }
{
    Move {
        job: node.job.number(),
        from: node.parts.incarnation(),
        heir,
    }
}

/// All that a node holds fits the program. Does nothing.
fn law_all_fit(node: &JobNode)
    ensures { AllFit node.now.job.program node.now.node.subs }
{
    node.parts.held().law_stand_in_order();
}

/// What a leaving node sends again.
pub fn unacknowledged(
    node: &JobNode,
    alloc: Global,
    roster: &Roster,
    heir: Incarnation,
) -> Result<Listed<Datagram>, NodeError>
    requires { node.now.node.state ≡ Leaving roster.now heir }
    ensures sent { IfOk result (λ sent. sent ≡ calls.leaving_resend node.now.job node.now.node roster.now heir) }
    ensures memory { IfErr result (λ e. e ≡ Memory) }
{
    let mut sent = beat(node, alloc, roster)?;
    law_all_fit(node);
    let offers = move_to(node, heir).offers(alloc, node.job.checked(), node.parts.held())?;
    send_on(&mut sent, offers)?;
    node.law_roster_rises();
    let awaited = awaited_grants(node, alloc, roster)?;
    send_grants(alloc, &mut sent, &awaited)?;
    send_leave(node, alloc, &mut sent, roster, heir)?;
    Ok(sent)
}

/// The Beat.
fn beat(node: &JobNode, alloc: Global, roster: &Roster) -> Result<Listed<Datagram>, AllocError>
    ensures { IfOk result (λ sent. sent ≡ moves.beat node.now.job node.now.node.incarnation roster.now ∷ []) }
{
    let beat = Beat {
        from: node.parts.incarnation(),
        version: roster.version,
    };
    alone(alloc, &Packet::beat(node.job.number(), roster.epoch, beat))
}

/// Adds the Leave, if nothing is held and nobody awaited.
fn send_leave(
    node: &JobNode,
    alloc: Global,
    sent: &mut Listed<Datagram>,
    roster: &Roster,
    heir: Incarnation,
) -> Result<(), AllocError>
    requires other { nat_eq heir node.now.node.incarnation ≡ false }
    requires rising { AreInOrder name_of_member roster.now.members }
    ensures { OnOk result (sent.new ≡ sent.old ++ moves.leaves node.now.job roster.now heir node.now.node) }
{
    if !node.is_done(roster) {
        return Ok(());
    }
    send(alloc, sent, &node.leave(roster, heir))
}

/// The last answers to the thieves that are awaited, by rising grant.
fn awaited_grants<'b>(
    node: &'b JobNode,
    alloc: Global,
    roster: &Roster,
) -> Result<SortedMap<Given<'b>>, AllocError>
    requires { AreInOrder name_of_member roster.now.members }
    ensures { IfOk result (λ given. given ≡ moves.with_given
        (moves.all_given (moves.awaited roster.now node.now.node)) []) }
{
    let mut given = SortedMap::new(alloc);
    for reply in node.parts.replies().values() {
        if node.is_awaited(roster, reply) {
            if let Some(grant) = given_by(reply.packet.body()) {
                given.put(Given {
                    grant,
                    packet: &reply.packet,
                })?;
            }
        }
    }
    Ok(given)
}

/// An answer that is a Grant, with the grant's name. Contracts see the two.
#[derive(Drop)]
struct Given<'a> {
    grant: GrantId,
    packet: &'a Packet,
}

impl<'a> Model for Given<'a> {
    ghost use Rattle.std.specs.Prelude.{IsTrue};
    ghost use Rattle.ids.specs.Naming.{name_of_member};
    ghost use Rattle.ids.specs.Ordered.{AreInOrder};
    ghost use Rattle.codec.specs.Table.{is_short};
    ghost use Rattle.node_steps.specs.Moves as moves;

    ghost Value = { moves.Given };

    ghost view = { λ g. record { grant = g.grant; packet = g.packet.now } };

    ghost invariant = { λ g. IsTrue (is_short g.packet.now.body) };
}

/// It is kept by its grant's name.
impl<'a> Named for Given<'a> {
    ghost use Rattle.node_steps.specs.Moves.{name_of_given};

    ghost name_of = { name_of_given };

    fn name(&self) -> (u64, u64) {
        (self.grant.minter().word(), self.grant.number())
    }
}

/// Adds the Grants, in their order.
fn send_grants(
    alloc: Global,
    sent: &mut Listed<Datagram>,
    given: &SortedMap<Given>,
) -> Result<(), AllocError>
    ensures { OnOk result (sent.new ≡ sent.old ++ map (λ (g : moves.Given). g.packet) given.now) }
{
    for one in given.values() {
        send(alloc, sent, one.packet)?;
    }
    Ok(())
}
