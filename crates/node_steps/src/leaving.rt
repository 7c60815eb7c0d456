//! What a node that leaves waits for, and how it says that it has left.
ghost use Rattle.std.specs.Prelude.{◌≡◌, Some, None, not, nat_eq, true, false, ◌&&◌};
ghost use Rattle.ids.specs.Naming.{name_of_member};
ghost use Rattle.ids.specs.Ordered.{AreInOrder};
ghost use Rattle.codec.specs.declared.body.Body.TheVariants as body;
ghost use Rattle.node_steps.specs.Moves as moves;

use crate::node::JobNode;
use crate::rosters::{says_live, status_of};
use codec::{Body, Grant, Leave, Packet, Roster};
use ids::{Actor, GrantId, Incarnation};
use steal_protocol::Reply;

impl<'a> JobNode<'a> {
    /// The Leave to an heir, by a roster.
    pub fn leave(&self, roster: &Roster, heir: Incarnation) -> Packet
        requires { nat_eq heir self.now.node.incarnation ≡ false }
        ensures { result ≡ moves.leave self.now.job self.now.node.incarnation roster.now heir }
    {
        let leave = Leave {
            from: self.parts.incarnation(),
            heir,
        };
        Packet::leave(self.job.number(), roster.epoch, leave)
    }

    /// Whether nothing is held and nobody awaited.
    pub fn is_done(&self, roster: &Roster) -> bool
        requires { AreInOrder name_of_member roster.now.members }
        ensures { result ≡ moves.is_done roster.now self.now.node }
    {
        self.parts.held().len() == 0 && !self.awaits_some(roster)
    }

    /// Whether a thief is awaited.
    pub fn awaits_some(&self, roster: &Roster) -> bool
        requires { AreInOrder name_of_member roster.now.members }
        ensures { result ≡ not (moves.is_empty (moves.awaited roster.now self.now.node)) }
    {
        for reply in self.parts.replies().values() {
            if self.is_awaited(roster, reply) {
                return true;
            }
        }
        false
    }

    /// Whether the thief of an answer is awaited.
    pub fn is_awaited(&self, roster: &Roster, reply: &Reply) -> bool
        requires { AreInOrder name_of_member roster.now.members }
        ensures { result ≡ moves.is_awaited roster.now self.now.node.confirmed reply.now }
    {
        match given_by(reply.packet.body()) {
            None => false,
            Some(grant) => {
                says_live(status_of(roster.members.as_slice(), Actor::worker(reply.thief)))
                    && !self.parts.is_confirmed(reply.thief, grant)
            }
        }
    }
}

/// The grant that an answer to a thief gave away, if it is a Grant.
pub fn given_by(body: &Body) -> Option<GrantId>
    ensures { result ≡ moves.given_by body.now }
{
    match body {
        Body::Grant(grant) => Some(grant.grant),
        _ => None,
    }
}
