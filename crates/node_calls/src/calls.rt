//! A node asks for work, and sends again what isn't answered yet.
ghost use Rattle.std.specs.Prelude.{◌≡◌, ◌+◌, ◌++◌, ◌^◌, nat_lt, if◌then◌else◌, Some, None, OnOk, IfOk, IfErr, IsErrOf};
ghost use Rattle.std.specs.List.{flat_map};
ghost use Rattle.ids.specs.Naming.{name_of_member};
ghost use Rattle.ids.specs.Ordered.{AreInOrder};
ghost use Rattle.node_steps.specs.Calls as calls;
ghost use Rattle.node_steps.specs.Moves as moves;
ghost use Rattle.node_state.specs.Node.{NodeOf};
ghost use Rattle.node_steps.specs.Meeting.{MayLackMemory, Meets, LacksMemoryLast};
ghost use Rattle.node_steps.specs.declared.error.NodeError.TheVariants.{Memory};

use crate::departing::unacknowledged;
use codec::{Beat, Datagram, Join, Packet, Roster, Steal, alone, send};
use ids::{Actor, Count, Incarnation, Listed};
use node_state::{Parts, State};
use node_steps::{JobNode, NodeError, Step, Victim, says_live, send_results, sends, status_of};
use serial_meaning::Job;
use std::alloc::{AllocError, Global};

/// Asks a victim for work: the call `Node::ask`, which tells when it is refused.
#[tactic(auto, unfolding(node_steps::specs::Calls::ask, node_state::specs::Node::by_state))]
pub fn ask(node: &mut JobNode, alloc: Global, victim: Victim) -> Result<Step, NodeError>
    ensures answer { Meets (calls.ask node.old.job victim node.old.node) result node.old node.new }
    ensures out_of_memory { IsErrOf result Memory → LacksMemoryLast (calls.ask node.old.job victim node.old.node) }
{
    node.law_roster_rises();
    let roster = match node.parts.state() {
        State::Member(roster) => roster,
        State::Leaving(roster, _) => {
            return match address_of(roster, node.parts.incarnation(), victim) {
                None => Err(NodeError::NotJoined),
                Some(_) => Err(NodeError::Busy),
            };
        }
        State::Joining | State::Ended => return Err(NodeError::NotJoined),
    };
    let Some(to) = address_of(roster, node.parts.incarnation(), victim) else {
        return Err(NodeError::NotJoined);
    };
    if node.parts.asker().pending().is_some() {
        return Err(NodeError::Busy);
    }
    let Some(seq) = next_seq(node) else {
        return Err(NodeError::Spent);
    };
    let steal = Steal {
        from: node.parts.incarnation(),
        seq,
    };
    let sent = alone(alloc, &Packet::steal(node.job.number(), to, steal))?;
    node.parts.ask(to)?;
    Ok(sends(alloc, sent))
}

/// The count of the next request; none where as many were made as are counted.
fn next_seq(node: &JobNode) -> Option<Count>
    ensures { result ≡ (if nat_lt (node.now.node.asker.asked + 1) (2 ^ 64) then Some
        (node.now.node.asker.asked + 1) else None) }
{
    let asked = node.parts.asker().asked().checked_add(1)?;
    Count::of(asked)
}

/// Sends again what isn't answered yet: the call `Node::resend`, which tells what that is.
#[tactic(auto, unfolding(node_steps::specs::Calls::resend, node_state::specs::Node::by_state))]
pub fn resend(node: &JobNode, alloc: Global) -> Result<Step, NodeError>
    ensures answer { Meets (calls.resend node.now.job node.now.node) result node.now node.now }
    ensures out_of_memory { IsErrOf result Memory → MayLackMemory (calls.resend node.now.job node.now.node) }
{
    node.parts.law_nothing_goes();
    match node.parts.state() {
        State::Joining => {
            let join = Join {
                from: node.parts.incarnation(),
            };
            let sent = alone(alloc, &Packet::join(node.job.number(), join))?;
            Ok(sends(alloc, sent))
        }
        State::Member(roster) => {
            let sent = unanswered(node, alloc, roster)?;
            Ok(sends(alloc, sent))
        }
        State::Leaving(roster, heir) => {
            let sent = unacknowledged(node, alloc, roster, *heir)?;
            Ok(sends(alloc, sent))
        }
        State::Ended => Err(NodeError::NotJoined),
    }
}

/// What a member sends again.
fn unanswered(node: &JobNode, alloc: Global, roster: &Roster) -> Result<Listed<Datagram>, NodeError>
    ensures sent { IfOk result (λ sent. sent ≡ calls.member_resend node.now.job node.now.node roster.now) }
    ensures memory { IfErr result (λ e. e ≡ Memory) }
{
    let beat = Beat {
        from: node.parts.incarnation(),
        version: roster.version,
    };
    let mut sent = alone(alloc, &Packet::beat(node.job.number(), roster.epoch, beat))?;
    if let Some(request) = node.parts.asker().pending() {
        let steal = Steal {
            from: node.parts.incarnation(),
            seq: request.seq,
        };
        send(
            alloc,
            &mut sent,
            &Packet::steal(node.job.number(), request.victim, steal),
        )?;
    }
    send_all_results(
        alloc,
        node.job,
        &mut sent,
        node.parts.incarnation(),
        &node.parts,
    )?;
    Ok(sent)
}

/// Whom a request to a victim goes to; none where it may not be asked: a worker may that is another
/// one and is shown live, and the clearinghouse always.
fn address_of(roster: &Roster, own: Incarnation, victim: Victim) -> Option<Actor>
    requires { AreInOrder name_of_member roster.now.members }
    ensures { (n : NodeOf) → n.incarnation ≡ own → result
        ≡ (if calls.may_ask roster.now n victim then Some (calls.address_of roster.now victim) else None) }
{
    match victim {
        Victim::Worker(worker) => {
            let to = Actor::worker(worker);
            if worker.word() != own.word() && says_live(status_of(roster.members.as_slice(), to)) {
                Some(to)
            } else {
                None
            }
        }
        Victim::House => Some(roster.epoch.house()),
    }
}

/// Adds the Results of the subcomputations that are finished.
fn send_all_results(
    alloc: Global,
    job: &Job,
    sent: &mut Listed<Datagram>,
    from: Incarnation,
    parts: &Parts,
) -> Result<(), AllocError>
    ensures { OnOk result (sent.new ≡ sent.old ++ flat_map (moves.results job.now from) parts.now.node.subs) }
{
    for sub in parts.subs() {
        send_results(alloc, job, sent, from, sub)?;
    }
    Ok(())
}
