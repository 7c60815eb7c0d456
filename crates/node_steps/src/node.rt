//! A node of a job, as what packets and calls do at it sees it.
ghost use Rattle.std.specs.Prelude.{◌≡◌};
ghost use Rattle.ids.specs.Naming.{name_of_member};
ghost use Rattle.ids.specs.Ordered.{AreInOrder};
ghost use Rattle.codec.specs.declared.body.Roster as declared;
ghost use Rattle.node_state.specs.declared.parts.State.TheVariants.{Member, Leaving};

use node_state::Parts;
use serial_meaning::Job;
use std::marker::Model;

/// What a node of a job holds, with the job: what its packets and its calls change. Contracts see
/// the job, the node and the posts of its ready frames.
///
/// The crates of packets and of calls change its fields, and have to show then what holds of a node
/// between its calls (`IsNode`).
#[derive(Drop)]
pub struct JobNode<'a> {
    pub job: &'a Job,
    pub parts: Parts,
    /// In how many turns the task was evaluated that was last carried out whole; 0 where none was.
    pub whole_turns: u64,
}

impl<'a> Model for JobNode<'a> {
    ghost use Rattle.task_tree.specs.Codes.{program_codes};
    ghost use Rattle.node_steps.specs.Meeting.{NodeOn, IsNode};

    ghost Value = { NodeOn };

    ghost coded = { Prim.hlevel program_codes };

    ghost view = { λ n. record { job = n.job.now; node = n.parts.node; posts = n.parts.posts } };

    ghost invariant = { λ n. IsNode (record { job = n.job.now; node = n.parts.node; posts = n.parts.posts }) };
}

impl<'a> JobNode<'a> {
    /// The members of the roster that a node has stand by rising incarnation. Does nothing.
    pub fn law_roster_rises(&self)
        ensures member { (r : declared.Roster) → self.now.node.state ≡ Member r → AreInOrder name_of_member r.members }
        ensures leaving { (r : declared.Roster) (heir : _) → self.now.node.state ≡ Leaving r heir
            → AreInOrder name_of_member r.members }
    {
        let _ = &self.parts;
    }
}
