//! A subcomputation changes, as it was prepared.
ghost use Rattle.std.specs.Prelude.{◌≡◌, Ok, Some};
ghost use Rattle.subcomputation.specs.Subs.{SubOf, sub_in};
ghost use Rattle.subcomputation.specs.Told.{changed_of};
ghost use Rattle.node_steps.specs.Meeting.{MeetsAround, MayChangeIn, changes_of};

use crate::error::NodeError;
use crate::node::JobNode;
use crate::parts::Step;
use crate::sending::{fills_of, send_end, send_on};
use codec::Datagram;
use ids::{GrantId, Listed};
use std::alloc::Global;
use sub_rules::Prepared;

impl<'a> JobNode<'a> {
    /// The subcomputation of a grant changes as it was prepared, between packets that are sent
    /// before and behind: the holder of each record that is dropped is told so, and the host that
    /// waits for the outcome gets it if there is one.
    pub fn change(
        &mut self,
        alloc: Global,
        before: Listed<Datagram>,
        grant: GrantId,
        prepared: Prepared,
        last: Listed<Datagram>,
    ) -> Result<Step, NodeError>
        requires { MayChangeIn self.old grant prepared }
        ensures { (s : SubOf) → sub_in grant self.old.node.subs ≡ Some s
            → MeetsAround before last (changes_of self.old.job (changed_of s prepared) self.old.node)
            result self.old self.new }
    {
        let Prepared {
            update,
            fill,
            ready,
        } = prepared;
        let mut sent = before;
        let Some(sub) = self.parts.sub(grant) else {
            unreachable!();
        };
        send_end(
            alloc,
            self.job,
            &mut sent,
            self.parts.incarnation(),
            sub,
            &update,
        )?;
        send_on(&mut sent, last)?;
        let fills = fills_of(alloc, grant, fill)?;
        self.parts.update(grant, update, ready.as_slice())?;
        Ok(Step {
            sent,
            fills,
            ignored: false,
        })
    }
}
