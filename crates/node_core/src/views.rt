//! What a node shows of itself.
ghost use Rattle.std.specs.Prelude.{◌≡◌, IfOk, IfErr, map};
ghost use Rattle.node_core.specs.Views as views;
ghost use Rattle.node_steps.specs.Ready.{work_at};
ghost use Rattle.node_steps.specs.declared.error.NodeError.TheVariants.{Memory};

use crate::node::Node;
use frames::{Frames, is_full};
use ids::{FrameNo, GrantId, Hop, Incarnation, Listed, Outcome, Progress};
use node_state::State;
use node_steps::{NodeError, Work, work_in};
use std::alloc::{AllocError, Global};
use subcomputation::Sub;
use victim_records::Records;

/// The state of a subcomputation, as it is shown: active; frozen for the heir to which the node
/// leaves, with how far it was then; or finished, with its outcome.
#[derive(Clone, Copy, PartialEq, Eq, Debug)]
pub enum SubState {
    Active,
    Frozen(Incarnation, Progress),
    Finished(Outcome),
}

/// A subcomputation, as it is shown: its grant, how often it had moved when it came, its state, the
/// numbers of its ready frames and of those that wait, and the grants of its open records.
#[derive(Drop)]
pub struct SubView {
    pub grant: GrantId,
    pub hop: Hop,
    pub state: SubState,
    pub ready: Listed<FrameNo>,
    pub waiting: Listed<FrameNo>,
    pub open: Listed<GrantId>,
}

impl<'a> Node<'a> {
    /// The work that comes after so many others, from the deepest level on and in a level the
    /// newest first; none where fewer frames are ready. Refused only when out of memory (E63).
    pub fn ready_at(&self, alloc: Global, index: usize) -> Result<Option<Work>, NodeError>
        ensures work { IfOk result (λ o. o ≡ work_at self.now.node self.now.posts index) }
        ensures memory { IfErr result (λ e. e ≡ Memory) }
    {
        let State::Member(_) = self.parts().state() else {
            return Ok(None);
        };
        let Some(post) = self.parts().posts().at(index) else {
            return Ok(None);
        };
        let Some(sub) = self.parts().sub(post.grant) else {
            return Ok(None);
        };
        Ok(work_in(alloc, post.grant, sub, post.frame)?)
    }

    /// The subcomputations that it holds, by rising grant, each with its state: those of a node
    /// that leaves are frozen for its heir. Refused only when out of memory (E63).
    pub fn subs(&self, alloc: Global) -> Result<Listed<SubView>, NodeError>
        ensures subs { IfOk result (λ s. s ≡ map (views.view_of (views.heir_of self.now.node.state))
            self.now.node.subs) }
        ensures memory { IfErr result (λ e. e ≡ Memory) }
    {
        let heir = self.heir();
        let mut shown = Listed::new(alloc);
        for sub in self.parts().subs() {
            shown.push(view_of(alloc, heir, sub)?)?;
        }
        Ok(shown)
    }

    /// The heir to which the node leaves, if it does.
    fn heir(&self) -> Option<Incarnation>
        ensures { result ≡ views.heir_of self.now.node.state }
    {
        match self.parts().state() {
            State::Leaving(_, heir) => Some(*heir),
            State::Joining | State::Member(_) | State::Ended => None,
        }
    }
}

/// The state that is shown of a subcomputation: frozen, where it is for an heir.
fn state_of(heir: Option<Incarnation>, progress: Progress) -> SubState
    ensures { result ≡ views.state_of heir progress }
{
    match (heir, progress) {
        (Some(heir), _) => SubState::Frozen(heir, progress),
        (None, Progress::Active) => SubState::Active,
        (None, Progress::Finished(outcome)) => SubState::Finished(outcome),
    }
}

/// A subcomputation, as it is shown.
fn view_of(alloc: Global, heir: Option<Incarnation>, sub: &Sub) -> Result<SubView, AllocError>
    ensures { IfOk result (λ v. v ≡ views.view_of heir sub.now) }
{
    let content = sub.content();
    Ok(SubView {
        grant: sub.grant(),
        hop: sub.hop(),
        state: state_of(heir, content.progress),
        ready: ready_numbers(alloc, &content.frames)?,
        waiting: waiting_numbers(alloc, &content.frames)?,
        open: open_grants(alloc, &content.records)?,
    })
}

/// The numbers of the frames that are ready.
fn ready_numbers(alloc: Global, frames: &Frames) -> Result<Listed<FrameNo>, AllocError>
    ensures { IfOk result (λ numbers. numbers ≡ views.ready_numbers frames.now) }
{
    let mut numbers = Listed::new(alloc);
    for frame in frames.values() {
        if is_full(frame.slots.as_slice()) {
            numbers.push(frame.number)?;
        }
    }
    Ok(numbers)
}

/// The numbers of the frames that wait.
fn waiting_numbers(alloc: Global, frames: &Frames) -> Result<Listed<FrameNo>, AllocError>
    ensures { IfOk result (λ numbers. numbers ≡ views.waiting_numbers frames.now) }
{
    let mut numbers = Listed::new(alloc);
    for frame in frames.values() {
        if !is_full(frame.slots.as_slice()) {
            numbers.push(frame.number)?;
        }
    }
    Ok(numbers)
}

/// The grants of open records.
fn open_grants(alloc: Global, records: &Records) -> Result<Listed<GrantId>, AllocError>
    ensures { IfOk result (λ grants. grants ≡ views.open_grants records.now) }
{
    let mut grants = Listed::new(alloc);
    for record in records.values() {
        grants.push(record.grant)?;
    }
    Ok(grants)
}
