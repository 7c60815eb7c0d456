//! What a roster says of a worker, and whether it is news.
ghost use Rattle.std.specs.Prelude.{◌≡◌};
ghost use Rattle.ids.specs.Members.{status_in, says_live};
ghost use Rattle.ids.specs.Naming.{name_of_member};
ghost use Rattle.ids.specs.Ordered.{AreInOrder};
ghost use Rattle.node_state.specs.Node.{NodeOf};
ghost use Rattle.node_steps.specs.Cases.{by_roster};
ghost use Rattle.node_steps.specs.Steps.{Answer};
ghost use Rattle.node_steps.specs.Meeting.{by_news};

use codec::Roster;
use ids::{Actor, Incarnation, Member, Status, item_of};

/// What is said of a worker by members that stand by rising incarnation; none of one that isn't
/// listed. It is found by binary search.
pub fn status_of(members: &[Member], worker: Actor) -> Option<Status>
    requires { AreInOrder name_of_member members.now }
    ensures { result ≡ status_in worker members.now }
{
    let member = item_of(members, (worker.word(), 0))?;
    Some(member.status)
}

/// What a roster is to a node that has one already.
#[derive(Clone, Copy, PartialEq, Eq, Debug)]
pub enum News {
    /// It is of a smaller epoch, or of the same epoch and no newer, or doesn't list the node.
    Old,
    /// The node ends by it: it is of a greater epoch, or newer and doesn't show the node live.
    Over,
    /// It is newer, and shows the node live.
    Newer,
}

/// Whether a roster is news to a worker that keeps another.
#[tactic(auto, unfolding(crate::specs::Cases::by_roster, crate::specs::Cases::by_status, steal_protocol::specs::Replies::by_order))]
pub fn news_of(kept: &Roster, new: &Roster, own: Incarnation) -> News
    requires { AreInOrder name_of_member new.now.members }
    ensures { (n : NodeOf) (answer : Answer) → n.incarnation ≡ own
        → by_roster kept.now new.now n answer ≡ by_news result n answer }
{
    if new.epoch.number() < kept.epoch.number() {
        return News::Old;
    }
    if new.epoch.number() > kept.epoch.number() {
        return News::Over;
    }
    if new.version.number() <= kept.version.number() {
        return News::Old;
    }
    match status_of(new.members.as_slice(), Actor::worker(own)) {
        Some(Status::Live) => News::Newer,
        Some(Status::Dead | Status::Left(_)) => News::Over,
        None => News::Old,
    }
}

/// Whether it is said that a worker lives.
pub fn says_live(status: Option<Status>) -> bool
    ensures { result ≡ says_live status }
{
    matches!(status, Some(Status::Live))
}
