ghost use Rattle.std.specs.Prelude.{◌≡◌, ◌↔◌, IsTrue};
ghost use Rattle.ids.specs.Members.{resolve, status_in};
ghost use Rattle.ids.specs.Naming.{name_of_member};
ghost use Rattle.ids.specs.Ordered.{AreInOrder};
ghost use Rattle.heirs.specs.Chains.{begun};

use super::chains::Reach;
use ids::{Actor, Member, Status, item_of};

/// Who has a worker's work: itself where it lives or isn't listed, nobody where it is dead, and
/// where it left, whoever has its heir's; a circle of heirs ends at nobody. Takes no memory.
///
/// The members are looked through once. Where they stand by rising worker, each heir is then found
/// by binary search; else they are looked through again for each heir. A circle is seen after three
/// times as many heirs as left, or fewer.
pub fn bearer_of(members: &[Member], worker: Actor) -> Option<Actor>
    ensures { result ≡ resolve members.now worker }
{
    let rising = are_rising(members);
    let mut at = worker;
    let mut mark = worker;
    for step in 0..members.len() + 1 {
        let heir = match first_reach(members, rising, at) {
            Reach::Ended(bearer) => return bearer,
            Reach::At(heir) => Actor::worker(heir),
        };
        if heir == mark {
            return None;
        }
        at = heir;
        if step.is_power_of_two() {
            mark = heir;
        }
    }
    None
}

/// Where a worker's chain of heirs is after its first step.
fn first_reach(members: &[Member], rising: bool, worker: Actor) -> Reach
    requires { IsTrue rising → AreInOrder name_of_member members.now }
    ensures { result ≡ begun worker (status_in worker members.now) }
{
    let Some(status) = status_of(members, rising, worker) else {
        return Reach::Ended(Some(worker));
    };
    match status {
        Status::Live => Reach::Ended(Some(worker)),
        Status::Dead => Reach::Ended(None),
        Status::Left(heir) => Reach::At(heir),
    }
}

/// What is said of a worker; none of one that isn't listed. Found by binary search where the
/// members stand by rising worker.
fn status_of(members: &[Member], rising: bool, worker: Actor) -> Option<Status>
    requires { IsTrue rising → AreInOrder name_of_member members.now }
    ensures { result ≡ status_in worker members.now }
{
    if !rising {
        return first_status(members, worker);
    }
    let member = item_of(members, (worker.word(), 0))?;
    Some(member.status)
}

/// The same, of the first member that is the worker.
fn first_status(members: &[Member], worker: Actor) -> Option<Status>
    ensures { result ≡ status_in worker members.now }
{
    for member in members {
        if member.incarnation.word() == worker.word() {
            return Some(member.status);
        }
    }
    None
}

/// Whether members stand by rising worker, each once.
fn are_rising(members: &[Member]) -> bool
    ensures { IsTrue result ↔ AreInOrder name_of_member members.now }
{
    members.is_sorted_by(|first, next| first.incarnation.word() < next.incarnation.word())
}
