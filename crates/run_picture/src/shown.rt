//! What a picture shows beside what is held: lives, turns, packets, and what rosters say.

use crate::deed::Site;
use codec::Kind;
use event_script::NodePlace;
use ids::GrantId;

/// There was no memory to keep it: the record isn't whole.
#[derive(Clone, Copy)]
pub(crate) struct Lost;

/// Adds an item behind the others.
pub(crate) fn keep<T: Drop>(list: &mut Vec<T>, item: T) -> Result<(), Lost> {
    match list.push(item) {
        Ok(()) => Ok(()),
        Err(_) => Err(Lost),
    }
}

/// A node was up, or the clearinghouse was open, from one event to another.
#[derive(Clone, Copy)]
pub(crate) struct Life {
    pub(crate) site: Site,
    pub(crate) since: usize,
    pub(crate) until: usize,
}

/// A worker, by its start word, and when and where it started.
#[derive(Clone, Copy)]
pub(crate) struct Worker {
    pub(crate) word: u64,
    pub(crate) at: usize,
    pub(crate) place: NodePlace,
}

/// A thread body that ran, or all those of a task that was evaluated whole, in the subcomputation
/// on a track.
#[derive(Clone, Copy)]
pub(crate) struct Turn {
    pub(crate) at: usize,
    pub(crate) place: NodePlace,
    pub(crate) track: usize,
    pub(crate) is_of_whole: bool,
}

/// A packet that was sent: at which event and where, to whom, its kind and the grant that it names.
#[derive(Clone, Copy)]
pub(crate) struct Sent {
    pub(crate) at: usize,
    pub(crate) site: Site,
    pub(crate) to: u64,
    pub(crate) kind: Kind,
    pub(crate) grant: Option<GrantId>,
    pub(crate) is_delivered: bool,
}

/// A packet came, at an event: once more, perhaps, or to be ignored.
#[derive(Clone, Copy)]
pub(crate) struct Delivery {
    pub(crate) packet: usize,
    pub(crate) at: usize,
    pub(crate) site: Site,
    pub(crate) is_again: bool,
    pub(crate) is_ignored: bool,
}

/// A roster says for the first time, at an event, that a worker is dead.
#[derive(Clone, Copy)]
pub(crate) struct Death {
    pub(crate) at: usize,
    pub(crate) word: u64,
}
