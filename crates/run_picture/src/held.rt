//! What the nodes of a place hold, event by event.

use crate::said::Task;
use crate::shown::{Lost, keep};
use event_script::{FrameOf, NodePlace};
use ids::GrantId;
use node_core::{SubState, SubView};
use std::alloc::Global;

/// A subcomputation in one state, from an event on. It has a track of its lane to itself.
#[derive(Clone, Copy)]
pub(crate) struct Held {
    pub(crate) grant: GrantId,
    pub(crate) state: SubState,
    pub(crate) track: usize,
    pub(crate) since: usize,
}

/// A subcomputation that was held in one state, until an event.
#[derive(Clone, Copy)]
pub(crate) struct Bar {
    pub(crate) place: NodePlace,
    pub(crate) held: Held,
    pub(crate) until: usize,
}

/// The lane of a place.
#[derive(Drop)]
pub(crate) struct Lane {
    /// Whether an event names the place.
    pub(crate) is_used: bool,
    /// Since which event a node is up.
    pub(crate) up: Option<usize>,
    /// The start word of the first node, and how many nodes started.
    pub(crate) first: u64,
    pub(crate) starts: usize,
    /// What the node holds, by rising grant.
    pub(crate) held: Vec<Held>,
    /// Its ready frames, while turns are told in words.
    pub(crate) tasks: Vec<Task>,
    /// How many tracks are in use at most.
    pub(crate) tracks: usize,
}

impl Lane {
    pub(crate) fn new(alloc: Global) -> Lane {
        Lane {
            is_used: false,
            up: None,
            first: 0,
            starts: 0,
            held: Vec::new(alloc),
            tasks: Vec::new(alloc),
            tracks: 0,
        }
    }

    /// A node starts, with a start word.
    pub(crate) fn start(&mut self, at: usize, word: u64) {
        if self.starts == 0 {
            self.first = word;
        }
        self.starts = self.starts.saturating_add(1);
        self.up = Some(at);
    }

    /// The track of the subcomputation of a frame, if it is held.
    pub(crate) fn track_of(&self, frame: FrameOf) -> Option<usize> {
        for held in &self.held {
            let grant = held.grant;
            if grant.minter().word() == frame.minter && grant.number() == frame.number {
                return Some(held.track);
            }
        }
        None
    }

    /// The words of the thread and the numbers of a frame, if it is one of the ready ones.
    pub(crate) fn task_of(&self, frame: FrameOf) -> Option<&[u8]> {
        for task in &self.tasks {
            if task.frame == frame {
                return Some(task.words.as_slice());
            }
        }
        None
    }

    /// From an event on the node holds these, by rising grant: what ends, or goes on in another
    /// state, becomes a bar. Whether something changes.
    pub(crate) fn hold(
        &mut self,
        alloc: Global,
        at: usize,
        place: NodePlace,
        subs: &[SubView],
        bars: &mut Vec<Bar>,
    ) -> Result<bool, Lost> {
        if self.holds(subs) {
            return Ok(false);
        }
        for held in &self.held {
            if state_in(subs, held.grant) != Some(held.state) {
                let (held, until) = (*held, at);
                keep(bars, Bar { place, held, until })?;
            }
        }
        let mut now = Vec::new(alloc);
        for sub in subs {
            let next = self.next(at, subs, now.as_slice(), sub);
            self.tracks = self.tracks.max(next.track.saturating_add(1));
            keep(&mut now, next)?;
        }
        self.held = now;
        Ok(true)
    }

    /// Whether it holds these, in these states.
    fn holds(&self, subs: &[SubView]) -> bool {
        self.held.len() == subs.len()
            && self.held.iter().zip(subs).all(|(held, sub)| held.grant == sub.grant
                && held.state == sub.state)
    }

    /// How a subcomputation of these goes on: as it was; in another state; or, if it is new, on a
    /// track that is free.
    fn next(&self, at: usize, subs: &[SubView], now: &[Held], sub: &SubView) -> Held {
        let (grant, state) = (sub.grant, sub.state);
        for held in &self.held {
            if held.grant == grant {
                let since = if held.state == state { held.since } else { at };
                return Held {
                    grant,
                    state,
                    track: held.track,
                    since,
                };
            }
        }
        Held {
            grant,
            state,
            track: self.free_track(subs, now),
            since: at,
        }
    }

    /// The first track that neither one that goes on nor a new one has.
    fn free_track(&self, subs: &[SubView], now: &[Held]) -> usize {
        for track in 0..usize::MAX {
            let is_kept = self.held.iter().any(|held| held.track == track
                && state_in(subs, held.grant).is_some());
            if !is_kept && now.iter().all(|held| held.track != track) {
                return track;
            }
        }
        0
    }
}

/// The state of the subcomputation of a grant, if it is one of these.
fn state_in(subs: &[SubView], grant: GrantId) -> Option<SubState> {
    for sub in subs {
        if sub.grant == grant {
            return Some(sub.state);
        }
    }
    None
}
