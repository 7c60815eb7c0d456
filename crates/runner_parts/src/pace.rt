use crate::config::RunConfig;
use crossbeam_utils::CachePadded;
use std::alloc::{AllocError, Global};
use std::sync::atomic::AtomicU64;
use std::sync::atomic::Ordering::SeqCst;

/// How many packets the clearinghouse may leave unseen until nodes hold.
const UNSEEN: u64 = 100;

/// How many events a node may be silent for in a run of few nodes until others hold. Two fewer for
/// each node, as each one still has a turn.
const SILENT: u64 = 250;

/// How far the actors of a run have come, as they tell each other. The clearinghouse takes a node
/// for dead from which it took nothing for some 500 events of all actors, and it is one thread of
/// many. So a node that was heard holds while it is behind, or another node is. Each word is
/// written by one thread and read by all, and lies on cache lines of its own.
#[derive(Drop)]
pub struct Pace {
    nodes: u8,
    /// How many events were committed when the node of a place sent again last; the greatest number
    /// where none waits for it.
    heard: Vec<CachePadded<AtomicU64>>,
    /// How many packets the clearinghouse looked at.
    seen: CachePadded<AtomicU64>,
}

impl Pace {
    /// Nothing was done yet.
    pub fn new(alloc: Global, config: &RunConfig) -> Result<Pace, AllocError> {
        let nodes = config.nodes();
        let mut heard = Vec::with_capacity(alloc, usize::from(nodes))?;
        for _ in 0..nodes {
            heard.push(CachePadded::new(AtomicU64::new(0)))?;
        }
        Ok(Pace {
            nodes,
            heard,
            seen: CachePadded::new(AtomicU64::new(0)),
        })
    }

    /// The node of a place sent again when so many events were committed.
    pub fn hear(&self, place: usize, events: u64) {
        if let Some(heard) = self.heard.get(place) {
            heard.store(events, SeqCst);
        }
    }

    /// The node of a place has ended, or waits for something else: none waits for it.
    pub fn forget(&self, place: usize) {
        self.hear(place, u64::MAX);
    }

    /// The clearinghouse looked at so many packets. The word is written only where they are more
    /// than before.
    pub fn see(&self, packets: u64) {
        if self.seen.load(SeqCst) != packets {
            self.seen.store(packets, SeqCst);
        }
    }

    /// Whether, with so many packets sent, the clearinghouse is behind, or another node is behind
    /// one that sent again last when so many events were committed. The node that is last of all
    /// finds none behind it.
    pub fn is_behind(&self, packets: u64, events: u64) -> bool {
        if self.seen.load(SeqCst).saturating_add(UNSEEN) < packets {
            return true;
        }
        let silent = SILENT.saturating_sub(u64::from(self.nodes).saturating_mul(2));
        for heard in self.heard.iter() {
            if heard.load(SeqCst).saturating_add(silent) < events {
                return true;
            }
        }
        false
    }
}
