use crate::config::RunConfig;
use crossbeam_utils::CachePadded;
use std::alloc::{AllocError, Global};
use std::sync::atomic::AtomicU64;
use std::sync::atomic::Ordering::SeqCst;

/// The word of no node: start words are drawn from 1 on.
const NOBODY: u64 = 0;

/// Who leaves to whom in a run, as its nodes tell each other. A node that leaves takes no Offer,
/// and one whose heir has left has ended: what was offered to it is done again once the one that
/// offered it is taken for dead, and two nodes that leave to each other wait until one of them is.
/// So a node leaves to none that leaves or has left, and none leaves while another one leaves to
/// it. Each word is written by the thread of its place alone.
#[derive(Drop)]
pub struct Leavers {
    /// The node of each place that leaves or has left, and to whom it leaves.
    nodes: Vec<CachePadded<AtomicU64>>,
    heirs: Vec<CachePadded<AtomicU64>>,
}

impl Leavers {
    /// Nobody leaves yet.
    pub fn new(alloc: Global, config: &RunConfig) -> Result<Leavers, AllocError> {
        let count = config.nodes();
        let mut nodes = Vec::with_capacity(alloc, usize::from(count))?;
        let mut heirs = Vec::with_capacity(alloc, usize::from(count))?;
        for _ in 0..count {
            nodes.push(CachePadded::new(AtomicU64::new(NOBODY)))?;
            heirs.push(CachePadded::new(AtomicU64::new(NOBODY)))?;
        }
        Ok(Leavers { nodes, heirs })
    }

    /// Whether the node of a place may leave to another one now; it is told then that it does. Of
    /// two nodes that would leave to each other at one time at least one sees what the other tells,
    /// since each tells before it looks.
    pub fn begin(&self, place: usize, node: u64, heir: u64) -> bool {
        self.tell(place, node, heir);
        if self.is_leaver(heir) || self.is_heir(node) {
            self.tell(place, NOBODY, NOBODY);
            return false;
        }
        true
    }

    /// The node of a place doesn't leave after all.
    pub fn stay(&self, place: usize) {
        self.tell(place, NOBODY, NOBODY);
    }

    /// The node of a place has ended: it leaves to nobody any more, and is one that has left.
    pub fn end(&self, place: usize) {
        if let Some(word) = self.heirs.get(place) {
            word.store(NOBODY, SeqCst);
        }
    }

    /// Whether a node leaves, or has left.
    pub fn is_leaver(&self, node: u64) -> bool {
        for word in self.nodes.iter() {
            if word.load(SeqCst) == node {
                return true;
            }
        }
        false
    }

    /// Whether another node leaves to this one.
    fn is_heir(&self, node: u64) -> bool {
        for word in self.heirs.iter() {
            if word.load(SeqCst) == node {
                return true;
            }
        }
        false
    }

    fn tell(&self, place: usize, node: u64, heir: u64) {
        if let Some(word) = self.nodes.get(place) {
            word.store(node, SeqCst);
        }
        if let Some(word) = self.heirs.get(place) {
            word.store(heir, SeqCst);
        }
    }
}
