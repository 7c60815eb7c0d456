//! Sleeping until there is something to do: the body workers of a node until it offers a ticket, a
//! node until a turn or a packet comes, and the clearinghouse until a packet does.

use crossbeam_utils::CachePadded;
use std::alloc::{AllocError, Global};
use std::sync::Wait;
use std::sync::atomic::AtomicU64;
use std::sync::atomic::Ordering::SeqCst;
use std::time::Duration;

/// How long a body worker sleeps at most, in microseconds. It is woken where there is something for
/// it.
const LONG: u64 = 10_000;

/// By which threads sleep until another one has something for them.
#[derive(Drop)]
struct Bell {
    /// How often it was rung.
    rung: AtomicU64,
    /// How many sleep, or are about to.
    asleep: AtomicU64,
}

impl Bell {
    fn new() -> Bell {
        Bell {
            rung: AtomicU64::new(0),
            asleep: AtomicU64::new(0),
        }
    }

    fn rung(&self) -> u64 {
        self.rung.load(SeqCst)
    }

    fn asleep(&self) -> u64 {
        self.asleep.load(SeqCst)
    }

    /// It is rung, and wakes nobody by itself.
    fn ring(&self) {
        let _ = self.rung.fetch_add(1, SeqCst);
    }

    /// It is rung, and wakes one that sleeps.
    fn wake(&self) {
        self.ring();
        if self.asleep() > 0 {
            self.rung.wake_one();
        }
    }

    /// Sleeps for at most so many microseconds, unless it was rung since it had been rung so often.
    fn sleep<R: Wait>(&self, rt: &R, rung: u64, most: u64) {
        let _ = self.asleep.fetch_add(1, SeqCst);
        let most = Duration::from_micros(most);
        self.rung
            .park_timeout(rt, (rung & 0xffff_ffff) as u32, most);
        let _ = self.asleep.fetch_sub(1, SeqCst);
    }
}

/// The bell that a node rings for each ticket that it offers, and what its body workers count. Who
/// looks for something reads how often the bell was rung, looks, and sleeps only where it wasn't
/// rung since. So nobody sleeps beside what it waits for. The bell and the counts lie on cache
/// lines of their own.
#[derive(Drop)]
pub struct Bells {
    workers: u64,
    offered: CachePadded<Bell>,
    /// How many tickets body workers took, and are done with.
    taken: CachePadded<AtomicU64>,
    returned: CachePadded<AtomicU64>,
    /// How many tickets the node took back.
    taken_back: AtomicU64,
    /// The number of the node's place.
    place: u64,
}

impl Bells {
    /// Those of the node of a place with so many body workers, to which no ticket was offered.
    pub fn new(place: u64, workers: usize) -> Bells {
        Bells {
            workers: workers as u64,
            offered: CachePadded::new(Bell::new()),
            taken: CachePadded::new(AtomicU64::new(0)),
            returned: CachePadded::new(AtomicU64::new(0)),
            taken_back: AtomicU64::new(0),
            place,
        }
    }

    /// The number of the node's place.
    pub fn place(&self) -> usize {
        self.place as usize
    }

    /// A ticket was offered. A body worker is woken where fewer look for tickets than wait.
    pub fn announce(&self) {
        self.offered.ring();
        if self.offered.asleep() > 0 && self.looking() < self.queued() {
            self.offered.rung.wake_one();
        }
    }

    /// The node took a ticket back.
    pub fn take_back(&self) {
        let _ = self.taken_back.fetch_add(1, SeqCst);
    }

    /// A body worker took a ticket.
    pub fn take(&self) {
        let _ = self.taken.fetch_add(1, SeqCst);
    }

    /// How many tickets wait for a body worker.
    fn queued(&self) -> u64 {
        let left = self.offered.rung().saturating_sub(self.taken.load(SeqCst));
        left.saturating_sub(self.taken_back.load(SeqCst))
    }

    /// How many body workers have a ticket.
    fn busy(&self) -> u64 {
        let taken = self.taken.load(SeqCst);
        taken.saturating_sub(self.returned.load(SeqCst))
    }

    /// How many body workers are awake and have no ticket.
    fn looking(&self) -> u64 {
        let others = self.offered.asleep().saturating_add(self.busy());
        self.workers.saturating_sub(others)
    }

    /// The node has ended: all body workers are woken.
    pub fn end(&self) {
        self.offered.ring();
        self.offered.rung.wake_all();
    }

    /// How often tickets were offered, as a body worker reads it before it looks for one.
    pub fn offered(&self) -> u64 {
        self.offered.rung()
    }

    /// Whether more body workers look for tickets than wait, and more than one does.
    pub fn has_enough(&self) -> bool {
        self.looking() > self.queued().max(1)
    }

    /// A body worker that found no ticket sleeps until one is offered.
    pub fn sleep_worker<R: Wait>(&self, rt: &R, offered: u64) {
        self.offered.sleep(rt, offered, LONG);
    }

    /// A body worker is done with a ticket.
    pub fn give_back(&self) {
        let _ = self.returned.fetch_add(1, SeqCst);
    }
}

/// The bell of a node, and the start word of the one that is up at its place.
#[derive(Drop)]
struct NodeBell {
    bell: Bell,
    word: AtomicU64,
}

/// The bells of a run: one of the clearinghouse, which is rung for packets that are sent to it, and
/// one of each node, which is rung for these too, for turns that come back, and for an outcome.
/// Each lies on cache lines of its own.
#[derive(Drop)]
pub struct RunBells {
    house: CachePadded<Bell>,
    nodes: Vec<CachePadded<NodeBell>>,
}

impl RunBells {
    /// Those of a run of so many nodes, of which none was rung.
    pub fn new(alloc: Global, nodes: u8) -> Result<RunBells, AllocError> {
        let mut bells = Vec::with_capacity(alloc, usize::from(nodes))?;
        for _ in 0..nodes {
            bells.push(CachePadded::new(NodeBell {
                bell: Bell::new(),
                word: AtomicU64::new(0),
            }))?;
        }
        Ok(RunBells {
            house: CachePadded::new(Bell::new()),
            nodes: bells,
        })
    }

    /// A node starts at a place, with this start word.
    pub fn set_word(&self, place: usize, word: u64) {
        if let Some(node) = self.nodes.get(place) {
            node.word.store(word, SeqCst);
        }
    }

    /// The start word of the node at a place.
    pub fn word(&self, place: usize) -> u64 {
        match self.nodes.get(place) {
            Some(node) => node.word.load(SeqCst),
            None => 0,
        }
    }

    /// There is something for the node of a place, which is woken, if it sleeps.
    pub fn wake_node(&self, place: usize) {
        if let Some(node) = self.nodes.get(place) {
            node.bell.wake();
        }
    }

    /// There is an outcome: all nodes are woken.
    pub fn wake_nodes(&self) {
        for node in self.nodes.iter() {
            node.bell.wake();
        }
    }

    /// There is something for the clearinghouse, which is woken, if it sleeps.
    pub fn wake_house(&self) {
        self.house.wake();
    }

    /// How often the bell of a place's node was rung, as it reads it before it looks for something.
    pub fn node_rung(&self, place: usize) -> u64 {
        match self.nodes.get(place) {
            Some(node) => node.bell.rung(),
            None => 0,
        }
    }

    /// The same of the clearinghouse.
    pub fn house_rung(&self) -> u64 {
        self.house.rung()
    }

    /// The node of a place, which found nothing, sleeps until its bell is rung, for at most so many
    /// microseconds.
    pub fn sleep_node<R: Wait>(&self, rt: &R, place: usize, rung: u64, most: u64) {
        if let Some(node) = self.nodes.get(place) {
            node.bell.sleep(rt, rung, most);
        }
    }

    /// The same of the clearinghouse.
    pub fn sleep_house<R: Wait>(&self, rt: &R, rung: u64, most: u64) {
        self.house.sleep(rt, rung, most);
    }
}
