//! How many packets were sent, as actors read it without the lock.

use crate::chronicle::Receiver;
use crate::kept::Kept;
use crossbeam_utils::CachePadded;
use disk::SteadyDisk;
use std::alloc::{AllocError, Global};
use std::sync::atomic::AtomicU64;
use std::sync::atomic::Ordering::SeqCst;

/// In how many parts workers are told apart by their start words.
const PARTS: u64 = 64;

/// How many packets were sent in all, and up to the last one to each part of the receivers: those
/// of workers, then the clearinghouse, and then the same for Saves. Written under the lock, and
/// only where it changes, so that who reads it in vain has it at hand. Each has cache lines of its
/// own, so that what is written for one actor doesn't take those of others away.
#[derive(Drop)]
pub(crate) struct Sent {
    all: CachePadded<AtomicU64>,
    last: Vec<CachePadded<AtomicU64>>,
}

impl Sent {
    /// None was sent.
    pub(crate) fn new(alloc: Global) -> Result<Sent, AllocError> {
        let mut last = Vec::with_capacity(alloc, PARTS as usize + 2)?;
        for _ in 0..PARTS + 2 {
            last.push(CachePadded::new(AtomicU64::new(0)))?;
        }
        Ok(Sent {
            all: CachePadded::new(AtomicU64::new(0)),
            last,
        })
    }

    /// What a world sent by now. The numbers of parts are written first: who reads the number in
    /// all before one of these finds each packet below it counted there.
    pub(crate) fn note<D: SteadyDisk + Drop>(&self, kept: &Kept<'_, D>) {
        let world = kept.world();
        let sent = world.packets() as u64;
        let before = self.all.load(SeqCst);
        if sent == before {
            return;
        }
        for index in before..sent {
            let Some(packet) = world.packet(index) else {
                break;
            };
            let part = part_of(Receiver::of(packet.as_bytes()));
            if let Some(last) = self.last.get(part) {
                last.store(index.saturating_add(1), SeqCst);
            }
        }
        self.all.store(sent, SeqCst);
    }

    /// How many were sent in all.
    pub(crate) fn all(&self) -> u64 {
        self.all.load(SeqCst)
    }

    /// How many were sent up to the last one to the part of a receiver.
    pub(crate) fn to(&self, receiver: Receiver) -> u64 {
        match self.last.get(part_of(receiver)) {
            Some(last) => last.load(SeqCst),
            None => self.all(),
        }
    }
}

/// The part of a receiver.
fn part_of(receiver: Receiver) -> usize {
    match receiver {
        Receiver::Worker(word) => (word % PARTS) as usize,
        Receiver::Clearinghouse => PARTS as usize,
        Receiver::Saves => PARTS as usize + 1,
    }
}
