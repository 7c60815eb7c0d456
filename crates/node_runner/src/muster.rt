//! Before the first turn all threads of a run have to be there.

use crate::shared::Shared;
use disk::SteadyDisk;
use runner_parts::{End, Gate, RunConfig, YIELDS};
use std::sync::Wait;
use std::thread::{sleep, yield_now};
use std::time::{Clock, Duration};

/// How often a thread that waits for others sleeps briefly before it sleeps longer. Then it isn't
/// woken any more by the last one.
const NAPS: u64 = 1_000;

/// How long it sleeps each time, in microseconds, briefly at most and longer.
const NAP: u64 = 100;

const SLEEP: u64 = 10_000;

/// How often it sleeps longer when the threads of a run are made for the first time, half a second
/// in all. Each further time it is twice as often, up to two minutes in all.
pub(crate) const PATIENCE: u64 = 50;

pub(crate) const MOST_PATIENCE: u64 = 12_800;

/// Sleeps longer: behind it the system doesn't count threads any more that ended before.
pub(crate) fn rest_long<R: Clock>(rt: &R) {
    sleep(rt, Duration::from_micros(SLEEP));
}

/// How many threads a run has: the clearinghouse's, the nodes', and those of their body workers.
pub(crate) fn threads_of(config: &RunConfig) -> u64 {
    let nodes = u64::from(config.nodes());
    1 + nodes + nodes * u64::from(config.bodies())
}

/// A thread is there, and waits for all others, which may be slow. Where the system doesn't make as
/// many, what a thread was to do is done by another one, behind what that one does, and they would
/// wait for each other without end: so none of them begins where one isn't there in time, not that
/// one either, and all are made anew, once the system was seen to make as many. Whether all are
/// there.
pub(crate) fn await_all<R: Wait + Clock, G: Gate + Sync, D: SteadyDisk + Drop>(
    rt: &R,
    shared: &Shared<'_, '_, G, D>,
) -> bool {
    let threads = threads_of(shared.config);
    shared.counts.appear(threads);
    for waited in 0..(YIELDS + NAPS).saturating_add(shared.counts.patience()) {
        if shared.counts.are_there(threads) {
            return true;
        }
        if shared.counts.end().is_some() {
            return false;
        }
        if waited < YIELDS {
            yield_now();
        } else if waited < YIELDS + NAPS {
            shared.counts.await_threads(rt, threads, NAP);
        } else {
            rest_long(rt);
        }
    }
    if !shared.counts.give_up(threads) {
        return true;
    }
    shared.counts.end_by(End::Missing);
    false
}
