use std::thread::{sleep, yield_now};
use std::time::{Clock, Duration};

/// In how many turns in a row with nothing done an actor yields that waits for another thread which
/// has something of it: for some ten microseconds, so that it is awake when the turn of a short
/// body comes back, or the next ticket.
pub const YIELDS: u64 = 32;

/// In how many such turns a node yields that has nothing out.
const IDLE_YIELDS: u64 = 4;

/// After how many turns each an actor sleeps from then on. The others cost less than going to
/// sleep, and waiting for many turns isn't to take long: a node sends again, and so events pass,
/// after as many as 512.
const AWAKE: u64 = 32;

/// How long an actor sleeps in a turn then in a run of few nodes, in microseconds.
const SLEEP: u64 = 50;

/// The same in a run of one node, which nobody asks for work.
const SLEEP_ALONE: u64 = 200;

/// The same where a node's body workers are busy for long: one of them wakes it, or a packet.
const SLEEP_BUSY: u64 = 2_000;

/// How long a node sleeps at least that asks in vain while others go on, in microseconds.
const LONG_SLEEP: u64 = 250;

/// How many nodes are few.
const FEW: u64 = 8;

/// How many events the beginning of a run has, in which its actors join each other and the first
/// task is granted.
const FIRST_EVENTS: u64 = 64;

/// In how many turns in a row an actor yields then in a run of few nodes, so that a run of a
/// millisecond isn't spent asleep.
const FIRST_YIELDS: u64 = 512;

/// Whether an actor that did nothing in so many turns stays awake, as a run of so many nodes has
/// just begun.
pub fn is_beginning(events: u64, nodes: u8, idle: u64) -> bool {
    events < FIRST_EVENTS && u64::from(nodes) <= FEW && idle < FIRST_YIELDS
}

/// In how many turns a node pauses at most before it asks once more.
const LONGEST: u64 = 20;

/// The same where it sleeps long.
const LONGEST_SLEEPING: u64 = 8;

/// In how many turns a node that asked so often since it ran a frame pauses before it asks once
/// more, where it sleeps long or doesn't.
pub fn pauses(asked: u64, long: bool) -> u64 {
    if long {
        LONGEST_SLEEPING
    } else {
        asked.min(LONGEST)
    }
}

/// Whether a node that asked so often since it ran a frame asks in vain.
pub fn asks_in_vain(asked: u64) -> bool {
    asked >= LONGEST
}

/// How long a node sleeps that pauses in a run of so many, in microseconds; longer where it is to.
pub fn pause(nodes: u8, long: bool) -> u64 {
    let least = if long { LONG_SLEEP } else { 0 };
    nap(nodes).max(least)
}

/// An actor that waits for another one, and did nothing in so many turns, lets others go on.
pub fn rest(rt: &impl Clock, nodes: u8, idle: u64) {
    rest_after(rt, nodes, idle, YIELDS);
}

/// An actor with nothing out, which did nothing in so many turns, lets others go on.
pub fn rest_idle(rt: &impl Clock, nodes: u8, idle: u64) {
    rest_after(rt, nodes, idle, IDLE_YIELDS);
}

/// Whether an actor that did nothing in so many turns sleeps in this one.
pub fn is_to_sleep(idle: u64) -> bool {
    idle % AWAKE == 0
}

fn rest_after(rt: &impl Clock, nodes: u8, idle: u64, yields: u64) {
    if idle < yields {
        yield_now();
    } else if is_to_sleep(idle) {
        sleep(rt, Duration::from_micros(nap(nodes)));
    }
}

/// How long an actor sleeps at most in a run of so many nodes until its bell is rung, in
/// microseconds; longer where body workers are busy for long.
pub fn wait(nodes: u8, long: bool) -> u64 {
    let least = if long { SLEEP_BUSY } else { 0 };
    nap(nodes).max(least)
}

/// How long an actor sleeps in a run of so many nodes, in microseconds: so long that all of them
/// together wake as often as a few do.
fn nap(nodes: u8) -> u64 {
    if nodes == 1 {
        return SLEEP_ALONE;
    }
    let many = u64::from(nodes).saturating_add(FEW - 1) / FEW;
    SLEEP.saturating_mul(many)
}
