//! How far a run has come, told on a terminal while it goes.
//!
//! The line is for people: nothing reads it back, and no clause speaks of it.
#![tactic(auto)]

use std::io::{self, Write};
use std::sync::atomic::AtomicU64;
use std::sync::atomic::Ordering::SeqCst;
use std::thread::sleep;
use std::time::{Clock, Duration, Instant};

/// How many milliseconds a run takes before anything is told of it.
const SILENT: u64 = 2_000;

/// How many milliseconds pass between two lines.
const PAUSE: u64 = 500;

/// How many milliseconds pass between two looks at whether the run has ended.
const NAP: u64 = 10;

/// What a run has come to so far. Its own threads note it, and another one tells it.
#[derive(Drop)]
pub struct RunProgress {
    events: AtomicU64,
    packets: AtomicU64,
    ended: AtomicU64,
}

impl RunProgress {
    /// That of a run which begins.
    pub fn new() -> RunProgress {
        RunProgress {
            events: AtomicU64::new(0),
            packets: AtomicU64::new(0),
            ended: AtomicU64::new(0),
        }
    }

    /// So many events were carried out, and so many packets sent.
    pub fn note(&self, events: u64, packets: u64) {
        self.events.store(events, SeqCst);
        self.packets.store(packets, SeqCst);
    }

    /// The run has ended: nothing more is told of it.
    pub fn end(&self) {
        self.ended.store(1, SeqCst);
    }

    fn has_ended(&self) -> bool {
        self.ended.load(SeqCst) == 1
    }

    /// Writes a line over the last one: the events, how many a second in so many milliseconds, and
    /// the packets.
    fn write<E: Write>(&self, err: &mut E, millis: u64) -> io::Result<()> {
        let events = self.events.load(SeqCst);
        let packets = self.packets.load(SeqCst);
        let rate = events.saturating_mul(1_000) / millis.max(1);
        write!(
            err,
            "\r{events} events, {rate} a second, {packets} packets\x1b[K"
        )?;
        err.flush()
    }
}

/// How many milliseconds have passed since an instant; 0 where the clock fails.
fn millis_since<R: Clock>(rt: &R, began: &Instant) -> u64 {
    match began.elapsed(rt) {
        Ok(passed) => passed
            .as_secs()
            .saturating_mul(1_000)
            .saturating_add(u64::from(passed.subsec_millis())),
        Err(_) => 0,
    }
}

/// Tells how far a run has come until it ends: nothing in its first two seconds, and then twice a
/// second in one line, which is written anew each time and taken away at the end. Where the clock
/// fails nothing is told, and behind a line that can't be written nothing more.
pub fn tell<R: Clock, E: Write>(rt: &R, err: &mut E, progress: &RunProgress) {
    let Ok(began) = Instant::now(rt) else {
        return;
    };
    let (mut due, mut is_told) = (SILENT, false);
    for _ in 0..u64::MAX {
        if progress.has_ended() {
            break;
        }
        sleep(rt, Duration::from_millis(NAP));
        let millis = millis_since(rt, &began);
        if millis >= due && !progress.has_ended() {
            if progress.write(err, millis).is_err() {
                return;
            }
            (due, is_told) = (millis.saturating_add(PAUSE), true);
        }
    }
    if is_told {
        let _ = write!(err, "\r\x1b[K");
        let _ = err.flush();
    }
}
