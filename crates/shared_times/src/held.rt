use crate::job_of;
use anyhow::{Result, bail};
use disk::MemDisk;
use node_runner::{Faults, Gate, Ran, RunConfig, run_job};
use serial_meaning::Outcome;
use std::alloc::Global;
use std::str::from_utf8;
use std::sync::Wait;
use std::sync::atomic::AtomicU64;
use std::sync::atomic::Ordering::SeqCst;
use std::thread::Threads;
use std::time::Clock;
use world_steps::FirstDisk;

/// The Fibonacci numbers.
const FIB: &[u8] =
    b"thread main(k, n) { if n < 2 { send_argument(k, n); } else { spawn_next sum(k, ?x, ?y); spawn main(x, n - 1); spawn main(y, n - 2); } } thread sum(k, x, y) { send_argument(k, x + y); }";

/// The body that is held.
const HELD: u64 = 2;

/// How many turns may be taken.
const TURNS: u64 = 200_000_000;

/// What is run under the gate: which Fibonacci number, under which faults, and which body has to
/// begin before the one that is held goes on.
#[derive(Drop)]
pub struct Held {
    input: i64,
    faults: Faults,
    before: u64,
}

impl Held {
    /// The third number, without faults. The third body has to begin.
    pub fn alone() -> Held {
        Held {
            input: 3,
            faults: Faults::none(),
            before: 3,
        }
    }

    /// The twelfth number, on so many nodes, each of which crashes once or leaves, and one leaves
    /// where there are more. The body that has to begin does so after all that.
    pub fn faulty(nodes: u64) -> Held {
        Held {
            input: 12,
            faults: Faults {
                crashes: nodes,
                departures: if nodes > 1 { 1 } else { 0 },
                ..Faults::none()
            },
            before: 400,
        }
    }
}

/// The gate that holds one body until another one has begun. It counts those that began.
#[derive(Drop)]
struct Holding {
    begun: AtomicU64,
    goes: AtomicU64,
    before: u64,
}

impl Gate for Holding {
    fn begun(&self, body: u64) {
        let _ = self.begun.fetch_add(1, SeqCst);
        if body == self.before {
            self.goes.store(1, SeqCst);
        }
    }

    fn may_go(&self, body: u64) -> bool {
        body != HELD || self.goes.load(SeqCst) == 1
    }
}

/// Runs a Fibonacci number on so many nodes with so many body workers each, under the gate. The
/// script of the run, and behind it how many bodies began, and the value.
pub fn run_held<R: Threads + Wait + Clock + Sync>(
    rt: &R,
    alloc: Global,
    nodes: u64,
    bodies: u64,
    held: &Held,
) -> Result<String> {
    let mut input = Vec::new(alloc);
    input.push(held.input)?;
    let job = job_of(alloc, FIB, input)?;
    let Some(config) = RunConfig::new(nodes, bodies, held.faults, TURNS) else {
        bail!("no such run");
    };
    let gate = Holding {
        begun: AtomicU64::new(0),
        goes: AtomicU64::new(0),
        before: held.before,
    };
    let Ok(first) = FirstDisk::formatted(alloc, &job) else {
        bail!("out of memory");
    };
    let ran = run_job(rt, alloc, first, &config, &gate)?;
    told(alloc, &ran, gate.begun.load(SeqCst))
}

/// The script of a run, and behind it how many bodies began, and the value.
fn told(alloc: Global, ran: &Ran<MemDisk>, begun: u64) -> Result<String> {
    let Outcome::Value(value) = ran.outcome else {
        bail!("too deep");
    };
    let text = ran.trace.script(alloc)?;
    let script = from_utf8(text.as_slice())?;
    Ok(format!(in alloc; "{script}# bodies {begun}\n# value {value}")?)
}
