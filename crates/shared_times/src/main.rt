//! What threads share without waiting, again and again, for `bench/shared`, which takes the time:
//! `shared_times draws|adds|tickets|reads|loads THREADS ROUNDS` prints how often it was done in
//! all. At most 64 threads do it. `shared_times held|faulty NODES BODIES` runs a job under a gate
//! that holds a body, for `tests/run_nodes.py`.
#![tactic(auto)]

mod held;

ghost use Rattle.std.specs.Prelude.{◌≡◌, ◌≤◌};

use anyhow::{Context, Result, bail};
use board::Board;
use held::{Held, run_held};
use kind_check::check;
use local_pool::{BodyWorker, LocalPool, Owner};
use serial_meaning::{Job, serial};
use start_words::{Pen, WordTable};
use std::alloc::Global;
use std::env;
use std::rt::Env;
use std::sync::Wait;
use std::sync::atomic::AtomicU64;
use std::sync::atomic::Ordering::SeqCst;
use std::thread::{Threads, join, map_indices, map_vec, yield_now};
use std::time::Clock;
use task_syntax::parse;

/// Draws so many numbers.
fn draw(table: &WordTable, mut pen: Pen, rounds: u64) -> Pen
    requires { pen.table ≡ table.now.table }
    ensures { result.table ≡ table.entry.now.table }
{
    for _ in 0..rounds {
        if pen.draw(table).is_err() {
            break;
        }
    }
    pen
}

/// Draws start words, by a pen for each thread.
fn draws<R: Threads + Sync>(rt: &R, alloc: Global, threads: usize, rounds: u64) -> Result<u64>
    requires { threads ≤ 64 }
{
    let (table, pens) = WordTable::new(alloc, threads)?;
    let shared = &table;
    let pens = map_vec(
        rt,
        pens,
        &|pen: Pen| -> Pen
            requires { pen.table ≡ shared.now.table }
            ensures { result.table ≡ shared.entry.now.table }
        { draw(shared, pen, rounds) },
    )?;
    Ok(table.close(pens))
}

/// Adds 1 to a word so often.
fn add(word: &AtomicU64, rounds: u64) {
    for _ in 0..rounds {
        word.fetch_add(1, SeqCst);
    }
}

/// Adds to one bare word by all threads.
fn adds<R: Threads + Sync>(rt: &R, alloc: Global, threads: usize, rounds: u64) -> Result<u64> {
    let word = AtomicU64::new(0);
    map_indices(rt, alloc, threads, &|_| add(&word, rounds))?;
    Ok(word.load(SeqCst))
}

/// Offers so many tickets, and then says that it is done. Answers how many were taken in.
fn offer(owner: &mut Owner<u64>, rounds: u64, done: &AtomicU64) -> u64 {
    let mut offered = 0;
    for ticket in 0..rounds {
        if owner.offer(ticket).is_err() {
            break;
        }
        offered = ticket;
    }
    done.store(1, SeqCst);
    offered
}

/// Steals until the owner is done and the pool is empty. Answers how many tickets it stole.
fn steal(mut worker: BodyWorker<u64>, done: &AtomicU64) -> u64 {
    let mut stolen = 0u64;
    let mut last = 0;
    for _ in 0..u64::MAX {
        match worker.steal() {
            Some(_) => stolen = stolen.wrapping_add(1),
            None if last == 1 => break,
            None => {
                last = done.load(SeqCst);
                yield_now();
            }
        }
    }
    stolen
}

/// Offers tickets by one thread, while so many others steal them. Answers how many were stolen.
fn tickets<R: Threads + Sync>(rt: &R, alloc: Global, threads: usize, rounds: u64) -> Result<u64>
    requires { threads ≤ 64 }
{
    let (_, mut owner, workers) = LocalPool::<u64>::new(alloc, 1024, threads)?;
    let done = &AtomicU64::new(0);
    let own = &mut owner;
    let (_, stolen) = join(
        rt,
        || offer(own, rounds, done),
        || map_vec(rt, workers, &|worker: BodyWorker<u64>| steal(worker, done)),
    );
    Ok(sum(&stolen?))
}

/// Reads the board so often with a note of its own, and answers how often an outcome stood there.
fn read(board: &Board, rounds: u64) -> u64 {
    let mut note = board.note();
    let mut found = 0u64;
    for _ in 0..rounds {
        if board.read(&mut note).is_some() {
            found = found.wrapping_add(1);
        }
    }
    found
}

/// The job of a program on a list of numbers.
pub(crate) fn job_of(alloc: Global, text: &[u8], input: Vec<i64>) -> Result<Job> {
    let program = check(alloc, parse(alloc, text)?)?;
    Ok(Job::new(program, input, 1)?)
}

/// A board on which the outcome of a small job stands.
fn published(alloc: Global) -> Result<Board> {
    let text = b"thread main(k) { send_argument(k, 7); }";
    let job = job_of(alloc, text, Vec::new(alloc))?;
    let outcome = serial(alloc, &job, 1)?;
    let board = Board::new(alloc, &job);
    if board.publish(&mut board.note(), outcome).is_err() {
        bail!("no memory for the outcome");
    }
    Ok(board)
}

/// Reads a published board by all threads.
fn reads<R: Threads + Sync>(rt: &R, alloc: Global, threads: usize, rounds: u64) -> Result<u64> {
    let board = published(alloc)?;
    let found = map_indices(rt, alloc, threads, &|_| read(&board, rounds))?;
    Ok(sum(&found))
}

/// Loads a word so often, and answers how often it was set.
fn load(word: &AtomicU64, rounds: u64) -> u64 {
    let mut found = 0u64;
    for _ in 0..rounds {
        if word.load(SeqCst) == 1 {
            found = found.wrapping_add(1);
        }
    }
    found
}

/// Loads one bare word by all threads.
fn loads<R: Threads + Sync>(rt: &R, alloc: Global, threads: usize, rounds: u64) -> Result<u64> {
    let word = AtomicU64::new(1);
    let found = map_indices(rt, alloc, threads, &|_| load(&word, rounds))?;
    Ok(sum(&found))
}

fn sum(counts: &[u64]) -> u64 {
    let mut total = 0u64;
    for count in counts {
        total = total.wrapping_add(*count);
    }
    total
}

/// A number of the command line.
fn number(word: &String) -> Result<u64> {
    word.as_str().parse::<u64>().context("reading a number")
}

/// Does it, and answers how often.
fn work<R: Threads + Sync>(
    rt: &R,
    alloc: Global,
    what: &str,
    threads: usize,
    rounds: u64,
) -> Result<u64>
    requires { threads ≤ 64 }
{
    match what {
        "draws" => draws(rt, alloc, threads, rounds),
        "adds" => adds(rt, alloc, threads, rounds),
        "tickets" => tickets(rt, alloc, threads, rounds),
        "reads" => reads(rt, alloc, threads, rounds),
        "loads" => loads(rt, alloc, threads, rounds),
        _ => bail!("draws, adds, tickets, reads, loads, held or faulty is wanted"),
    }
}

fn run<R: Env + Threads + Wait + Clock + AllocGlobal + Sync>(rt: &R) -> Result<String> {
    let alloc = rt.alloc();
    let words: Vec<String> = env::args(rt)?.collect(alloc)?;
    let [_, what, threads, rounds] = words.as_slice() else {
        bail!("what to do, a number of threads and a number of rounds are wanted");
    };
    let (threads, rounds) = (number(threads)?, number(rounds)?);
    match what.as_str() {
        "held" => return run_held(rt, alloc, threads, rounds, &Held::alone()),
        "faulty" => return run_held(rt, alloc, threads, rounds, &Held::faulty(threads)),
        _ => {}
    }
    let done = work(rt, alloc, what.as_str(), threads.min(64) as usize, rounds)?;
    Ok(format!(in alloc; "{done}")?)
}

fn main(rt: HostRuntime) -> Result<()> {
    let done = run(&rt)?;
    rt.println(done)?;
    Ok(())
}
