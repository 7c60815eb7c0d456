//! Commands on the store of a checkpoint.

use crate::bench::{Bench, Held, go_on};
use crate::shown::{outcome_in, plan_in, write_failures, write_kept, write_kind};
use checkpoint::{LastEpoch, Store, StoreError, commit_and_reopen, format};
use disk::Disk;
use ids::Outcome;
use play_packets::write_field;
use play_words::{Answers, CommandLine};
use std::alloc::Global;

/// Writes a refusal.
fn write_refused(refused: StoreError, is_planned: bool, out: &mut Answers) {
    out.refusal(&refused);
    if refused == StoreError::Device {
        go_on(is_planned, out);
    }
}

/// Writes what a call answered.
fn write_answer(answer: Result<(), StoreError>, is_planned: bool, out: &mut Answers) {
    match answer {
        Ok(()) => out.line("ok"),
        Err(refused) => write_refused(refused, is_planned, out),
    }
}

/// What an opening leaves, and writes what it shows.
fn opened<D: Disk>(
    answer: Result<Store<D>, (StoreError, D)>,
    is_planned: bool,
    out: &mut Answers,
) -> Held<D> {
    match answer {
        Ok(store) => {
            write_kept(out, store.record(), store.sequence());
            Held::Store(store)
        }
        Err((refused, disk)) => {
            write_refused(refused, is_planned, out);
            Held::Bare(disk)
        }
    }
}

/// The epoch and the outcome that the words of a command name.
fn record_in(line: &CommandLine<'_>) -> Option<(LastEpoch, Option<Outcome>)> {
    let epoch = LastEpoch::of(line.number(2)?)?;
    let outcome = outcome_in(line.word(3)?)?;
    Some((epoch, outcome))
}

/// Opens the store of a bare disk: what has the disk then, and whether it was bare.
fn open<D: Disk>(
    held: Held<D>,
    is_planned: bool,
    alloc: Global,
    job: u64,
    out: &mut Answers,
) -> (Held<D>, bool) {
    match held {
        Held::Bare(disk) => (opened(Store::open(alloc, disk, job), is_planned, out), true),
        other => (other, false),
    }
}

/// Commits to a store, crashes and opens it, likewise.
fn reopen<D: Disk + Drop>(
    held: Held<D>,
    is_planned: bool,
    alloc: Global,
    (epoch, outcome): (LastEpoch, Option<Outcome>),
    out: &mut Answers,
) -> (Held<D>, bool) {
    match held {
        Held::Store(store) => {
            let (answer, again) = commit_and_reopen(alloc, store, epoch, outcome);
            write_answer(answer, is_planned, out);
            (opened(again, is_planned, out), true)
        }
        other => (other, false),
    }
}

/// Gives the disk of a store back, likewise.
fn close<D: Disk>(held: Held<D>) -> (Held<D>, bool) {
    match held {
        Held::Store(store) => (Held::Bare(store.into_disk()), true),
        other => (other, false),
    }
}

/// A command of a store that changes what has the disk.
#[derive(Clone, Copy)]
enum Change {
    Open(u64),
    Reopen(LastEpoch, Option<Outcome>),
    Close,
}

/// Carries out such a command.
fn changed<D: Disk + Drop>(
    bench: &mut Bench<D>,
    alloc: Global,
    change: Change,
    out: &mut Answers,
) -> Option<()> {
    let held = bench.held.take()?;
    let behind = match change {
        Change::Open(job) => open(held, bench.is_planned, alloc, job, out),
        Change::Reopen(epoch, outcome) => {
            reopen(held, bench.is_planned, alloc, (epoch, outcome), out)
        }
        Change::Close => close(held),
    };
    bench.hold_behind(behind)
}

/// Makes the store of a job on a bare disk.
fn make<D: Disk>(bench: &mut Bench<D>, line: &CommandLine<'_>, out: &mut Answers) -> Option<()> {
    let job = line.number(2)?;
    let Some(Held::Bare(disk)) = &mut bench.held else {
        return None;
    };
    write_answer(format(disk, job), bench.is_planned, out);
    Some(())
}

/// Plays a command on a store that is open.
fn play_open<D: Disk>(
    store: &mut Store<D>,
    is_planned: bool,
    alloc: Global,
    line: &CommandLine<'_>,
    out: &mut Answers,
) -> Option<()> {
    match line.word(1)? {
        "record" => write_kept(out, store.record(), store.sequence()),
        "failures" => write_failures(out, store.failures()),
        "kind" => write_kind(out, store.can_cut()),
        "commit" => {
            let (epoch, outcome) = record_in(line)?;
            write_answer(store.commit(epoch, outcome), is_planned, out);
        }
        "arm" => {
            let (calls, bytes) = plan_in(alloc, line, out)?;
            store.arm(calls, bytes);
        }
        _ => return None,
    }
    Some(())
}

/// Plays a command on a store.
pub fn play_store<D: Disk + Drop>(
    bench: &mut Bench<D>,
    alloc: Global,
    line: &CommandLine<'_>,
    out: &mut Answers,
) -> Option<()> {
    match line.word(1)? {
        "format" => make(bench, line, out),
        "open" => changed(bench, alloc, Change::Open(line.number(2)?), out),
        "reopen" => {
            let (epoch, outcome) = record_in(line)?;
            changed(bench, alloc, Change::Reopen(epoch, outcome), out)
        }
        "close" => changed(bench, alloc, Change::Close, out),
        _ => match &mut bench.held {
            Some(Held::Store(store)) => play_open(store, bench.is_planned, alloc, line, out),
            _ => None,
        },
    }
}

/// Writes whether a number is a last epoch, and which epoch is the next one.
pub fn play_epoch(line: &CommandLine<'_>, out: &mut Answers) -> Option<()> {
    let Some(epoch) = LastEpoch::of(line.number(2)?) else {
        out.line("no epoch");
        return Some(());
    };
    write_field(out, "> epoch ", epoch.number());
    match epoch.next() {
        None => out.text(", no next one"),
        Some(next) => write_field(out, ", next ", LastEpoch::at(next).number()),
    }
    out.end();
    Some(())
}
