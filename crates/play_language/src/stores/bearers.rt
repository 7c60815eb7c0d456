//! Who has the work of a roster's workers.

use heirs::Bearers;
use ids::{Actor, Member};
use play_packets::{ends, members, write_field};
use play_words::{Answers, CommandLine};
use std::alloc::Global;

/// Writes who has the work of workers.
fn write_bearer(out: &mut Answers, first: u64, last: u64, bearer: Option<Actor>) {
    write_field(out, " ", first);
    if first != last {
        write_field(out, "..", last);
    }
    match bearer {
        Some(actor) => write_field(out, ":", actor.word()),
        None => out.text(":-"),
    }
}

/// Who has the work of a worker.
fn bearer_of(bearers: &Bearers, worker: u64) -> Option<Actor> {
    match Actor::of(worker) {
        Some(worker) => bearers.bearer(worker),
        None => None,
    }
}

/// Writes who has the work of workers, once for those that stand together and have one heir.
fn write_bearers(out: &mut Answers, bearers: &Bearers, first: u64, last: u64) {
    let mut begun = first;
    let mut shown = bearer_of(bearers, first);
    out.text(">");
    for worker in first..=last {
        let bearer = bearer_of(bearers, worker);
        if bearer != shown {
            write_bearer(out, begun, worker.saturating_sub(1), shown);
            begun = worker;
            shown = bearer;
        }
    }
    write_bearer(out, begun, last, shown);
    out.end();
}

/// The heirs of members; once more behind a refusal, which is when out of memory.
fn write_heirs(alloc: Global, members: &[Member], first: u64, last: u64, out: &mut Answers) {
    for _ in 0..2 {
        match Bearers::of(alloc, members) {
            Ok(bearers) => {
                write_bearers(out, &bearers, first, last);
                break;
            }
            Err(_) => out.line("E9"),
        }
    }
}

/// Plays a command on heirs.
pub fn play_heirs(alloc: Global, line: &CommandLine<'_>, out: &mut Answers) -> Option<()> {
    let (first, last) = ends(line.word(2)?)?;
    let members = members(alloc, line.word(1)?, out)?;
    write_heirs(alloc, members.as_slice(), first, last, out);
    Some(())
}
