//! Commands on a clearinghouse.

use crate::bench::{Bench, Held, go_on};
use crate::job::Setting;
use crate::shown::{bytes_in, plan_in, write_failures, write_found};
use clearinghouse::{House, HouseError, HouseStep};
use codec::{EncodeError, Join, Packet, encode};
use disk::Disk;
use ids::{Incarnation, Outcome};
use play_packets::{Mail, let_go, packet_number, read_packet};
use play_words::{Answers, CommandLine};
use serial_meaning::Job;
use std::alloc::Global;

/// What a command on a clearinghouse needs beside it: the job that is set, all packets that were
/// sent, and whether those that are sent are left out.
#[derive(Drop)]
pub struct Desk {
    pub alloc: Global,
    pub mail: Mail,
    pub setting: Setting,
    pub is_brief: bool,
}

/// Writes a refusal. One when out of memory stops the clearinghouse, and ends the transcript.
fn write_refused(refused: HouseError, is_planned: bool, out: &mut Answers) {
    out.refusal(&refused);
    match refused {
        HouseError::Device => go_on(is_planned, out),
        HouseError::Memory => out.lack_memory(),
        _ => {}
    }
}

/// Writes what a call did, unless this is left out.
fn write_step(desk: &mut Desk, step: HouseStep, out: &mut Answers) {
    if step.ignored {
        out.line("ignored");
    } else if step.sent.is_empty() && !desk.is_brief {
        out.line("nothing");
    }
    for datagram in step.sent.into_vec() {
        if !desk.is_brief {
            desk.mail.write_sent(desk.alloc, None, datagram, out);
        }
    }
}

/// Writes what a call answered.
fn write_answer(
    desk: &mut Desk,
    answer: Result<HouseStep, HouseError>,
    is_planned: bool,
    out: &mut Answers,
) {
    match answer {
        Ok(step) => write_step(desk, step, out),
        Err(refused) => write_refused(refused, is_planned, out),
    }
}

/// The bytes of a packet; none where it is too big.
fn spelled(alloc: Global, packet: &Packet, out: &mut Answers) -> Option<Vec<u8>> {
    match encode(alloc, packet) {
        Ok(bytes) => Some(bytes),
        Err(EncodeError::TooBig) => None,
        Err(EncodeError::Memory) => {
            out.lack_memory();
            None
        }
    }
}

/// The bytes of a packet in words.
fn in_words(alloc: Global, line: &CommandLine<'_>, out: &mut Answers) -> Option<Vec<u8>> {
    let packet = read_packet(alloc, line, 2, out)?;
    let bytes = spelled(alloc, &packet, out);
    let_go(packet);
    bytes
}

/// The bytes that the words of a command `hear` name.
fn heard(desk: &Desk, line: &CommandLine<'_>, out: &mut Answers) -> Option<Vec<u8>> {
    let first = line.word(2)?;
    if first == "bytes" {
        return bytes_in(desk.alloc, line, 3, out);
    }
    match packet_number(first) {
        Some(number) => out.made(Vec::from_slice(desk.alloc, desk.mail.at(number)?)),
        None => in_words(desk.alloc, line, out),
    }
}

/// Carries bytes to a clearinghouse, and writes what it answers.
fn carry<D: Disk>(
    house: &mut House<'static, D>,
    is_planned: bool,
    desk: &mut Desk,
    bytes: &[u8],
    out: &mut Answers,
) {
    let answer = house.on_bytes(desk.alloc, bytes);
    write_answer(desk, answer, is_planned, out);
}

/// The Join of a worker, as bytes.
fn join(desk: &Desk, word: u64, out: &mut Answers) -> Option<Vec<u8>> {
    let from = Incarnation::worker(word)?;
    let packet = Packet::join(desk.setting.number(), Join { from });
    let bytes = spelled(desk.alloc, &packet, out);
    let_go(packet);
    bytes
}

/// A worker joins.
fn joined<D: Disk>(
    house: &mut House<'static, D>,
    desk: &Desk,
    word: u64,
    out: &mut Answers,
) -> Option<Result<HouseStep, HouseError>> {
    let bytes = join(desk, word, out)?;
    Some(house.on_bytes(desk.alloc, &bytes))
}

/// Lets what was sent go, here alone, as each place where it may be let go is long to prove.
fn let_go_step(step: HouseStep) {
    let _step = step;
}

/// Workers join in turn, up to one that is refused: what the last one answers.
fn join_each<D: Disk>(
    house: &mut House<'static, D>,
    desk: &Desk,
    (first, last): (u64, u64),
    out: &mut Answers,
) -> Option<Result<HouseStep, HouseError>> {
    if first > last {
        return None;
    }
    for word in first..last {
        match joined(house, desk, word, out) {
            Some(Ok(step)) => let_go_step(step),
            answer => return answer,
        }
    }
    joined(house, desk, last, out)
}

/// Writes the outcome that it has.
fn write_outcome_found(
    found: Result<Option<Outcome>, HouseError>,
    is_planned: bool,
    out: &mut Answers,
) {
    match found {
        Ok(outcome) => {
            out.text("> outcome ");
            write_found(out, outcome);
            out.end();
        }
        Err(refused) => write_refused(refused, is_planned, out),
    }
}

/// Plays a command on a clearinghouse that is open.
fn play_open<D: Disk>(
    house: &mut House<'static, D>,
    is_planned: bool,
    desk: &mut Desk,
    line: &CommandLine<'_>,
    out: &mut Answers,
) -> Option<()> {
    match line.word(1)? {
        "hear" => {
            let bytes = heard(desk, line, out)?;
            carry(house, is_planned, desk, &bytes, out);
        }
        "joins" => {
            let (first, last) = (line.number(2)?, line.number(3)?);
            let answer = join_each(house, desk, (first, last), out)?;
            write_answer(desk, answer, is_planned, out);
        }
        "tick" => {
            let answer = house.tick(desk.alloc, line.number(2)?);
            write_answer(desk, answer, is_planned, out);
        }
        "outcome" => write_outcome_found(house.outcome(), is_planned, out),
        "failures" => write_failures(out, house.failures()),
        "arm" => {
            let (calls, bytes) = plan_in(desk.alloc, line, out)?;
            house.arm(calls, bytes);
        }
        _ => return None,
    }
    Some(())
}

/// What has a disk behind the opening of a clearinghouse over it, and writes what that answers.
fn opened<D: Disk>(
    answer: Result<House<'static, D>, (HouseError, D)>,
    is_planned: bool,
    out: &mut Answers,
) -> Held<D> {
    match answer {
        Ok(house) => {
            out.line("ok");
            Held::House(house)
        }
        Err((refused, disk)) => {
            write_refused(refused, is_planned, out);
            Held::Bare(disk)
        }
    }
}

/// Opens a clearinghouse over a bare disk: what has the disk then, and whether it was bare.
fn open<D: Disk>(
    held: Held<D>,
    is_planned: bool,
    alloc: Global,
    (job, limit): (&'static Job, u64),
    out: &mut Answers,
) -> (Held<D>, bool) {
    match held {
        Held::Bare(disk) => {
            let answer = House::open(alloc, disk, job, limit);
            (opened(answer, is_planned, out), true)
        }
        other => (other, false),
    }
}

/// Gives the disk of a clearinghouse back, likewise.
fn close<D: Disk>(held: Held<D>) -> (Held<D>, bool) {
    match held {
        Held::House(house) => (Held::Bare(house.into_disk()), true),
        other => (other, false),
    }
}

/// Opens a clearinghouse, where a job is set.
fn play_opening<D: Disk + Drop>(
    bench: &mut Bench<D>,
    desk: &mut Desk,
    line: &CommandLine<'_>,
    out: &mut Answers,
) -> Option<()> {
    let limit = line.number(2)?;
    let job = desk.setting.job(desk.alloc, out)?;
    let held = bench.held.take()?;
    let behind = open(held, bench.is_planned, desk.alloc, (job, limit), out);
    bench.hold_behind(behind)
}

/// Closes it.
fn play_closing<D: Disk + Drop>(bench: &mut Bench<D>) -> Option<()> {
    let behind = close(bench.held.take()?);
    bench.hold_behind(behind)
}

/// Plays a command on a clearinghouse.
pub fn play_house<D: Disk + Drop>(
    bench: &mut Bench<D>,
    desk: &mut Desk,
    line: &CommandLine<'_>,
    out: &mut Answers,
) -> Option<()> {
    match line.word(1)? {
        "open" => play_opening(bench, desk, line, out),
        "close" => play_closing(bench),
        _ => match &mut bench.held {
            Some(Held::House(house)) => play_open(house, bench.is_planned, desk, line, out),
            _ => None,
        },
    }
}
