//! Records by their grants.

use super::words::{range, worker_at};
use codec::Body;
use ids::{Actor, GrantId, Incarnation, Record};
use play_packets::{grant, let_go, read_packet, write_field, write_grant};
use play_words::{Answers, CommandLine, keep};
use std::alloc::{AllocError, Global};
use victim_records::Records;

/// Opens copies of records.
fn open(records: &mut Records, opened: &[Record]) -> Result<(), AllocError> {
    for record in opened {
        records.open(record.clone()?)?;
    }
    Ok(())
}

/// Opens records; once more behind a refusal, which is when out of memory.
fn write_open(opened: &[Record], records: &mut Records, out: &mut Answers) {
    if open(records, opened).is_err() {
        out.line("E9");
        out.put(open(records, opened));
    }
    out.counted(records.len(), " records");
}

/// Opens the records of an Offer.
fn write_opened(
    alloc: Global,
    line: &CommandLine<'_>,
    records: &mut Records,
    out: &mut Answers,
) -> Option<()> {
    let packet = read_packet(alloc, line, 2, out)?;
    let is_offer = match packet.body() {
        Body::Offer(offer) => {
            write_open(offer.records.as_slice(), records, out);
            true
        }
        _ => false,
    };
    let_go(packet);
    if is_offer { Some(()) } else { None }
}

/// Writes how many grants there are, and which, but of many only how many.
fn write_grants(grants: &[GrantId], out: &mut Answers) {
    write_field(out, "> ", grants.len() as u64);
    out.text(" records");
    if grants.len() < 10 {
        for grant in grants {
            out.text(" ");
            write_grant(out, *grant);
        }
    }
    out.end();
}

/// Writes the grants of the records that a worker holds.
fn write_held(holder: Incarnation, records: &Records, out: &mut Answers) {
    for _ in 0..2 {
        match records.held_by(holder) {
            Ok(grants) => {
                write_grants(grants.as_slice(), out);
                break;
            }
            Err(_) => out.line("E9"),
        }
    }
}

/// Writes the grant of a record, its holder and its frame.
fn write_found(out: &mut Answers, found: Option<&Record>) {
    match found {
        Some(record) => {
            out.text("> ");
            write_grant(out, record.grant);
            write_field(out, " held by ", record.holder.word());
            write_field(out, " frame ", u64::from(record.frame.number()));
            out.end();
        }
        None => out.line("none"),
    }
}

/// Writes how many records there are, and how many in a copy.
fn write_counts(records: &Records, copy: &Records, out: &mut Answers) {
    write_field(out, "> ", records.len() as u64);
    write_field(out, " records, ", copy.len() as u64);
    out.text(" in the copy");
    out.end();
}

/// Closes a copy's record, and shows it, and that of the first, which stays.
fn write_copy(grant: GrantId, records: &Records, out: &mut Answers) {
    for _ in 0..2 {
        match records.clone() {
            Ok(mut copy) => {
                let closed = copy.close(grant);
                write_found(out, closed.as_ref());
                keep(closed);
                write_counts(records, &copy, out);
                keep(copy);
                break;
            }
            Err(_) => out.line("E9"),
        }
    }
}

/// Closes the record of a minter's grant.
fn close(records: &mut Records, minter: Actor, number: u32) -> Option<Record> {
    records.close(GrantId::of(minter, u64::from(number))?)
}

/// Closes so many records of one minter, the grants by their numbers; writes the last one.
fn write_closed(line: &CommandLine<'_>, records: &mut Records, out: &mut Answers) -> Option<()> {
    let minter = Actor::worker(worker_at(line, 2)?);
    let (first, last) = range(line, 3)?;
    for number in first..last {
        keep(close(records, minter, number));
    }
    let closed = close(records, minter, last);
    write_found(out, closed.as_ref());
    keep(closed);
    out.counted(records.len(), " records");
    Some(())
}

/// Plays a command on the record of a grant.
fn play_record(line: &CommandLine<'_>, records: &mut Records, out: &mut Answers) -> Option<()> {
    let grant = grant(line.word(2)?)?;
    match line.word(1)? {
        "get" => write_found(out, records.get(grant)),
        "copy" => write_copy(grant, records, out),
        "rename" => {
            records.rename_holder(grant, worker_at(line, 3)?);
            write_found(out, records.get(grant));
        }
        _ => return None,
    }
    Some(())
}

/// Plays a command on records.
pub fn play_records(
    alloc: Global,
    line: &CommandLine<'_>,
    records: &mut Records,
    out: &mut Answers,
) -> Option<()> {
    match line.word(1)? {
        "open" => write_opened(alloc, line, records, out),
        "close" => write_closed(line, records, out),
        "held" => {
            write_held(worker_at(line, 2)?, records, out);
            Some(())
        }
        _ => play_record(line, records, out),
    }
}
