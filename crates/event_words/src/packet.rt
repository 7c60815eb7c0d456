//! The words of a packet.

use crate::names::{AddressName, GrantName, OutcomeWords, PlaceName, ProgressWords, StatusWords};
use codec::{Body, Grant, Offer, Packet, Piece, Roster, Save, kind_of};
use ids::{Incarnation, Task};
use std::io::{self, Write};
use task_tree::Program;

/// So many members of a roster are listed at most; of the others the count is told.
const MOST_LISTED: usize = 8;

/// Writes the words of a packet: its kind, the grant that it speaks of, the worker that it says to
/// be from, whom it goes to, and what else it says, as `Grant 3/1 to 5: request 1, main(0) at place
/// 2, level 1`. A thread has its name in the program, or its number where the program has no such
/// thread. No line's end is written.
pub fn write_packet<O: Write>(out: &mut O, program: &Program, packet: &Packet) -> io::Result<()> {
    let body = packet.body();
    write!(out, "{}", kind_of(body).name())?;
    if let Some(grant) = body.grant() {
        write!(out, " {}", GrantName(grant))?;
    }
    if let Some(from) = sender_of(body) {
        write!(out, " from {}", from.word())?;
    }
    write!(out, " to {}", AddressName(packet.to()))?;
    write_fields(out, program, body)
}

/// The worker that it says to be from.
fn sender_of(body: &Body) -> Option<Incarnation> {
    match body {
        Body::Join(join) => Some(join.from),
        Body::Steal(steal) => Some(steal.from),
        Body::Result(result) => Some(result.from),
        Body::Offer(offer) => Some(offer.from),
        Body::OfferAck(ack) => Some(ack.from),
        Body::Leave(leave) => Some(leave.from),
        Body::Beat(beat) => Some(beat.from),
        Body::Piece(piece) => Some(piece.from),
        Body::Save(save) => Some(save.from),
        Body::Roster(_) | Body::Grant(_) | Body::Refuse(_) | Body::ResultAck(_) | Body::Abort(_) =>
            None,
    }
}

/// Writes what else it says, behind a colon; nothing where that is all.
fn write_fields<O: Write>(out: &mut O, program: &Program, body: &Body) -> io::Result<()> {
    match body {
        Body::Join(_) | Body::ResultAck(_) | Body::Abort(_) => Ok(()),
        Body::Roster(roster) => write_roster(out, roster),
        Body::Steal(steal) => write!(out, ": request {}", steal.seq.number()),
        Body::Grant(grant) => write_grant(out, program, grant),
        Body::Refuse(refuse) => write!(out, ": request {}", refuse.seq.number()),
        Body::Result(result) => write!(out, ": {}", OutcomeWords(result.outcome)),
        Body::Offer(offer) => write_offer(out, offer),
        Body::OfferAck(ack) => write!(out, ": hop {}", ack.hop.count()),
        Body::Leave(leave) => write!(out, ": heir {}", leave.heir.word()),
        Body::Beat(beat) => write!(out, ": roster version {}", beat.version.number()),
        Body::Piece(piece) => write_piece(out, piece),
        Body::Save(save) => write_save(out, save),
    }
}

/// Writes the epoch and the version of a roster, and its first members.
fn write_roster<O: Write>(out: &mut O, roster: &Roster) -> io::Result<()> {
    let members = roster.members.as_slice();
    write!(
        out,
        ": epoch {}, version {} (",
        roster.epoch.number(),
        roster.version.number()
    )?;
    if members.is_empty() {
        write!(out, "nobody")?;
    }
    for (index, member) in members.iter().take(MOST_LISTED).enumerate() {
        let sign = if index == 0 { "" } else { ", " };
        let status = StatusWords(member.status);
        write!(out, "{sign}{} {status}", member.incarnation.word())?;
    }
    let more = members.len().saturating_sub(MOST_LISTED);
    if more > 0 {
        write!(out, ", and {more} more")?;
    }
    write!(out, ")")
}

/// Writes the request that a grant answers, its task, and how many saved values come with it, if
/// any do.
fn write_grant<O: Write>(out: &mut O, program: &Program, grant: &Grant) -> io::Result<()> {
    write!(out, ": request {}, ", grant.seq.number())?;
    write_granted(out, program, &grant.task)?;
    let saved = grant.saved.len();
    if saved > 0 {
        write!(out, ", {saved} saved value{}", plural_of(saved))?;
    }
    Ok(())
}

/// Writes the value of a Save, and its place.
fn write_save<O: Write>(out: &mut O, save: &Save) -> io::Result<()> {
    write!(out, ": value {} at {}", save.value, PlaceName(&save.place))
}

/// Writes the thread of a task on its numbers, and where it stands.
fn write_granted<O: Write>(out: &mut O, program: &Program, task: &Task) -> io::Result<()> {
    write_thread(out, program, task.thread)?;
    write!(out, "(")?;
    for (index, number) in task.numbers.as_slice().iter().enumerate() {
        let sign = if index == 0 { "" } else { ", " };
        write!(out, "{sign}{number}")?;
    }
    write!(out, ") at {}", PlaceName(&task.place))
}

/// Writes the name of a thread, or its number where the program has no such thread.
pub(crate) fn write_thread<O: Write>(out: &mut O, program: &Program, thread: u8) -> io::Result<()> {
    match program.threads.get(usize::from(thread)) {
        Some(found) => out.write_all(found.name.text.as_slice()),
        None => write!(out, "thread {thread}"),
    }
}

/// Writes how often an offered subcomputation has moved, how far it is, and how many frames and
/// records it has.
fn write_offer<O: Write>(out: &mut O, offer: &Offer) -> io::Result<()> {
    let (frames, records) = (offer.frames.len(), offer.records.len());
    write!(
        out,
        ": hop {}, {}, {frames} frame{}, {records} record{}",
        offer.hop.count(),
        ProgressWords(offer.progress),
        plural_of(frames),
        plural_of(records)
    )
}

/// Writes how often the offer of a piece has moved, which of its parts the piece has, counted from
/// 1, and how many bytes this part has.
fn write_piece<O: Write>(out: &mut O, piece: &Piece) -> io::Result<()> {
    let (part, count) = (u32::from(piece.number).saturating_add(1), piece.bytes.len());
    write!(
        out,
        ": hop {}, part {part} of {}, {count} byte{}",
        piece.hop.count(),
        piece.pieces,
        plural_of(count)
    )
}

/// The ending of a word for so many.
fn plural_of(count: usize) -> &'static str {
    if count == 1 { "" } else { "s" }
}
