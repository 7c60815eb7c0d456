//! Copies of what an Offer hands on.

use codec::{Body, Offer, Packet};
use ids::Listed;
use play_packets::{let_go, read_packet, write_packet};
use play_words::{Answers, CommandLine};
use std::alloc::{AllocError, Global};

/// A copied list; an empty one where there is no memory.
fn list<T>(alloc: Global, copied: Result<Listed<T>, AllocError>, out: &mut Answers) -> Listed<T> {
    match copied {
        Ok(list) => list,
        Err(_) => {
            out.lack_memory();
            Listed::new(alloc)
        }
    }
}

/// An Offer with copies of its task, its frames and its records.
fn copied(alloc: Global, offer: &Offer, out: &mut Answers) -> Option<Body> {
    let task = out.made(offer.task.clone())?;
    Some(Body::Offer(Offer {
        from: offer.from,
        grant: offer.grant,
        hop: offer.hop,
        parent: offer.parent,
        progress: offer.progress,
        task,
        next: offer.next,
        frames: list(alloc, offer.frames.clone(), out),
        records: list(alloc, offer.records.clone(), out),
    }))
}

/// Writes a packet of copies of what an Offer has.
fn write_copy(alloc: Global, packet: &Packet, out: &mut Answers) -> Option<()> {
    let Body::Offer(offer) = packet.body() else {
        return None;
    };
    let body = copied(alloc, offer, out)?;
    if let Some(copy) = Packet::of(packet.job(), packet.to(), body) {
        out.text("> ");
        write_packet(out, &copy);
        out.end();
        let_go(copy);
    }
    Some(())
}

/// Plays a command on an Offer.
pub fn play_copy(alloc: Global, line: &CommandLine<'_>, out: &mut Answers) -> Option<()> {
    let packet = read_packet(alloc, line, 1, out)?;
    let done = write_copy(alloc, &packet, out);
    let_go(packet);
    done
}
