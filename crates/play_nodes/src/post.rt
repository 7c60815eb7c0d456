//! The packets of a transcript: those that were sent, and those that are made by hand.

use crate::shown::write_fill;
use codec::{Datagram, EncodeError, Packet};
use node_core::Step;
use play_packets::{Mail, let_go, packet_number, read_packet, wanted_in, write_bytes, write_field};
use play_words::{Answers, CommandLine, bytes_of_hex, keep};
use std::alloc::Global;

/// A packet's bytes; once more behind a refusal when out of memory. None where it is too big.
fn spelled(alloc: Global, packet: &Packet, out: &mut Answers) -> Option<Datagram> {
    for _ in 0..2 {
        match Datagram::of(alloc, packet) {
            Ok(datagram) => return Some(datagram),
            Err(refused) => {
                out.refusal_number(refused.number());
                if refused == EncodeError::TooBig {
                    return None;
                }
            }
        }
    }
    None
}

/// The bytes of a packet in words; none where they are no packet's, or are too many, which is
/// written.
pub fn in_words(
    alloc: Global,
    line: &CommandLine<'_>,
    index: usize,
    out: &mut Answers,
) -> Option<Datagram> {
    let packet = read_packet(alloc, line, index, out)?;
    let datagram = spelled(alloc, &packet, out);
    let_go(packet);
    datagram
}

/// Makes a packet by hand, as if it was sent.
pub fn make(
    alloc: Global,
    mail: &mut Mail,
    line: &CommandLine<'_>,
    out: &mut Answers,
) -> Option<()> {
    let packet = read_packet(alloc, line, 1, out)?;
    if let Some(datagram) = spelled(alloc, &packet, out) {
        let number = mail.send(None, &packet, datagram, out);
        write_field(out, "> #", number);
        out.end();
    }
    let_go(packet);
    Some(())
}

/// Writes what a step of a worker did; where calls are shown briefly, only that something is
/// ignored.
pub fn write_step(
    alloc: Global,
    mail: &mut Mail,
    is_brief: bool,
    from: u64,
    step: Step,
    out: &mut Answers,
) {
    let Step {
        sent,
        fills,
        ignored,
    } = step;
    let is_nothing = sent.is_empty() && fills.is_empty();
    if ignored {
        out.line("ignored");
    } else if is_nothing && !is_brief {
        out.line("nothing");
    }
    for datagram in sent.into_vec() {
        if !is_brief {
            mail.write_sent(alloc, Some(from), datagram, out);
        }
    }
    for fill in fills.as_slice() {
        if !is_brief {
            write_fill(out, fill);
        }
    }
    keep(fills);
}

/// The other byte that the words `with AT HEX` name.
fn other_byte(
    alloc: Global,
    at: Option<u64>,
    hex: Option<&str>,
    out: &mut Answers,
) -> Option<(usize, u8)> {
    let at = usize::try_from(at?).ok()?;
    match bytes_of_hex(alloc, hex?, out)?.as_slice() {
        [byte] => Some((at, *byte)),
        _ => None,
    }
}

/// Changes one of the bytes. Whether there is such a one.
fn change(bytes: &mut Vec<u8>, (at, byte): (usize, u8)) -> bool {
    match bytes.get_mut(at) {
        Some(place) => {
            *place = byte;
            true
        }
        None => false,
    }
}

/// A copy of bytes, where no other words stand from an index on, or `with AT HEX`: then the byte at
/// AT is another.
fn changed(
    alloc: Global,
    bytes: &[u8],
    line: &CommandLine<'_>,
    index: usize,
    out: &mut Answers,
) -> Option<Vec<u8>> {
    let Some(word) = line.word(index) else {
        return out.made(Vec::from_slice(alloc, bytes));
    };
    if word != "with" {
        return None;
    }
    let (at, hex) = (
        line.number(index.checked_add(1)?),
        line.word(index.checked_add(2)?),
    );
    let other = other_byte(alloc, at, hex, out)?;
    let mut copy = out.made(Vec::from_slice(alloc, bytes))?;
    if change(&mut copy, other) {
        Some(copy)
    } else {
        None
    }
}

/// The bytes of the packet to a worker that the words of a command `give W` name.
pub fn sent_before(
    alloc: Global,
    mail: &Mail,
    to: u64,
    line: &CommandLine<'_>,
    out: &mut Answers,
) -> Option<Vec<u8>> {
    match packet_number(line.word(2)?) {
        Some(number) => changed(alloc, mail.at(number)?, line, 3, out),
        None => changed(alloc, mail.find(wanted_in(line, 2, to)?)?, line, 5, out),
    }
}

/// Shows the bytes of a packet.
pub fn write_hex(mail: &Mail, line: &CommandLine<'_>, out: &mut Answers) -> Option<()> {
    write_bytes(out, mail.named(line, 1)?, usize::MAX);
    Some(())
}
