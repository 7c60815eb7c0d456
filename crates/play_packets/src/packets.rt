//! The bytes of a transcript that are a packet's or may be.

use crate::calls::{read, read_back, spelled, written};
use crate::shown::write_bytes;
use crate::words::{add_times, let_go, packet_in, size_at, write_field, write_packet};
use codec::{Fault, Packet, ReadError, decode};
use play_words::{Answers, CommandLine, Played, bytes_of_hex, size, word32};
use std::alloc::Global;

/// More bytes than these are answered by their count.
const SHOWN: usize = 400;

/// The bytes that are kept.
#[derive(Drop)]
pub struct Packets {
    bytes: Vec<u8>,
}

/// The kept bytes from the index on that a word is.
fn kept_from<'a>(kept: &'a [u8], at: &str) -> Option<&'a [u8]> {
    kept.get(size(at)?..)
}

/// Adds the kept bytes from the index on that a word is. Whether there are such.
fn add_kept(kept: &[u8], bytes: &mut Vec<u8>, at: &str, out: &mut Answers) -> bool {
    match kept_from(kept, at) {
        Some(rest) => {
            out.put(bytes.extend_from_slice(rest));
            true
        }
        None => false,
    }
}

/// Adds the bytes of hexadecimal digits so many times. Whether they are such.
fn add_hex(alloc: Global, bytes: &mut Vec<u8>, hex: &str, times: u32, out: &mut Answers) -> bool {
    match bytes_of_hex(alloc, hex, out) {
        Some(spelled) => {
            add_times(bytes, &spelled, u64::from(times), out);
            true
        }
        None => false,
    }
}

/// Adds the bytes of a piece: `HEX`, `HEX*TIMES`, or `@AT`, which is the kept bytes from an index
/// on. Whether it is one.
fn add_piece(
    alloc: Global,
    kept: &[u8],
    bytes: &mut Vec<u8>,
    piece: &str,
    out: &mut Answers,
) -> bool {
    if let Some(at) = piece.strip_prefix('@') {
        return add_kept(kept, bytes, at, out);
    }
    match piece.split_once('*') {
        Some((hex, times)) => match word32(times) {
            Some(times) => add_hex(alloc, bytes, hex, times, out),
            None => false,
        },
        None => add_hex(alloc, bytes, piece, 1, out),
    }
}

/// Adds the bytes of pieces that blanks part. Whether they are such.
fn add_pieces(
    alloc: Global,
    kept: &[u8],
    bytes: &mut Vec<u8>,
    pieces: &str,
    out: &mut Answers,
) -> bool {
    let mut are_pieces = true;
    for piece in pieces.split(' ') {
        are_pieces = are_pieces && add_piece(alloc, kept, bytes, piece, out);
    }
    are_pieces
}

/// What bytes are refused with; none where they are read, or there is no memory.
fn fault(alloc: Global, bytes: &[u8], out: &mut Answers) -> Option<Fault> {
    for _ in 0..2 {
        match decode(alloc, bytes) {
            Ok(packet) => {
                let_go(packet);
                return None;
            }
            Err(ReadError::Fault(fault)) => return Some(fault),
            Err(ReadError::Memory) => out.line("E9"),
        }
    }
    out.lack_memory();
    None
}

/// Bytes are read so often, up to a fault.
fn read_often(alloc: Global, bytes: &[u8], times: u64, out: &mut Answers) {
    for _ in 0..times {
        match read(alloc, bytes, out) {
            Some(packet) => let_go(packet),
            None => return,
        }
    }
    out.line("ok");
}

/// A packet is written so often, up to a refusal.
fn write_often(alloc: Global, packet: &Packet, times: u64, out: &mut Answers) {
    for _ in 0..times {
        if spelled(alloc, packet, out).is_none() {
            return;
        }
    }
    out.line("ok");
}

fn read_packets(alloc: Global, line: &CommandLine<'_>, out: &mut Answers) -> Option<()> {
    let times = line.number(1)?;
    let bytes = bytes_of_hex(alloc, line.rest(2), out)?;
    read_often(alloc, &bytes, times, out);
    Some(())
}

/// The packet of bytes is written so often.
fn write_packets(alloc: Global, line: &CommandLine<'_>, out: &mut Answers) -> Option<()> {
    let times = line.number(1)?;
    let bytes = bytes_of_hex(alloc, line.rest(2), out)?;
    if let Some(packet) = read(alloc, &bytes, out) {
        write_often(alloc, &packet, times, out);
        let_go(packet);
    }
    Some(())
}

/// Says that bytes are read, and written again as they are, or why not.
fn read_is_ok(alloc: Global, bytes: &[u8], out: &mut Answers) {
    if let Some(packet) = read_back(alloc, bytes, out) {
        let_go(packet);
        out.line("ok");
    }
}

/// Answers the packet that bytes are read as, or their fault.
fn write_read(alloc: Global, bytes: &[u8], out: &mut Answers) {
    if let Some(packet) = read_back(alloc, bytes, out) {
        out.text("> ");
        write_packet(out, &packet);
        out.end();
        let_go(packet);
    }
}

/// Answers the bytes of a packet, which are to be read as one.
fn write_written(alloc: Global, bytes: &[u8], out: &mut Answers) {
    write_bytes(out, bytes, SHOWN);
    match read_back(alloc, bytes, out) {
        Some(packet) => let_go(packet),
        None => out.line("not read"),
    }
}

/// Answers what is wrong with the first bytes of a packet, so many; whether they end inside a
/// field.
fn is_cut(alloc: Global, beginning: &[u8], out: &mut Answers) -> bool {
    match fault(alloc, beginning, out) {
        Some(Fault::Short) => true,
        Some(other) => {
            write_field(out, "> ", beginning.len() as u64);
            out.text(" bytes: ");
            out.shown(&other);
            out.end();
            false
        }
        None => {
            out.counted(beginning.len(), " bytes: no fault");
            false
        }
    }
}

impl Packets {
    pub fn new(alloc: Global) -> Packets {
        Packets {
            bytes: Vec::new(alloc),
        }
    }

    /// Plays a command on packets, and writes what it answers.
    pub fn play(&mut self, alloc: Global, line: &CommandLine<'_>, out: &mut Answers) -> Played {
        Played::of(match line.word(0).unwrap_or("") {
            "encode" => self.encode(alloc, line, out),
            "decode" => self.decode(alloc, line, out),
            "decodes" => read_packets(alloc, line, out),
            "encodes" => write_packets(alloc, line, out),
            "with" => self.with(alloc, line, out),
            "front" => self.front(alloc, line, out),
            "part" => self.part(line, out),
            "beginnings" => self.beginnings(alloc, out),
            _ => return Played::NotMine,
        })
    }

    /// A packet in words is written.
    fn encode(&mut self, alloc: Global, line: &CommandLine<'_>, out: &mut Answers) -> Option<()> {
        match packet_in(alloc, line, 1, out)? {
            Some(packet) => {
                self.keep(alloc, &packet, out);
                let_go(packet);
            }
            None => out.line("no packet"),
        }
        Some(())
    }

    /// Keeps the bytes of a packet.
    fn keep(&mut self, alloc: Global, packet: &Packet, out: &mut Answers) {
        if let Some(bytes) = written(alloc, packet, out) {
            write_written(alloc, &bytes, out);
            self.bytes = bytes;
        }
    }

    /// Bytes are read, and the packet is written again.
    fn decode(&mut self, alloc: Global, line: &CommandLine<'_>, out: &mut Answers) -> Option<()> {
        let bytes = bytes_of_hex(alloc, line.rest(1), out)?;
        write_read(alloc, &bytes, out);
        self.bytes = bytes;
        Some(())
    }

    /// The kept bytes with others from an index on.
    fn with(&self, alloc: Global, line: &CommandLine<'_>, out: &mut Answers) -> Option<()> {
        let at = size_at(line, 1)?;
        let others = bytes_of_hex(alloc, line.rest(2), out)?;
        if let Some(bytes) = out.made(Vec::from_slice(alloc, &self.bytes)) {
            read_changed(alloc, bytes, at, &others, out);
        }
        Some(())
    }

    /// The first of the kept bytes, and pieces behind them.
    fn front(&self, alloc: Global, line: &CommandLine<'_>, out: &mut Answers) -> Option<()> {
        let count = size_at(line, 1)?;
        let front = self.bytes.get(..count)?;
        let mut bytes = out.made(Vec::from_slice(alloc, front))?;
        if add_pieces(alloc, &self.bytes, &mut bytes, line.rest(2), out) {
            read_is_ok(alloc, &bytes, out);
            Some(())
        } else {
            None
        }
    }

    /// So many of the kept bytes from an index on.
    fn part(&self, line: &CommandLine<'_>, out: &mut Answers) -> Option<()> {
        let at = size_at(line, 1)?;
        let count = size_at(line, 2)?;
        write_bytes(out, self.bytes.get(at..)?.get(..count)?, usize::MAX);
        Some(())
    }

    /// All beginnings of the kept bytes, but for the whole.
    fn beginnings(&self, alloc: Global, out: &mut Answers) -> Option<()> {
        let mut short = 0usize;
        for length in 0..self.bytes.len() {
            if let Some(beginning) = self.bytes.get(..length)
                && is_cut(alloc, beginning, out)
            {
                short = short.saturating_add(1);
            }
        }
        out.counted(short, " times E31");
        Some(())
    }
}

/// Reads bytes of which those from an index on are others.
fn read_changed(alloc: Global, bytes: Vec<u8>, at: usize, others: &[u8], out: &mut Answers) {
    let mut bytes = bytes;
    for (byte, other) in bytes.iter_mut().skip(at).zip(others) {
        *byte = *other;
    }
    read_is_ok(alloc, &bytes, out);
}
