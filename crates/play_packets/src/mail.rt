//! The packets that were sent.

use crate::words::{let_go, write_field, write_packet};
use codec::{Datagram, Packet, ReadError, decode, kind_of};
use play_words::{Answers, CommandLine, word64};
use std::alloc::Global;

/// A packet that a worker sent, or that was made by hand, which is of nobody.
#[derive(Drop)]
struct Sent {
    from: Option<u64>,
    to: u64,
    kind: &'static str,
    datagram: Datagram,
}

/// All packets, in the order in which they were sent.
#[derive(Drop)]
pub struct Mail {
    sent: Vec<Sent>,
    /// Of a packet of more bytes than these the kind and the count are shown.
    most_shown: usize,
}

/// Packets of a kind that a worker sent to somebody.
#[derive(Clone, Copy)]
pub struct Wanted<'a> {
    pub kind: &'a str,
    pub to: u64,
    pub from: u64,
}

impl Sent {
    fn is(&self, wanted: Wanted<'_>) -> bool {
        self.from == Some(wanted.from) && self.to == wanted.to && self.kind == wanted.kind
    }
}

impl Mail {
    /// One that shows packets of so many bytes in words.
    pub fn new(alloc: Global, most_shown: usize) -> Mail {
        Mail {
            sent: Vec::new(alloc),
            most_shown,
        }
    }

    /// A packet is sent, with these bytes; its number, from 1.
    pub fn send(
        &mut self,
        from: Option<u64>,
        packet: &Packet,
        datagram: Datagram,
        out: &mut Answers,
    ) -> u64 {
        let sent = Sent {
            from,
            to: packet.to().word(),
            kind: kind_of(packet.body()).name(),
            datagram,
        };
        if self.sent.push(sent).is_err() {
            out.lack_memory();
        }
        self.sent.len() as u64
    }

    /// The bytes of the packet of a number.
    pub fn at(&self, number: u64) -> Option<&[u8]> {
        let index = usize::try_from(number.checked_sub(1)?).ok()?;
        Some(self.sent.get(index)?.datagram.as_bytes())
    }

    /// The bytes of the packet whose number the word at an index is.
    pub fn named(&self, line: &CommandLine<'_>, index: usize) -> Option<&[u8]> {
        self.at(packet_number(line.word(index)?)?)
    }

    /// The bytes of the last packet that is wanted.
    pub fn find(&self, wanted: Wanted<'_>) -> Option<&[u8]> {
        let mut found = None;
        for sent in self.sent.iter() {
            if sent.is(wanted) {
                found = Some(sent.datagram.as_bytes());
            }
        }
        found
    }

    /// A packet is sent, and written behind its number.
    fn write_packet_sent(
        &mut self,
        from: Option<u64>,
        packet: &Packet,
        datagram: Datagram,
        out: &mut Answers,
    ) {
        let length = datagram.as_bytes().len();
        let number = self.send(from, packet, datagram, out);
        write_field(out, "> #", number);
        out.text(" ");
        if length > self.most_shown {
            out.text(kind_of(packet.body()).name());
            write_field(out, " of ", length as u64);
            out.text(" bytes");
        } else {
            write_packet(out, packet);
        }
        out.end();
    }

    /// The same of bytes that are to be a packet's.
    pub fn write_sent(
        &mut self,
        alloc: Global,
        from: Option<u64>,
        datagram: Datagram,
        out: &mut Answers,
    ) {
        match decode(alloc, datagram.as_bytes()) {
            Ok(packet) => {
                self.write_packet_sent(from, &packet, datagram, out);
                let_go(packet);
            }
            Err(ReadError::Memory) => out.lack_memory(),
            Err(ReadError::Fault(fault)) => out.refusal_number(fault.number()),
        }
    }

    /// Tells whether the two packets have the same bytes whose numbers stand from an index on.
    pub fn write_same(
        &self,
        line: &CommandLine<'_>,
        index: usize,
        out: &mut Answers,
    ) -> Option<()> {
        let one = self.named(line, index)?;
        let other = self.named(line, index.checked_add(1)?)?;
        out.line(if one == other {
            "same bytes"
        } else {
            "other bytes"
        });
        Some(())
    }
}

/// The number of a packet in a word `#N`.
pub fn packet_number(word: &str) -> Option<u64> {
    word64(word.strip_prefix('#')?)
}

/// The packets to somebody that the words `KIND from W` from an index on want.
pub fn wanted_in<'a>(line: &CommandLine<'a>, index: usize, to: u64) -> Option<Wanted<'a>> {
    let kind = line.word(index)?;
    if line.word(index.checked_add(1)?)? != "from" {
        return None;
    }
    let from = line.number(index.checked_add(2)?)?;
    Some(Wanted { kind, to, from })
}
