//! Calls on packets, each made once more behind E9.
ghost use Rattle.std.specs.Prelude.{◌≡◌};
ghost use Rattle.codec.specs.Table.{is_short as is_short_body};

use crate::words::let_go;
use codec::{Body, Datagram, EncodeError, Packet, ReadError, decode, encode, encode_short};
use play_words::Answers;
use std::alloc::{AllocError, Global};

/// The packet of bytes; none where they have a fault, which is written.
pub fn read(alloc: Global, bytes: &[u8], out: &mut Answers) -> Option<Packet> {
    for _ in 0..2 {
        match decode(alloc, bytes) {
            Ok(packet) => return Some(packet),
            Err(refused) => out.try_again(&refused, refused == ReadError::Memory)?,
        }
    }
    out.lack_memory();
    None
}

/// A way to write a packet: two for all, and two for those that are no Offer.
#[derive(Clone, Copy)]
enum Way {
    Bytes,
    Datagram,
    ShortBytes,
    ShortDatagram,
}

/// Whether a packet is no Offer.
fn is_short(packet: &Packet) -> bool
    ensures { result ≡ is_short_body packet.now.body }
{
    !matches!(packet.body(), Body::Offer(_))
}

/// The bytes of a packet that is no Offer; none of an Offer.
fn short_bytes(alloc: Global, packet: &Packet) -> Option<Result<Vec<u8>, AllocError>> {
    if is_short(packet) {
        Some(encode_short(alloc, packet))
    } else {
        None
    }
}

/// The same in a datagram.
fn short_datagram(alloc: Global, packet: &Packet) -> Option<Result<Datagram, AllocError>> {
    if is_short(packet) {
        Some(Datagram::short(alloc, packet))
    } else {
        None
    }
}

/// A copy of a datagram's bytes.
fn copied(alloc: Global, datagram: &Datagram) -> Result<Vec<u8>, EncodeError> {
    match Vec::from_slice(alloc, datagram.as_bytes()) {
        Ok(bytes) => Ok(bytes),
        Err(_) => Err(EncodeError::Memory),
    }
}

/// A packet's bytes in a way; none where the way doesn't suit it.
fn in_way(alloc: Global, packet: &Packet, way: Way) -> Option<Result<Vec<u8>, EncodeError>> {
    match way {
        Way::Bytes => Some(encode(alloc, packet)),
        Way::Datagram => match Datagram::of(alloc, packet) {
            Ok(datagram) => Some(copied(alloc, &datagram)),
            Err(refused) => Some(Err(refused)),
        },
        Way::ShortBytes => match short_bytes(alloc, packet)? {
            Ok(bytes) => Some(Ok(bytes)),
            Err(_) => Some(Err(EncodeError::Memory)),
        },
        Way::ShortDatagram => match short_datagram(alloc, packet)? {
            Ok(datagram) => Some(copied(alloc, &datagram)),
            Err(_) => Some(Err(EncodeError::Memory)),
        },
    }
}

/// A packet's bytes in a way; none where they are too many, which is written, or the way doesn't
/// suit it.
fn by(alloc: Global, packet: &Packet, way: Way, out: &mut Answers) -> Option<Vec<u8>> {
    for _ in 0..2 {
        match in_way(alloc, packet, way)? {
            Ok(bytes) => return Some(bytes),
            Err(refused) => out.try_again(&refused, refused == EncodeError::Memory)?,
        }
    }
    out.lack_memory();
    None
}

/// A packet's bytes; none where they are too many, which is written.
pub fn spelled(alloc: Global, packet: &Packet, out: &mut Answers) -> Option<Vec<u8>> {
    by(alloc, packet, Way::Bytes, out)
}

/// Says so where a way gives other bytes of a packet than these.
fn compare(alloc: Global, packet: &Packet, way: Way, bytes: Option<&[u8]>, out: &mut Answers) {
    if let (Some(bytes), Some(other)) = (bytes, by(alloc, packet, way, out))
        && bytes != other.as_slice()
    {
        out.text("> other bytes by ");
        out.text(match way {
            Way::Bytes => "Bytes",
            Way::Datagram => "Datagram",
            Way::ShortBytes => "ShortBytes",
            Way::ShortDatagram => "ShortDatagram",
        });
        out.end();
    }
}

/// Compares the bytes that each other way gives.
fn compare_all(alloc: Global, packet: &Packet, bytes: Option<&[u8]>, out: &mut Answers) {
    compare(alloc, packet, Way::Datagram, bytes, out);
    compare(alloc, packet, Way::ShortBytes, bytes, out);
    compare(alloc, packet, Way::ShortDatagram, bytes, out);
}

/// A packet's bytes, which each other way has to give too; none where they are too many, which is
/// written for each way.
pub fn written(alloc: Global, packet: &Packet, out: &mut Answers) -> Option<Vec<u8>> {
    match spelled(alloc, packet, out) {
        Some(bytes) => {
            compare_all(alloc, packet, Some(bytes.as_slice()), out);
            Some(bytes)
        }
        None => {
            compare_all(alloc, packet, None, out);
            None
        }
    }
}

/// Whether a packet is written as these bytes; says so where it is written as others.
fn is_written(alloc: Global, packet: &Packet, bytes: &[u8], out: &mut Answers) -> bool {
    match written(alloc, packet, out) {
        Some(again) if again.as_slice() == bytes => true,
        Some(_) => {
            out.line("written as other bytes");
            false
        }
        None => false,
    }
}

/// The packet of bytes, which is written as these again; none where they have a fault, or it is
/// written otherwise.
pub fn read_back(alloc: Global, bytes: &[u8], out: &mut Answers) -> Option<Packet> {
    let packet = read(alloc, bytes, out)?;
    if is_written(alloc, &packet, bytes, out) {
        Some(packet)
    } else {
        let_go(packet);
        None
    }
}
