ghost use Rattle.std.specs.Prelude.{◌≡◌, ◌<◌, ◌≤◌, ◌++◌, IfOk, IsErrOf, IsTrue, OnOk, ◌∷◌, [], length};
ghost use Rattle.packet_fields.specs.Fields as field;
ghost use Rattle.codec.specs.Pieces as pieces;
ghost use Rattle.codec.specs.Pieces.{cut, packet_of_piece, parts_of, pieces_from};
ghost use Rattle.codec.specs.Table.{is_packet, packet as spelling};
ghost use Rattle.codec.specs.declared.body.Body.TheVariants as body;
ghost use Rattle.codec.specs.declared.encoding.EncodeError.TheVariants.{TooBig};

use crate::body::{Body, Offer, Piece};
use crate::datagram::{Datagram, send};
use crate::encoding::{EncodeError, spelled};
use crate::packet::Packet;
use ids::Listed;
use std::alloc::{AllocError, Global};

/// A part of an offer's spelling has at most so many bytes.
const PART_BYTES: usize = 65_536;

/// The spelling of an offer has at most so many bytes: those of 16,384 parts.
const MOST_OFFERED: usize = 1_073_741_824;

/// Adds a packet, as it goes, to those that are sent: an Offer whose spelling has more than 65,536
/// bytes in Pieces, each with the next 65,536 of these, the last one with those that are left, and
/// each other packet as it is. E30 only where an Offer's spelling has more than 1,073,741,824
/// bytes, E9 where there is no memory; some of the Pieces may have been added then.
pub fn send_cut(
    alloc: Global,
    sent: &mut Listed<Datagram>,
    packet: &Packet,
) -> Result<(), EncodeError>
    ensures ok { OnOk result (sent.new ≡ sent.old ++ cut packet.now) }
    ensures few { OnOk result (length (spelling.write packet.now) ≤ 1073741824) }
    // What is too big has a spelling of more bytes than are allowed.
    ensures big { IsErrOf result TooBig → 1073741824 < length (spelling.write packet.now) }
{
    match packet.body() {
        Body::Offer(offer) => send_offer(alloc, sent, packet, offer),
        _ => Ok(send(alloc, sent, packet)?),
    }
}

/// Adds an Offer, whole or in its Pieces.
fn send_offer(
    alloc: Global,
    sent: &mut Listed<Datagram>,
    packet: &Packet,
    offer: &Offer,
) -> Result<(), EncodeError>
    requires body { packet.now.body ≡ body.Offer offer.now }
    requires packet { IsTrue (is_packet packet.now) }
    ensures ok { OnOk result (sent.new ≡ sent.old ++ cut packet.now) }
    ensures few { OnOk result (length (spelling.write packet.now) ≤ 1073741824) }
    ensures big { IsErrOf result TooBig → 1073741824 < length (spelling.write packet.now) }
{
    let bytes = spelled(alloc, packet)?;
    if bytes.len() > MOST_OFFERED {
        return Err(EncodeError::TooBig);
    }
    if bytes.len() > PART_BYTES {
        send_pieces(alloc, sent, packet, offer, bytes.as_slice())?;
    } else {
        sent.push(Datagram::of_bytes(bytes))?;
    }
    Ok(())
}

/// Adds the Pieces of an Offer that has these bytes, in their order.
fn send_pieces(
    alloc: Global,
    sent: &mut Listed<Datagram>,
    packet: &Packet,
    offer: &Offer,
    bytes: &[u8],
) -> Result<(), AllocError>
    requires body { packet.now.body ≡ body.Offer offer.now }
    requires packet { IsTrue (is_packet packet.now) }
    requires bytes { bytes.now ≡ spelling.write packet.now }
    requires many { 65536 < length bytes.now }
    requires few { length bytes.now ≤ 1073741824 }
    ensures { OnOk result (sent.new ≡ sent.old
        ++ pieces_from packet.now offer.now 0 (parts_of (spelling.write packet.now))) }
{
    let pieces = pieces_of(bytes);
    let mut number = 0;
    while number < pieces {
        send_piece(alloc, sent, packet, offer, bytes, number)?;
        number += 1;
    }
    Ok(())
}

/// Adds a Piece of an Offer that has these bytes.
fn send_piece(
    alloc: Global,
    sent: &mut Listed<Datagram>,
    packet: &Packet,
    offer: &Offer,
    bytes: &[u8],
    number: u16,
) -> Result<(), AllocError>
    requires body { packet.now.body ≡ body.Offer offer.now }
    requires packet { IsTrue (is_packet packet.now) }
    requires bytes { bytes.now ≡ spelling.write packet.now }
    requires many { 65536 < length bytes.now }
    requires few { length bytes.now ≤ 1073741824 }
    requires number { number < parts_of bytes.now }
    ensures { OnOk result (sent.new ≡ sent.old ++ packet_of_piece packet.now offer.now number ∷ []) }
{
    let pieces = pieces_of(bytes);
    let part = part_at(alloc, bytes, number)?;
    see_part(pieces, number, part.as_slice());
    let piece = Piece {
        from: offer.from,
        grant: offer.grant,
        hop: offer.hop,
        pieces,
        number,
        bytes: part,
    };
    let piece = Packet {
        job: packet.job(),
        to: packet.to(),
        body: Body::Piece(piece),
    };
    send(alloc, sent, &piece)
}

/// Into how many parts bytes are cut.
fn pieces_of(bytes: &[u8]) -> u16
    requires { length bytes.now ≤ 1073741824 }
    ensures { result ≡ parts_of bytes.now }
{
    ((bytes.len() + (PART_BYTES - 1)) / PART_BYTES) as u16
}

/// A part of the bytes, with its own memory.
fn part_at(alloc: Global, bytes: &[u8], number: u16) -> Result<Listed<u8>, AllocError>
    requires { number < parts_of bytes.now }
    ensures { IfOk result (λ part. part ≡ pieces.part_at number bytes.now) }
{
    let start = usize::from(number) * PART_BYTES;
    let end = bytes.len().min(start + PART_BYTES);
    let mut part = Vec::with_capacity(alloc, end - start)?;
    part.extend_from_slice(&bytes[start..end])?;
    Ok(Listed::from_vec(part))
}

/// A part with as many bytes as it may have can be written, since these are below 256, as their
/// type sees to it: the prover then has what the type keeps. It has no effect, and an optimised
/// build leaves nothing of it.
fn see_part(pieces: u16, number: u16, bytes: &[u8])
    requires { IsTrue (field.allows_part pieces number (length bytes.now)) }
    ensures { IsTrue ((field.part pieces number).fits bytes.now) }
{}
