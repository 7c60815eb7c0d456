ghost use Rattle.std.specs.Prelude.{◌≡◌, ◌++◌, ◌<◌, ◌≤◌, IfOk, IsErrOf, IsTrue, OnErr, OnOk, Ok, [], ◌∷◌, length};
ghost use Rattle.codec.specs.Table.{IsTooBig, PacketOf, Spells, is_short, reading};
ghost use Rattle.codec.specs.Table as table;
ghost use Rattle.codec.specs.declared.encoding.EncodeError.TheVariants.{TooBig};

use crate::encoding::{EncodeError, encode, encode_short};
use crate::packet::Packet;
use ids::Listed;
use std::alloc::{AllocError, Global};
use std::marker::Model;

/// A packet's one spelling, in which it is sent. Contracts see the packet.
#[derive(Drop)]
pub struct Datagram {
    bytes: Vec<u8>,
}

impl Model for Datagram {
    ghost use Rattle.codec.specs.Datagrams.{packet_in};
    ghost use Rattle.codec.specs.Table.{PacketOf, Spells};

    ghost Value = { PacketOf };

    ghost view = { λ d. packet_in d.bytes.items };

    ghost invariant = { λ d. Spells d.bytes.items (packet_in d.bytes.items) };
}

impl Datagram {
    /// A packet is written. E30 only where its spelling has more than 1,048,576 bytes, E9 where
    /// there is no memory.
    pub fn of(alloc: Global, packet: &Packet) -> Result<Datagram, EncodeError>
        ensures packet { IfOk result (λ d. d ≡ packet.now) }
        ensures few { OnOk result (length (table.packet.write packet.now) ≤ 1048576) }
        // What is too big has a spelling of more bytes than are allowed.
        ensures big { IsErrOf result TooBig → IsTooBig packet.now }
        ensures long { IsErrOf result TooBig → 1048576 < length (table.packet.write packet.now) }
    {
        let bytes = encode(alloc, packet)?;
        Ok(Datagram { bytes })
    }

    /// A packet that is no offer is written, which is never too big. Refused only when out of
    /// memory.
    pub fn short(alloc: Global, packet: &Packet) -> Result<Datagram, AllocError>
        requires { IsTrue (is_short packet.now.body) }
        ensures { IfOk result (λ d. d ≡ packet.now) }
    {
        let bytes = encode_short(alloc, packet)?;
        Ok(Datagram { bytes })
    }

    /// A packet that was written, in no more bytes than are allowed.
    pub(crate) fn of_bytes(bytes: Vec<u8>) -> Datagram
        requires { (p : PacketOf) × Spells bytes.items p }
        ensures { (p : PacketOf) → Spells bytes.items p → result ≡ p }
    {
        Datagram { bytes }
    }

    /// The bytes.
    pub fn as_bytes(&self) -> &[u8]
        ensures spelled { Spells result.now self.now }
        ensures read { reading result.now ≡ Ok self.now }
    {
        self.bytes.as_slice()
    }
}

/// Adds a packet, which is no offer, to those that are sent. Refused only when out of memory, which
/// leaves them as they were.
pub fn send(alloc: Global, sent: &mut Listed<Datagram>, packet: &Packet) -> Result<(), AllocError>
    requires { IsTrue (is_short packet.now.body) }
    ensures ok { OnOk result (sent.new ≡ sent.old ++ packet.now ∷ []) }
    ensures err { OnErr result (sent.new ≡ sent.old) }
{
    sent.push(Datagram::short(alloc, packet)?)
}

/// A packet, which is no offer, alone. Refused only when out of memory.
pub fn alone(alloc: Global, packet: &Packet) -> Result<Listed<Datagram>, AllocError>
    requires { IsTrue (is_short packet.now.body) }
    ensures { IfOk result (λ sent. sent ≡ packet.now ∷ []) }
{
    let mut sent = Listed::new(alloc);
    send(alloc, &mut sent, packet)?;
    Ok(sent)
}
