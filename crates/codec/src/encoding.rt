ghost use Rattle.std.specs.Prelude.{◌≡◌, ◌<◌, ◌++◌, IfOk, IsErrOf, IsTrue, OnOk, length};
ghost use Rattle.codec.specs.Table.{IsTooBig, Spells};
ghost use Rattle.codec.specs.Table as table;
ghost use Rattle.codec.specs.declared.encoding.EncodeError.TheVariants.{TooBig};

use crate::decoding::{MAGIC, MOST_BYTES};
use crate::fields::{kind_of, write_fields};
use crate::packet::Packet;
use crate::room::{room_for, room_of};
use packet_fields::write;
use std::alloc::{AllocError, Global};
use thiserror::Error;

/// Why a packet isn't written.
#[derive(Clone, Copy, Debug, PartialEq, Eq, Error)]
#[error("E{number}", number = self.number())]
pub enum EncodeError {
    /// Its spelling has more than 1,048,576 bytes.
    TooBig,
    /// There is no memory.
    Memory,
}

impl EncodeError {
    ghost use Rattle.codec.specs.Errors.{number_of_error};

    /// The number of the refusal: 9 or 30.
    pub fn number(self) -> u8
        ensures { result ≡ number_of_error self }
    {
        match self {
            EncodeError::TooBig => ids::error_numbers::PACKET_TOO_BIG,
            EncodeError::Memory => ids::error_numbers::MEMORY,
        }
    }
}

impl From<AllocError> for EncodeError {
    ghost use Rattle.std.specs.Prelude.{◌≡◌};
    ghost use Rattle.codec.specs.declared.encoding.EncodeError.TheVariants.{Memory};

    ghost from_gives = { λ _ e. e ≡ Memory };

    fn from(_refused: AllocError) -> EncodeError {
        EncodeError::Memory
    }
}

/// Adds a packet to the bytes.
fn put(packet: &Packet, out: &mut Vec<u8>) -> Result<(), AllocError>
    ensures written { OnOk result (out.new.items ≡ out.old.items ++ table.packet.write packet.now) }
    ensures fits { OnOk result (IsTrue (table.packet.fits packet.now)) }
{
    write::u16(out, MAGIC)?;
    let kind = kind_of(packet.body());
    write::byte(out, kind.version())?;
    write::byte(out, kind.number())?;
    write::u64(out, packet.job())?;
    write::u64(out, packet.to().word())?;
    write_fields(packet.body(), out)?;
    Ok(())
}

/// The one spelling of a packet. E30 only where it has more than 1,048,576 bytes, E9 where there is
/// no memory.
pub fn encode(alloc: Global, packet: &Packet) -> Result<Vec<u8>, EncodeError>
    // What is written is the packet's spelling.
    ensures written { IfOk result (λ v. Spells v.items packet.now) }
    ensures spelled { IfOk result (λ v. v.items ≡ table.packet.write packet.now) }
    // What is too big has a spelling of more bytes than are allowed.
    ensures big { IsErrOf result TooBig → IsTooBig packet.now }
    ensures long { IsErrOf result TooBig → 1048576 < length (table.packet.write packet.now) }
{
    let mut out = Vec::with_capacity(alloc, room_for(packet.body()))?;
    put(packet, &mut out)?;
    let length = out.len();
    if length > MOST_BYTES {
        return Err(EncodeError::TooBig);
    }
    Ok(out)
}

/// The one spelling of a packet that is no offer: it has at most 69,670 bytes, so it is never too
/// big. Refused only when out of memory.
pub fn encode_short(alloc: Global, packet: &Packet) -> Result<Vec<u8>, AllocError>
    requires { IsTrue (table.is_short packet.now.body) }
    ensures written { IfOk result (λ v. v.items ≡ table.packet.write packet.now) }
    // What is written is the packet's spelling.
    ensures spelled { IfOk result (λ v. Spells v.items packet.now) }
{
    let mut bytes = Vec::with_capacity(alloc, room_for(packet.body()))?;
    put(packet, &mut bytes)?;
    Ok(bytes)
}

/// The one spelling of a packet, however many bytes it has. Refused only when out of memory.
pub(crate) fn spelled(alloc: Global, packet: &Packet) -> Result<Vec<u8>, AllocError>
    ensures { IfOk result (λ v. v.items ≡ table.packet.write packet.now) }
{
    let mut bytes = Vec::with_capacity(alloc, room_of(packet.body()))?;
    put(packet, &mut bytes)?;
    Ok(bytes)
}
