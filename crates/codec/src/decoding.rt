ghost use Rattle.std.specs.Prelude.{◌≡◌, IfOk, Err, Ok};
ghost use Rattle.packet_fields.specs.declared.fault.ReadError.TheVariants as errors;
ghost use Rattle.packet_fields.specs.Format.{Gives, Reads, end_of, number, tested};
ghost use Rattle.packet_fields.specs.declared.fault.Fault.TheVariants as fault;
ghost use Rattle.codec.specs.Heads.{IsChecked, StandsBefore};
ghost use Rattle.codec.specs.Pieces.{long_reading};
ghost use Rattle.codec.specs.Table.{PacketOf, Spells};
ghost use Rattle.codec.specs.Table as table;
ghost use Rattle.packet_fields.specs.Fields as field;

use crate::body::{Body, Kind};
use crate::fields::{FIRST_VERSION, SECOND_VERSION, read_fields, skip_fields};
use crate::packet::{Packet, suits};
use ids::Address;
use packet_fields::{Fault, Input, ReadError};
use std::alloc::Global;

/// A packet has at most so many bytes.
pub const MOST_BYTES: usize = 1_048_576;

/// What stands in front of each packet.
pub const MAGIC: u16 = 0x434E;

/// What stands in front of a packet's fields.
#[derive(Clone, Copy)]
struct Head {
    kind: Kind,
    job: u64,
    to: Address,
}

/// What a packet is made of.
#[derive(Drop)]
struct Parts {
    job: u64,
    to: Address,
    body: Body,
}

/// The kind, which is one of a version.
fn kind_in(version: u8, input: &mut Input<'_>) -> Result<Kind, Fault>
    ensures { Reads (λ k. (table.number_of k, input.new)) result
        ((tested fault.Kind (number 1) (table.has_kind version)).read input.old) }
{
    match Kind::of(input.byte()?) {
        Some(kind) if kind.version() == version => Ok(kind),
        _ => Err(Fault::Kind),
    }
}

/// What stands in front of the fields.
#[tactic(auto, unfolding(crate::specs::Table::packet))]
fn head_of(input: &mut Input<'_>) -> Result<Head, Fault>
    ensures { StandsBefore (λ h. record { kind = table.number_of h.kind; job = h.job; to = h.to })
        input.new result (table.packet.read input.old) }
{
    if input.u16()? != MAGIC {
        return Err(Fault::Magic);
    }
    let version = input.byte()?;
    if version != FIRST_VERSION && version != SECOND_VERSION {
        return Err(Fault::Version);
    }
    let kind = kind_in(version, input)?;
    let job = input.u64()?;
    let to = address(kind, input)?;
    Ok(Head { kind, job, to })
}

/// Whom a packet of a kind goes to.
fn address(kind: Kind, input: &mut Input<'_>) -> Result<Address, Fault>
    ensures { Reads (λ x. (x, input.new)) result ((field.address (table.suits (table.number_of kind))).read input.old) }
{
    let word = input.u64()?;
    match Address::of(word) {
        Some(to) if suits(kind, to) => Ok(to),
        _ => Err(Fault::Field),
    }
}

/// The header and the fields of the kind.
fn parts_of(input: &mut Input<'_>) -> Result<Parts, ReadError>
    ensures { Gives (λ x. (record { job = x.job; to = x.to; body = x.body }, input.new)) result
        (table.packet.read input.old) }
{
    let Head { kind, job, to } = head_of(input)?;
    let body = read_fields(kind, input)?;
    Ok(Parts { job, to, body })
}

/// Passes over the header and the fields of the kind, or answers the first fault.
fn skip_parts(input: &mut Input<'_>) -> Result<(), Fault>
    ensures { Reads (λ _. input.new) result (end_of (table.packet.read input.old)) }
{
    let head = head_of(input)?;
    skip_fields(head.kind, input)
}

/// Whether the bytes, however many, spell a packet, or the first fault. No memory is taken.
#[tactic(auto, unfolding(crate::specs::Pieces::long_reading))]
fn check(alloc: Global, bytes: &[u8]) -> Result<(), Fault>
    ensures { IsChecked result (long_reading bytes.now) }
{
    let mut input = Input::new(alloc, bytes);
    skip_parts(&mut input)?;
    if !input.is_empty() {
        return Err(Fault::Trailing);
    }
    Ok(())
}

/// The packet that the bytes, however many, spell.
fn whole(alloc: Global, bytes: &[u8]) -> Result<Packet, ReadError>
    requires { (p : PacketOf) × (long_reading bytes.now ≡ Ok p) }
    ensures { Gives (λ x. x) result (long_reading bytes.now) }
{
    let mut input = Input::new(alloc, bytes);
    let Parts { job, to, body } = parts_of(&mut input)?;
    Ok(Packet { job, to, body })
}

/// The packet that the bytes, however many, spell, or the first fault. The bytes are looked through
/// before any memory is taken.
fn read_all(alloc: Global, bytes: &[u8]) -> Result<Packet, ReadError>
    ensures read { Gives (λ x. x) result (long_reading bytes.now) }
    // Memory runs out for a packet alone.
    ensures memory { result ≡ Err errors.Memory → (p : PacketOf) × (long_reading bytes.now ≡ Ok p) }
{
    check(alloc, bytes)?;
    whole(alloc, bytes)
}

/// The packet that the bytes spell, or the first fault that a reader from the front meets: E30 over
/// 1,048,576 bytes, E31 where they end inside a field, E32 for another magic, E33 for another
/// version, E34 for no kind, E35 for a field outside its range or out of order, E36 for bytes
/// behind the last field. The bytes are looked through before any memory is taken; so E9, where
/// there is none, comes for bytes that spell a packet alone.
pub fn decode(alloc: Global, bytes: &[u8]) -> Result<Packet, ReadError>
    // What is answered is spelled so.
    ensures found { IfOk result (λ p. Spells bytes.now p) }
    // What is spelled so is answered, unless memory runs out.
    ensures only { (p : PacketOf) → Spells bytes.now p → Gives (λ x. x) result (Ok p) }
    // Which fault it is.
    ensures fault { Gives (λ x. x) result (table.reading bytes.now) }
    // Memory runs out for a packet alone.
    ensures memory { result ≡ Err errors.Memory → (p : PacketOf) × Spells bytes.now p }
{
    if bytes.len() > MOST_BYTES {
        return Err(ReadError::Fault(Fault::TooBig));
    }
    read_all(alloc, bytes)
}

/// The packet that the joined parts of its spelling are, of which there may be any number of bytes:
/// as `decode`, but without E30.
pub fn decode_joined(alloc: Global, bytes: &[u8]) -> Result<Packet, ReadError>
    ensures read { Gives (λ x. x) result (long_reading bytes.now) }
    // Memory runs out for a packet alone.
    ensures memory { result ≡ Err errors.Memory → (p : PacketOf) × (long_reading bytes.now ≡ Ok p) }
{
    read_all(alloc, bytes)
}
