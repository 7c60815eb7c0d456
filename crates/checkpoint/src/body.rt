//! What stands behind a gate: 63 bytes in a small slot, 2,111 in a large one.
ghost use Rattle.std.specs.Prelude.{◌≡◌, ◌+◌, ◌≤◌, ◌<◌, ℕ, ℤ, Option, Some, None, IfSome, IfNone, drop, length, replicate};
ghost use Rattle.std.specs.List.{splice};
ghost use Rattle.byteorder.specs.Endian.{big_bytes, big_from};
ghost use Rattle.checkpoint.specs.Format.{HasFields, IsBegunBody, IsBody, IsMovedBody, SpellsLarge, SpellsSmall, tag_of, value_of};
ghost use Rattle.checkpoint.specs.declared.record.CheckpointRecord.{CheckpointRecord as StoredRecord};
ghost use Rattle.checkpoint.specs.declared.record.Entry.{Entry as SmallEntry};
ghost use Rattle.ids.specs.declared.outcome.Outcome.{Outcome as StoredOutcome};

use crate::entries::{ENTRIES, put_saved, read_saved};
use crate::record::Entry;
use crate::{CheckpointRecord, LastEpoch};
use byteorder::{BigEndian, ByteOrder};
use ids::Outcome;
use saved_values::SavedTable;

/// The bytes behind the gate of a small slot, and behind that of a large one.
pub const SMALL_BODY: usize = 63;

pub const LARGE_BODY: usize = 2111;

/// The number of bytes that are read behind the sequence and this number itself, in a small slot
/// and in a large one.
const SMALL_LENGTH: u16 = 25;

const LARGE_LENGTH: u16 = 2101;

/// The outcome's tag that says that the record has moved.
const MOVED: u8 = 3;

/// Where the count of saved values stands.
const COUNT: usize = 35;

pub fn put_u64(bytes: &mut [u8], at: usize, number: u64)
    requires { at + 8 ≤ length bytes.old }
    ensures { bytes.new ≡ splice bytes.old at (at + 8) (big_bytes 8 number) }
{
    BigEndian::write_u64(&mut bytes[at..], number);
}

fn put_u16(bytes: &mut [u8], at: usize, number: u16)
    requires { at + 2 ≤ length bytes.old }
    ensures { bytes.new ≡ splice bytes.old at (at + 2) (big_bytes 2 number) }
{
    BigEndian::write_u16(&mut bytes[at..], number);
}

fn tag(outcome: &Option<Outcome>) -> u8
    ensures { result ≡ tag_of outcome.now }
{
    match outcome {
        None => 0,
        Some(Outcome::Value(_)) => 1,
        Some(Outcome::TooDeep) => 2,
    }
}

fn value(outcome: &Option<Outcome>) -> i64
    ensures { result ≡ value_of outcome.now }
{
    match outcome {
        Some(Outcome::Value(value)) => *value,
        _ => 0,
    }
}

// The fields of a slot. Behind them stand zeros.
fn spell_fields(
    sequence: u64,
    size: u16,
    job: u64,
    epoch: LastEpoch,
    tag: u8,
    value: i64,
) -> [u8; SMALL_BODY]
    ensures size { length result ≡ 63 }
    ensures fields { HasFields result sequence size job epoch tag value }
    ensures zeros { drop 35 result ≡ replicate 28 0 }
{
    let epoch = epoch.number();
    let mut body = [0; SMALL_BODY];
    put_u64(&mut body, 0, sequence);
    put_u16(&mut body, 8, size);
    put_u64(&mut body, 10, job);
    put_u64(&mut body, 18, epoch);
    body[26] = tag;
    put_u64(&mut body, 27, value.cast_unsigned());
    body
}

/// The body of a small slot that says that the record of a job in an epoch has moved.
pub fn spell_moved(sequence: u64, job: u64, epoch: LastEpoch) -> [u8; SMALL_BODY]
    ensures { IsMovedBody result sequence job epoch }
{
    spell_fields(sequence, SMALL_LENGTH, job, epoch, MOVED, 0)
}

/// The body of a small slot that says that a job has just begun.
pub fn spell_begun(job: u64) -> [u8; SMALL_BODY]
    ensures { IsBegunBody result job }
{
    spell_fields(0, SMALL_LENGTH, job, LastEpoch::none(), tag(&None), 0)
}

/// The body of a large slot that says this. Behind its fields, and behind what is saved, stand
/// zeros.
pub fn spell(
    sequence: u64,
    job: u64,
    epoch: LastEpoch,
    outcome: &Option<Outcome>,
    saved: &SavedTable,
) -> [u8; LARGE_BODY]
    ensures { IsBody result sequence (record { job = job; epoch = epoch; outcome = outcome.now; saved = saved.now }) }
{
    let mut fields = spell_fields(
        sequence,
        LARGE_LENGTH,
        job,
        epoch,
        tag(outcome),
        value(outcome),
    );
    let values = saved.as_slice();
    fields[COUNT] = values.len() as u8;
    let mut body = [0; LARGE_BODY];
    body[..ENTRIES].copy_from_slice(&fields);
    put_saved(&mut body, values);
    body
}

pub fn u64_at(bytes: &[u8], at: usize) -> u64
    requires { at + 8 ≤ length bytes.now }
    ensures { result ≡ big_from at 8 bytes.now }
{
    BigEndian::read_u64(&bytes[at..])
}

fn u16_at(bytes: &[u8], at: usize) -> u16
    requires { at + 2 ≤ length bytes.now }
    ensures { result ≡ big_from at 2 bytes.now }
{
    BigEndian::read_u16(&bytes[at..])
}

fn outcome_of(tag: u8, value: i64) -> Option<Option<Outcome>>
    ensures some { IfSome result (λ o. (tag_of o ≡ tag) × (value_of o ≡ value)) }
    ensures none { IfNone result ((o : Option StoredOutcome) → tag_of o ≡ tag → value_of o ≡ value → ⊥) }
{
    match (tag, value) {
        (0, 0) => Some(None),
        (1, _) => Some(Some(Outcome::Value(value))),
        (2, 0) => Some(Some(Outcome::TooDeep)),
        _ => None,
    }
}

/// The fields of a slot.
struct Fields {
    sequence: u64,
    job: u64,
    epoch: LastEpoch,
    tag: u8,
    value: i64,
}

// The fields of a slot in which so many bytes are read; none where that number isn't there, or the
// epoch is none.
fn read_fields(body: &[u8], size: u16) -> Option<Fields>
    requires { 35 ≤ length body.now }
    ensures some { IfSome result (λ f. HasFields body.now f.sequence size f.job f.epoch f.tag f.value) }
    ensures none { IfNone result ((n job epoch tag : ℕ) (value : ℤ) → HasFields body.now n size job epoch tag value → ⊥) }
{
    let sequence = u64_at(body, 0);
    let job = u64_at(body, 10);
    let number = u64_at(body, 18);
    let value = u64_at(body, 27).cast_signed();
    if u16_at(body, 8) != size {
        return None;
    }
    match LastEpoch::of(number) {
        Some(epoch) => Some(Fields {
            sequence,
            job,
            epoch,
            tag: body[26],
            value,
        }),
        None => None,
    }
}

/// What the body of a small slot says, unless a field is outside its range.
pub fn read_small(body: &[u8]) -> Option<(u64, Entry)>
    requires { length body.now ≡ 63 }
    ensures some { IfSome result (λ x. SpellsSmall body.now x.0 x.1) }
    ensures none { IfNone result ((n : ℕ) (e : SmallEntry) → SpellsSmall body.now n e → ⊥) }
{
    let Some(fields) = read_fields(body, SMALL_LENGTH) else {
        return None;
    };
    let Fields {
        sequence,
        job,
        epoch,
        tag,
        value,
    } = fields;
    if tag == MOVED && value == 0 {
        return Some((sequence, Entry::Moved));
    }
    match outcome_of(tag, value) {
        Some(outcome) => Some((
            sequence,
            Entry::Here(CheckpointRecord {
                job,
                epoch,
                outcome,
                saved: SavedTable::new(),
            }),
        )),
        None => None,
    }
}

/// What the body of a large slot says, unless a field or a saved value is outside its range.
pub fn read_large(body: &[u8]) -> Option<(u64, CheckpointRecord)>
    requires { length body.now ≡ 2111 }
    ensures some { IfSome result (λ x. SpellsLarge body.now x.0 x.1) }
    ensures none { IfNone result ((n : ℕ) (r : StoredRecord) → SpellsLarge body.now n r → ⊥) }
{
    let Some(fields) = read_fields(body, LARGE_LENGTH) else {
        return None;
    };
    let Fields {
        sequence,
        job,
        epoch,
        tag,
        value,
    } = fields;
    let Some(outcome) = outcome_of(tag, value) else {
        return None;
    };
    match read_saved(body[COUNT], &body[ENTRIES..]) {
        Some(saved) => Some((
            sequence,
            CheckpointRecord {
                job,
                epoch,
                outcome,
                saved,
            },
        )),
        None => None,
    }
}
