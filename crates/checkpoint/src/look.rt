//! What is found in the bytes of a file.
ghost use Rattle.std.specs.Prelude.{◌≡◌, ◌≤◌, ◌<◌, ◌↔◌, ◌&&◌, ℕ, Bool, not, IsTrue, IfOk, IfErr, IfSome, IfNone, length};
ghost use Rattle.checkpoint.specs.Format.{SpellsLarge, SpellsSmall};
ghost use Rattle.checkpoint.specs.Found.{Holds, IsNewest};
ghost use Rattle.checkpoint.specs.Pair.{IsCurrent, IsOpen, body, is_open, slot};
ghost use Rattle.checkpoint.specs.Store.{IsHeld, IsNamed, IsRefused};
ghost use Rattle.checkpoint.specs.declared.record.CheckpointRecord.{CheckpointRecord as StoredRecord};
ghost use Rattle.checkpoint.specs.declared.record.Entry.{Entry as SmallEntry};

use crate::body::{read_large, read_small};
use crate::record::{Entry, SlotId};
use crate::{CheckpointRecord, StoreError};

/// The bytes of a store, and those of one of the older form as it was made.
pub const SIZE: usize = 4360;

pub const OLD_SIZE: usize = 136;

/// Where the small slots and the large ones begin.
pub const SMALL: usize = 8;

pub const LARGE: usize = 136;

/// What stands before the version.
pub const NAME: [u8; 7] = *b"CNOWCKP";

/// The version.
pub const VERSION: u8 = 1;

/// The gate of a slot that counts.
pub const OPEN: u8 = 0xA5;

// What a small slot holds: nothing where its gate is closed.
fn small_slot(bytes: &[u8]) -> Result<Option<(u64, Entry)>, StoreError>
    requires { length bytes.now ≡ 64 }
    ensures ok { IfOk result (λ found. Holds SpellsSmall bytes.now found) }
    ensures err { IfErr result (λ e. IsOpen bytes.now
        × ((n : ℕ) (x : SmallEntry) → ¬ SpellsSmall (body bytes.now) n x)) }
{
    if bytes[0] != OPEN {
        return Ok(None);
    }
    match read_small(&bytes[1..]) {
        Some(found) => Ok(Some(found)),
        None => Err(StoreError::Damaged),
    }
}

// What a large slot holds: nothing where its gate is closed.
fn large_slot(bytes: &[u8]) -> Result<Option<(u64, CheckpointRecord)>, StoreError>
    requires { length bytes.now ≡ 2112 }
    ensures ok { IfOk result (λ found. Holds SpellsLarge bytes.now found) }
    ensures err { IfErr result (λ e. IsOpen bytes.now
        × ((n : ℕ) (r : StoredRecord) → ¬ SpellsLarge (body bytes.now) n r)) }
{
    if bytes[0] != OPEN {
        return Ok(None);
    }
    match read_large(&bytes[1..]) {
        Some(found) => Ok(Some(found)),
        None => Err(StoreError::Damaged),
    }
}

/// The newest of two slots: its sequence and what it holds, whether it is the second one, and
/// whether the gate of the other one is open.
#[derive(Drop)]
struct Newest<R: Drop> {
    sequence: u64,
    held: R,
    second: bool,
    gate: bool,
}

// The one of the greater sequence.
fn greater<R: Drop>(first: Option<(u64, R)>, second: Option<(u64, R)>) -> Option<Newest<R>>
    ensures some { IfSome result (λ f. IsNewest first second f.second f.sequence f.held f.gate) }
    ensures none { IfNone result ((place gate : Bool) (n : ℕ) (r : R) → ¬ IsNewest first second place n r gate) }
{
    match (first, second) {
        (None, None) => None,
        (Some((sequence, held)), None) => Some(Newest {
            sequence,
            held,
            second: false,
            gate: false,
        }),
        (None, Some((sequence, held))) => Some(Newest {
            sequence,
            held,
            second: true,
            gate: false,
        }),
        (Some((one, held)), Some((two, other))) => {
            if one < two {
                Some(Newest {
                    sequence: two,
                    held: other,
                    second: true,
                    gate: true,
                })
            } else if two < one {
                Some(Newest {
                    sequence: one,
                    held,
                    second: false,
                    gate: true,
                })
            } else {
                None
            }
        }
    }
}

// What the small slots of a file say; none where they say nothing.
fn newest_small(bytes: &[u8]) -> Option<Newest<Entry>>
    requires { 136 ≤ length bytes.now }
    ensures some { IfSome result (λ f. IsCurrent SpellsSmall 8 63 bytes.now f.second f.sequence f.held
        × (f.gate ≡ is_open (slot 8 63 (not f.second) bytes.now))) }
    ensures none { IfNone result ((second : Bool) (n : ℕ) (x : SmallEntry)
        → ¬ IsCurrent SpellsSmall 8 63 bytes.now second n x) }
{
    let Ok(first) = small_slot(&bytes[8..72]) else {
        return None;
    };
    let Ok(second) = small_slot(&bytes[72..136]) else {
        return None;
    };
    greater(first, second)
}

// What the large slots of a file say; none where they say nothing.
fn newest_large(bytes: &[u8]) -> Option<Newest<CheckpointRecord>>
    requires { length bytes.now ≡ 4360 }
    ensures some { IfSome result (λ f. IsCurrent SpellsLarge 136 2111 bytes.now f.second f.sequence f.held
        × (f.gate ≡ is_open (slot 136 2111 (not f.second) bytes.now))) }
    ensures none { IfNone result ((second : Bool) (n : ℕ) (r : StoredRecord)
        → ¬ IsCurrent SpellsLarge 136 2111 bytes.now second n r) }
{
    let Ok(first) = large_slot(&bytes[136..2248]) else {
        return None;
    };
    let Ok(second) = large_slot(&bytes[2248..4360]) else {
        return None;
    };
    greater(first, second)
}

// Whether the file begins as a store of some version.
fn is_named(bytes: &[u8]) -> bool
    ensures { IsTrue result ↔ IsNamed bytes.now }
{
    bytes.len() >= 8 && bytes.starts_with(&NAME)
}

/// What is found in a file: the current record, where it stands, and whether the gate beside it is
/// open.
#[derive(Drop)]
pub struct Found {
    pub sequence: u64,
    pub record: CheckpointRecord,
    pub slot: SlotId,
    pub gate: bool,
}

/// What is found in a file, or why it is no store.
pub fn look(bytes: &[u8]) -> Result<Found, StoreError>
    ensures ok { IfOk result (λ f. IsHeld bytes.now f.slot f.sequence f.«record» f.gate) }
    ensures refused { IfErr result (λ e. (job : ℕ) → IsRefused e bytes.now job) }
{
    if !is_named(bytes) {
        return Err(StoreError::Damaged);
    }
    if bytes[7] != VERSION {
        return Err(StoreError::Version);
    }
    if bytes.len() < OLD_SIZE {
        return Err(StoreError::Damaged);
    }
    if bytes.len() > SIZE {
        return Err(StoreError::Damaged);
    }
    let Some(small) = newest_small(bytes) else {
        return Err(StoreError::Damaged);
    };
    let Newest {
        sequence,
        held,
        second,
        gate,
    } = small;
    match held {
        Entry::Here(record) => Ok(Found {
            sequence,
            record,
            slot: SlotId::Small(second),
            gate,
        }),
        Entry::Moved => {
            if bytes.len() < SIZE {
                return Err(StoreError::Damaged);
            }
            let Some(large) = newest_large(bytes) else {
                return Err(StoreError::Damaged);
            };
            let Newest {
                sequence,
                held,
                second,
                gate,
            } = large;
            Ok(Found {
                sequence,
                record: held,
                slot: SlotId::Large(second),
                gate,
            })
        }
    }
}
