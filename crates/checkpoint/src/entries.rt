//! Saved values in the body of a large slot.
ghost use Rattle.std.specs.Prelude.{◌≡◌, ◌+◌, ◌-◌, ◌*◌, ◌≤◌, IfNone, IfSome, List, drop, length, replicate, take};
ghost use Rattle.saved_values.specs.Saved.{IsSavedList};
ghost use Rattle.saved_values.specs.declared.value.SavedValue.{SavedValue as Saved};
ghost use Rattle.checkpoint.specs.Format.{SpellsEntries, SpellsEntry};

use crate::body::{put_u64, u64_at};
use saved_values::{MOST_SAVED, MOST_SAVED_STEPS, SavedPlace, SavedTable, SavedValue};

/// Where the saved values begin in a body.
pub const ENTRIES: usize = 63;

/// The bytes of one.
const ENTRY: usize = 32;

/// Where its value stands.
const VALUE: usize = 24;

/// The steps that a place may have, none of which is used.
const UNUSED: [u8; MOST_SAVED_STEPS] = [0; MOST_SAVED_STEPS];

// A saved value in bytes.
fn spell_entry(saved: &SavedValue) -> [u8; ENTRY]
    ensures size { length result ≡ 32 }
    ensures spells { SpellsEntry result saved.now }
{
    let steps = saved.place.steps();
    let mut entry = [0; ENTRY];
    entry[0] = steps.len() as u8;
    entry[1..=steps.len()].copy_from_slice(steps);
    put_u64(&mut entry, VALUE, saved.value.cast_unsigned());
    entry
}

/// Writes saved values into a body whose entries are zero.
pub fn put_saved(body: &mut [u8], values: &[SavedValue])
    requires few { length values.now ≤ 64 }
    requires size { length body.old ≡ 2111 }
    requires zeros { drop 63 body.old ≡ replicate 2048 0 }
    ensures size { length body.new ≡ 2111 }
    ensures fields { take 63 body.new ≡ take 63 body.old }
    ensures entries { SpellsEntries (drop 63 body.new) values.now }
    ensures unused { drop (63 + 32 * length values.now) body.new ≡ replicate (32 * (64 - length values.now)) 0 }
{
    for (index, saved) in values.iter().enumerate() {
        let at = ENTRIES + ENTRY * index;
        let entry = spell_entry(saved);
        body[at..at + ENTRY].copy_from_slice(&entry);
    }
}

// What an entry says; none where it is none.
fn read_entry(entry: &[u8]) -> Option<SavedValue>
    requires { length entry.now ≡ 32 }
    ensures some { IfSome result (λ x. SpellsEntry entry.now x) }
    ensures none { IfNone result ((x : Saved) → SpellsEntry entry.now x → ⊥) }
{
    let len = usize::from(entry[0]);
    if len > MOST_SAVED_STEPS {
        return None;
    }
    if entry[1 + len..VALUE] != UNUSED[len..] {
        return None;
    }
    let Some(place) = SavedPlace::of_steps(&entry[1..=len]) else {
        return None;
    };
    Some(SavedValue {
        place,
        value: u64_at(entry, VALUE).cast_signed(),
    })
}

/// So many saved values of the bytes from the first one on; none where there can't be so many, one
/// of them is none, or they don't stand by the order of their places.
pub fn read_saved(count: u8, bytes: &[u8]) -> Option<SavedTable>
    requires { length bytes.now ≡ 2048 }
    ensures some { IfSome result (λ t. (length t ≡ count) × SpellsEntries bytes.now t × IsSavedList t) }
    ensures none { IfNone result ((saved : List Saved) → length saved ≡ count → SpellsEntries bytes.now saved
        → IsSavedList saved → ⊥) }
{
    let count = usize::from(count);
    if count > MOST_SAVED {
        return None;
    }
    let mut saved = SavedTable::new();
    for index in 0..count {
        let at = ENTRY * index;
        let Some(value) = read_entry(&bytes[at..at + ENTRY]) else {
            return None;
        };
        if !saved.append(value) {
            return None;
        }
    }
    let _listed = saved.as_slice();
    Some(saved)
}
