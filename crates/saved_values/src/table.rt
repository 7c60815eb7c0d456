ghost use Rattle.std.specs.Prelude.{◌≡◌, ◌∷◌, ◌++◌, ℕ, [], List, false, true, is_some, length, IfNone, IfOk, IfSome};
ghost use Rattle.std.specs.declared.cmp.Ordering.TheVariants.{Equal};
ghost use Rattle.std.specs.Cmp.{IsTotalOrder};
ghost use Rattle.saved_values.specs.Places.{place_cmp};
ghost use Rattle.saved_values.specs.Saved.{IsSavedList, StandsAt, is_taken, known_by, put_saved, saved_under};

use crate::place::SavedPlace;
use crate::value::SavedValue;
use ids::{Listed, Place};
use std::alloc::{AllocError, Global};
use std::cmp::Ordering;
use std::marker::Model;

/// The most values that a table has.
pub const MOST_SAVED: usize = 64;

/// Values that were saved, by the order of their places: at most 64, of each place one. Contracts
/// see their list.
#[derive(Drop)]
pub struct SavedTable {
    count: u8,
    values: [SavedValue; MOST_SAVED],
}

impl Model for SavedTable {
    ghost use Rattle.std.specs.Prelude.{◌≡◌, ◌≤◌, List, length, take};
    ghost use Rattle.saved_values.specs.declared.value.SavedValue.{SavedValue as Saved};
    ghost use Rattle.saved_values.specs.Saved.{IsSavedList};

    ghost Value = { List Saved };

    ghost view = { λ t. take t.count t.values };

    ghost invariant = { λ t. (t.count ≤ 64) × (length t.values ≡ 64) × IsSavedList (take t.count t.values) };
}

impl SavedTable {
    /// No value.
    pub fn new() -> SavedTable
        ensures { result ≡ [] }
    {
        SavedTable {
            count: 0,
            values: unused(),
        }
    }

    /// A table of the same values.
    pub fn copied(&self) -> SavedTable
        ensures { result ≡ self.now }
    {
        let mut values = unused();
        values[..].copy_from_slice(&self.values[..]);
        SavedTable {
            count: self.count,
            values,
        }
    }

    /// The values by rising place.
    pub fn as_slice(&self) -> &[SavedValue]
        ensures same { result.now ≡ self.now }
        ensures list { IsSavedList self.now }
    {
        &self.values[..usize::from(self.count)]
    }

    /// Puts one more in its place, and tells whether it is taken. It isn't, and nothing changes,
    /// where a value of its place is saved, or where it would be a 65th and the last one. Where
    /// another one is the 65th, that one goes.
    pub fn put(&mut self, value: SavedValue) -> bool
        ensures taken { result ≡ is_taken value self.old }
        ensures put { result ≡ true → self.new ≡ put_saved value self.old }
        ensures unchanged { result ≡ false → self.new ≡ self.old }
    {
        let count = usize::from(self.count);
        let Some(at) = position(&self.values[..count], &value.place) else {
            return false;
        };
        if at >= MOST_SAVED {
            return false;
        }
        let end = count.min(MOST_SAVED - 1);
        let values = &mut self.values[..];
        values[at..=end].rotate_right(1);
        values[at] = value;
        self.count = end as u8 + 1;
        true
    }

    /// Puts one more behind all others, and tells whether it is taken. It isn't, and nothing
    /// changes, where 64 are there, or where its place doesn't stand behind that of the last one.
    pub fn append(&mut self, value: SavedValue) -> bool
        ensures taken { result ≡ true → self.new ≡ self.old ++ value ∷ [] }
        ensures refused { result ≡ false → (IsSavedList (self.old ++ value ∷ []) → ⊥) }
        ensures unchanged { result ≡ false → self.new ≡ self.old }
    {
        let count = usize::from(self.count);
        if count >= MOST_SAVED {
            return false;
        }
        let Some(at) = position(&self.values[..count], &value.place) else {
            return false;
        };
        if at < count {
            return false;
        }
        self.put(value)
    }

    /// The value that is saved of the kid of a hole at a place.
    pub fn value_at(&self, place: &Place, hole: u8) -> Option<i64>
        ensures { result ≡ known_by self.now (hole ∷ place.now) }
    {
        value_among(self.as_slice(), place, hole)
    }
}

/// The value that is among these of the kid of a hole at a place.
pub(crate) fn value_among(values: &[SavedValue], place: &Place, hole: u8) -> Option<i64>
    ensures { result ≡ known_by values.now (hole ∷ place.now) }
{
    for saved in values {
        if saved.place.is_kid_of(place, hole) {
            return Some(saved.value);
        }
    }
    None
}

/// Room for as many values as a table has, with values that stand for nothing.
fn unused() -> [SavedValue; MOST_SAVED]
    ensures { length result ≡ 64 }
{
    [SavedValue {
        place: SavedPlace::first(),
        value: 0,
    }; MOST_SAVED]
}

/// How many values stand before a place; none where a value of it is among them.
fn position(values: &[SavedValue], place: &SavedPlace) -> Option<usize>
    ensures stands { IfSome result (StandsAt place.now values.now) }
    ensures saved { IfNone result (is_some (known_by values.now place.now) ≡ true) }
{
    for (index, saved) in values.iter().enumerate() {
        match saved.place.compare(place) {
            Ordering::Less => {}
            Ordering::Equal => return None,
            Ordering::Greater => return Some(index),
        }
    }
    Some(values.len())
}

/// Those of values whose place is below another one; they stand by the order of their places where
/// all do. Refused only when out of memory.
pub fn below(
    alloc: Global,
    values: &[SavedValue],
    root: &Place,
) -> Result<Listed<SavedValue>, AllocError>
    ensures below { IfOk result (λ l. l ≡ saved_under root.now values.now) }
    ensures list { IsSavedList values.now → IfOk result (λ l. IsSavedList l) }
{
    let found = those_below(alloc, values, root)?;
    Ok(found)
}

/// Those of values whose place is below another one.
fn those_below(
    alloc: Global,
    values: &[SavedValue],
    root: &Place,
) -> Result<Listed<SavedValue>, AllocError>
    ensures { IfOk result (λ l. l ≡ saved_under root.now values.now) }
{
    let mut found = Listed::new(alloc);
    for saved in values {
        if saved.place.is_under(root) {
            found.push(*saved)?;
        }
    }
    Ok(found)
}

/// A copy of values. Refused only when out of memory.
pub fn copied(alloc: Global, values: &[SavedValue]) -> Result<Listed<SavedValue>, AllocError>
    ensures { IfOk result (λ l. l ≡ values.now) }
{
    let mut copy = Listed::with_capacity(alloc, values.len())?;
    for saved in values {
        copy.push(*saved)?;
    }
    Ok(copy)
}

/// The order of places is a total one, in which places are equal that are the same. Does nothing.
pub fn law_places_are_ordered()
    ensures order { IsTotalOrder place_cmp }
    ensures same { (p q : List ℕ) → place_cmp p q ≡ Equal → p ≡ q }
{}
