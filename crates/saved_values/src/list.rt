ghost use Rattle.std.specs.Prelude.{◌≡◌, ◌∷◌, [], length, ◌==◌};
ghost use Rattle.saved_values.specs.Saved.{IsSavedList, known_by};

use crate::table::value_among;
use crate::value::SavedValue;
use ids::{Listed, Place};
use std::alloc::{AllocError, Global};
use std::marker::Model;

/// Values that were saved, as a table has them, in no more memory than they need. Contracts see
/// their list.
#[derive(Drop)]
pub struct SavedList {
    values: Listed<SavedValue>,
}

impl Model for SavedList {
    ghost use Rattle.std.specs.Prelude.{List};
    ghost use Rattle.saved_values.specs.declared.value.SavedValue.{SavedValue as Saved};
    ghost use Rattle.saved_values.specs.Saved.{IsSavedList};

    ghost Value = { List Saved };

    ghost view = { λ l. l.values };

    ghost invariant = { λ l. IsSavedList l.values };
}

/// The copy is equal.
impl Clone for SavedList {
    ghost is_clone = { λ source copy. copy ≡ source };

    fn clone(&self) -> Result<SavedList, AllocError> {
        Ok(SavedList {
            values: self.values.clone()?,
        })
    }
}

impl SavedList {
    /// No value. Takes no memory.
    pub fn new(alloc: Global) -> SavedList
        ensures { result ≡ [] }
    {
        SavedList {
            values: Listed::new(alloc),
        }
    }

    /// These values, which stand by the order of their places.
    pub fn of(values: Listed<SavedValue>) -> SavedList
        requires { IsSavedList values }
        ensures { result ≡ values }
    {
        SavedList { values }
    }

    /// The values by rising place.
    pub fn as_slice(&self) -> &[SavedValue]
        ensures same { result.now ≡ self.now }
        ensures list { IsSavedList self.now }
    {
        self.values.as_slice()
    }

    /// Whether there is none.
    pub fn is_empty(&self) -> bool
        ensures { result ≡ (length self.now == 0) }
    {
        self.values.is_empty()
    }

    /// The value that is saved of the kid of a hole at a place.
    pub fn value_at(&self, place: &Place, hole: u8) -> Option<i64>
        ensures { result ≡ known_by self.now (hole ∷ place.now) }
    {
        value_among(self.values.as_slice(), place, hole)
    }
}
