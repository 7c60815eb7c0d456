ghost use Rattle.std.specs.Prelude.{◌≡◌, IfOk, ◌≤◌, ◌<◌, ◌∷◌, [], IsTrue, length, reverse, Some, None, true, if◌then◌else◌};
ghost use Rattle.std.specs.Ordering.{eq_by_cmp};
ghost use Rattle.saved_values.specs.Places.{is_saved_place, is_under, place_cmp, stripped};

use ids::{Place, are_steps};
use std::alloc::{AllocError, Global};
use std::cmp::Ordering;
use std::marker::Model;

/// The most steps of a place whose value is saved.
pub const MOST_SAVED_STEPS: usize = 23;

/// A place whose value may be saved: 1 to 23 steps, of which the last one goes to a kid. Contracts
/// see its steps, the last one first.
#[derive(Clone, Copy)]
pub struct SavedPlace {
    len: u8,
    steps: [u8; MOST_SAVED_STEPS],
}

impl Model for SavedPlace {
    ghost use Rattle.std.specs.Prelude.{ℕ, List, reverse, take};

    ghost Value = { List ℕ };

    ghost use Rattle.saved_values.specs.Held.{IsHeld, given_back, inside_of};

    ghost view = { λ p. reverse (take p.len p.steps) };

    ghost invariant = { IsHeld };

    ghost inverse = { inside_of };

    ghost inverse_ok = { given_back };
}

impl SavedPlace {
    /// The place that these steps lead to from the root; none where they are no step or more than
    /// 23, one of them is no step, or the last one goes to a successor.
    pub fn of_steps(steps: &[u8]) -> Option<SavedPlace>
        ensures { result ≡ (if is_saved_place (reverse steps.now) then Some (reverse steps.now) else None) }
    {
        if !lead_to_kid(steps) {
            return None;
        }
        let mut kept = [0; MOST_SAVED_STEPS];
        kept[..steps.len()].copy_from_slice(steps);
        Some(SavedPlace {
            len: steps.len() as u8,
            steps: kept,
        })
    }

    /// The first place by their order: that of the kid of the root's first hole.
    pub fn first() -> SavedPlace
        ensures { result ≡ 1 ∷ [] }
    {
        let mut steps = [0; MOST_SAVED_STEPS];
        steps[0] = 1;
        SavedPlace { len: 1, steps }
    }

    /// This place; none where no value of it is saved.
    pub fn of(place: &Place) -> Option<SavedPlace>
        ensures { result ≡ (if is_saved_place place.now then Some place.now else None) }
    {
        SavedPlace::of_steps(place.steps())
    }

    /// The place of a task's value: its own, less the steps to successors at its end, since the
    /// value of a task is that of its successors. None where no value of that is saved.
    pub fn of_task(place: &Place) -> Option<SavedPlace>
        ensures { result ≡ (if is_saved_place (stripped place.now) then Some (stripped place.now) else None) }
    {
        let mut steps = place.steps();
        while let Some((last, before)) = steps.split_last() {
            if *last != 0 {
                break;
            }
            steps = before;
        }
        SavedPlace::of_steps(steps)
    }

    /// The steps from the root on.
    pub fn steps(&self) -> &[u8]
        ensures steps { result.now ≡ reverse self.now }
        ensures few { length result.now ≤ 23 }
        ensures kid { IsTrue (is_saved_place self.now) }
    {
        &self.steps[..usize::from(self.len)]
    }

    /// The place. Takes no memory.
    pub fn to_place(&self, alloc: Global) -> Result<Place, AllocError>
        ensures { IfOk result (λ p. p ≡ self.now) }
    {
        let steps = self.steps();
        let Some(place) = Place::copy_of(alloc, steps)? else {
            unreachable!();
        };
        Ok(place)
    }

    /// The order of places: shorter ones first, and those of one length by their steps from the
    /// root on.
    pub fn compare(&self, other: &SavedPlace) -> Ordering
        ensures { result ≡ place_cmp self.now other.now }
    {
        let (own, others) = (self.steps(), other.steps());
        match own.len().cmp(&others.len()) {
            Ordering::Equal => own.cmp(others),
            by_length => by_length,
        }
    }

    /// Whether it is the place of the kid of a hole at a place.
    pub fn is_kid_of(&self, place: &Place, hole: u8) -> bool
        ensures { result ≡ eq_by_cmp place_cmp (hole ∷ place.now) self.now }
    {
        match self.steps().split_last() {
            Some((last, before)) => *last == hole && before == place.steps(),
            None => false,
        }
    }

    /// Whether it begins with a place, and is longer.
    pub fn is_under(&self, root: &Place) -> bool
        ensures { result ≡ is_under root.now self.now }
    {
        let (own, first) = (self.steps(), root.steps());
        first.len() < own.len() && own.starts_with(first)
    }
}

/// Whether these are 1 to 23 steps from the root on, of which the last one goes to a kid.
fn lead_to_kid(steps: &[u8]) -> bool
    ensures kid { result ≡ is_saved_place (reverse steps.now) }
    ensures few { result ≡ true → length steps.now ≤ 23 }
{
    let Some((last, before)) = steps.split_last() else {
        return false;
    };
    if *last == 0 {
        return false;
    }
    if before.len() >= MOST_SAVED_STEPS {
        return false;
    }
    are_steps(steps)
}
