ghost use Rattle.std.specs.Prelude.{◌≡◌, ◌≤◌, ◌<◌, ◌↔◌, [], ◌∷◌, zero, length, IfOk, IsErrOf, Some, None, if◌then◌else◌, reverse, slice_get, nat_lt, cond, not, ◌==◌};
ghost use Rattle.std.specs.List.{list_all, count_by};
ghost use Rattle.ids.specs.Place.{level_of, is_place, IsPlace};

use crate::limits::{LAST_STEP, MOST_STEPS};
use crate::listed::Listed;
use smallvec::SmallVec;
use std::alloc::{AllocError, Global};
use std::marker::Model;
use thiserror::Error;

/// Why a place isn't made.
#[derive(Clone, Copy, Debug, PartialEq, Eq, Error)]
#[error("E{number}", number = self.number())]
pub enum PlaceError {
    /// E1: the place has 1,024 steps.
    Full,
    /// E9: there is no memory.
    Memory,
}

impl PlaceError {
    ghost use Rattle.ids.specs.declared.error_numbers.TheConstants.{PLACE_FULL, MEMORY};

    /// The number of the refusal: 1 or 9.
    pub fn number(self) -> u8
        ensures full { self ≡ PlaceError.Full → result ≡ 1 }
        ensures memory { self ≡ PlaceError.Memory → result ≡ 9 }
    {
        match self {
            PlaceError::Full => crate::error_numbers::PLACE_FULL,
            PlaceError::Memory => crate::error_numbers::MEMORY,
        }
    }
}

/// Where a task stands in the tree of a run: the steps from the root, at most 1,024 of them. Step 0
/// goes to the successor of a task, step i of 1 to 8 to the kid of its hole i. Up to 24 steps lie
/// in the place itself, and more in memory of their own; beside them stands how many go to kids.
/// Contracts see the list of steps, the last step first.
#[derive(Drop)]
pub struct Place {
    steps: SmallVec<u8, 24>,
    level: u16,
}

impl Model for Place {
    ghost use Rattle.std.specs.Prelude.{ℕ, List, reverse, ◌≡◌};

    ghost Value = { List ℕ };

    ghost use Rattle.ids.specs.Place.{IsPlace, level_of};

    ghost view = { λ p. reverse p.steps.items };

    ghost invariant = { λ p. IsPlace (reverse p.steps.items) × (p.level ≡ level_of (reverse p.steps.items)) };
}

impl Place {
    /// The place of the root task: no step. It takes no memory.
    pub fn root(alloc: Global) -> Place
        ensures { result ≡ [] }
    {
        Place {
            steps: SmallVec::new(alloc),
            level: 0,
        }
    }

    /// The place that these steps lead to from the root; none where there are more than 1,024, or
    /// one is no step. It takes no memory.
    pub fn of(steps: Listed<u8>) -> Option<Place>
        ensures { result ≡ (if is_place steps then Some (reverse steps) else None) }
    {
        if steps.len() <= MOST_STEPS as usize && are_steps(steps.as_slice()) {
            let level = to_kids(steps.as_slice());
            Some(Place {
                steps: SmallVec::from_vec(steps.into_vec()),
                level,
            })
        } else {
            None
        }
    }

    /// The place that a copy of these steps leads to from the root; none where `of` gives none. Up
    /// to 24 steps take no memory.
    pub fn copy_of(alloc: Global, steps: &[u8]) -> Result<Option<Place>, AllocError>
        ensures { IfOk result (λ p. p ≡ (if is_place steps.now then Some (reverse steps.now) else None)) }
    {
        if steps.len() <= MOST_STEPS as usize && are_steps(steps) {
            let level = to_kids(steps);
            Ok(Some(Place {
                steps: SmallVec::from_slice(alloc, steps)?,
                level,
            }))
        } else {
            Ok(None)
        }
    }

    /// The place of the kid of a hole, 1 to 8, and for 0 that of the successor. `Full` comes only
    /// at 1,024 steps.
    pub fn child(&self, alloc: Global, hole: u8) -> Result<Place, PlaceError>
        requires { hole < 9 }
        ensures place { IfOk result (λ p. p ≡ hole ∷ self.now) }
        ensures full { IsErrOf result PlaceError.Full ↔ (1024 ≤ length self.now) }
        ensures short { length self.now ≤ 1024 }
    {
        if self.steps.len() >= MOST_STEPS as usize {
            return Err(PlaceError::Full);
        }
        let mut steps = SmallVec::with_capacity(alloc, self.steps.len() + 1).map_err(memory)?;
        steps
            .extend_from_slice(self.steps.as_slice())
            .map_err(memory)?;
        steps.push(hole).map_err(|_| PlaceError::Memory)?;
        Ok(Place {
            steps,
            level: self.level + levels_down(hole),
        })
    }

    /// The place of the successor. `Full` comes only at 1,024 steps.
    pub fn next(&self, alloc: Global) -> Result<Place, PlaceError>
        ensures place { IfOk result (λ p. p ≡ zero ∷ self.now) }
        ensures full { IsErrOf result PlaceError.Full ↔ (1024 ≤ length self.now) }
        ensures short { length self.now ≤ 1024 }
    {
        self.child(alloc, 0)
    }

    /// How many levels the place is below the root: the count of its steps to kids.
    pub fn level(&self) -> u16
        ensures { result ≡ level_of self.now }
    {
        self.level
    }

    /// The step at an index, counted from 0 at the root; none behind the last step.
    pub fn step(&self, index: u16) -> Option<u8>
        ensures { result ≡ slice_get (reverse self.now) index }
    {
        item_at(self.steps.as_slice(), index as usize)
    }

    /// The steps from the root on.
    pub fn steps(&self) -> &[u8]
        ensures steps { result.now ≡ reverse self.now }
        ensures place { IsPlace self.now }
    {
        self.steps.as_slice()
    }

    /// The count of steps.
    pub fn len(&self) -> u16
        ensures steps { result ≡ length self.now }
        ensures place { IsPlace self.now }
    {
        self.steps.len() as u16
    }
}

impl Clone for Place {
    ghost is_clone = { λ source copy. copy ≡ source };

    fn clone(&self) -> Result<Place, AllocError> {
        Ok(Place {
            steps: SmallVec::from_slice(*self.steps.allocator(), self.steps.as_slice())?,
            level: self.level,
        })
    }
}

/// How many levels a step leads down: one to a kid, and none to a successor.
fn levels_down(step: u8) -> u16
    ensures { result ≡ cond (not (step == 0)) 1 0 }
{
    if step == 0 { 0 } else { 1 }
}

/// Whether each byte is a step: 0 to the successor, or 1 to 8 to a kid. All are looked at, with no
/// way out, so that many are at once.
pub fn are_steps(bytes: &[u8]) -> bool
    ensures { result ≡ list_all (λ step. nat_lt step 9) bytes.now }
{
    let mut good = true;
    for step in bytes {
        good = good & (*step <= LAST_STEP);
    }
    good
}

/// How many of at most 1,024 steps go to kids.
fn to_kids(steps: &[u8]) -> u16
    requires { length steps.now ≤ 1024 }
    ensures { result ≡ count_by (λ step. not (step == 0)) steps.now }
{
    let mut level: u16 = 0;
    for step in steps {
        level += levels_down(*step);
    }
    level
}

/// The byte at an index, where there is one.
fn item_at(bytes: &[u8], index: usize) -> Option<u8>
    ensures { result ≡ slice_get bytes.now index }
{
    bytes.get(index).copied()
}

fn memory(_refused: AllocError) -> PlaceError
    ensures { result ≡ PlaceError.Memory }
{
    PlaceError::Memory
}
