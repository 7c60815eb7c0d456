//! Joins where values of kids are known.
ghost use Rattle.std.specs.Prelude.{◌≡◌, ◌<◌, ◌^◌, ◌∷◌, Bool, true, IfOk, IsTrue};
ghost use Rattle.sub_rules.specs.Resuming.{nothing_known, resumed_slot, resumed_slots};
ghost use Rattle.frames.specs.Frames.{AreBelow};
ghost use Rattle.sub_rules.specs.Carrying.{within_numbers};
ghost use Rattle.sub_rules.specs.Leaving.{LacksDebtor, join_left};
ghost use Rattle.sub_rules.specs.Turning.{SlotsFew};
ghost use Rattle.sub_rules.specs.Updates.{left_by, IsPreparedFor};
ghost use Rattle.sub_rules.specs.declared.updates.Leaver.TheVariants.{FrameOf};

use crate::change::SubError;
use crate::content::Content;
use crate::joining::prepare_join;
use crate::updates::Prepared;
use body_eval::{Kid, Slot};
use ids::{Frame, Place};
use std::alloc::{AllocError, Global};

/// Who knows values of tasks. Contracts see the function from places to values.
pub trait Knows {
    ghost use Rattle.sub_rules.specs.Resuming.{Known};

    ghost known_of: { Self → Known };

    /// Whether it says so where nothing is known.
    ghost tells_nothing: { Self → Bool };

    /// The value of the kid of a hole, of the task at a place, if it is known. Takes no memory.
    fn value_at(&self, place: &Place, hole: u8) -> Option<i64>
        ensures { result ≡ known_of self.now (hole ∷ place.now) };

    /// Whether it says that nothing is known. Takes no memory.
    fn knows_nothing(&self) -> bool
        ensures tells { result ≡ tells_nothing self.now }
        ensures nothing { IsTrue result → known_of self.now ≡ nothing_known };
}

/// Who knows nothing.
#[derive(Clone, Copy, Debug, PartialEq, Eq)]
pub struct NothingKnown;

impl Knows for NothingKnown {
    ghost known_of = { λ _. nothing_known };

    ghost tells_nothing = { λ _. true };

    fn value_at(&self, _place: &Place, _hole: u8) -> Option<i64> {
        None
    }

    fn knows_nothing(&self) -> bool {
        true
    }
}

/// Prepares that a frame joins, once it left, as `prepare_join` does; but a kid whose value is
/// known isn't made, and its slot is given the value. Where nothing is known no slot is copied.
pub(crate) fn prepare_known_join<K: Knows>(
    alloc: Global,
    content: &Content,
    frame: &Frame,
    thread: u8,
    slots: &[Slot],
    known: &K,
) -> Result<Prepared, SubError>
    requires next { content.now.next < 2 ^ 32 }
    requires below { AreBelow content.now.next content.now.frames }
    requires number { frame.now.number < content.now.next }
    requires lacks { LacksDebtor frame.now.returns (left_by (FrameOf frame.now.number) content.now) }
    requires slots { SlotsFew slots.now }
    ensures { IsPreparedFor content.now (within_numbers
        (join_left frame.now thread (resumed_slots (K.known_of known.now) frame.now.place slots.now)
        (left_by (FrameOf frame.now.number) content.now))) result }
{
    if known.knows_nothing() {
        return prepare_join(alloc, content, frame, thread, slots);
    }
    let resumed = resumed_slots(alloc, known, &frame.place, slots)?;
    prepare_join(alloc, content, frame, thread, &resumed)
}

/// The slots of a join at a place, by what is known of its kids.
pub(crate) fn resumed_slots<K: Knows>(
    alloc: Global,
    known: &K,
    place: &Place,
    slots: &[Slot],
) -> Result<Vec<Slot>, AllocError>
    ensures { IfOk result (λ xs. xs.items ≡ resumed_slots (K.known_of known.now) place.now slots.now) }
{
    let mut resumed = Vec::with_capacity(alloc, slots.len())?;
    for slot in slots {
        resumed.push(resumed_slot(known, place, slot)?)?;
    }
    Ok(resumed)
}

/// A slot of it.
fn resumed_slot<K: Knows>(known: &K, place: &Place, slot: &Slot) -> Result<Slot, AllocError>
    ensures { IfOk result (λ x. x ≡ resumed_slot (K.known_of known.now) place.now slot.now) }
{
    match slot {
        Slot::Filled(value) => Ok(Slot::Filled(*value)),
        Slot::Awaits(kid) => match known.value_at(place, kid.hole) {
            Some(value) => Ok(Slot::Filled(value)),
            None => Ok(Slot::Awaits(Kid {
                hole: kid.hole,
                thread: kid.thread,
                arguments: kid.arguments.clone()?,
            })),
        },
    }
}
