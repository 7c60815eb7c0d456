ghost use Rattle.std.specs.Prelude.{◌≡◌, ◌==◌, OnOk, OnErr, IsTrue, Some, IfSome, is_some, option_copied, length, slice_get, if◌then◌else◌, [], ◌++◌, refl};
ghost use Rattle.ids.specs.Naming.{name_of_frame};
ghost use Rattle.ids.specs.Ordered.{AreInOrder};
ghost use Rattle.frames.specs.Frames.{frame_in, put_frame, without_frame, missing_of, missing_in, is_empty_of, is_vacant, fill_of, filling, if_ready, with_slot, readiness, readiness_of, AreBelow, AreNumbered};

use ids::{Frame, FrameNo, ItemChange, SortedMap, Values};
use std::alloc::{AllocError, Global};
use std::marker::Model;

/// Whether a frame still waits after a fill, or is ready, at the level of its place.
#[derive(Clone, Copy, PartialEq, Eq, Debug)]
pub enum Filled {
    Still,
    Ready(u16),
}

/// The frames of one subcomputation, each number once. Contracts see the list of them, by rising
/// number.
#[derive(Drop)]
pub struct Frames {
    frames: SortedMap<Frame>,
}

impl Model for Frames {
    ghost use Rattle.std.specs.Prelude.{List};
    ghost use Rattle.ids.specs.declared.work.Frame.{Frame};

    ghost Value = { List Frame };

    ghost view = { λ a. a.frames };
}

impl Frames {
    /// No frames; takes no memory.
    pub fn new(alloc: Global) -> Frames
        ensures { result ≡ [] }
    {
        Frames {
            frames: SortedMap::new(alloc),
        }
    }

    /// How many frames there are.
    pub fn len(&self) -> usize
        ensures { result ≡ length self.now }
    {
        self.frames.len()
    }

    /// The frames, by rising number.
    pub fn values(&self) -> Values<'_, Frame>
        ensures { result ≡ self.now }
    {
        self.frames.values()
    }

    /// The frames stand by rising number, each number once. Does nothing.
    pub fn law_stand_in_order(&self)
        ensures { AreInOrder name_of_frame self.now }
    {
        self.frames.law_stand_in_order();
    }

    /// The frame of a number, if there is one.
    pub fn get(&self, number: FrameNo) -> Option<&Frame>
        ensures same { option_copied result ≡ frame_in number self.now }
        ensures number { IfSome result (λ f. f.now.number ≡ number) }
    {
        self.frames.get(name(number))
    }

    /// Puts a frame under its number, in the place of one that is there; refused only when out of
    /// memory, which changes nothing.
    pub fn insert(&mut self, frame: Frame) -> Result<(), AllocError>
        ensures ok { OnOk result (self.new ≡ put_frame frame self.old) }
        ensures err { OnErr result (self.new ≡ self.old) }
    {
        self.frames.put(frame)
    }

    /// Adds the frames of a join, numbered from `first` on, which is above all numbers that are
    /// there; refused only when out of memory, which changes nothing.
    pub fn insert_join(&mut self, first: FrameNo, frames: Vec<Frame>) -> Result<(), AllocError>
        requires below { AreBelow first self.old }
        requires numbered { AreNumbered first frames.items }
        ensures ok { OnOk result (self.new ≡ self.old ++ frames.items) }
        ensures err { OnErr result (self.new ≡ self.old) }
    {
        self.law_stand_in_order();
        self.frames.append(frames)
    }

    /// How many slots of a frame are empty; 0 where no frame has the number. Takes no memory.
    pub fn missing(&self, number: FrameNo) -> usize
        ensures { result ≡ missing_of (frame_in number self.now) }
    {
        match self.get(number) {
            Some(frame) => empty_slots(frame.slots.as_slice()),
            None => 0,
        }
    }

    /// Whether a frame is there with that slot empty. Takes no memory.
    pub fn is_empty(&self, number: FrameNo, slot: u8) -> bool
        ensures { result ≡ is_empty_of (frame_in number self.now) slot }
    {
        match self.get(number) {
            Some(frame) => matches!(frame.slots.get(usize::from(slot)), Some(None)),
            None => false,
        }
    }

    /// Fills an empty slot. Takes no memory.
    pub fn put(&mut self, number: FrameNo, slot: u8, value: i64)
        requires { IsTrue (is_empty_of (frame_in number self.old) slot) }
        ensures { self.new ≡ fill_of slot value self.old (frame_in number self.old) }
    {
        self.frames.change(name(number), &Fill { slot, value });
    }

    /// Fills an empty slot, and says whether the frame still waits. Takes no memory.
    pub fn fill(&mut self, number: FrameNo, slot: u8, value: i64) -> Filled
        requires { IsTrue (is_empty_of (frame_in number self.old) slot) }
        ensures filled { self.new ≡ fill_of slot value self.old (frame_in number self.old) }
        ensures ready { result ≡ filling (frame_in number self.old) slot value }
    {
        self.put(number, slot, value);
        self.state(number)
    }

    /// Takes away a frame that is ready; none where no frame has the number or it still waits, and
    /// then nothing changes. Takes no memory.
    pub fn remove_ready(&mut self, number: FrameNo) -> Option<Frame>
        ensures same { result ≡ if_ready (frame_in number self.old) }
        ensures gone { self.new ≡ (if is_some result then without_frame number self.old else self.old) }
    {
        let waits = match self.get(number) {
            Some(frame) => empty_slots(frame.slots.as_slice()) != 0,
            None => return None,
        };
        if waits { None } else { self.remove(number) }
    }

    /// Takes the frame of a number away, ready or not, if there is one. Takes no memory.
    pub fn remove(&mut self, number: FrameNo) -> Option<Frame>
        ensures same { result ≡ frame_in number self.old }
        ensures gone { self.new ≡ without_frame number self.old }
    {
        self.frames.take(name(number))
    }

    /// Takes the frame of a number away, ready or not, if there is one, and lets it go. Takes no
    /// memory.
    pub fn discard(&mut self, number: FrameNo)
        ensures { self.new ≡ without_frame number self.old }
    {
        self.frames.discard(name(number));
    }

    /// Whether a frame waits; so it is said of a frame that isn't there.
    fn state(&self, number: FrameNo) -> Filled
        ensures { result ≡ readiness_of (frame_in number self.now) }
    {
        match self.get(number) {
            Some(frame) => state_of(frame),
            None => Filled::Still,
        }
    }
}

impl Clone for Frames {
    ghost is_clone = { λ source copy. copy ≡ source };

    fn clone(&self) -> Result<Frames, AllocError> {
        Ok(Frames {
            frames: self.frames.clone()?,
        })
    }
}

/// A value for an empty slot.
#[derive(Clone, Copy)]
struct Fill {
    slot: u8,
    value: i64,
}

impl ItemChange<Frame> for Fill {
    ghost fits = { λ fill frame. IsTrue (is_vacant (slice_get frame.slots fill.slot)) };

    ghost changed = { λ fill frame. with_slot fill.slot fill.value frame };

    ghost keeps_name = { λ fill frame. refl };

    fn apply(&self, frame: &mut Frame) {
        frame.slots.put(usize::from(self.slot), Some(self.value));
    }
}

/// Whether a frame waits, or at which level it is ready.
fn state_of(frame: &Frame) -> Filled
    ensures { result ≡ readiness frame.now }
{
    if empty_slots(frame.slots.as_slice()) == 0 {
        Filled::Ready(frame.place.level())
    } else {
        Filled::Still
    }
}

/// Whether no slot is empty.
pub fn is_full(slots: &[Option<i64>]) -> bool
    ensures { result ≡ (missing_in slots.now == 0) }
{
    empty_slots(slots) == 0
}

/// How many slots are empty.
fn empty_slots(slots: &[Option<i64>]) -> usize
    ensures { result ≡ missing_in slots.now }
{
    slots.iter().filter(|slot| slot.is_none()).count()
}

/// The name of a frame.
fn name(number: FrameNo) -> (u64, u64)
    ensures { result ≡ (number, 0) }
{
    (u64::from(number.number()), 0)
}
