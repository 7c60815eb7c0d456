ghost use Rattle.std.specs.Prelude.{◌≡◌};
ghost use Rattle.ids.specs.Naming.{name_of_frame, name_of_record};

use crate::names::{FrameNo, GrantId, Incarnation};
use crate::place::Place;
use crate::returns::Return;
use crate::short_list::{Numbers, Slots};
use crate::sorted_map::{Exact, Named};
use std::alloc::AllocError;

/// A thread on numbers, and where it stands. In a packet the thread is below 64 and there are at
/// most 8 numbers.
#[derive(Drop)]
pub struct Task {
    pub place: Place,
    pub thread: u8,
    pub numbers: Numbers,
}

/// A frame of a subcomputation: its number there, its thread, its place, its slots, of which the
/// empty ones wait for their value, and where its own value goes. In a packet the number is below
/// the subcomputation's next one, as is that of the frame that its value goes to; the thread is
/// below 64, and there are at most 8 slots.
#[derive(Drop)]
pub struct Frame {
    pub number: FrameNo,
    pub thread: u8,
    pub place: Place,
    pub slots: Slots,
    pub returns: Return,
}

/// A stolen frame: the grant that gave it away, the worker that holds it, its number, its task, and
/// where its value goes. In a packet its numbers are bounded as a frame's are.
#[derive(Drop)]
pub struct Record {
    pub grant: GrantId,
    pub holder: Incarnation,
    pub frame: FrameNo,
    pub task: Task,
    pub returns: Return,
}

impl Clone for Task {
    ghost is_clone = { λ source copy. copy ≡ source };

    fn clone(&self) -> Result<Task, AllocError> {
        Ok(Task {
            place: self.place.clone()?,
            thread: self.thread,
            numbers: self.numbers.clone()?,
        })
    }
}

impl Clone for Frame {
    ghost is_clone = { λ source copy. copy ≡ source };

    fn clone(&self) -> Result<Frame, AllocError> {
        Ok(Frame {
            number: self.number,
            place: self.place.clone()?,
            thread: self.thread,
            slots: self.slots.clone()?,
            returns: self.returns,
        })
    }
}

impl Clone for Record {
    ghost is_clone = { λ source copy. copy ≡ source };

    fn clone(&self) -> Result<Record, AllocError> {
        Ok(Record {
            grant: self.grant,
            holder: self.holder,
            frame: self.frame,
            task: self.task.clone()?,
            returns: self.returns,
        })
    }
}

impl Exact for Task {
    ghost exact = { λ source copy same. same };
}

impl Exact for Frame {
    ghost exact = { λ source copy same. same };
}

impl Exact for Record {
    ghost exact = { λ source copy same. same };
}

/// A frame's name is its number.
impl Named for Frame {
    ghost name_of = { name_of_frame };

    fn name(&self) -> (u64, u64) {
        (u64::from(self.number.number()), 0)
    }
}

/// A record's name is its grant's.
impl Named for Record {
    ghost name_of = { name_of_record };

    fn name(&self) -> (u64, u64) {
        (self.grant.minter().word(), self.grant.number())
    }
}
