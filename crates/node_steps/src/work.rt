//! A ready frame, as work.
ghost use Rattle.std.specs.Prelude.{◌≡◌, IfOk};
ghost use Rattle.serial_meaning.specs.Places.{room};
ghost use Rattle.node_steps.specs.Ready as ready;

use ids::limits::MOST_STEPS;
use ids::{FrameNo, GrantId, Numbers, Place};
use std::alloc::{AllocError, Global};
use sub_rules::numbers_in;
use subcomputation::Sub;

/// A ready frame: the grant of its subcomputation, its number there, the thread that is to run, the
/// numbers that the thread takes, and how many places can be below its own.
#[derive(Drop)]
pub struct Work {
    pub grant: GrantId,
    pub frame: FrameNo,
    pub thread: u8,
    pub numbers: Numbers,
    pub room: u16,
}

/// The work of a frame, if it is ready.
pub fn work_in(
    alloc: Global,
    grant: GrantId,
    sub: &Sub,
    number: FrameNo,
) -> Result<Option<Work>, AllocError>
    ensures { IfOk result (λ o. o ≡ ready.work_in grant number sub.now.content) }
{
    let Some(frame) = sub.content().frames.get(number) else {
        return Ok(None);
    };
    let Some(numbers) = numbers_in(alloc, frame.slots.as_slice())? else {
        return Ok(None);
    };
    Ok(Some(Work {
        grant,
        frame: number,
        thread: frame.thread,
        numbers,
        room: room_of(&frame.place),
    }))
}

/// How many places can be below a place.
pub fn room_of(place: &Place) -> u16
    ensures { result ≡ room place.now }
{
    MOST_STEPS - place.len()
}
