//! How many bytes a packet takes, so that they are written into memory that was taken once.
ghost use Rattle.std.specs.Prelude.{◌≤◌};

use crate::body::Body;
use crate::decoding::MOST_BYTES;
use ids::{Frame, Record, Task};
use saved_values::SavedValue;

/// Stands in front of the fields.
const HEAD: usize = 20;

/// The bytes of a task: 4, a byte a step and 8 a number.
fn of_task(task: &Task) -> usize {
    let numbers = task.numbers.len().saturating_mul(8);
    numbers.saturating_add(4 + task.place.len() as usize)
}

/// At least the bytes of a frame: 14, a byte a step and 9 a slot.
fn of_frame(frame: &Frame) -> usize {
    let slots = frame.slots.len().saturating_mul(9);
    slots.saturating_add(14 + frame.place.len() as usize)
}

/// At least the bytes of the frames.
fn of_frames(frames: &[Frame]) -> usize {
    let mut room = 0usize;
    for frame in frames {
        room = room.saturating_add(of_frame(frame));
    }
    room
}

/// At least the bytes of the records: 34 each and those of its task.
fn of_records(records: &[Record]) -> usize {
    let mut room = 0usize;
    for record in records {
        room = room.saturating_add(of_task(&record.task).saturating_add(34));
    }
    room
}

/// The bytes of saved values: 1 where there are any, and 10 of each with a byte a step.
fn of_saved(values: &[SavedValue]) -> usize {
    let mut room = if values.is_empty() { 0usize } else { 1 };
    for value in values {
        room = room.saturating_add(10 + value.place.steps().len());
    }
    room
}

/// At least the bytes of the fields.
fn of_fields(body: &Body) -> usize {
    match body {
        Body::Join(_) | Body::Refuse(_) => 8,
        Body::Steal(_) | Body::ResultAck(_) | Body::Leave(_) | Body::Abort(_) | Body::Beat(_) => 16,
        Body::OfferAck(_) => 28,
        Body::Result(_) => 33,
        Body::Roster(roster) => roster.members.len().saturating_mul(17).saturating_add(18),
        Body::Piece(piece) => piece.bytes.len().saturating_add(36),
        Body::Grant(grant) => of_task(&grant.task)
            .saturating_add(of_saved(grant.saved.as_slice()))
            .saturating_add(24),
        Body::Save(save) => 18 + save.place.len() as usize,
        Body::Offer(offer) => of_task(&offer.task)
            .saturating_add(of_frames(offer.frames.as_slice()))
            .saturating_add(of_records(offer.records.as_slice()))
            .saturating_add(57),
    }
}

/// Room for the bytes of a packet that says this, however many: as many or a few more.
pub fn room_of(body: &Body) -> usize {
    of_fields(body).saturating_add(HEAD)
}

/// The same, and no more than a packet may have. Where it has too many, they don't fit into it.
pub fn room_for(body: &Body) -> usize
    ensures { result ≤ MOST_BYTES }
{
    room_of(body).min(MOST_BYTES)
}
