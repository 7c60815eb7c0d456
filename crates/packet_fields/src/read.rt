//! The readers of fields. Each answers the value and leaves the bytes behind it, or answers the
//! first fault: E31 where the bytes end inside the field, E35 where it is outside its range or out
//! of order, E9 where there is no memory. After a refusal it is open how much was read. Only
//! readers of lists take memory, each for what the bytes back, and for a list once.
ghost use Rattle.std.specs.Prelude.{◌≡◌, ◌<◌, ◌&&◌, [], IfOk, Some, None, nat_le, nat_lt};
ghost use Rattle.packet_fields.specs.Format.{Gives, Reads, checked, items, number, plain};
ghost use Rattle.packet_fields.specs.Format as format;
ghost use Rattle.packet_fields.specs.Fields as field;
ghost use Rattle.saved_values.specs.Saved.{place_of};

use crate::fault::{Fault, ReadError};
use crate::fits::{LEAST_PIECES, MOST_PIECES, allows_part};
use crate::input::Input;
use ids::limits::{MOST_MEMBERS, MOST_NUMBERS, MOST_SLOTS, MOST_STEPS, MOST_THREADS};
use ids::{
    Actor, Count, Epoch, Frame, FrameNo, GrantId, Hop, Incarnation, Listed, Member, Numbers,
    Outcome, Place, Progress, Record, Return, Slots, Status, Task, are_steps,
};
use saved_values::{MOST_SAVED, MOST_SAVED_STEPS, SavedPlace, SavedValue};
use std::alloc::AllocError;

/// A member has at least so many bytes: 8 of its incarnation and 1 of its status.
const LEAST_MEMBER: usize = 9;

/// A frame has at least so many bytes: 4 of its number, 2 of its place, and 1 each of its thread,
/// its slots and its return.
const LEAST_FRAME: usize = 9;

/// A record has at least so many bytes: 28 of its grant, holder and frame, 4 of its task and 1 of
/// its return.
const LEAST_RECORD: usize = 33;

/// A saved value has at least so many bytes: 2 of its place's count, 1 of a step and 8 of its
/// value.
const LEAST_SAVED: usize = 11;

/// No items, with room for so many of at least so many bytes each. Where the bytes that are left
/// can't hold them all, a fault comes before the last one, so there is room for none.
fn with_room<T>(count: usize, least: usize, input: &Input<'_>) -> Result<Listed<T>, AllocError>
    requires { 0 < least }
    ensures { IfOk result (λ l. l ≡ []) }
{
    if count <= input.len() / least {
        Listed::with_capacity(input.alloc(), count)
    } else {
        Ok(Listed::new(input.alloc()))
    }
}

/// A worker's incarnation.
#[tactic(auto, unfolding(crate::specs::Fields::worker))]
pub fn worker(input: &mut Input<'_>) -> Result<Incarnation, Fault>
    ensures { Reads (λ x. (x, input.new)) result (field.worker.read input.old) }
{
    let word = input.u64()?;
    Incarnation::worker(word).ok_or(Fault::Field)
}

/// A worker other than `own`.
pub fn other_worker(own: &Incarnation, input: &mut Input<'_>) -> Result<Incarnation, Fault>
    ensures { Reads (λ x. (x, input.new)) result ((field.other_worker own.now).read input.old) }
{
    let heir = worker(input)?;
    if heir.word() == own.word() {
        return Err(Fault::Field);
    }
    Ok(heir)
}

/// An epoch of the clearinghouse.
#[tactic(auto, unfolding(crate::specs::Fields::epoch))]
pub fn epoch(input: &mut Input<'_>) -> Result<Epoch, Fault>
    ensures { Reads (λ x. (x, input.new)) result (field.epoch.read input.old) }
{
    let number = input.u64()?;
    Epoch::of(number).ok_or(Fault::Field)
}

/// A worker, or the clearinghouse in an epoch.
#[tactic(auto, unfolding(crate::specs::Fields::actor))]
pub fn actor(input: &mut Input<'_>) -> Result<Actor, Fault>
    ensures { Reads (λ x. (x, input.new)) result (field.actor.read input.old) }
{
    let word = input.u64()?;
    Actor::of(word).ok_or(Fault::Field)
}

/// A number counted from 1.
#[tactic(auto, unfolding(crate::specs::Fields::counted))]
pub fn counted(input: &mut Input<'_>) -> Result<Count, Fault>
    ensures { Reads (λ x. (x, input.new)) result (field.counted.read input.old) }
{
    let number = input.u64()?;
    Count::of(number).ok_or(Fault::Field)
}

/// How often a grant moved; 0 for one that never did.
#[tactic(auto, unfolding(crate::specs::Fields::hop))]
pub fn hop(input: &mut Input<'_>) -> Result<Hop, Fault>
    ensures { Reads (λ x. (x, input.new)) result (field.hop.read input.old) }
{
    let moves = input.u32()?;
    Ok(Hop::of(moves))
}

/// The hop of an offer, at least 1.
#[tactic(auto, unfolding(crate::specs::Fields::raised))]
pub fn raised(input: &mut Input<'_>) -> Result<Hop, Fault>
    ensures { Reads (λ x. (x, input.new)) result (field.raised.read input.old) }
{
    let count = input.u32()?;
    if count == 0 {
        return Err(Fault::Field);
    }
    Ok(Hop::of(count))
}

/// The number of the next frame, at least 1.
#[tactic(auto, unfolding(crate::specs::Fields::raised))]
pub fn next_frame(input: &mut Input<'_>) -> Result<FrameNo, Fault>
    ensures { Reads (λ x. (x, input.new)) result (field.raised.read input.old) }
{
    let number = input.u32()?;
    if number == 0 {
        return Err(Fault::Field);
    }
    Ok(FrameNo::of(number))
}

/// The number of a frame, below the next one.
pub fn below(next: &FrameNo, input: &mut Input<'_>) -> Result<FrameNo, Fault>
    ensures { Reads (λ x. (x, input.new)) result ((field.below next.now).read input.old) }
{
    let number = input.u32()?;
    if number >= next.number() {
        return Err(Fault::Field);
    }
    Ok(FrameNo::of(number))
}

/// Into how many pieces an offer is cut: 2 to 16,384.
#[tactic(auto, unfolding(crate::specs::Fields::pieces))]
pub fn pieces(input: &mut Input<'_>) -> Result<u16, Fault>
    ensures { Reads (λ x. (x, input.new)) result (field.pieces.read input.old) }
{
    let pieces = input.u16()?;
    if pieces < LEAST_PIECES || pieces > MOST_PIECES {
        return Err(Fault::Field);
    }
    Ok(pieces)
}

/// Which of so many pieces it is, counted from 0.
pub fn piece_of(pieces: &u16, input: &mut Input<'_>) -> Result<u16, Fault>
    ensures { Reads (λ x. (x, input.new)) result ((field.piece_of pieces.now).read input.old) }
{
    let number = input.u16()?;
    if number >= *pieces {
        return Err(Fault::Field);
    }
    Ok(number)
}

/// How many bytes a part of an offer's spelling has: 65,536, the last one at most so many, and at
/// least 1. It comes before the bytes.
pub(crate) fn part_count(pieces: &u16, index: &u16, input: &mut Input<'_>) -> Result<u32, Fault>
    ensures { Reads (λ x. (x, input.new)) result
        ((checked (number 4) (field.allows_part pieces.now index.now)).read input.old) }
{
    let count = input.u32()?;
    if !allows_part(*pieces, *index, count as usize) {
        return Err(Fault::Field);
    }
    Ok(count)
}

/// A part of an offer's spelling, behind the count of its bytes.
#[tactic(auto, unfolding(crate::specs::Fields::part))]
pub fn part(pieces: &u16, number: &u16, input: &mut Input<'_>) -> Result<Listed<u8>, ReadError>
    ensures { Gives (λ x. (x, input.new)) result ((field.part pieces.now number.now).read input.old) }
{
    let count = part_count(pieces, number, input)?;
    Ok(raw(count as usize, input)?)
}

/// So many bytes, as they are.
fn raw(count: usize, input: &mut Input<'_>) -> Result<Listed<u8>, ReadError>
    ensures { Gives (λ x. (x, input.new)) result ((format.raw count).read input.old) }
{
    if input.len() < count {
        return Err(ReadError::Fault(Fault::Short));
    }
    let mut bytes = Vec::with_capacity(input.alloc(), count)?;
    bytes.extend_from_slice(input.front(count))?;
    input.pass(count);
    Ok(Listed::from_vec(bytes))
}

/// The name of a grant.
#[tactic(auto, unfolding(crate::specs::Fields::grant))]
pub fn grant(input: &mut Input<'_>) -> Result<GrantId, Fault>
    ensures { Reads (λ x. (x, input.new)) result (field.grant.read input.old) }
{
    let minter = actor(input)?;
    let number = counted(input)?;
    GrantId::of(minter, number.number()).ok_or(Fault::Field)
}

/// So many steps, as they lie in the bytes.
pub(crate) fn steps<'a>(count: u16, input: &mut Input<'a>) -> Result<&'a [u8], Fault>
    ensures { Reads (λ x. (x.now, input.new)) result ((plain field.step count).read input.old) }
{
    let count = usize::from(count);
    let steps = input.front(count);
    if !are_steps(steps) {
        return Err(Fault::Field);
    }
    if steps.len() < count {
        return Err(Fault::Short);
    }
    input.pass(count);
    Ok(steps)
}

/// A place, at most 1,024 steps.
#[tactic(auto, unfolding(crate::specs::Fields::place, crate::specs::Fields::steps))]
pub fn place(input: &mut Input<'_>) -> Result<Place, ReadError>
    ensures { Gives (λ x. (x, input.new)) result (field.place.read input.old) }
{
    let count = input.u16()?;
    if count > MOST_STEPS {
        return Err(ReadError::Fault(Fault::Field));
    }
    let steps = steps(count, input)?;
    Place::copy_of(input.alloc(), steps)?.ok_or(ReadError::Fault(Fault::Field))
}

/// The number of a thread, below 64.
#[tactic(auto, unfolding(crate::specs::Fields::thread))]
pub fn thread(input: &mut Input<'_>) -> Result<u8, Fault>
    ensures { Reads (λ x. (x, input.new)) result (field.thread.read input.old) }
{
    let thread = input.byte()?;
    if thread >= MOST_THREADS {
        return Err(Fault::Field);
    }
    Ok(thread)
}

fn numbers_of(count: u8, input: &mut Input<'_>) -> Result<Numbers, ReadError>
    ensures { Gives (λ x. (x, input.new)) result ((plain field.signed count).read input.old) }
{
    let mut numbers = Numbers::with_capacity(input.alloc(), usize::from(count))?;
    for _ in 0..count {
        let next = input.signed()?;
        numbers.push(next)?;
    }
    Ok(numbers)
}

/// At most 8 numbers.
#[tactic(auto, unfolding(crate::specs::Fields::numbers))]
pub fn numbers(input: &mut Input<'_>) -> Result<Numbers, ReadError>
    ensures { Gives (λ x. (x, input.new)) result (field.numbers.read input.old) }
{
    let count = input.byte()?;
    if count > MOST_NUMBERS {
        return Err(ReadError::Fault(Fault::Field));
    }
    numbers_of(count, input)
}

/// A task.
#[tactic(auto, unfolding(crate::specs::Fields::task))]
pub fn task(input: &mut Input<'_>) -> Result<Task, ReadError>
    ensures { Gives (λ x. (x, input.new)) result (field.task.read input.old) }
{
    Ok(Task {
        place: place(input)?,
        thread: thread(input)?,
        numbers: numbers(input)?,
    })
}

fn outcome_of(tag: u8, input: &mut Input<'_>) -> Result<Outcome, Fault>
    ensures { Reads (λ x. (x, input.new)) result ((field.outcome_arm tag).read input.old) }
{
    match tag {
        1 => Ok(Outcome::Value(input.signed()?)),
        2 => Ok(Outcome::TooDeep),
        _ => Err(Fault::Field),
    }
}

/// An outcome.
#[tactic(auto, unfolding(crate::specs::Fields::outcome))]
pub fn outcome(input: &mut Input<'_>) -> Result<Outcome, Fault>
    ensures { Reads (λ x. (x, input.new)) result (field.outcome.read input.old) }
{
    let tag = input.byte()?;
    let outcome = outcome_of(tag, input)?;
    Ok(outcome)
}

/// How far a subcomputation is.
#[tactic(auto, unfolding(crate::specs::Fields::progress))]
pub fn progress(input: &mut Input<'_>) -> Result<Progress, Fault>
    ensures { Reads (λ x. (x, input.new)) result (field.progress.read input.old) }
{
    let tag = input.byte()?;
    if tag == 0 {
        return Ok(Progress::Active);
    }
    let outcome = outcome_of(tag, input)?;
    Ok(Progress::Finished(outcome))
}

#[tactic(auto, unfolding(crate::specs::Fields::slot))]
pub(crate) fn slot(input: &mut Input<'_>) -> Result<Option<i64>, Fault>
    ensures { Reads (λ x. (x, input.new)) result (field.slot.read input.old) }
{
    match input.byte()? {
        0 => Ok(None),
        1 => Ok(Some(input.signed()?)),
        _ => Err(Fault::Field),
    }
}

fn slots_of(count: u8, input: &mut Input<'_>) -> Result<Slots, ReadError>
    ensures { Gives (λ x. (x, input.new)) result ((plain field.slot count).read input.old) }
{
    let mut slots = Slots::with_capacity(input.alloc(), usize::from(count))?;
    for _ in 0..count {
        let next = slot(input)?;
        slots.push(next)?;
    }
    Ok(slots)
}

/// At most 8 slots.
#[tactic(auto, unfolding(crate::specs::Fields::slots))]
pub fn slots(input: &mut Input<'_>) -> Result<Slots, ReadError>
    ensures { Gives (λ x. (x, input.new)) result (field.slots.read input.old) }
{
    let count = input.byte()?;
    if count > MOST_SLOTS {
        return Err(ReadError::Fault(Fault::Field));
    }
    slots_of(count, input)
}

/// Where a value goes, in a subcomputation with this next frame.
#[tactic(auto, unfolding(crate::specs::Fields::goes_to))]
pub fn goes_to(next: &FrameNo, input: &mut Input<'_>) -> Result<Return, Fault>
    ensures { Reads (λ x. (x, input.new)) result ((field.goes_to next.now).read input.old) }
{
    match input.byte()? {
        0 => Ok(Return::Whole),
        1 => {
            let frame = below(next, input)?;
            let slot = input.byte()?;
            if slot >= MOST_SLOTS {
                return Err(Fault::Field);
            }
            Ok(Return::Local(frame, slot))
        }
        _ => Err(Fault::Field),
    }
}

#[tactic(auto, unfolding(crate::specs::Fields::status))]
pub(crate) fn status(own: &Incarnation, input: &mut Input<'_>) -> Result<Status, Fault>
    ensures { Reads (λ x. (x, input.new)) result ((field.status own.now).read input.old) }
{
    match input.byte()? {
        0 => Ok(Status::Live),
        1 => Ok(Status::Dead),
        2 => Ok(Status::Left(other_worker(own, input)?)),
        _ => Err(Fault::Field),
    }
}

/// A worker's incarnation behind the last one.
pub(crate) fn worker_behind(
    last: Option<Incarnation>,
    input: &mut Input<'_>,
) -> Result<Incarnation, Fault>
    ensures { Reads (λ x. (x, input.new)) result ((checked field.worker (field.is_above last)).read input.old) }
{
    let incarnation = worker(input)?;
    if let Some(last) = last {
        if incarnation.word() <= last.word() {
            return Err(Fault::Field);
        }
    }
    Ok(incarnation)
}

#[tactic(auto, unfolding(crate::specs::Fields::member))]
fn member(last: Option<Incarnation>, input: &mut Input<'_>) -> Result<Member, Fault>
    ensures { Reads (λ x. (x, input.new)) result ((field.member last).read input.old) }
{
    let incarnation = worker_behind(last, input)?;
    let status = status(&incarnation, input)?;
    Ok(Member {
        incarnation,
        status,
    })
}

fn members_of(count: u16, input: &mut Input<'_>) -> Result<Listed<Member>, ReadError>
    ensures { Gives (λ x. (x, input.new)) result ((items field.name_of_member field.member None count).read input.old) }
{
    let mut members = with_room(count as usize, LEAST_MEMBER, input)?;
    let mut last = None;
    for _ in 0..count {
        let Member {
            incarnation,
            status,
        } = member(last, input)?;
        members.push(Member {
            incarnation,
            status,
        })?;
        last = Some(incarnation);
    }
    Ok(members)
}

/// The members of a roster, at most 4,096, by rising incarnation.
#[tactic(auto, unfolding(crate::specs::Fields::members))]
pub fn members(input: &mut Input<'_>) -> Result<Listed<Member>, ReadError>
    ensures { Gives (λ x. (x, input.new)) result (field.members.read input.old) }
{
    let count = input.u16()?;
    if count > MOST_MEMBERS {
        return Err(ReadError::Fault(Fault::Field));
    }
    members_of(count, input)
}

/// The number of a frame, below the next one and above the last one.
pub(crate) fn number_behind(
    next: &FrameNo,
    last: Option<FrameNo>,
    input: &mut Input<'_>,
) -> Result<FrameNo, Fault>
    ensures { Reads (λ x. (x, input.new)) result
        ((checked (field.below next.now) (field.is_above last)).read input.old) }
{
    let number = below(next, input)?;
    if let Some(last) = last {
        if number.number() <= last.number() {
            return Err(Fault::Field);
        }
    }
    Ok(number)
}

#[tactic(auto, unfolding(crate::specs::Fields::frame))]
fn frame(next: &FrameNo, last: Option<FrameNo>, input: &mut Input<'_>) -> Result<Frame, ReadError>
    ensures { Gives (λ x. (x, input.new)) result ((field.frame next.now last).read input.old) }
{
    Ok(Frame {
        number: number_behind(next, last, input)?,
        place: place(input)?,
        thread: thread(input)?,
        slots: slots(input)?,
        returns: goes_to(next, input)?,
    })
}

fn frames_of(next: &FrameNo, count: u32, input: &mut Input<'_>) -> Result<Listed<Frame>, ReadError>
    ensures { Gives (λ x. (x, input.new)) result
        ((items field.number_of_frame (field.frame next.now) None count).read input.old) }
{
    let mut frames = with_room(count as usize, LEAST_FRAME, input)?;
    let mut last = None;
    for _ in 0..count {
        let item = frame(next, last, input)?;
        last = Some(item.number);
        frames.push(item)?;
    }
    Ok(frames)
}

/// The count of a finished subcomputation's frames or records is 0.
pub(crate) fn count(progress: &Progress, input: &mut Input<'_>) -> Result<u32, Fault>
    ensures { Reads (λ x. (x, input.new)) result ((checked (number 4) (field.allows progress.now)).read input.old) }
{
    let count = input.u32()?;
    match progress {
        Progress::Finished(_) if count != 0 => Err(Fault::Field),
        _ => Ok(count),
    }
}

/// The frames of a subcomputation, by rising number; a finished one has none.
#[tactic(auto, unfolding(crate::specs::Fields::frames))]
pub fn frames(
    progress: &Progress,
    next: &FrameNo,
    input: &mut Input<'_>,
) -> Result<Listed<Frame>, ReadError>
    ensures { Gives (λ x. (x, input.new)) result ((field.frames progress.now next.now).read input.old) }
{
    let count = count(progress, input)?;
    frames_of(next, count, input)
}

/// The name of a grant behind the last one.
pub(crate) fn grant_behind(last: Option<GrantId>, input: &mut Input<'_>) -> Result<GrantId, Fault>
    ensures { Reads (λ x. (x, input.new)) result ((checked field.grant (field.is_behind last)).read input.old) }
{
    let grant = grant(input)?;
    if let Some(last) = last {
        if !last.is_before(grant) {
            return Err(Fault::Field);
        }
    }
    Ok(grant)
}

#[tactic(auto, unfolding(crate::specs::Fields::stolen))]
fn stolen(next: &FrameNo, last: Option<GrantId>, input: &mut Input<'_>) -> Result<Record, ReadError>
    ensures { Gives (λ x. (x, input.new)) result ((field.stolen next.now last).read input.old) }
{
    Ok(Record {
        grant: grant_behind(last, input)?,
        holder: worker(input)?,
        frame: below(next, input)?,
        task: task(input)?,
        returns: goes_to(next, input)?,
    })
}

fn records_of(
    next: &FrameNo,
    count: u32,
    input: &mut Input<'_>,
) -> Result<Listed<Record>, ReadError>
    ensures { Gives (λ x. (x, input.new)) result
        ((items field.grant_of_record (field.stolen next.now) None count).read input.old) }
{
    let mut records = with_room(count as usize, LEAST_RECORD, input)?;
    let mut last = None;
    for _ in 0..count {
        let item = stolen(next, last, input)?;
        last = Some(item.grant);
        records.push(item)?;
    }
    Ok(records)
}

/// The records of a subcomputation, by rising grant; a finished one has none.
#[tactic(auto, unfolding(crate::specs::Fields::records))]
pub fn records(
    progress: &Progress,
    next: &FrameNo,
    input: &mut Input<'_>,
) -> Result<Listed<Record>, ReadError>
    ensures { Gives (λ x. (x, input.new)) result ((field.records progress.now next.now).read input.old) }
{
    let count = count(progress, input)?;
    records_of(next, count, input)
}

/// The place of a saved value: 1 to 23 steps, of which the last one goes to a kid.
#[tactic(auto, unfolding(crate::specs::Fields::saved_place))]
fn saved_place(input: &mut Input<'_>) -> Result<SavedPlace, Fault>
    ensures { Reads (λ x. (x, input.new)) result (field.saved_place.read input.old) }
{
    let count = input.u16()?;
    if count == 0 || usize::from(count) > MOST_SAVED_STEPS {
        return Err(Fault::Field);
    }
    let steps = steps(count, input)?;
    SavedPlace::of_steps(steps).ok_or(Fault::Field)
}

/// The place of a saved value behind the last one.
fn place_behind(last: Option<SavedPlace>, input: &mut Input<'_>) -> Result<SavedPlace, Fault>
    ensures { Reads (λ x. (x, input.new)) result ((checked field.saved_place (field.is_later last)).read input.old) }
{
    let place = saved_place(input)?;
    if let Some(last) = last {
        if !last.compare(&place).is_lt() {
            return Err(Fault::Field);
        }
    }
    Ok(place)
}

#[tactic(auto, unfolding(crate::specs::Fields::saved_value))]
pub(crate) fn saved_value(
    last: Option<SavedPlace>,
    input: &mut Input<'_>,
) -> Result<SavedValue, Fault>
    ensures { Reads (λ x. (x, input.new)) result ((field.saved_value last).read input.old) }
{
    let place = place_behind(last, input)?;
    let value = input.signed()?;
    Ok(SavedValue { place, value })
}

fn saved_of(count: u8, input: &mut Input<'_>) -> Result<Listed<SavedValue>, ReadError>
    ensures { Gives (λ x. (x, input.new)) result ((items place_of field.saved_value None count).read input.old) }
{
    let mut values = with_room(usize::from(count), LEAST_SAVED, input)?;
    let mut last = None;
    for _ in 0..count {
        let item = saved_value(last, input)?;
        last = Some(item.place);
        values.push(item)?;
    }
    Ok(values)
}

/// How many saved values there are: 1 to 64.
pub(crate) fn saved_count(input: &mut Input<'_>) -> Result<u8, Fault>
    ensures { Reads (λ x. (x, input.new)) result
        ((checked (number 1) (λ n. nat_lt 0 n && nat_le n 64)).read input.old) }
{
    let count = input.byte()?;
    if count == 0 || usize::from(count) > MOST_SAVED {
        return Err(Fault::Field);
    }
    Ok(count)
}

/// Saved values, 1 to 64, by the order of their places.
#[tactic(auto, unfolding(crate::specs::Fields::saved_values))]
pub fn saved_values(input: &mut Input<'_>) -> Result<Listed<SavedValue>, ReadError>
    ensures { Gives (λ x. (x, input.new)) result (field.saved_values.read input.old) }
{
    let count = saved_count(input)?;
    saved_of(count, input)
}

/// No saved values, for which there are no bytes.
#[tactic(auto, unfolding(crate::specs::Fields::no_values))]
pub fn no_values(input: &mut Input<'_>) -> Result<Listed<SavedValue>, ReadError>
    ensures { Gives (λ x. (x, input.new)) result (field.no_values.read input.old) }
{
    Ok(Listed::new(input.alloc()))
}

/// A value: a signed number.
pub fn value(input: &mut Input<'_>) -> Result<i64, Fault>
    ensures { Reads (λ x. (x, input.new)) result (field.signed.read input.old) }
{
    input.signed()
}
