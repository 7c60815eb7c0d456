//! Passing over fields: each answers the first fault, as its reader in `read` does, or leaves the
//! bytes behind the field; no memory is taken. A field that other fields depend on is answered, and
//! so is one that has a fixed size.
ghost use Rattle.std.specs.Prelude.{None};
ghost use Rattle.packet_fields.specs.Format.{Reads, end_of, items, keeping, plain};
ghost use Rattle.packet_fields.specs.Fields as field;
ghost use Rattle.saved_values.specs.Saved.{place_of};

use crate::fault::Fault;
use crate::input::Input;
use crate::read::{
    count, grant_behind, number_behind, part_count, saved_count, saved_value, slot, status, steps,
    worker_behind,
};
pub use crate::read::{
    actor, below, counted, epoch, goes_to, grant, hop, next_frame, other_worker, outcome, piece_of,
    pieces, progress, raised, thread, value, worker,
};
use ids::limits::{MOST_MEMBERS, MOST_NUMBERS, MOST_SLOTS, MOST_STEPS};
use ids::{FrameNo, GrantId, Incarnation, Progress};

/// A place, at most 1,024 steps.
#[tactic(auto, unfolding(crate::specs::Fields::place, crate::specs::Fields::steps))]
pub fn place(input: &mut Input<'_>) -> Result<(), Fault>
    ensures { Reads (λ _. input.new) result (end_of (field.place.read input.old)) }
{
    let count = input.u16()?;
    if count > MOST_STEPS {
        return Err(Fault::Field);
    }
    steps(count, input)?;
    Ok(())
}

/// A part of an offer's spelling, behind the count of its bytes.
#[tactic(auto, unfolding(crate::specs::Fields::part))]
pub fn part(pieces: &u16, number: &u16, input: &mut Input<'_>) -> Result<(), Fault>
    ensures { Reads (λ _. input.new) result (end_of ((field.part pieces.now number.now).read input.old)) }
{
    let count = part_count(pieces, number, input)? as usize;
    if input.len() < count {
        return Err(Fault::Short);
    }
    input.pass(count);
    Ok(())
}

fn numbers_of(count: u8, input: &mut Input<'_>) -> Result<(), Fault>
    ensures { Reads (λ _. input.new) result (end_of ((plain field.signed count).read input.old)) }
{
    for _ in 0..count {
        input.signed()?;
    }
    Ok(())
}

/// At most 8 numbers.
#[tactic(auto, unfolding(crate::specs::Fields::numbers))]
pub fn numbers(input: &mut Input<'_>) -> Result<(), Fault>
    ensures { Reads (λ _. input.new) result (end_of (field.numbers.read input.old)) }
{
    let count = input.byte()?;
    if count > MOST_NUMBERS {
        return Err(Fault::Field);
    }
    numbers_of(count, input)
}

/// A task.
#[tactic(auto, unfolding(crate::specs::Fields::task))]
pub fn task(input: &mut Input<'_>) -> Result<(), Fault>
    ensures { Reads (λ _. input.new) result (end_of (field.task.read input.old)) }
{
    place(input)?;
    thread(input)?;
    numbers(input)
}

fn slots_of(count: u8, input: &mut Input<'_>) -> Result<(), Fault>
    ensures { Reads (λ _. input.new) result (end_of ((plain field.slot count).read input.old)) }
{
    for _ in 0..count {
        slot(input)?;
    }
    Ok(())
}

/// At most 8 slots.
#[tactic(auto, unfolding(crate::specs::Fields::slots))]
pub fn slots(input: &mut Input<'_>) -> Result<(), Fault>
    ensures { Reads (λ _. input.new) result (end_of (field.slots.read input.old)) }
{
    let count = input.byte()?;
    if count > MOST_SLOTS {
        return Err(Fault::Field);
    }
    slots_of(count, input)
}

/// A member behind the last one: its incarnation.
#[tactic(auto, unfolding(crate::specs::Fields::member))]
fn member(last: Option<Incarnation>, input: &mut Input<'_>) -> Result<Incarnation, Fault>
    ensures { Reads (λ x. (x, input.new)) result (keeping field.name_of_member ((field.member last).read input.old)) }
{
    let incarnation = worker_behind(last, input)?;
    status(&incarnation, input)?;
    Ok(incarnation)
}

fn members_of(count: u16, input: &mut Input<'_>) -> Result<(), Fault>
    ensures { Reads (λ _. input.new) result
        (end_of ((items field.name_of_member field.member None count).read input.old)) }
{
    let mut last = None;
    for _ in 0..count {
        let incarnation = member(last, input)?;
        last = Some(incarnation);
    }
    Ok(())
}

/// The members of a roster, at most 4,096, by rising incarnation.
#[tactic(auto, unfolding(crate::specs::Fields::members))]
pub fn members(input: &mut Input<'_>) -> Result<(), Fault>
    ensures { Reads (λ _. input.new) result (end_of (field.members.read input.old)) }
{
    let count = input.u16()?;
    if count > MOST_MEMBERS {
        return Err(Fault::Field);
    }
    members_of(count, input)
}

/// A frame behind the last one: its number.
#[tactic(auto, unfolding(crate::specs::Fields::frame))]
fn frame(next: &FrameNo, last: Option<FrameNo>, input: &mut Input<'_>) -> Result<FrameNo, Fault>
    ensures { Reads (λ x. (x, input.new)) result (keeping field.number_of_frame
        ((field.frame next.now last).read input.old)) }
{
    let number = number_behind(next, last, input)?;
    place(input)?;
    thread(input)?;
    slots(input)?;
    goes_to(next, input)?;
    Ok(number)
}

fn frames_of(next: &FrameNo, count: u32, input: &mut Input<'_>) -> Result<(), Fault>
    ensures { Reads (λ _. input.new) result
        (end_of ((items field.number_of_frame (field.frame next.now) None count).read input.old)) }
{
    let mut last = None;
    for _ in 0..count {
        let number = frame(next, last, input)?;
        last = Some(number);
    }
    Ok(())
}

/// The frames of a subcomputation, by rising number; a finished one has none.
#[tactic(auto, unfolding(crate::specs::Fields::frames))]
pub fn frames(progress: &Progress, next: &FrameNo, input: &mut Input<'_>) -> Result<(), Fault>
    ensures { Reads (λ _. input.new) result (end_of ((field.frames progress.now next.now).read input.old)) }
{
    let count = count(progress, input)?;
    frames_of(next, count, input)
}

/// A record behind the last one: its grant.
#[tactic(auto, unfolding(crate::specs::Fields::stolen))]
fn stolen(next: &FrameNo, last: Option<GrantId>, input: &mut Input<'_>) -> Result<GrantId, Fault>
    ensures { Reads (λ x. (x, input.new)) result (keeping field.grant_of_record
        ((field.stolen next.now last).read input.old)) }
{
    let grant = grant_behind(last, input)?;
    worker(input)?;
    below(next, input)?;
    task(input)?;
    goes_to(next, input)?;
    Ok(grant)
}

fn records_of(next: &FrameNo, count: u32, input: &mut Input<'_>) -> Result<(), Fault>
    ensures { Reads (λ _. input.new) result
        (end_of ((items field.grant_of_record (field.stolen next.now) None count).read input.old)) }
{
    let mut last = None;
    for _ in 0..count {
        let grant = stolen(next, last, input)?;
        last = Some(grant);
    }
    Ok(())
}

/// The records of a subcomputation, by rising grant; a finished one has none.
#[tactic(auto, unfolding(crate::specs::Fields::records))]
pub fn records(progress: &Progress, next: &FrameNo, input: &mut Input<'_>) -> Result<(), Fault>
    ensures { Reads (λ _. input.new) result (end_of ((field.records progress.now next.now).read input.old)) }
{
    let count = count(progress, input)?;
    records_of(next, count, input)
}

fn saved_of(count: u8, input: &mut Input<'_>) -> Result<(), Fault>
    ensures { Reads (λ _. input.new) result (end_of ((items place_of field.saved_value None count).read input.old)) }
{
    let mut last = None;
    for _ in 0..count {
        let item = saved_value(last, input)?;
        last = Some(item.place);
    }
    Ok(())
}

/// Saved values, 1 to 64, by the order of their places.
#[tactic(auto, unfolding(crate::specs::Fields::saved_values))]
pub fn saved_values(input: &mut Input<'_>) -> Result<(), Fault>
    ensures { Reads (λ _. input.new) result (end_of (field.saved_values.read input.old)) }
{
    let count = saved_count(input)?;
    saved_of(count, input)
}

/// No saved values, for which there are no bytes.
#[tactic(auto, unfolding(crate::specs::Fields::no_values))]
pub fn no_values(input: &mut Input<'_>) -> Result<(), Fault>
    ensures { Reads (λ _. input.new) result (end_of (field.no_values.read input.old)) }
{
    Ok(())
}
