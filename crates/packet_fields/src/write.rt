//! The writers of fields. Each adds the bytes of a value behind those already there. Being out of
//! memory is the only refusal, and then it is open how much was added.
ghost use Rattle.std.specs.Prelude.{◌≡◌, ◌++◌, ℕ, List, OnOk, Option, None};
ghost use Rattle.std.specs.List.{flat_map};
ghost use Rattle.ids.specs.Names.{Grant};
ghost use Rattle.ids.specs.declared.outcome.Progress.{Progress};
ghost use Rattle.packet_fields.specs.Format.{number};
ghost use Rattle.packet_fields.specs.Fields as field;

use byteorder::{BigEndian, ByteOrder};
use ids::{
    Actor, Count, Epoch, Frame, FrameNo, GrantId, Hop, Incarnation, Listed, Member, Numbers,
    Outcome, Place, Progress, Record, Return, Slots, Status, Task,
};
use saved_values::{SavedPlace, SavedValue};
use std::alloc::AllocError;

/// A number of one byte.
pub fn byte(out: &mut Vec<u8>, value: u8) -> Result<(), AllocError>
    ensures { OnOk result (out.new.items ≡ out.old.items ++ (number 1).write value) }
{
    out.extend_from_slice(&[value])
}

/// A number of two bytes, the highest first.
pub fn u16(out: &mut Vec<u8>, value: u16) -> Result<(), AllocError>
    ensures { OnOk result (out.new.items ≡ out.old.items ++ (number 2).write value) }
{
    let mut bytes = [0u8; 2];
    BigEndian::write_u16(&mut bytes, value);
    out.extend_from_slice(&bytes)
}

/// A number of four bytes, the highest first.
pub fn u32(out: &mut Vec<u8>, value: u32) -> Result<(), AllocError>
    ensures { OnOk result (out.new.items ≡ out.old.items ++ (number 4).write value) }
{
    let mut bytes = [0u8; 4];
    BigEndian::write_u32(&mut bytes, value);
    out.extend_from_slice(&bytes)
}

/// A number of eight bytes, the highest first.
pub fn u64(out: &mut Vec<u8>, value: u64) -> Result<(), AllocError>
    ensures { OnOk result (out.new.items ≡ out.old.items ++ (number 8).write value) }
{
    let mut bytes = [0u8; 8];
    BigEndian::write_u64(&mut bytes, value);
    out.extend_from_slice(&bytes)
}

/// The lowest byte of a count.
fn low_byte(out: &mut Vec<u8>, count: usize) -> Result<(), AllocError>
    ensures { OnOk result (out.new.items ≡ out.old.items ++ (number 1).write count) }
{
    let mut bytes = [0u8; 8];
    BigEndian::write_u64(&mut bytes, count as u64);
    out.extend_from_slice(&bytes[7..])
}

/// The two lowest bytes of a count.
fn low_two(out: &mut Vec<u8>, count: usize) -> Result<(), AllocError>
    ensures { OnOk result (out.new.items ≡ out.old.items ++ (number 2).write count) }
{
    let mut bytes = [0u8; 8];
    BigEndian::write_u64(&mut bytes, count as u64);
    out.extend_from_slice(&bytes[6..])
}

/// The four lowest bytes of a count.
fn low_four(out: &mut Vec<u8>, count: usize) -> Result<(), AllocError>
    ensures { OnOk result (out.new.items ≡ out.old.items ++ (number 4).write count) }
{
    let mut bytes = [0u8; 8];
    BigEndian::write_u64(&mut bytes, count as u64);
    out.extend_from_slice(&bytes[4..])
}

/// A signed number, in two's complement.
#[tactic(auto, unfolding(crate::specs::Fields::signed))]
fn signed(out: &mut Vec<u8>, value: i64) -> Result<(), AllocError>
    ensures { OnOk result (out.new.items ≡ out.old.items ++ field.signed.write value) }
{
    let mut bytes = [0u8; 8];
    BigEndian::write_i64(&mut bytes, value);
    out.extend_from_slice(&bytes)
}

/// A worker's incarnation.
#[tactic(auto, unfolding(crate::specs::Fields::worker))]
pub fn worker(out: &mut Vec<u8>, incarnation: &Incarnation) -> Result<(), AllocError>
    ensures { OnOk result (out.new.items ≡ out.old.items ++ field.worker.write incarnation.now) }
{
    u64(out, incarnation.word())
}

/// The incarnation of a worker other than one named before.
pub fn other_worker(out: &mut Vec<u8>, heir: &Incarnation) -> Result<(), AllocError>
    ensures { OnOk result ((own : ℕ) → out.new.items ≡ out.old.items ++ (field.other_worker own).write heir.now) }
{
    worker(out, heir)
}

/// An epoch of the clearinghouse.
#[tactic(auto, unfolding(crate::specs::Fields::epoch))]
pub fn epoch(out: &mut Vec<u8>, epoch: &Epoch) -> Result<(), AllocError>
    ensures { OnOk result (out.new.items ≡ out.old.items ++ field.epoch.write epoch.now) }
{
    u64(out, epoch.number())
}

/// A worker, or the clearinghouse in an epoch.
#[tactic(auto, unfolding(crate::specs::Fields::actor))]
pub fn actor(out: &mut Vec<u8>, actor: &Actor) -> Result<(), AllocError>
    ensures { OnOk result (out.new.items ≡ out.old.items ++ field.actor.write actor.now) }
{
    u64(out, actor.word())
}

/// A number counted from 1.
#[tactic(auto, unfolding(crate::specs::Fields::counted))]
pub fn counted(out: &mut Vec<u8>, count: &Count) -> Result<(), AllocError>
    ensures { OnOk result (out.new.items ≡ out.old.items ++ field.counted.write count.now) }
{
    u64(out, count.number())
}

/// How often a grant moved.
#[tactic(auto, unfolding(crate::specs::Fields::hop))]
pub fn hop(out: &mut Vec<u8>, hop: &Hop) -> Result<(), AllocError>
    ensures { OnOk result (out.new.items ≡ out.old.items ++ field.hop.write hop.now) }
{
    u32(out, hop.count())
}

/// The hop of an offer.
#[tactic(auto, unfolding(crate::specs::Fields::raised))]
pub fn raised(out: &mut Vec<u8>, value: &Hop) -> Result<(), AllocError>
    ensures { OnOk result (out.new.items ≡ out.old.items ++ field.raised.write value.now) }
{
    u32(out, value.count())
}

/// Into how many pieces an offer is cut.
#[tactic(auto, unfolding(crate::specs::Fields::pieces))]
pub fn pieces(out: &mut Vec<u8>, value: &u16) -> Result<(), AllocError>
    ensures { OnOk result (out.new.items ≡ out.old.items ++ field.pieces.write value.now) }
{
    u16(out, *value)
}

/// Which of so many pieces it is.
pub fn piece_of(out: &mut Vec<u8>, value: &u16) -> Result<(), AllocError>
    ensures { OnOk result ((pieces : ℕ) → out.new.items ≡ out.old.items ++ (field.piece_of pieces).write value.now) }
{
    u16(out, *value)
}

/// A part of an offer's spelling, behind the count of its bytes.
#[tactic(auto, unfolding(crate::specs::Fields::part), using(std::proofs::Common::append_assoc))]
pub fn part(out: &mut Vec<u8>, value: &Listed<u8>) -> Result<(), AllocError>
    ensures { OnOk result ((pieces number : ℕ) → out.new.items
        ≡ out.old.items ++ (field.part pieces number).write value.now) }
{
    low_four(out, value.len())?;
    out.extend_from_slice(value.as_slice())
}

/// The number of the next frame.
#[tactic(auto, unfolding(crate::specs::Fields::raised))]
pub fn next_frame(out: &mut Vec<u8>, next: &FrameNo) -> Result<(), AllocError>
    ensures { OnOk result (out.new.items ≡ out.old.items ++ field.raised.write next.now) }
{
    u32(out, next.number())
}

/// The number of a frame.
pub fn below(out: &mut Vec<u8>, frame: &FrameNo) -> Result<(), AllocError>
    ensures { OnOk result ((next : ℕ) → out.new.items ≡ out.old.items ++ (field.below next).write frame.now) }
{
    u32(out, frame.number())
}

/// The name of a grant.
#[tactic(auto, unfolding(crate::specs::Fields::grant, crate::specs::Fields::counted))]
pub fn grant(out: &mut Vec<u8>, value: &GrantId) -> Result<(), AllocError>
    ensures { OnOk result (out.new.items ≡ out.old.items ++ field.grant.write value.now) }
{
    actor(out, &value.minter())?;
    u64(out, value.number())?;
    Ok(())
}

/// A place: the count of its steps, and the steps from the root on.
#[tactic(auto, using(crate::proofs::Writing::place_write, std::proofs::Common::append_assoc))]
pub fn place(out: &mut Vec<u8>, value: &Place) -> Result<(), AllocError>
    ensures { OnOk result (out.new.items ≡ out.old.items ++ field.place.write value.now) }
{
    let steps = value.steps();
    low_two(out, steps.len())?;
    out.extend_from_slice(steps)?;
    Ok(())
}

/// The number of a thread.
#[tactic(auto, unfolding(crate::specs::Fields::thread))]
pub fn thread(out: &mut Vec<u8>, value: &u8) -> Result<(), AllocError>
    ensures { OnOk result (out.new.items ≡ out.old.items ++ field.thread.write value.now) }
{
    byte(out, *value)
}

/// Signed numbers, one after the other.
fn each_number(out: &mut Vec<u8>, numbers: &[i64]) -> Result<(), AllocError>
    ensures { OnOk result (out.new.items ≡ out.old.items ++ flat_map field.signed.write numbers.now) }
{
    for number in numbers {
        signed(out, *number)?;
    }
    Ok(())
}

/// Numbers behind their count.
#[tactic(auto, using(crate::proofs::Writing::numbers_write, std::proofs::Common::append_assoc))]
pub fn numbers(out: &mut Vec<u8>, value: &Numbers) -> Result<(), AllocError>
    ensures { OnOk result (out.new.items ≡ out.old.items ++ field.numbers.write value.now) }
{
    low_byte(out, value.len())?;
    each_number(out, value.as_slice())?;
    Ok(())
}

/// A task: its place, its thread and its numbers.
#[tactic(auto, unfolding(crate::specs::Fields::task))]
pub fn task(out: &mut Vec<u8>, value: &Task) -> Result<(), AllocError>
    ensures { OnOk result (out.new.items ≡ out.old.items ++ field.task.write value.now) }
{
    place(out, &value.place)?;
    thread(out, &value.thread)?;
    numbers(out, &value.numbers)?;
    Ok(())
}

/// An outcome: 1 and the value, or 2 for too deep.
#[tactic(auto, unfolding(crate::specs::Fields::outcome))]
pub fn outcome(out: &mut Vec<u8>, value: &Outcome) -> Result<(), AllocError>
    ensures { OnOk result (out.new.items ≡ out.old.items ++ field.outcome.write value.now) }
{
    match value {
        Outcome::Value(number) => {
            byte(out, 1)?;
            signed(out, *number)?;
        }
        Outcome::TooDeep => byte(out, 2)?,
    }
    Ok(())
}

/// How far a subcomputation is: 0 while it goes on, else its outcome.
#[tactic(auto, using(crate::proofs::Writing::progress_write), unfolding(crate::specs::Fields::progress))]
pub fn progress(out: &mut Vec<u8>, value: &Progress) -> Result<(), AllocError>
    ensures { OnOk result (out.new.items ≡ out.old.items ++ field.progress.write value.now) }
{
    match value {
        Progress::Active => byte(out, 0)?,
        Progress::Finished(reached) => outcome(out, reached)?,
    }
    Ok(())
}

/// A slot: 0 where it is empty, or 1 and its number.
#[tactic(auto, unfolding(crate::specs::Fields::slot))]
fn slot(out: &mut Vec<u8>, value: &Option<i64>) -> Result<(), AllocError>
    ensures { OnOk result (out.new.items ≡ out.old.items ++ field.slot.write value.now) }
{
    match value {
        None => byte(out, 0)?,
        Some(number) => {
            byte(out, 1)?;
            signed(out, *number)?;
        }
    }
    Ok(())
}

/// Slots, one after the other.
fn each_slot(out: &mut Vec<u8>, slots: &[Option<i64>]) -> Result<(), AllocError>
    ensures { OnOk result (out.new.items ≡ out.old.items ++ flat_map field.slot.write slots.now) }
{
    for value in slots {
        slot(out, value)?;
    }
    Ok(())
}

/// Slots behind their count.
#[tactic(auto, using(crate::proofs::Writing::slots_write, std::proofs::Common::append_assoc))]
pub fn slots(out: &mut Vec<u8>, value: &Slots) -> Result<(), AllocError>
    ensures { OnOk result (out.new.items ≡ out.old.items ++ field.slots.write value.now) }
{
    low_byte(out, value.len())?;
    each_slot(out, value.as_slice())?;
    Ok(())
}

/// Where a value goes: 0 for the whole subcomputation, or 1, the frame and the slot.
#[tactic(auto, unfolding(crate::specs::Fields::goes_to))]
pub fn goes_to(out: &mut Vec<u8>, value: &Return) -> Result<(), AllocError>
    ensures { OnOk result ((next : ℕ) → out.new.items ≡ out.old.items ++ (field.goes_to next).write value.now) }
{
    match value {
        Return::Whole => byte(out, 0)?,
        Return::Local(frame, slot) => {
            byte(out, 1)?;
            below(out, frame)?;
            byte(out, *slot)?;
        }
    }
    Ok(())
}

/// A status: 0 live, 1 dead, or 2 and the heir.
#[tactic(auto, unfolding(crate::specs::Fields::status))]
fn status(out: &mut Vec<u8>, value: &Status) -> Result<(), AllocError>
    ensures { OnOk result ((own : ℕ) → out.new.items ≡ out.old.items ++ (field.status own).write value.now) }
{
    match value {
        Status::Live => byte(out, 0)?,
        Status::Dead => byte(out, 1)?,
        Status::Left(heir) => {
            byte(out, 2)?;
            other_worker(out, heir)?;
        }
    }
    Ok(())
}

/// A member: its incarnation and its status.
#[tactic(auto, unfolding(crate::specs::Fields::member))]
fn member(out: &mut Vec<u8>, value: &Member) -> Result<(), AllocError>
    ensures { OnOk result ((last : Option ℕ) → out.new.items ≡ out.old.items ++ (field.member last).write value.now) }
{
    worker(out, &value.incarnation)?;
    status(out, &value.status)?;
    Ok(())
}

/// Members, one after the other.
fn each_member(out: &mut Vec<u8>, members: &[Member]) -> Result<(), AllocError>
    ensures { OnOk result (out.new.items ≡ out.old.items ++ flat_map (field.member None).write members.now) }
{
    for value in members {
        member(out, value)?;
    }
    Ok(())
}

/// The members of a roster behind their count.
#[tactic(auto, using(crate::proofs::Writing::members_write, std::proofs::Common::append_assoc))]
pub fn members(out: &mut Vec<u8>, value: &Listed<Member>) -> Result<(), AllocError>
    ensures { OnOk result (out.new.items ≡ out.old.items ++ field.members.write value.now) }
{
    low_two(out, value.len())?;
    each_member(out, value.as_slice())?;
    Ok(())
}

/// A frame: its number, its place, its thread, its slots, and where its value goes.
#[tactic(auto, unfolding(crate::specs::Fields::frame))]
fn frame(out: &mut Vec<u8>, frame: &Frame) -> Result<(), AllocError>
    ensures { OnOk result ((next : ℕ) (last : Option ℕ)
        → out.new.items ≡ out.old.items ++ (field.frame next last).write frame.now) }
{
    below(out, &frame.number)?;
    place(out, &frame.place)?;
    thread(out, &frame.thread)?;
    slots(out, &frame.slots)?;
    goes_to(out, &frame.returns)?;
    Ok(())
}

/// Frames, one after the other.
fn each_frame(out: &mut Vec<u8>, frames: &[Frame]) -> Result<(), AllocError>
    ensures { OnOk result (out.new.items ≡ out.old.items ++ flat_map (field.frame 0 None).write frames.now) }
{
    for value in frames {
        frame(out, value)?;
    }
    Ok(())
}

/// The frames of a subcomputation behind their count.
#[tactic(auto, using(crate::proofs::Writing::frames_write, std::proofs::Common::append_assoc))]
pub fn frames(out: &mut Vec<u8>, value: &Listed<Frame>) -> Result<(), AllocError>
    ensures { OnOk result ((progress : Progress) (next : ℕ)
        → out.new.items ≡ out.old.items ++ (field.frames progress next).write value.now) }
{
    low_four(out, value.len())?;
    each_frame(out, value.as_slice())?;
    Ok(())
}

/// A record: its grant, its holder, its frame's number, its task, and where its value goes.
#[tactic(auto, unfolding(crate::specs::Fields::stolen))]
fn stolen(out: &mut Vec<u8>, lent: &Record) -> Result<(), AllocError>
    ensures { OnOk result ((next : ℕ) (last : Option Grant)
        → out.new.items ≡ out.old.items ++ (field.stolen next last).write lent.now) }
{
    grant(out, &lent.grant)?;
    worker(out, &lent.holder)?;
    below(out, &lent.frame)?;
    task(out, &lent.task)?;
    goes_to(out, &lent.returns)?;
    Ok(())
}

/// Records, one after the other.
fn each_record(out: &mut Vec<u8>, records: &[Record]) -> Result<(), AllocError>
    ensures { OnOk result (out.new.items ≡ out.old.items ++ flat_map (field.stolen 0 None).write records.now) }
{
    for value in records {
        stolen(out, value)?;
    }
    Ok(())
}

/// The records of a subcomputation behind their count.
#[tactic(auto, using(crate::proofs::Writing::records_write, std::proofs::Common::append_assoc))]
pub fn records(out: &mut Vec<u8>, value: &Listed<Record>) -> Result<(), AllocError>
    ensures { OnOk result ((progress : Progress) (next : ℕ)
        → out.new.items ≡ out.old.items ++ (field.records progress next).write value.now) }
{
    low_four(out, value.len())?;
    each_record(out, value.as_slice())?;
    Ok(())
}

/// The place of a saved value: the count of its steps, and the steps from the root on.
#[tactic(auto, using(crate::proofs::Saved::saved_place_write, std::proofs::Common::append_assoc))]
fn saved_place(out: &mut Vec<u8>, value: &SavedPlace) -> Result<(), AllocError>
    ensures { OnOk result (out.new.items ≡ out.old.items ++ field.saved_place.write value.now) }
{
    let steps = value.steps();
    low_two(out, steps.len())?;
    out.extend_from_slice(steps)?;
    Ok(())
}

/// A saved value: its place and the value.
#[tactic(auto, unfolding(crate::specs::Fields::saved_value))]
fn saved_value(out: &mut Vec<u8>, saved: &SavedValue) -> Result<(), AllocError>
    ensures { OnOk result ((last : Option (List ℕ))
        → out.new.items ≡ out.old.items ++ (field.saved_value last).write saved.now) }
{
    saved_place(out, &saved.place)?;
    signed(out, saved.value)?;
    Ok(())
}

/// Saved values, one after the other.
fn each_saved(out: &mut Vec<u8>, values: &[SavedValue]) -> Result<(), AllocError>
    ensures { OnOk result (out.new.items ≡ out.old.items ++ flat_map (field.saved_value None).write values.now) }
{
    for value in values {
        saved_value(out, value)?;
    }
    Ok(())
}

/// Saved values behind their count.
#[tactic(auto, using(crate::proofs::Saved::saved_write, std::proofs::Common::append_assoc))]
pub fn saved_values(out: &mut Vec<u8>, value: &Listed<SavedValue>) -> Result<(), AllocError>
    ensures { OnOk result (out.new.items ≡ out.old.items ++ field.saved_values.write value.now) }
{
    low_byte(out, value.len())?;
    each_saved(out, value.as_slice())?;
    Ok(())
}

/// No saved values, for which there are no bytes.
pub fn no_values(out: &mut Vec<u8>, value: &Listed<SavedValue>) -> Result<(), AllocError>
    ensures { OnOk result (out.new.items ≡ out.old.items ++ field.no_values.write value.now) }
{
    Ok(())
}

/// A value: a signed number.
pub fn value(out: &mut Vec<u8>, value: &i64) -> Result<(), AllocError>
    ensures { OnOk result (out.new.items ≡ out.old.items ++ field.signed.write value.now) }
{
    signed(out, *value)
}
