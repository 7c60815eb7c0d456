//! Whether values can be written: for each field a test that answers what its format's `fits` says.
//! Where any value can be written, as its type sees to it, the test looks at the value all the
//! same: the prover then has what the type keeps.
ghost use Rattle.std.specs.Prelude.{◌≡◌, ◌<◌, ◌≤◌, IsTrue, length, None};
ghost use Rattle.std.specs.List.{list_all};
ghost use Rattle.packet_fields.specs.Format.{checked, items, number};
ghost use Rattle.packet_fields.specs.Fields as field;
ghost use Rattle.saved_values.specs.Saved.{place_of};

use ids::limits::{MOST_MEMBERS, MOST_NUMBERS, MOST_SLOTS, MOST_STEPS, MOST_THREADS};
use ids::{
    Actor, Count, Epoch, Frame, FrameNo, GrantId, Hop, Incarnation, Listed, Member, Numbers,
    Outcome, Place, Progress, Record, Return, Slots, Status, Task,
};
use saved_values::{MOST_SAVED, MOST_SAVED_STEPS, SavedPlace, SavedValue};

/// An offer is cut into so many pieces at least.
pub(crate) const LEAST_PIECES: u16 = 2;

/// And into so many at most.
pub(crate) const MOST_PIECES: u16 = 16_384;

/// A part of an offer's spelling has so many bytes, the last one at most so many.
const PART: usize = 65_536;

/// A worker's incarnation: always.
#[tactic(auto, unfolding(crate::specs::Fields::worker))]
pub fn worker(incarnation: &Incarnation) -> bool
    ensures fits { result ≡ field.worker.fits incarnation.now }
    ensures always { IsTrue result }
{
    incarnation.word() > 0
}

/// The incarnation of a worker other than `own`.
pub fn other_worker(own: &Incarnation, value: &Incarnation) -> bool
    ensures { result ≡ (field.other_worker own.now).fits value.now }
{
    worker(value) && value.word() != own.word()
}

/// An epoch of the clearinghouse: always.
#[tactic(auto, unfolding(crate::specs::Fields::epoch))]
pub fn epoch(epoch: &Epoch) -> bool
    ensures fits { result ≡ field.epoch.fits epoch.now }
    ensures always { IsTrue result }
{
    epoch.number() > 0
}

/// A worker, or the clearinghouse in an epoch: always.
#[tactic(auto, unfolding(crate::specs::Fields::actor))]
pub fn actor(actor: &Actor) -> bool
    ensures fits { result ≡ field.actor.fits actor.now }
    ensures always { IsTrue result }
{
    actor.word() > 0
}

/// A number counted from 1: always.
#[tactic(auto, unfolding(crate::specs::Fields::counted))]
pub fn counted(count: &Count) -> bool
    ensures fits { result ≡ field.counted.fits count.now }
    ensures always { IsTrue result }
{
    count.number() > 0
}

/// How often a grant moved: always.
#[tactic(auto, unfolding(crate::specs::Fields::hop))]
pub fn hop(hop: &Hop) -> bool
    ensures fits { result ≡ field.hop.fits hop.now }
    ensures always { IsTrue result }
{
    let _count = hop.count();
    true
}

/// The hop of an offer, at least 1.
#[tactic(auto, unfolding(crate::specs::Fields::raised))]
pub fn raised(value: &Hop) -> bool
    ensures { result ≡ field.raised.fits value.now }
{
    value.count() > 0
}

/// Into how many pieces an offer is cut: 2 to 16,384.
#[tactic(auto, unfolding(crate::specs::Fields::pieces))]
pub fn pieces(value: &u16) -> bool
    ensures { result ≡ field.pieces.fits value.now }
{
    *value >= LEAST_PIECES && *value <= MOST_PIECES
}

/// Which of so many pieces it is, counted from 0.
pub fn piece_of(pieces: &u16, value: &u16) -> bool
    ensures { result ≡ (field.piece_of pieces.now).fits value.now }
{
    *value < *pieces
}

/// Whether the part of an offer's spelling with a number, of so many pieces, may have so many
/// bytes.
pub(crate) fn allows_part(pieces: u16, number: u16, count: usize) -> bool
    ensures { result ≡ field.allows_part pieces number count }
{
    if number as u32 + 1 == pieces as u32 {
        0 < count && count <= PART
    } else {
        count == PART
    }
}

/// The part of an offer's spelling with a number, of so many pieces: 65,536 bytes, the last one 1
/// to so many.
pub fn part(pieces: &u16, number: &u16, value: &Listed<u8>) -> bool
    ensures { result ≡ (field.part pieces.now number.now).fits value.now }
{
    are_part(*pieces, *number, value.as_slice())
}

/// The same of its bytes.
fn are_part(pieces: u16, number: u16, bytes: &[u8]) -> bool
    ensures { result ≡ (field.part pieces number).fits bytes.now }
{
    allows_part(pieces, number, bytes.len())
}

/// The number of the next frame, at least 1.
#[tactic(auto, unfolding(crate::specs::Fields::raised))]
pub fn next_frame(next: &FrameNo) -> bool
    ensures { result ≡ field.raised.fits next.now }
{
    next.number() > 0
}

/// The number of a frame, below the next one.
pub fn below(next: &FrameNo, value: &FrameNo) -> bool
    ensures { result ≡ (field.below next.now).fits value.now }
{
    value.number() < next.number()
}

/// The name of a grant: always.
#[tactic(auto, unfolding(crate::specs::Fields::grant, crate::specs::Fields::counted))]
pub fn grant(value: &GrantId) -> bool
    ensures fits { result ≡ field.grant.fits value.now }
    ensures always { IsTrue result }
{
    actor(&value.minter()) && value.number() > 0
}

/// A place: always.
#[tactic(auto, using(crate::proofs::Fitting::place_fits))]
pub fn place(value: &Place) -> bool
    ensures fits { result ≡ field.place.fits value.now }
    ensures always { IsTrue result }
{
    value.len() <= MOST_STEPS
}

/// The number of a thread, below 64.
#[tactic(auto, unfolding(crate::specs::Fields::thread))]
pub fn thread(value: &u8) -> bool
    ensures fits { result ≡ field.thread.fits value.now }
    ensures below { value.now < 64 → IsTrue result }
{
    *value < MOST_THREADS
}

/// A signed number: always.
#[tactic(auto, unfolding(crate::specs::Fields::signed))]
fn signed(number: i64) -> bool
    ensures fits { result ≡ field.signed.fits number }
    ensures always { IsTrue result }
{
    true
}

/// Signed numbers: always.
fn each_number(numbers: &[i64]) -> bool
    ensures fits { result ≡ list_all field.signed.fits numbers.now }
    ensures always { IsTrue result }
{
    numbers.iter().all(|number| signed(*number))
}

/// At most 8 numbers.
#[tactic(auto, using(crate::proofs::Fitting::numbers_fits))]
pub fn numbers(value: &Numbers) -> bool
    ensures fits { result ≡ field.numbers.fits value.now }
    ensures short { length value.now ≤ 8 → IsTrue result }
{
    value.len() <= MOST_NUMBERS as usize && each_number(value.as_slice())
}

/// A task: its thread below 64, at most 8 numbers.
#[tactic(auto, unfolding(crate::specs::Fields::task))]
pub fn task(value: &Task) -> bool
    ensures fits { result ≡ field.task.fits value.now }
    ensures bounded { value.now.thread < 64 → length value.now.numbers ≤ 8 → IsTrue result }
{
    place(&value.place) && thread(&value.thread) && numbers(&value.numbers)
}

/// An outcome: always.
#[tactic(auto, unfolding(crate::specs::Fields::outcome))]
pub fn outcome(value: &Outcome) -> bool
    ensures fits { result ≡ field.outcome.fits value.now }
    ensures always { IsTrue result }
{
    match value {
        Outcome::Value(number) => signed(*number),
        Outcome::TooDeep => true,
    }
}

/// How far a subcomputation is: always.
#[tactic(auto, using(crate::proofs::Fitting::progress_fits))]
pub fn progress(value: &Progress) -> bool
    ensures fits { result ≡ field.progress.fits value.now }
    ensures always { IsTrue result }
{
    match value {
        Progress::Active => true,
        Progress::Finished(reached) => outcome(reached),
    }
}

/// A slot: always.
#[tactic(auto, unfolding(crate::specs::Fields::slot))]
fn slot(value: &Option<i64>) -> bool
    ensures fits { result ≡ field.slot.fits value.now }
    ensures always { IsTrue result }
{
    match value {
        None => true,
        Some(number) => signed(*number),
    }
}

/// Slots: always.
fn each_slot(slots: &[Option<i64>]) -> bool
    ensures fits { result ≡ list_all field.slot.fits slots.now }
    ensures always { IsTrue result }
{
    slots.iter().all(slot)
}

/// At most 8 slots.
#[tactic(auto, using(crate::proofs::Fitting::slots_fits))]
pub fn slots(value: &Slots) -> bool
    ensures { result ≡ field.slots.fits value.now }
{
    value.len() <= MOST_SLOTS as usize && each_slot(value.as_slice())
}

/// Where a value goes: a frame below the next one, and a slot of at most 7.
#[tactic(auto, unfolding(crate::specs::Fields::goes_to))]
pub fn goes_to(next: &FrameNo, value: &Return) -> bool
    ensures { result ≡ (field.goes_to next.now).fits value.now }
{
    match value {
        Return::Whole => true,
        Return::Local(frame, slot) => below(next, frame) && *slot < MOST_SLOTS,
    }
}

/// A status: an heir is another worker.
#[tactic(auto, unfolding(crate::specs::Fields::status))]
fn status(own: &Incarnation, value: &Status) -> bool
    ensures { result ≡ (field.status own.now).fits value.now }
{
    match value {
        Status::Live | Status::Dead => true,
        Status::Left(heir) => other_worker(own, heir),
    }
}

/// A member: behind the last one, and an heir is another worker.
#[tactic(auto, unfolding(crate::specs::Fields::member))]
fn member(last: Option<Incarnation>, value: &Member) -> bool
    ensures { result ≡ (field.member last).fits value.now }
{
    let is_above = match last {
        None => true,
        Some(last) => last.word() < value.incarnation.word(),
    };
    is_above && worker(&value.incarnation) && status(&value.incarnation, &value.status)
}

/// Members by rising incarnation, whose heirs are other workers.
fn each_member(members: &[Member]) -> bool
    ensures { result ≡ (items field.name_of_member field.member None (length members.now)).fits members.now }
{
    let mut last = None;
    for value in members {
        if !member(last, value) {
            return false;
        }
        last = Some(value.incarnation);
    }
    true
}

/// The members of a roster: at most 4,096, by rising incarnation, whose heirs are other workers.
#[tactic(auto, using(crate::proofs::Fitting::members_fits))]
pub fn members(value: &Listed<Member>) -> bool
    ensures { result ≡ field.members.fits value.now }
{
    value.len() <= MOST_MEMBERS as usize && each_member(value.as_slice())
}

/// A count of frames or records: below 2^32, and 0 where the subcomputation is finished.
fn count(progress: &Progress, count: usize) -> bool
    ensures { result ≡ (checked (number 4) (field.allows progress.now)).fits count }
{
    match progress {
        Progress::Active => count <= 0xFFFF_FFFF,
        Progress::Finished(_) => count == 0,
    }
}

/// A frame: its number below the next one and behind the last one, its thread below 64, at most 8
/// slots, and its value goes where one can.
#[tactic(auto, unfolding(crate::specs::Fields::frame))]
fn frame(next: &FrameNo, last: Option<FrameNo>, value: &Frame) -> bool
    ensures { result ≡ (field.frame next.now last).fits value.now }
{
    let is_above = match last {
        None => true,
        Some(last) => last.number() < value.number.number(),
    };
    is_above
        && below(next, &value.number)
        && place(&value.place)
        && thread(&value.thread)
        && slots(&value.slots)
        && goes_to(next, &value.returns)
}

/// Frames by rising number.
fn each_frame(next: &FrameNo, frames: &[Frame]) -> bool
    ensures { result ≡ (items field.number_of_frame (field.frame next.now) None (length frames.now)).fits frames.now }
{
    let mut last = None;
    for value in frames {
        if !frame(next, last, value) {
            return false;
        }
        last = Some(value.number);
    }
    true
}

/// The frames of a subcomputation: by rising number, and none where it is finished.
#[tactic(auto, unfolding(crate::specs::Fields::frames))]
pub fn frames(progress: &Progress, next: &FrameNo, value: &Listed<Frame>) -> bool
    ensures { result ≡ (field.frames progress.now next.now).fits value.now }
{
    count(progress, value.len()) && each_frame(next, value.as_slice())
}

/// A record: its grant behind the last one, its frame below the next one, its task and where its
/// value goes as they have to be.
#[tactic(auto, unfolding(crate::specs::Fields::stolen))]
fn stolen(next: &FrameNo, last: Option<GrantId>, value: &Record) -> bool
    ensures { result ≡ (field.stolen next.now last).fits value.now }
{
    let is_behind = match last {
        None => true,
        Some(last) => last.is_before(value.grant),
    };
    is_behind
        && grant(&value.grant)
        && worker(&value.holder)
        && below(next, &value.frame)
        && task(&value.task)
        && goes_to(next, &value.returns)
}

/// Records by rising grant.
fn each_record(next: &FrameNo, records: &[Record]) -> bool
    ensures { result ≡ (items field.grant_of_record (field.stolen next.now) None
        (length records.now)).fits records.now }
{
    let mut last = None;
    for value in records {
        if !stolen(next, last, value) {
            return false;
        }
        last = Some(value.grant);
    }
    true
}

/// The records of a subcomputation: by rising grant, and none where it is finished.
#[tactic(auto, unfolding(crate::specs::Fields::records))]
pub fn records(progress: &Progress, next: &FrameNo, value: &Listed<Record>) -> bool
    ensures { result ≡ (field.records progress.now next.now).fits value.now }
{
    count(progress, value.len()) && each_record(next, value.as_slice())
}

/// The place of a saved value: always.
#[tactic(auto, using(crate::proofs::Saved::saved_place_fits))]
fn saved_place(value: &SavedPlace) -> bool
    ensures fits { result ≡ field.saved_place.fits value.now }
    ensures always { IsTrue result }
{
    value.steps().len() <= MOST_SAVED_STEPS
}

/// A saved value: behind the last one.
#[tactic(auto, unfolding(crate::specs::Fields::saved_value))]
fn behind(last: Option<SavedPlace>, value: &SavedValue) -> bool
    ensures { result ≡ (field.saved_value last).fits value.now }
{
    let is_later = match last {
        None => true,
        Some(last) => last.compare(&value.place).is_lt(),
    };
    is_later && saved_place(&value.place) && signed(value.value)
}

/// A saved value alone: always.
#[tactic(auto, unfolding(crate::specs::Fields::saved_value))]
pub fn saved_value(value: &SavedValue) -> bool
    ensures fits { result ≡ (field.saved_value None).fits value.now }
    ensures always { IsTrue result }
{
    saved_place(&value.place) && signed(value.value)
}

/// Saved values by the order of their places.
fn each_saved(values: &[SavedValue]) -> bool
    ensures { result ≡ (items place_of field.saved_value None (length values.now)).fits values.now }
{
    let mut last = None;
    for value in values {
        if !behind(last, value) {
            return false;
        }
        last = Some(value.place);
    }
    true
}

/// Saved values: 1 to 64, by the order of their places.
#[tactic(auto, using(crate::proofs::Saved::saved_fits))]
pub fn saved_values(value: &Listed<SavedValue>) -> bool
    ensures { result ≡ field.saved_values.fits value.now }
{
    !value.is_empty() && value.len() <= MOST_SAVED && each_saved(value.as_slice())
}

/// No saved values.
#[tactic(auto, unfolding(crate::specs::Fields::no_values))]
pub fn no_values(value: &Listed<SavedValue>) -> bool
    ensures { result ≡ field.no_values.fits value.now }
{
    value.is_empty()
}

/// A value: always.
pub fn value(value: &i64) -> bool
    ensures fits { result ≡ field.signed.fits value.now }
    ensures always { IsTrue result }
{
    signed(*value)
}
