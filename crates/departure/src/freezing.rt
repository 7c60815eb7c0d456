//! Freezing: what a node holds, as Offers to the heir to which it leaves.
ghost use Rattle.std.specs.Prelude.{◌≡◌, ◌<◌, ◌^◌, ◌++◌, true, false, IfOk, IsErrOf, IsTrue, OnOk};
ghost use Rattle.std.specs.List.{AllByRecursion, list_all, list_any};
ghost use Rattle.ids.specs.Members.{is_live};
ghost use Rattle.packet_fields.specs.Fields as field;
ghost use Rattle.codec.specs.Pieces.{cut};
ghost use Rattle.codec.specs.declared.encoding.EncodeError.TheVariants.{TooBig};
ghost use Rattle.sub_rules.specs.declared.content.Content as declared;
ghost use Rattle.subcomputation.specs.Fitting.{Fits};
ghost use Rattle.departure.specs.Offers.{offer, offer_of, is_last_hop, is_too_big};
ghost use Rattle.departure.specs.Freezing.{AllFit, AreMovable, Freezes, lacks_heir, offers, refusal, wholes};
ghost use Rattle.departure.specs.Typed.{FrameTyped, IsFew, RecordTyped, SubTyped};

use codec::{Body, Datagram, EncodeError, Offer, Packet, send_cut};
use frames::Frames;
use ids::{Actor, Address, Frame, Incarnation, Listed, Member, Outcome, Record, SortedMap, Status};
use kind_check::Checked;
use packet_fields::fits;
use std::alloc::{AllocError, Global};
use subcomputation::Sub;
use thiserror::Error;
use victim_records::Records;

/// Why a node may not leave.
#[derive(Clone, Copy, PartialEq, Eq, Debug, Error)]
#[error("E{number}", number = self.number())]
pub enum FreezeError {
    /// E50: a request of the node is pending.
    Pending,
    /// E51: an Offer has more than 1,073,741,824 bytes.
    TooBig,
    /// E52: a subcomputation has moved 2^32 - 1 times.
    HopSpent,
    /// E53: the heir isn't another live member.
    NoHeir,
    /// E9: there is no memory.
    Memory,
}

impl FreezeError {
    ghost use Rattle.departure.specs.Errors.{number_of_error};

    /// The number of the error: 9, or 50 to 53.
    pub fn number(self) -> u8
        ensures { result ≡ number_of_error self }
    {
        match self {
            FreezeError::Pending => ids::error_numbers::PENDING,
            FreezeError::TooBig => ids::error_numbers::OFFER_TOO_BIG,
            FreezeError::HopSpent => ids::error_numbers::HOP_SPENT,
            FreezeError::NoHeir => ids::error_numbers::NO_HEIR,
            FreezeError::Memory => ids::error_numbers::MEMORY,
        }
    }
}

/// A node's move to its heir: the number of the job, the node, and the heir.
#[derive(Clone, Copy, PartialEq, Eq, Debug)]
pub struct Move {
    pub job: u64,
    pub from: Incarnation,
    pub heir: Incarnation,
}

impl Move {
    /// The Offers of all that is held, by rising grant, each as a packet to the heir, or in Pieces
    /// where its spelling has more than 65,536 bytes. Of the refusals the first of these comes: E50
    /// where a request is pending, E53 where the heir isn't another live member, E52 where a
    /// subcomputation has moved 2^32 - 1 times, E51 where an Offer has more than 1,073,741,824
    /// bytes. E9 where there is no memory, which may come in the place of E51. What is held stays
    /// as it is.
    pub fn freeze_all(
        &self,
        alloc: Global,
        checked: &Checked,
        is_pending: bool,
        members: &[Member],
        subs: &SortedMap<Sub>,
    ) -> Result<Listed<Datagram>, FreezeError>
        requires { AllFit checked.now subs.now }
        ensures answer { Freezes (refusal self.now is_pending members.now subs.now) (offers self.now subs.now) result }
        ensures movable { IfOk result (λ _. AreMovable self.now subs.now) }
    {
        if is_pending {
            return Err(FreezeError::Pending);
        }
        if self.lacks_heir(members) {
            return Err(FreezeError::NoHeir);
        }
        if has_last_hop(subs) {
            return Err(FreezeError::HopSpent);
        }
        match self.spelled(alloc, checked, subs) {
            Ok(sent) => Ok(sent),
            Err(EncodeError::TooBig) => Err(FreezeError::TooBig),
            Err(EncodeError::Memory) => Err(FreezeError::Memory),
        }
    }

    /// The same Offers again, by rising grant; refused only when out of memory.
    pub fn offers(
        &self,
        alloc: Global,
        checked: &Checked,
        subs: &SortedMap<Sub>,
    ) -> Result<Listed<Datagram>, AllocError>
        requires fits { AllFit checked.now subs.now }
        requires movable { AreMovable self.now subs.now }
        ensures { IfOk result (λ sent. sent ≡ offers self.now subs.now) }
    {
        match self.spelled(alloc, checked, subs) {
            Ok(again) => Ok(again),
            Err(EncodeError::TooBig) => unreachable!(),
            Err(EncodeError::Memory) => Err(AllocError),
        }
    }

    /// Whether the heir isn't another live member.
    fn lacks_heir(&self, members: &[Member]) -> bool
        ensures { result ≡ lacks_heir self.now members.now }
    {
        self.heir.word() == self.from.word() || !is_live(members, self.heir)
    }

    /// The Offers, by rising grant, each whole or in its Pieces; too big where one of them is.
    fn spelled(
        &self,
        alloc: Global,
        checked: &Checked,
        subs: &SortedMap<Sub>,
    ) -> Result<Listed<Datagram>, EncodeError>
        requires fits { AllFit checked.now subs.now }
        requires hops { list_any is_last_hop subs.now ≡ false }
        ensures ok { IfOk result (λ sent. sent ≡ offers self.now subs.now) }
        ensures small { OnOk result (list_any is_too_big (wholes self.now subs.now) ≡ false) }
        ensures big { IsErrOf result TooBig → list_any is_too_big (wholes self.now subs.now) ≡ true }
    {
        let mut sent = Listed::with_capacity(alloc, subs.len())?;
        for sub in subs.values() {
            self.send_offer(alloc, checked, sub, &mut sent)?;
        }
        Ok(sent)
    }

    /// Adds the Offer of a subcomputation, whole or in its Pieces, to those that are sent.
    fn send_offer(
        &self,
        alloc: Global,
        checked: &Checked,
        sub: &Sub,
        sent: &mut Listed<Datagram>,
    ) -> Result<(), EncodeError>
        requires fits { Fits checked.now sub.now.content }
        requires hop { is_last_hop sub.now ≡ false }
        ensures ok { OnOk result (sent.new ≡ sent.old
            ++ cut (offer self.now.job self.now.from self.now.heir sub.now)) }
        ensures small { OnOk result (is_too_big (offer self.now.job self.now.from self.now.heir sub.now) ≡ false) }
        ensures big { IsErrOf result TooBig
            → is_too_big (offer self.now.job self.now.from self.now.heir sub.now) ≡ true }
    {
        let packet = self.packet(alloc, checked, sub)?;
        send_cut(alloc, sent, &packet)
    }

    /// The packet that offers a subcomputation.
    fn packet(&self, alloc: Global, checked: &Checked, sub: &Sub) -> Result<Packet, AllocError>
        requires fits { Fits checked.now sub.now.content }
        requires hop { is_last_hop sub.now ≡ false }
        ensures { IfOk result (λ p. p ≡ offer self.now.job self.now.from self.now.heir sub.now) }
    {
        law_what_fits_is_few(checked);
        law_sub_is_typed(sub);
        law_job_is_a_number(self.job);
        prove!(fits::worker(&self.from));
        let _ = self.heir.word();
        let offer = self.offer_of(alloc, sub)?;
        let heir = Address::actor(Actor::worker(self.heir));
        Ok(Packet::of(self.job, heir, Body::Offer(offer)).unwrap())
    }

    /// The Offer of a subcomputation, whose frames and records are copied.
    fn offer_of(&self, alloc: Global, sub: &Sub) -> Result<Offer, AllocError>
        requires { is_last_hop sub.now ≡ false }
        ensures same { IfOk result (λ o. o ≡ offer_of self.now.from sub.now) }
        ensures frames { OnOk result (AllByRecursion FrameTyped sub.now.content.frames) }
        ensures records { OnOk result (AllByRecursion RecordTyped sub.now.content.records) }
    {
        let content = sub.content();
        let frames = copied_frames(alloc, &content.frames)?;
        let records = copied_records(alloc, &content.records)?;
        Ok(Offer {
            from: self.from,
            grant: sub.grant(),
            hop: sub.hop().next().unwrap(),
            parent: content.parent,
            progress: content.progress,
            task: content.task.clone()?,
            next: content.next,
            frames,
            records,
        })
    }
}

/// Whether a worker is listed as live.
fn is_live(members: &[Member], worker: Incarnation) -> bool
    ensures { result ≡ is_live worker members.now }
{
    for member in members {
        if member.incarnation.word() == worker.word() {
            return matches!(member.status, Status::Live);
        }
    }
    false
}

/// Whether a subcomputation has moved as often as is counted.
fn has_last_hop(subs: &SortedMap<Sub>) -> bool
    ensures { result ≡ list_any is_last_hop subs.now }
{
    for sub in subs.values() {
        if sub.hop().next().is_none() {
            return true;
        }
    }
    false
}

/// Copies of frames, in their order.
fn copied_frames(alloc: Global, frames: &Frames) -> Result<Listed<Frame>, AllocError>
    ensures same { IfOk result (λ copies. copies ≡ frames.now) }
    ensures typed { OnOk result (AllByRecursion FrameTyped frames.now) }
{
    let mut copies = Listed::with_capacity(alloc, frames.len())?;
    for frame in frames.values() {
        law_frame_is_typed(frame);
        copies.push(frame.clone()?)?;
    }
    Ok(copies)
}

/// Copies of records, in their order.
fn copied_records(alloc: Global, records: &Records) -> Result<Listed<Record>, AllocError>
    ensures same { IfOk result (λ copies. copies ≡ records.now) }
    ensures typed { OnOk result (AllByRecursion RecordTyped records.now) }
{
    let mut copies = Listed::with_capacity(alloc, records.len())?;
    for kept in records.values() {
        law_record_is_typed(kept);
        copies.push(kept.clone()?)?;
    }
    Ok(copies)
}

/// The number of a job fits its type. Does nothing.
fn law_job_is_a_number(job: u64)
    ensures { job < 2 ^ 64 }
{
    let _ = job;
}

/// What fits an accepted program has threads below 64, with at most 8 numbers or slots. Does
/// nothing.
fn law_what_fits_is_few(checked: &Checked)
    ensures { (c : declared.Content) → Fits checked.now c → IsFew c }
{
    kind_check::accepted_threads_are_few();
    let _ = checked.program();
}

/// What the type of a subcomputation sees to. Does nothing.
fn law_sub_is_typed(sub: &Sub)
    ensures { SubTyped sub.now }
{
    let content = sub.content();
    content.frames.law_stand_in_order();
    content.records.law_stand_in_order();
    prove!(fits::grant(&sub.grant()));
    prove!(fits::actor(&content.parent));
    prove!(fits::progress(&content.progress));
    let _ = fits::task(&content.task);
    let _ = content.next.number();
}

/// What the type of a frame sees to. Does nothing.
fn law_frame_is_typed(frame: &Frame)
    ensures { FrameTyped frame.now }
{
    prove!(fits::place(&frame.place));
    prove!(are_slots(frame.slots.as_slice()));
}

/// What the type of a record sees to. Does nothing.
fn law_record_is_typed(kept: &Record)
    ensures { RecordTyped kept.now }
{
    prove!(fits::grant(&kept.grant));
    prove!(fits::worker(&kept.holder));
    let _ = fits::task(&kept.task);
}

/// Whether each can be written as a slot: always.
fn are_slots(slots: &[Option<i64>]) -> bool
    ensures fits { result ≡ list_all field.slot.fits slots.now }
    ensures always { IsTrue result }
{
    slots.iter().all(is_slot)
}

/// Whether it can be written as a slot: always.
#[tactic(auto, unfolding(packet_fields::specs::Fields::slot, packet_fields::specs::Fields::outcome))]
fn is_slot(slot: &Option<i64>) -> bool
    ensures fits { result ≡ field.slot.fits slot.now }
    ensures always { IsTrue result }
{
    match slot {
        None => true,
        Some(number) => fits::outcome(&Outcome::Value(*number)),
    }
}
