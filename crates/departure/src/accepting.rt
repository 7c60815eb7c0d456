ghost use Rattle.std.specs.Prelude.{◌≡◌, ◌<◌, ◌&&◌, ◌||◌, ◌++◌, not, nat_eq, IfOk, IsPermutation, IfSome, IsTrue, MatchBool, MatchOption, OnOk, is_some, map};
ghost use Rattle.std.specs.List.{list_all};
ghost use Rattle.ids.specs.Named.{item_in};
ghost use Rattle.ids.specs.Naming.{name_of_frame, name_of_grant, name_of_record};
ghost use Rattle.ids.specs.Names.{Grant as NameOfGrant};
ghost use Rattle.ids.specs.Ordered.{AreInOrder};
ghost use Rattle.ids.specs.declared.returns.Return.TheVariants as returned;
ghost use Rattle.kind_check.specs.Total.{arity_of};
ghost use Rattle.victim_records.specs.Records.{record_in};
ghost use Rattle.sub_rules.specs.Debts.{IsSound};
ghost use Rattle.subcomputation.specs.Subs.{host_in};
ghost use Rattle.subcomputation.specs.Fitting as fitting;
ghost use Rattle.codec.specs.Table as table;
ghost use Rattle.departure.specs.Links as links;
ghost use Rattle.departure.specs.Offers.{accepted, offered};

use codec::Offer;
use frames::Frames;
use ids::{
    Frame, FrameNo, GrantId, Incarnation, Listed, Named, Progress, Record, Return, SortedMap,
};
use kind_check::Checked;
use std::alloc::{AllocError, Global};
use std::marker::Model;
use sub_rules::Content;
use subcomputation::Sub;
use victim_records::Records;

/// What an Offer of a packet hands on, where it fits the program and the node that it comes to,
/// which holds these subcomputations; none where it doesn't; refused only when out of memory.
///
/// It fits where the threads of its task, of its frames and of its records' tasks are there and
/// take as many numbers as these have numbers or slots. Unless it is finished, it also has to fit
/// together and be foreign: no two of its frames and records have one number; each value that is
/// awaited, that of the whole and one for each empty slot, is owed once, by a frame or a record,
/// and nothing else is owed; and no grant of its records was minted at this node, nor does a
/// subcomputation here have a record of it. With n frames, records and slots in it, that takes time
/// n log n; the grants of the records here are put in order once more.
pub fn accept_offer(
    alloc: Global,
    checked: &Checked,
    own: Incarnation,
    subs: &SortedMap<Sub>,
    offer: Offer,
) -> Result<Option<Sub>, AllocError>
    requires { IsTrue (table.offer.fits offer) }
    ensures accepted { IfOk result (λ o. o ≡ accepted checked.now own subs.now offer) }
    ensures fits { IfOk result (λ o. IfSome o (λ s. fitting.Fits checked.now s.content)) }
{
    if !fits_program(checked, &offer) {
        return Ok(None);
    }
    if !fits_node(alloc, own, subs, &offer)? {
        return Ok(None);
    }
    Ok(Some(sub_of(alloc, offer)?))
}

/// Whether the threads of the task, of the frames and of the records' tasks are there and take as
/// many numbers as these have.
fn fits_program(checked: &Checked, offer: &Offer) -> bool
    ensures { result ≡ (fitting.task_fits checked.now offer.now.task && list_all
        (fitting.frame_fits checked.now) offer.now.frames && list_all (fitting.record_fits checked.now)
        offer.now.records) }
{
    takes(checked, offer.task.thread, offer.task.numbers.len())
        && all_frames_fit(checked, offer.frames.as_slice())
        && all_records_fit(checked, offer.records.as_slice())
}

/// Whether each frame's thread takes as many numbers as the frame has slots.
fn all_frames_fit(checked: &Checked, frames: &[Frame]) -> bool
    ensures { result ≡ list_all (fitting.frame_fits checked.now) frames.now }
{
    (frames.iter()).all(|frame| takes(checked, frame.thread, frame.slots.len()))
}

/// Whether the thread of each record's task takes as many numbers as the task has.
fn all_records_fit(checked: &Checked, records: &[Record]) -> bool
    ensures { result ≡ list_all (fitting.record_fits checked.now) records.now }
{
    (records.iter()).all(|record| takes(checked, record.task.thread, record.task.numbers.len()))
}

/// Whether a thread is there and takes so many numbers.
fn takes(checked: &Checked, thread: u8, count: usize) -> bool
    ensures { result ≡ fitting.is_arity (arity_of checked.now thread) count }
{
    usize::from(thread) < checked.threads()
        && checked.program().thread(thread).numbers.len() == count
}

/// Whether an Offer fits the node that it comes to, which holds these subcomputations.
fn fits_node(
    alloc: Global,
    own: Incarnation,
    subs: &SortedMap<Sub>,
    offer: &Offer,
) -> Result<bool, AllocError>
    ensures { IfOk result (λ fits. fits ≡ fitting.progress_fits own subs.now
        (offered offer.now).content offer.now.progress) }
{
    match offer.progress {
        Progress::Finished(_) => Ok(true),
        Progress::Active => {
            if !is_linked(alloc, offer)? {
                return Ok(false);
            }
            let held = held_grants(alloc, subs)?;
            Ok(all_foreign(own, &held, offer.records.as_slice()))
        }
    }
}

/// A name by which numbers, places of values and grants are compared. Contracts see the pair.
#[derive(Clone, Copy)]
struct Mark {
    name: (u64, u64),
}

impl Model for Mark {
    ghost use Rattle.ids.specs.Named.{Name};

    ghost Value = { Name };

    ghost view = { λ m. m.name };

    ghost inverse = { λ n. record { name = n } };
}

impl Named for Mark {
    ghost name_of = { links.itself };

    fn name(&self) -> (u64, u64) {
        self.name
    }
}

impl Mark {
    /// A number of a frame.
    fn number(number: FrameNo) -> Mark
        ensures { result ≡ links.name_of_number number }
    {
        Mark {
            name: (u64::from(number.number()), 0),
        }
    }

    /// Where a value goes.
    fn returns(returns: Return) -> Mark
        ensures { result ≡ links.name_of_return returns }
    {
        match returns {
            Return::Whole => Mark { name: (0, 0) },
            Return::Local(frame, slot) => Mark::slot(frame, usize::from(slot)),
        }
    }

    /// A slot of a frame.
    fn slot(frame: FrameNo, slot: usize) -> Mark
        ensures { result ≡ links.name_of_return (returned.Local frame slot) }
    {
        Mark {
            name: (u64::from(frame.number()) + 1, slot as u64),
        }
    }

    /// A grant.
    fn grant(grant: GrantId) -> Mark
        ensures { result ≡ name_of_grant grant }
    {
        Mark {
            name: (grant.minter().word(), grant.number()),
        }
    }
}

/// Whether the numbers of frames and records differ, and each value that is awaited is owed once
/// and nothing else is owed.
fn is_linked(alloc: Global, offer: &Offer) -> Result<bool, AllocError>
    ensures { IfOk result (λ linked. linked ≡ fitting.is_linked (offered offer.now).content) }
{
    let numbers = numbers(alloc, offer)?;
    if !are_same(alloc, numbers.as_slice(), numbers.as_slice())? {
        return Ok(false);
    }
    let awaited = awaited(alloc, offer.frames.as_slice())?;
    let owed = owed(alloc, offer)?;
    are_same(alloc, awaited.as_slice(), owed.as_slice())
}

/// The numbers of frames and of records.
fn numbers(alloc: Global, offer: &Offer) -> Result<Vec<Mark>, AllocError>
    ensures { IfOk result (λ numbers. numbers.items ≡ map (λ f. links.name_of_number f.number) offer.now.frames
        ++ map (λ r. links.name_of_number r.frame) offer.now.records) }
{
    let frames = (offer.frames.as_slice().iter()).map(|frame| Mark::number(frame.number));
    let records = (offer.records.as_slice().iter()).map(|record| Mark::number(record.frame));
    frames.chain(records).collect(alloc)
}

/// Where the values of frames and of records go.
fn owed(alloc: Global, offer: &Offer) -> Result<Vec<Mark>, AllocError>
    ensures { IfOk result (λ owed. owed.items ≡ map (λ f. links.name_of_return f.returns) offer.now.frames
        ++ map (λ r. links.name_of_return r.returns) offer.now.records) }
{
    let frames = (offer.frames.as_slice().iter()).map(|frame| Mark::returns(frame.returns));
    let records = (offer.records.as_slice().iter()).map(|record| Mark::returns(record.returns));
    frames.chain(records).collect(alloc)
}

/// Where values are awaited: that of the whole, and one at each empty slot.
fn awaited(alloc: Global, frames: &[Frame]) -> Result<Listed<Mark>, AllocError>
    ensures { IfOk result (λ awaited. awaited ≡ map links.name_of_return (fitting.awaited_in frames.now)) }
{
    let mut awaited = Listed::new(alloc);
    awaited.push(Mark::returns(Return::Whole))?;
    for frame in frames {
        add_empty(&mut awaited, frame)?;
    }
    Ok(awaited)
}

/// Adds the places of a frame's empty slots.
fn add_empty(awaited: &mut Listed<Mark>, frame: &Frame) -> Result<(), AllocError>
    ensures { OnOk result (awaited.new ≡ awaited.old ++ map links.name_of_return
        (fitting.empty_from frame.now.number 0 frame.now.slots)) }
{
    for (slot, value) in frame.slots.as_slice().iter().enumerate() {
        if value.is_none() {
            awaited.push(Mark::slot(frame.number, slot))?;
        }
    }
    Ok(())
}

/// Whether two lists have the same names, each once.
fn are_same(alloc: Global, left: &[Mark], right: &[Mark]) -> Result<bool, AllocError>
    ensures { IfOk result (λ same. same ≡ fitting.same_once links.same_name left.now right.now) }
{
    let left = sorted(alloc, left)?;
    let right = sorted(alloc, right)?;
    match kept(alloc, left.as_slice())? {
        Some(mut rest) => Ok(take_each(&mut rest, right.as_slice()) && rest.len() == 0),
        None => Ok(false),
    }
}

/// These names, rising: so they are put behind the others, and taken from the end of what is left,
/// where no other has to move.
fn sorted(alloc: Global, names: &[Mark]) -> Result<Vec<Mark>, AllocError>
    ensures { IfOk result (λ sorted. IsPermutation names.now sorted.items) }
{
    let mut sorted: Vec<Mark> = names.iter().copied().collect(alloc)?;
    sorted.sort_unstable_by_key(|mark| mark.name);
    Ok(sorted)
}

/// These names in a map; none where one of them stands there twice.
fn kept(alloc: Global, names: &[Mark]) -> Result<Option<SortedMap<Mark>>, AllocError>
    ensures { IfOk result (λ o. MatchOption o (links.HasTwice names.now) (λ kept. links.AreKept names.now kept)) }
{
    let mut kept = SortedMap::new(alloc);
    for name in names {
        if kept.get(name.name()).is_some() {
            return Ok(None);
        }
        kept.put(*name)?;
    }
    Ok(Some(kept))
}

/// Takes names away, from the last one on, up to the first that isn't there any more; whether all
/// of them were there.
fn take_each(rest: &mut SortedMap<Mark>, names: &[Mark]) -> bool
    ensures { MatchBool result (links.AreTaken names.now rest.old rest.new) (links.HasMore names.now rest.old) }
{
    let mut left = names.len();
    while 0 < left {
        left -= 1;
        rest.law_stand_in_order();
        if rest.take(names[left].name()).is_none() {
            return false;
        }
    }
    true
}

/// The grants of which subcomputations have open records.
fn held_grants(alloc: Global, subs: &SortedMap<Sub>) -> Result<SortedMap<Mark>, AllocError>
    ensures { IfOk result (λ held. (g : NameOfGrant) → is_some (item_in links.itself (name_of_grant g) held)
        ≡ is_some (host_in g subs.now)) }
{
    let mut held = SortedMap::new(alloc);
    for sub in subs.values() {
        add_grants(&mut held, &sub.content().records)?;
    }
    Ok(held)
}

/// Adds the grants of records.
fn add_grants(held: &mut SortedMap<Mark>, records: &Records) -> Result<(), AllocError>
    ensures { OnOk result ((g : NameOfGrant) → is_some (item_in links.itself (name_of_grant g) held.new)
        ≡ (is_some (item_in links.itself (name_of_grant g) held.old) || is_some (record_in g records.now))) }
{
    for record in records.values() {
        held.put(Mark::grant(record.grant))?;
    }
    Ok(())
}

/// Whether no record's grant was minted at the node or is among those of which it has open records.
fn all_foreign(own: Incarnation, held: &SortedMap<Mark>, records: &[Record]) -> bool
    ensures { result ≡ list_all (λ r. not (nat_eq r.grant.minter own) && not
        (is_some (item_in links.itself (name_of_grant r.grant) held.now))) records.now }
{
    (records.iter()).all(|record| is_foreign(own, held, record.grant))
}

/// Whether a grant wasn't minted at the node and isn't among those of which it has open records.
fn is_foreign(own: Incarnation, held: &SortedMap<Mark>, grant: GrantId) -> bool
    ensures { result ≡ (not (nat_eq grant.minter own) && not
        (is_some (item_in links.itself (name_of_grant grant) held.now))) }
{
    grant.minter().word() != own.word() && held.get(Mark::grant(grant).name()).is_none()
}

/// The subcomputation that an Offer hands on.
fn sub_of(alloc: Global, offer: Offer) -> Result<Sub, AllocError>
    requires frames { AreInOrder name_of_frame offer.frames }
    requires records { AreInOrder name_of_record offer.records }
    requires sound { IsSound (offered offer).content }
    requires begun { 0 < offer.next }
    ensures { IfOk result (λ s. s ≡ offered offer) }
{
    let content = Content {
        parent: offer.parent,
        progress: offer.progress,
        task: offer.task,
        next: offer.next,
        frames: frames_of(alloc, offer.frames.into_vec())?,
        records: records_of(alloc, offer.records.into_vec())?,
    };
    Ok(Sub::of(alloc, offer.grant, offer.hop, content))
}

/// Frames that stand by rising number.
fn frames_of(alloc: Global, listed: Vec<Frame>) -> Result<Frames, AllocError>
    requires { AreInOrder name_of_frame listed.items }
    ensures { IfOk result (λ frames. frames ≡ listed.items) }
{
    let mut frames = Frames::new(alloc);
    for frame in listed {
        frames.insert(frame)?;
    }
    Ok(frames)
}

/// Records that stand by rising grant.
fn records_of(alloc: Global, listed: Vec<Record>) -> Result<Records, AllocError>
    requires { AreInOrder name_of_record listed.items }
    ensures { IfOk result (λ records. records ≡ listed.items) }
{
    let mut records = Records::new(alloc);
    for record in listed {
        records.open(record)?;
    }
    Ok(records)
}
