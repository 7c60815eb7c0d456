ghost use Rattle.std.specs.Prelude.{◌≡◌, ℕ, Ok, Err, ◌++◌, ◌+◌, ◌<◌, ◌≤◌, [], ◌∷◌, All, IfOk, IfSome, IfNone, OnErr, Some, length, map, vec_len, option_copied};
ghost use Rattle.std.specs.List.{range_with_len};
ghost use Rattle.kind_check.specs.Total.{Takes};
ghost use Rattle.world_steps.specs.Calls.{IsOfJob, IsWholeOfJob};
ghost use Rattle.turn_lock.specs.Histories.{own};
ghost use Rattle.chronicle.specs.Deliveries.{delivery, entered, told_in};
ghost use Rattle.chronicle.specs.declared.chronicle.Arrived.{Arrived as ArrivedOf};
ghost use Rattle.chronicle.specs.declared.chronicle.Delivery.TheVariants.{Came, Looked};
ghost use Rattle.chronicle.specs.declared.kept.Committed.{Committed as CommittedOf};
ghost use Rattle.chronicle.specs.History.{IsSafeHistory, TellsMeaning, TellsStep, actor_of, entry, actor_number};
ghost use Rattle.chronicle.specs.Kept.{IsLeftBy};
ghost use Rattle.chronicle.specs.Seats.{IsBlankSeatIn, IsSeatIn, TellsOf, first_last, seat_of};

use crate::beginning::Beginning;
use crate::kept::{Committed, Kept};
use crate::seat::ActorSeat;
use crate::sent::Sent;
use crate::trace::Trace;
use body_eval::Done;
use disk::{MemDisk, SteadyDisk};
use event_script::{Event, FrameOf, HouseEvent, NodeEvent, NodePlace};
use grain::takes_its_numbers;
use level_deques::Posts;
use node_core::Work;
use serial_meaning::{Job, Whole};
use std::alloc::{AllocError, Global};
use std::marker::Model;
use std::sync::Wait;
use turn_lock::{LockSeat, TurnLock};
use world_steps::{FirstDisk, NoMemory};

/// The number of the kind Roster, which stands behind the first three bytes of a packet.
const ROSTER: u8 = 2;

/// The number of the kind Save, at the same place.
const SAVE: u8 = 14;

/// For whom a packet is: the clearinghouse, in whichever epoch; the same, where it is a Save; or
/// the worker of a start word.
#[derive(Clone, Copy, Debug, PartialEq, Eq)]
pub enum Receiver {
    Clearinghouse,
    Saves,
    Worker(u64),
}

impl Receiver {
    /// For whom the packet of these bytes is.
    pub(crate) fn of(bytes: &[u8]) -> Receiver {
        let address = addressee(bytes);
        if address < 1 << 63 {
            Receiver::Worker(address)
        } else if bytes.get(3) == Some(&SAVE) {
            Receiver::Saves
        } else {
            Receiver::Clearinghouse
        }
    }
}

/// A packet that was sent: its number from 0 among all that were, and its bytes if it is a Roster.
#[derive(Drop)]
pub struct Arrived {
    pub index: u64,
    pub roster: Option<Vec<u8>>,
}

/// What is told of an event that was committed, and a ready frame that was found right behind it,
/// in the same turn of the lock.
#[derive(Drop)]
pub struct Continued {
    pub committed: Committed,
    pub next: Option<Work>,
}

/// What a look for a packet came to: one that came, with what was told of it, or how many packets
/// were looked at in all.
#[derive(Drop)]
pub enum Delivery {
    Came(Arrived, Committed),
    Looked(u64),
}

/// What a chronicle comes to: what was committed, the disk of its clearinghouse, and whether an
/// event found no memory.
#[derive(Drop)]
pub struct Finished<D: Drop> {
    pub trace: Trace,
    pub disk: D,
    pub out_of_memory: bool,
}

/// Where a ready frame is looked for: at the node of a place, besides these frames.
#[derive(Clone, Copy)]
pub struct Wanted<'f> {
    pub alloc: Global,
    pub place: NodePlace,
    pub besides: &'f [FrameOf],
}

/// A world under a lock, with the history that led to it. Threads share it by reference, each with
/// the seats of its actors. Contracts see which chronicle it is, how many actors have a seat, the
/// job, and the disk with which its history begins.
#[derive(Drop)]
pub struct Chronicle<'a, D: SteadyDisk + Drop = MemDisk> {
    job: &'a Job,
    lock: TurnLock<Kept<'a, D>>,
    sent: Sent,
}

impl<'a, D: SteadyDisk + Drop> Model for Chronicle<'a, D> {
    ghost use Rattle.std.specs.Prelude.{◌≡◌};
    ghost use Rattle.task_tree.specs.Codes.{program_codes};
    ghost use Rattle.chronicle.specs.Kept.{IsLeftBy};
    ghost use Rattle.chronicle.specs.Seats.{ChronicleOf, chronicle_of};

    ghost Value = { ChronicleOf };

    ghost coded = { Prim.hlevel program_codes };

    ghost view = { λ c. chronicle_of c.lock };

    ghost invariant = { λ c. c.lock.fixed.job ≡ c.job.now };
}

impl<'a, D: SteadyDisk + Drop> Chronicle<'a, D> {
    /// A chronicle of a job's first world over the disk with which its run begins, with no history,
    /// and a seat for each actor: those of the nodes 0 to `nodes - 1` by rising place, and the
    /// clearinghouse's last. Refused only when out of memory (E9).
    #[tactic(auto, using(crate::proofs::Seats::all_blank, crate::proofs::Seats::in_order))]
    pub fn new(
        alloc: Global,
        first: FirstDisk<'a, D>,
        nodes: u8,
    ) -> Result<(Chronicle<'a, D>, Vec<ActorSeat<'a, D>>), NoMemory>
        requires { (0 < nodes) × (nodes ≤ 64) }
        ensures chronicle { IfOk result (λ r. (r.0.job ≡ first.entry.job) × (r.0.actors ≡ nodes + 1)) }
        ensures first { IfOk result (λ r. r.0.first ≡ D.device first.entry.disk) }
        ensures seats { IfOk result (λ r. All (IsBlankSeatIn r.0) r.1.items) }
        ensures order { IfOk result (λ r. map (λ s. s.actor) r.1.items ≡ range_with_len 1 nodes ++ 0 ∷ []) }
    {
        let job = first.job();
        let began = Beginning::of(&first);
        let kept = Kept::new(alloc, first)?;
        let actors = usize::from(nodes) + 1;
        let (lock, bare) = TurnLock::new(alloc, kept, actors, began)?;
        let seats = by_place(alloc, bare)?;
        let sent = Sent::new(alloc)?;
        Ok((Chronicle { job, lock, sent }, seats))
    }

    /// An event of the seat's actor is carried out, and becomes the seat's next entry. What it
    /// tells is of a step of the world that was under the lock. Where what is saved on the disk
    /// agrees with which the history begins, an outcome that it tells is the job's meaning. E9
    /// where there is no memory, and from then on; the seat is as it was then.
    pub fn commit<R: Wait>(
        &self,
        rt: &R,
        seat: &mut ActorSeat<'a, D>,
        event: Event,
    ) -> Result<Committed, NoMemory>
        requires seat { IsSeatIn self.now seat.old }
        requires owns { actor_number event ≡ seat.old.actor }
        ensures same { IsSeatIn self.now seat.new × (seat.new.actor ≡ seat.old.actor) }
        ensures entry { IfOk result (λ c. seat.new.entries ≡ seat.old.entries ++ entry event c.told ∷ []) }
        ensures step { IfOk result (λ c. TellsStep self.now.job event c.told) }
        ensures outcome { IfOk result (λ c. TellsMeaning self.now.job self.now.first c.told) }
        ensures err { OnErr result (seat.new ≡ seat.old) }
    {
        let continued = self.commit_evaluated(rt, seat, event, None, None, None)?;
        Ok(continued.committed)
    }

    /// As `commit`, with what was evaluated of the job's program before, if anything was. An Exec
    /// uses a turn that is the ready frame's own, of its thread on its numbers; and a Whole a task
    /// that was evaluated whole, of its thread on its numbers, in the room below its place and in
    /// no more turns. Else it is put aside, and evaluated in the step. Right behind it, in the same
    /// turn of the lock, a ready frame is looked for as by `ready`, if one is wanted.
    pub fn commit_evaluated<R: Wait>(
        &self,
        rt: &R,
        seat: &mut ActorSeat<'a, D>,
        event: Event,
        turn: Option<&Done>,
        whole: Option<&Whole>,
        wanted: Option<&Wanted<'_>>,
    ) -> Result<Continued, NoMemory>
        requires seat { IsSeatIn self.now seat.old }
        requires owns { actor_number event ≡ seat.old.actor }
        requires turn { IsOfJob self.now.job (option_copied turn) }
        requires whole { IsWholeOfJob self.now.job (option_copied whole) }
        ensures same { IsSeatIn self.now seat.new × (seat.new.actor ≡ seat.old.actor) }
        ensures entry { IfOk result (λ c. seat.new.entries ≡ seat.old.entries ++ entry event c.committed.told ∷ []) }
        ensures step { IfOk result (λ c. TellsStep self.now.job event c.committed.told) }
        ensures outcome { IfOk result (λ c. TellsMeaning self.now.job self.now.first c.committed.told) }
        ensures fits { IfOk result (λ c. IfSome c.next (λ w. Takes self.now.job.program w.thread (length w.numbers))) }
        ensures err { OnErr result (seat.new ≡ seat.old) }
    {
        let mut kept = self.lock.take(rt, &mut seat.seat);
        let answer = kept.enter(seat, event, turn, whole);
        let next = match wanted {
            Some(wanted) => wanted.work_in(self.job, &kept),
            None => None,
        };
        self.sent.note(&kept);
        self.lock.put(&mut seat.seat, kept);
        let committed = answer?;
        Ok(Continued { committed, next })
    }

    /// The first packet from the one of a number on that is addressed to a receiver comes to the
    /// node of a place, or where there is no place to the clearinghouse, in the turn of the lock in
    /// which it is found: its delivery is committed, as by `commit`. Where none is found nothing is
    /// committed, and it is told how many packets were looked at: as by `packet_for`, or those
    /// before a Roster whose bytes find no memory.
    pub fn commit_delivery<R: Wait>(
        &self,
        rt: &R,
        alloc: Global,
        seat: &mut ActorSeat<'a, D>,
        from: u64,
        receiver: Receiver,
        place: Option<NodePlace>,
    ) -> Result<Delivery, NoMemory>
        requires seat { IsSeatIn self.now seat.old }
        requires owns { actor_number (delivery place 0) ≡ seat.old.actor }
        ensures same { IsSeatIn self.now seat.new × (seat.new.actor ≡ seat.old.actor) }
        ensures entry { IfOk result (λ d. seat.new.entries ≡ seat.old.entries ++ entered place d) }
        ensures step { IfOk result (λ d. IfSome (told_in place d) (λ e. TellsStep self.now.job e.event e.told)) }
        ensures outcome { IfOk result (λ d. IfSome (told_in place d)
            (λ e. TellsMeaning self.now.job self.now.first e.told)) }
        ensures err { OnErr result (seat.new ≡ seat.old) }
    {
        let mut kept = self.lock.take(rt, &mut seat.seat);
        let found = find_packet(alloc, &kept, from, receiver);
        let answer = deliver(&mut kept, seat, place, found);
        self.sent.note(&kept);
        self.lock.put(&mut seat.seat, kept);
        answer
    }

    /// The first ready frame of the node of a place that isn't among these, from the deepest level
    /// on and in a level the newest first; none where there is none, or when out of memory. It is a
    /// hint: the next event may find the world changed. Its thread takes its numbers, so that its
    /// turn can be evaluated outside the lock.
    pub fn ready<R: Wait>(
        &self,
        rt: &R,
        alloc: Global,
        seat: &mut ActorSeat<'a, D>,
        place: NodePlace,
        besides: &[FrameOf],
    ) -> Option<Work>
        requires seat { IsSeatIn self.now seat.old }
        ensures same { seat.new ≡ seat.old }
        ensures fits { IfSome result (λ w. Takes self.now.job.program w.thread (length w.numbers)) }
    {
        let wanted = Wanted {
            alloc,
            place,
            besides,
        };
        let kept = self.lock.take(rt, &mut seat.seat);
        let work = wanted.work_in(self.job, &kept);
        self.lock.put(&mut seat.seat, kept);
        work
    }

    /// The number of the first packet from one on that is addressed to a receiver. Else how many
    /// packets were looked at: all that were sent. A hint. It takes no memory.
    pub fn packet_for<R: Wait>(
        &self,
        rt: &R,
        seat: &mut ActorSeat<'a, D>,
        from: u64,
        receiver: Receiver,
    ) -> Result<u64, u64>
        requires seat { IsSeatIn self.now seat.old }
        ensures same { seat.new ≡ seat.old }
    {
        let kept = self.lock.take(rt, &mut seat.seat);
        let found = first_for(&kept, from, receiver);
        self.lock.put(&mut seat.seat, kept);
        found
    }

    /// The number of the first Save from the packet of a number on, and how many steps its place
    /// has. Else how many packets were looked at: all that were sent. A hint. It takes no memory.
    pub fn save_for<R: Wait>(
        &self,
        rt: &R,
        seat: &mut ActorSeat<'a, D>,
        from: u64,
    ) -> Result<(u64, u8), u64>
        requires { IsSeatIn self.now seat.old }
        ensures same { seat.new ≡ seat.old }
    {
        let kept = self.lock.take(rt, &mut seat.seat);
        let found = first_save(&kept, from);
        self.lock.put(&mut seat.seat, kept);
        found
    }

    /// The job.
    pub fn job(&self) -> &'a Job
        ensures { result.now ≡ self.now.job }
    {
        self.job
    }

    /// How many packets were sent, as far as is known without the lock. A hint, which may lag
    /// behind.
    pub fn sent(&self) -> u64 {
        self.sent.all()
    }

    /// How many packets were sent up to the last one that may be addressed to a receiver, as far as
    /// is known without the lock. Who reads `sent` first and then this: from this number on, and
    /// below that one, no packet is addressed to the receiver. A hint, which may lag behind.
    pub fn sent_to(&self, receiver: Receiver) -> u64 {
        self.sent.to(receiver)
    }

    /// Ends the chronicle, once all seats are back, and gives the disk back. What was committed is
    /// a safe history of the job over the disk with which it began, which has of each actor just
    /// what its seat has, in the same order, and nothing else; the disk is the one that it leaves.
    /// None only where a seat is missing. It takes no memory.
    pub fn finish(self, mut seats: Vec<ActorSeat<'a, D>>) -> Option<Finished<D>>
        requires own { All (IsSeatIn self) seats.items }
        ensures run { IfSome result (λ r. IsSafeHistory self.entry.job self.entry.first r.trace) }
        ensures left { IfSome result (λ r. IsLeftBy self.entry.job self.entry.first r.trace r.out_of_memory (D.device r.disk)) }
        ensures told { IfSome result (λ r. TellsOf seats.entry.items r.trace) }
        ensures missing { IfNone result (vec_len seats.entry < self.entry.actors) }
    {
        let Chronicle {
            job: _,
            lock,
            sent: _,
        } = self;
        if seats.len() < lock.actors() {
            return None;
        }
        let mut all = lock.gathering();
        while let Some(seat) = seats.pop() {
            let ActorSeat { seat } = seat;
            all.add(&lock, seat);
        }
        let kept = lock.close(all);
        let counts = *kept.world().counts();
        let (entries, disk, out_of_memory) = kept.into_parts();
        Some(Finished {
            trace: Trace { entries, counts },
            disk,
            out_of_memory,
        })
    }
}

/// The seats of actors, of which the first one goes behind the others.
fn by_place<'a, D: SteadyDisk + Drop>(
    alloc: Global,
    mut bare: Vec<LockSeat<Kept<'a, D>>>,
) -> Result<Vec<ActorSeat<'a, D>>, AllocError>
    requires { 0 < vec_len bare }
    ensures { IfOk result (λ seats. seats.items ≡ map seat_of (first_last bare.entry.items)) }
{
    let mut seats = Vec::with_capacity(alloc, bare.len())?;
    let first = bare.remove(0);
    for seat in bare {
        seats.push(ActorSeat { seat })?;
    }
    seats.push(ActorSeat { seat: first })?;
    Ok(seats)
}

/// A packet that was found comes, as the next entry of the history; where none was found nothing
/// does.
fn deliver<'a, D: SteadyDisk + Drop>(
    kept: &mut Kept<'a, D>,
    seat: &mut ActorSeat<'a, D>,
    place: Option<NodePlace>,
    found: Result<Arrived, u64>,
) -> Result<Delivery, NoMemory>
    requires seat { seat.old.taken ≡ Some kept.old.entries }
    requires owns { actor_number (delivery place 0) ≡ seat.old.actor }
    ensures seat { seat.new ≡ seat.old }
    ensures own { own actor_of seat.old.actor kept.old.entries ≡ seat.old.entries }
    ensures job { kept.new.on.job ≡ kept.old.on.job }
    ensures first { kept.new.first ≡ kept.old.first }
    ensures history { IfOk result (λ d. kept.new.entries ≡ kept.old.entries ++ entered place d) }
    ensures step { IfOk result (λ d. IfSome (told_in place d) (λ e. TellsStep kept.old.on.job e.event e.told)) }
    ensures outcome { IfOk result (λ d. IfSome (told_in place d)
        (λ e. TellsMeaning kept.old.on.job kept.old.first e.told)) }
    ensures err { OnErr result (kept.new.entries ≡ kept.old.entries) }

    // A packet that was found comes, or there is no memory for it; where none was found nothing
    // changes.
    ensures came { (a : ArrivedOf) → found ≡ Ok a → IfOk result (λ d. (c : CommittedOf) × (d ≡ Came a c)) }
    ensures none { (n : ℕ) → found ≡ Err n → (result ≡ Ok (Looked n)) × (kept.new ≡ kept.old) }
{
    match found {
        Ok(arrived) => {
            let committed = kept.enter(seat, delivery_to(place, arrived.index), None, None)?;
            Ok(Delivery::Came(arrived, committed))
        }
        Err(seen) => {
            let _ = seat.actor();
            Ok(Delivery::Looked(seen))
        }
    }
}

/// The delivery of a packet to the node of a place, or where there is no place to the
/// clearinghouse.
pub fn delivery_to(place: Option<NodePlace>, index: u64) -> Event
    ensures same { result ≡ delivery place index }
    ensures actor { actor_number result ≡ actor_number (delivery place 0) }
{
    match place {
        Some(place) => Event::AtNode(place, NodeEvent::Deliver(index)),
        None => Event::AtHouse(HouseEvent::Deliver(index)),
    }
}

impl Wanted<'_> {
    /// The first ready frame that is wanted, if its thread takes its numbers. It is found by its
    /// name, and only then looked at.
    fn work_in<D: SteadyDisk + Drop>(&self, job: &Job, kept: &Kept<'_, D>) -> Option<Work>
        ensures { IfSome result (λ w. Takes job.now.program w.thread (length w.numbers)) }
    {
        let world = kept.world();
        let index = self.index_in(world.node(self.place)?.parts().posts())?;
        let work = world.ready(self.alloc, self.place, index).ok().flatten()?;
        own_work(job, work)
    }

    /// How many ready frames come before the first one that is wanted. Takes no memory.
    fn index_in(&self, posts: &Posts) -> Option<usize> {
        for index in 0..=self.besides.len() {
            let post = posts.at(index)?;
            if !is_among(self.besides, FrameOf::of(post.grant, post.frame)) {
                return Some(index);
            }
        }
        None
    }
}

/// A ready frame, if its thread takes its numbers.
fn own_work(job: &Job, work: Work) -> Option<Work>
    ensures { IfSome result (λ w. Takes job.now.program w.thread (length w.numbers)) }
{
    if takes_its_numbers(job.checked(), &work) {
        Some(work)
    } else {
        None
    }
}

/// Whether a frame is among these.
fn is_among(frames: &[FrameOf], frame: FrameOf) -> bool {
    frames.iter().any(|other| *other == frame)
}

/// The first packet from the one of a number on that is addressed to a receiver, with its bytes if
/// it is a Roster. Else how many were looked at: all, or those before a Roster whose bytes find no
/// memory.
fn find_packet<D: SteadyDisk + Drop>(
    alloc: Global,
    kept: &Kept<'_, D>,
    from: u64,
    receiver: Receiver,
) -> Result<Arrived, u64> {
    let index = first_for(kept, from, receiver)?;
    match roster_at(alloc, kept, index) {
        Ok(roster) => Ok(Arrived { index, roster }),
        Err(_) => Err(index),
    }
}

/// The number of the first packet from one on that is addressed to a receiver, or how many were
/// sent.
fn first_for<D: SteadyDisk + Drop>(
    kept: &Kept<'_, D>,
    from: u64,
    receiver: Receiver,
) -> Result<u64, u64> {
    let world = kept.world();
    let sent = world.packets() as u64;
    for index in from..sent {
        let Some(packet) = world.packet(index) else {
            return Err(index);
        };
        if Receiver::of(packet.as_bytes()) == receiver {
            return Ok(index);
        }
    }
    Err(sent)
}

/// The number of the first Save from one on, and how many steps its place has: that many stand
/// behind the word of who sent it, which is the fourth one. Else how many packets were sent.
fn first_save<D: SteadyDisk + Drop>(kept: &Kept<'_, D>, from: u64) -> Result<(u64, u8), u64> {
    let index = first_for(kept, from, Receiver::Saves)?;
    let steps = match kept.world().packet(index) {
        Some(packet) => packet.as_bytes().get(29).copied(),
        None => None,
    };
    Ok((index, steps.unwrap_or(u8::MAX)))
}

/// The bytes of the packet of a number, if it is a Roster.
fn roster_at<D: SteadyDisk + Drop>(
    alloc: Global,
    kept: &Kept<'_, D>,
    index: u64,
) -> Result<Option<Vec<u8>>, AllocError> {
    let Some(packet) = kept.world().packet(index) else {
        return Ok(None);
    };
    let bytes = packet.as_bytes();
    if bytes.get(3) != Some(&ROSTER) {
        return Ok(None);
    }
    Ok(Some(Vec::from_slice(alloc, bytes)?))
}

/// The word behind the first twelve bytes.
fn addressee(bytes: &[u8]) -> u64 {
    let mut word = 0;
    for byte in bytes.iter().skip(12).take(8) {
        word = (word << 8) | u64::from(*byte);
    }
    word
}
