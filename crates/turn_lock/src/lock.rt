ghost use Rattle.std.specs.Prelude.{◌≡◌, ◌≢◌, ◌+◌, ◌<◌, ◌≤◌, [], ℕ, suc, All, IfErr, IfOk, None, Some, map, length, vec_len};
ghost use Rattle.std.specs.List.{range_with_len};
ghost use Rattle.turn_lock.specs.Claims.{empty_claims};
ghost use Rattle.turn_lock.specs.Histories.{own};
ghost use Rattle.turn_lock.specs.Seats.{GivesBack, IsBlankSeatOf, IsFreeSeatOf, IsSeatOf, IsWordOfAnother, Tells};

use crate::gathering::Gathering;
use crate::history::KeepsHistory;
use crate::law::{Came, Deal, Law, PutBack, SeatView, Terms, Took};
use crate::seat::LockSeat;
use atomic_table::{Seat, Table};
use crossbeam_utils::CachePadded;
use std::alloc::{AllocError, Global};
use std::hint::spin_loop;
use std::marker::Model;
use std::sync::Wait;
use std::sync::atomic::AtomicU64;
use std::sync::atomic::Ordering::SeqCst;

/// How often a thread looks for the value until it sleeps: for about as long as going to sleep and
/// being woken takes.
const SPINS: u64 = 200;

type Slots<T> = Table<
    Option<T>,
    SeatView<<T as KeepsHistory>::Entry, <T as KeepsHistory>::Fixed>,
    Terms<<T as KeepsHistory>::Fixed>,
    Law,
    Global,
>;

/// The lock, which threads share by reference; with it the value is dropped, where it is not out.
/// Contracts see which lock it is, how many actors have a seat, and what stays the same of its
/// value.
#[derive(Drop)]
pub struct TurnLock<T: KeepsHistory + Drop> {
    pub(crate) table: Slots<T>,
    actors: usize,
    // How many threads sleep until the value is there, or are about to. All actors read it, so it
    // has a cache line of its own.
    pub(crate) waiting: CachePadded<AtomicU64>,
}

impl<T: KeepsHistory + Drop> Model for TurnLock<T> {
    ghost use Rattle.std.specs.Prelude.{◌≡◌};
    ghost use Rattle.turn_lock.specs.Seats.{LockOf};

    ghost Value = { LockOf T.Fixed };

    ghost view = { λ l. record { table = l.table.shared.table_id; actors = l.actors; fixed = l.table.shared.key.fixed } };

    ghost invariant = { λ l. (l.table.shared.table_id.words ≡ 1) × (l.table.shared.table_id.slots ≡ 1) × (l.table.shared.key.actors ≡ l.actors) };
}

impl<T: KeepsHistory + Drop> TurnLock<T> {
    /// A lock round a value with no history, and a seat for each of the actors 0, 1, .., at most
    /// 1,024 of them, in this order. Refused where there is no memory for the lock or for the list
    /// of seats, and then the value is dropped.
    pub fn new(
        alloc: Global,
        kept: T,
        actors: usize,
        fixed: T::Fixed,
    ) -> Result<(TurnLock<T>, Vec<LockSeat<T>>), AllocError>
        requires few { actors ≤ 1024 }
        requires empty { T.history kept ≡ [] }
        requires fixed { T.fixed kept ≡ fixed }
        ensures lock { IfOk result (λ r. (r.0.actors ≡ actors) × (r.0.fixed ≡ fixed)) }
        ensures seats { IfOk result (λ r. (vec_len r.1 ≡ actors) × All (IsBlankSeatOf r.0) r.1.items) }
        ensures order { IfOk result (λ r. map (λ s. s.actor) r.1.items ≡ range_with_len 0 actors) }
    {
        let terms = Terms { actors, fixed };
        let mut slots = Vec::with_capacity(alloc, 1)?;
        slots.push_reserved(Some(kept));
        let Ok((table, mut all)) = Slots::new(alloc, &[0], slots, &terms) else {
            return Err(AllocError);
        };
        let mut dealt = Vec::with_capacity(alloc, actors)?;
        for _ in 0..actors {
            dealt.push(deal(&table, &mut all, dealt.len() as u64))?;
        }
        let waiting = CachePadded::new(AtomicU64::new(0));
        Ok((
            TurnLock {
                table,
                actors,
                waiting,
            },
            dealt,
        ))
    }

    /// Takes the value out without waiting, if it is in the lock. Its history has of the seat's
    /// actor just the seat's entries. Else the answer is the actor that has the value, and nothing
    /// changes.
    pub fn try_take(&self, seat: &mut LockSeat<T>) -> Result<T, u64>
        requires seat { IsFreeSeatOf self.now seat.old }
        ensures taken { IfOk result (λ kept. seat.new ≡ record seat.old { taken = Some (T.history kept) }) }
        ensures own { IfOk result (λ kept. own T.actor_of seat.old.actor (T.history kept) ≡ seat.old.entries) }
        ensures fixed { IfOk result (λ kept. T.fixed kept ≡ self.now.fixed) }
        ensures refused { IfErr result (λ holder. seat.new ≡ seat.old) }
        ensures holder { IfErr result (λ holder. (holder < self.now.actors) × (holder ≢ seat.old.actor)) }
    {
        match self.attempt(seat) {
            Ok(kept) => Ok(kept),
            Err(word) => Err(word - 1),
        }
    }

    /// Takes the value out, and waits until it is in the lock. Its history has of the seat's actor
    /// just the seat's entries. Until the seat puts the value back, all others wait.
    pub fn take<R: Wait>(&self, rt: &R, seat: &mut LockSeat<T>) -> T
        requires seat { IsFreeSeatOf self.now seat.old }
        ensures taken { seat.new ≡ record seat.old { taken = Some (T.history result) } }
        ensures own { own T.actor_of seat.old.actor (T.history result) ≡ seat.old.entries }
        ensures fixed { T.fixed result ≡ self.now.fixed }
    {
        if let Ok(kept) = self.attempt(seat) {
            return kept;
        }
        self.spin();
        let _ = self.waiting.fetch_add(1, SeqCst);
        let kept = self.sleep(rt, seat);
        let _ = self.waiting.fetch_sub(1, SeqCst);
        kept
    }

    /// Puts the value back, for which the seat has to have taken it out, and wakes one thread that
    /// sleeps until it is there, if one does. Its history has to be the one that it had then, and
    /// after that more entries of the seat's actor, or none; what stays the same is to be as the
    /// lock has it. Then the seat's entries are those that the history has of its actor.
    pub fn put(&self, seat: &mut LockSeat<T>, kept: T)
        requires seat { IsSeatOf self.now seat.old }
        requires grown { GivesBack T.actor_of seat.old (T.history kept) }
        requires fixed { T.fixed kept ≡ self.now.fixed }
        ensures put { seat.new ≡ record seat.old {
          entries = own T.actor_of seat.old.actor (T.history kept);
          taken = None;
        } }
    {
        let _ = self.table.shared.exchange(&mut seat.seat, 0, Some(kept));
        self.table.shared.store::<PutBack>(&mut seat.seat, 0, 0);
        if self.waiting.load(SeqCst) > 0 {
            self.table.shared.wake_one(0);
        }
    }

    /// How many actors have a seat.
    pub fn actors(&self) -> usize
        ensures { result ≡ self.now.actors }
    {
        self.actors
    }

    /// A place for the seats that come back, with no seat yet.
    pub fn gathering(&self) -> Gathering<T>
        ensures { result ≡ record { table = self.now.table; claims = [] } }
    {
        let (_, all) = self.table.shared.load_new_seat::<Came>(0);
        Gathering { all }
    }

    /// Ends the lock and gives its value, once all seats are back: who has the lock itself, which
    /// no thread shares any more, and each of its seats, may do so. The history has of each actor
    /// the entries of its seat, in their order, and no others. It takes no memory.
    pub fn close(self, all: Gathering<T>) -> T
        requires own { all.table ≡ self.table }
        requires whole { self.actors ≤ length all.claims }
        ensures told { Tells T.actor_of all.claims (T.history result) }
        ensures fixed { T.fixed result ≡ self.fixed }
    {
        let TurnLock {
            table,
            actors: _,
            waiting: _,
        } = self;
        let Gathering { all } = all;
        let mut closed = table.close_with(all);
        let Some(kept) = closed.take(0) else {
            unreachable!()
        };
        closed.free();
        kept
    }

    // Stays awake for a while, as long as the value is out.
    fn spin(&self) {
        for _ in 0..SPINS {
            if self.table.shared.peek(0) == 0 {
                return;
            }
            spin_loop();
        }
    }

    // Takes the value out, and sleeps until it is in the lock.
    fn sleep<R: Wait>(&self, rt: &R, seat: &mut LockSeat<T>) -> T
        requires seat { IsFreeSeatOf self.now seat.old }
        ensures taken { seat.new ≡ record seat.old { taken = Some (T.history result) } }
        ensures own { own T.actor_of seat.old.actor (T.history result) ≡ seat.old.entries }
        ensures fixed { T.fixed result ≡ self.now.fixed }
    {
        for _ in rt.forever() {
            match self.attempt(seat) {
                Ok(kept) => return kept,
                Err(word) => self.table.shared.park(rt, 0, word as u32),
            }
        }
        unreachable!()
    }

    // Takes the value out, if it is in the lock; else answers the word, which is the number of the
    // actor that has it, from 1 on.
    fn attempt(&self, seat: &mut LockSeat<T>) -> Result<T, u64>
        requires seat { IsFreeSeatOf self.now seat.old }
        ensures taken { IfOk result (λ kept. seat.new ≡ record seat.old { taken = Some (T.history kept) }) }
        ensures own { IfOk result (λ kept. own T.actor_of seat.old.actor (T.history kept) ≡ seat.old.entries) }
        ensures fixed { IfOk result (λ kept. T.fixed kept ≡ self.now.fixed) }
        ensures refused { IfErr result (λ word. seat.new ≡ seat.old) }
        ensures word { IfErr result (λ word. IsWordOfAnother seat.old word) }
    {
        let found = self
            .table
            .shared
            .compare_exchange::<Took>(&mut seat.seat, 0, 0, seat.actor + 1);
        if found != 0 {
            return Err(found);
        }
        match self.table.shared.exchange(&mut seat.seat, 0, None) {
            Some(kept) => Ok(kept),
            None => unreachable!(),
        }
    }
}

// A seat for the first of the actors that are left.
fn deal<T: KeepsHistory + Drop>(
    table: &Slots<T>,
    all: &mut Seat<Option<T>, SeatView<T::Entry, T::Fixed>>,
    actor: u64,
) -> LockSeat<T>
    requires table { all.old.table_id ≡ table.now.shared.table_id }
    requires word { table.now.shared.table_id.words ≡ 1 }
    requires below { actor < all.old.me.0.actors }
    requires few { all.old.me.0.actors ≤ 1024 }
    requires next { (left : ℕ) × (all.old.me.0.claims ≡ empty_claims actor (suc left)) }
    requires free { (all.old.me.0.taken ≡ None) × (all.old.me.1 ≡ []) }
    ensures table { all.new.table_id ≡ all.old.table_id }
    ensures terms { (all.new.me.0.actors ≡ all.old.me.0.actors) × (all.new.me.0.fixed ≡ all.old.me.0.fixed) }
    ensures next { (left : ℕ) → all.old.me.0.claims ≡ empty_claims actor (suc left)
        → all.new.me.0.claims ≡ empty_claims (suc actor) left }
    ensures free { (all.new.me.0.taken ≡ None) × (all.new.me.1 ≡ []) }
    ensures actor { result.actor ≡ actor }
    ensures seat { (result.table ≡ all.old.table_id) × (result.actors ≡ all.old.me.0.actors)
        × (result.fixed ≡ all.old.me.0.fixed) }
    ensures blank { (result.taken ≡ None) × (result.entries ≡ []) }
{
    let seat = table.shared.split_seat::<Deal>(all);
    LockSeat { seat, actor }
}
