ghost use Rattle.std.specs.Prelude.{◌≡◌, ◌+◌, ◌-◌, ◌<◌, ◌≤◌, ◌++◌, ◌∷◌, ℕ, [], All, IfErr, IfNone, IfOk, IfSome, IsSome, None, OnOk, Some, vec_capacity, vec_len};
ghost use Rattle.crossbeam_queue.specs.Passes.{view, IsPassOf, ruled_capacity};
ghost use Rattle.local_pool.specs.Lanes.{lane, AllBelow};
ghost use Rattle.local_pool.specs.Items.{SameItems};
ghost use Rattle.local_pool.specs.Turns.{FirstInFirstOut, FoundFull, FoundNone, IsBlankPassOf, IsPassOfQueue, put_by, taken_by};

use crate::lane::{DealPass, DidMark, DidPut, DidTake, GatherPasses, Lane, Order};
use crate::stamped::Stamped;
use crossbeam_queue::{Pass, RuledArrayQueue};
use std::alloc::{AllocError, Global};
use std::marker::Model;
use std::sync::Wait;

type View<D> = Lane<D, <D as Stamped>::Stamp>;

type Line<D> = RuledArrayQueue<D, View<D>, Order>;

type Seat<D> = Pass<D, View<D>>;

/// The right of one thread to put finished turns into a queue and to take them. It takes no bytes,
/// and can go to another thread. Contracts see the queue that it is of; the turns that it put and
/// that it took, the newest last, each with its number in the queue's order; and the stamp of all
/// turns in the queue.
#[derive(Drop)]
pub struct TurnPass<D: Stamped> {
    seat: Seat<D>,
}

impl<D: Stamped> Model for TurnPass<D> {
    ghost use Rattle.local_pool.specs.Turns.{PassOf, pass_code};

    ghost Value = { PassOf D D.Stamp };

    ghost coded = { pass_code D.code D.Stamp.code };

    ghost use Rattle.local_pool.specs.Passes.{IsTurnPass, pass_of};

    ghost view = { λ p. pass_of p.seat };

    ghost invariant = { λ p. IsTurnPass p.seat };
}

/// The right to end a queue of turns, once all its passes are back. Contracts see the queue that it
/// is of, how many passes that has, and the first turn, with its number in the queue's order.
#[derive(Drop)]
pub struct TurnKeeper<D: Stamped> {
    seat: Seat<D>,
    passes: usize,
}

impl<D: Stamped> Model for TurnKeeper<D> {
    ghost use Rattle.local_pool.specs.Turns.{KeeperOf, keeper_code};

    ghost Value = { KeeperOf D };

    ghost coded = { keeper_code D.code };

    ghost use Rattle.local_pool.specs.Passes.{IsKeeper, keeper_of};

    ghost view = { λ k. keeper_of k.seat k.passes };

    ghost invariant = { λ k. IsKeeper k.seat k.passes };
}

/// Finished turns on their way back, first in, first out, in a row of fixed size. All turns in it
/// have the same stamp. Threads share it by reference. Contracts see which queue it is, and how
/// many turns it has room for.
#[derive(Drop)]
pub struct TurnQueue<D: Stamped> {
    alloc: Global,
    line: Line<D>,
}

impl<D: Stamped> Model for TurnQueue<D> {
    ghost use Rattle.local_pool.specs.Turns.{QueueOf, queue_code};

    ghost Value = { QueueOf };

    ghost coded = { queue_code };

    ghost use Rattle.local_pool.specs.Passes.{queue_of};

    ghost view = { λ q. queue_of q.line };
}

impl<D: Stamped> TurnQueue<D> {
    /// Puts a turn behind all others, which has to have their stamp. It comes back where the queue
    /// is found full.
    pub fn put<R: Wait>(&self, rt: &R, pass: &mut TurnPass<D>, turn: D) -> Result<(), D>
        requires queue { pass.old.queue ≡ self.now.queue }
        requires stamp { pass.old.stamp ≡ Some (D.stamp turn) }
        ensures queue { pass.new.queue ≡ pass.old.queue }
        ensures stamp { pass.new.stamp ≡ pass.old.stamp }
        ensures put { OnOk result ((number : ℕ) × (pass.new.put ≡ pass.old.put ++ (number, turn) ∷ [])
            × AllBelow number pass.old.put) }
        ensures taken { pass.new.taken ≡ pass.old.taken }
        ensures refused { IfErr result (λ x. (x ≡ turn) × (pass.new ≡ pass.old)) }
        ensures full { IfErr result (λ x. FoundFull D.stamp self.now pass.old) }
    {
        self.line.push_as::<DidPut, R>(rt, &mut pass.seat, turn)?;
        Ok(())
    }

    /// Takes the first turn, which has the stamp of all others. `None` where the queue is found
    /// empty.
    pub fn take<R: Wait>(&self, rt: &R, pass: &mut TurnPass<D>) -> Option<D>
        requires { pass.old.queue ≡ self.now.queue }
        ensures queue { pass.new.queue ≡ pass.old.queue }
        ensures stamp { pass.new.stamp ≡ pass.old.stamp }
        ensures alike { IfSome result (λ turn. pass.old.stamp ≡ Some (D.stamp turn)) }
        ensures taken { IfSome result (λ turn. (number : ℕ)
            × (pass.new.taken ≡ pass.old.taken ++ (number, turn) ∷ []) × AllBelow number pass.old.taken) }
        ensures put { pass.new.put ≡ pass.old.put }
        ensures none { IfNone result (pass.new ≡ pass.old) }
        ensures empty { IfNone result (FoundNone D.stamp pass.old) }
    {
        let turn = self.line.pop_as::<DidTake, R>(rt, &mut pass.seat)?;
        Some(turn)
    }
}

impl<D: Stamped + Drop> TurnQueue<D> {
    /// A queue with room for so many turns, in which the first turn is already, its keeper, and its
    /// passes, at most 1,024 of them. All turns will have the first one's stamp. Without memory the
    /// answer is an error, and the first turn is dropped.
    pub fn new<R: Wait>(
        rt: &R,
        alloc: Global,
        capacity: usize,
        passes: usize,
        first: D,
    ) -> Result<(TurnQueue<D>, TurnKeeper<D>, Vec<TurnPass<D>>), AllocError>
        requires room { 0 < capacity }
        requires few { passes ≤ 1024 }
        ensures queue { IfOk result (λ r. r.0.capacity ≡ capacity) }
        ensures keeper { IfOk result (λ r. (r.1.queue ≡ r.0.queue) × (r.1.passes ≡ passes)) }
        ensures first { IfOk result (λ r. r.1.put ≡ (0, first) ∷ []) }
        ensures passes { IfOk result (λ r. (vec_len r.2 ≡ passes) × All (IsBlankPassOf r.0 (D.stamp first)) r.2.items) }
    {
        let (line, mut seat) = Line::ruled(alloc, capacity)?;
        let mut dealt = Vec::with_capacity(alloc, passes)?;
        put_first(rt, &line, &mut seat, first);
        for _ in 0..passes {
            dealt.push(deal(&line, &mut seat))?;
        }
        Ok((
            TurnQueue { alloc, line },
            TurnKeeper { seat, passes },
            dealt,
        ))
    }

    /// Ends the queue, once all its passes are back, and gives the turns that are left, the oldest
    /// first. Turns were taken, and are left, in the order in which they were put. Without memory
    /// all comes back.
    pub fn close<R: Wait>(
        self,
        rt: &R,
        keeper: TurnKeeper<D>,
        passes: Vec<TurnPass<D>>,
    ) -> Result<Vec<D>, (TurnQueue<D>, TurnKeeper<D>, Vec<TurnPass<D>>)>
        requires keeper { keeper.queue ≡ self.queue }
        requires whole { keeper.passes ≡ vec_len passes }
        requires own { All (IsPassOfQueue self) passes.items }
        ensures ok { IfOk result (λ left. FirstInFirstOut (keeper.put ++ put_by passes.items)
            (taken_by passes.items) left.items) }
        ensures err { IfErr result (λ r. (r.0 ≡ self) × (r.1 ≡ keeper) × (r.2 ≡ passes)) }
    {
        let Ok(mut left) = Vec::with_capacity(self.alloc, self.line.capacity()) else {
            return Err((self, keeper, passes));
        };
        let TurnQueue { line, .. } = self;
        let TurnKeeper { mut seat, .. } = keeper;
        gather_all(&line, &mut seat, passes);
        drain(rt, &line, &mut seat, &mut left);
        Ok(left)
    }
}

// Puts the first turn, whose stamp is that of all turns from now on.
fn put_first<D: Stamped + Drop, R: Wait>(rt: &R, line: &Line<D>, keeper: &mut Seat<D>, first: D)
    requires own { IsPassOf line.now keeper.old }
    requires blank { view keeper.old ≡ lane 0 1025 [] [] None }
    requires room { 0 < ruled_capacity line.now }
    ensures own { IsPassOf line.now keeper.new }
    ensures put { view keeper.new ≡ lane 0 1025 ((0, first) ∷ []) [] (Some (D.stamp first)) }
{
    let Ok(()) = line.push_as::<DidMark, R>(rt, keeper, first) else {
        unreachable!()
    };
}

// A pass with one of the keeper's parts.
fn deal<D: Stamped>(line: &Line<D>, keeper: &mut Seat<D>) -> TurnPass<D>
    requires own { IsPassOf line.now keeper.old }
    requires part { 1 < (view keeper.old).parts }
    requires stamp { IsSome (view keeper.old).stamp }
    ensures own { IsPassOf line.now keeper.new }
    ensures part { (view keeper.new).parts + 1 ≡ (view keeper.old).parts }
    ensures kept { ((view keeper.new).put ≡ (view keeper.old).put)
        × ((view keeper.new).taken ≡ (view keeper.old).taken)
        × ((view keeper.new).stamp ≡ (view keeper.old).stamp) }
    ensures pass { (result.queue ≡ line.now.table.shared.table_id) × (result.put ≡ []) × (result.taken ≡ [])
        × (result.stamp ≡ (view keeper.old).stamp) }
{
    let seat = line.another::<DealPass>(keeper);
    TurnPass { seat }
}

// Takes a pass's part and turns in.
fn gather<D: Stamped>(line: &Line<D>, keeper: &mut Seat<D>, pass: TurnPass<D>)
    requires own { IsPassOf line.now keeper.old }
    requires part { 0 < (view keeper.old).parts }
    requires pass { pass.queue ≡ line.now.table.shared.table_id }
    ensures own { IsPassOf line.now keeper.new }
    ensures part { (view keeper.new).parts ≡ (view keeper.old).parts + 1 }
    ensures put { (view keeper.new).put ≡ (view keeper.old).put ++ pass.put }
    ensures taken { (view keeper.new).taken ≡ (view keeper.old).taken ++ pass.taken }
{
    let TurnPass { seat } = pass;
    line.absorb::<GatherPasses>(keeper, seat);
}

// The same of all passes.
fn gather_all<D: Stamped + Drop>(line: &Line<D>, keeper: &mut Seat<D>, mut passes: Vec<TurnPass<D>>)
    requires own { IsPassOf line.now keeper.old }
    requires part { 0 < (view keeper.old).parts }
    requires passes { All (λ p. p.queue ≡ line.now.table.shared.table_id) passes.items }
    ensures own { IsPassOf line.now keeper.new }
    ensures parts { (view keeper.new).parts ≡ (view keeper.old).parts + vec_len passes }
    ensures put { SameItems (view keeper.new).put ((view keeper.old).put ++ put_by passes.items) }
    ensures taken { SameItems (view keeper.new).taken ((view keeper.old).taken ++ taken_by passes.items) }
{
    while let Some(pass) = passes.pop() {
        gather(line, keeper, pass);
    }
}

// Takes all turns that are left, once all parts are back.
fn drain<D: Stamped, R: Wait>(rt: &R, line: &Line<D>, keeper: &mut Seat<D>, left: &mut Vec<D>)
    requires own { IsPassOf line.now keeper.old }
    requires whole { (view keeper.old).parts ≡ 1025 }
    requires room { vec_capacity left.old ≡ ruled_capacity line.now }
    requires empty { (left.old.items ≡ []) × (vec_len left.old ≡ 0) }
    ensures { FirstInFirstOut (view keeper.old).put (view keeper.old).taken left.new.items }
{
    line.len_as::<DidTake, R>(rt, keeper);
    while let Some(turn) = line.pop_as::<DidTake, R>(rt, keeper) {
        left.push_reserved(turn);
    }
}
