ghost use Rattle.std.specs.Prelude.{◌≡◌, ◌+◌, ◌-◌, ◌<◌, ◌≤◌, ◌++◌, [], All, IfErr, IfOk, flat_map, length, sum_by, vec_capacity, vec_len};
ghost use Rattle.crossbeam_deque.specs.Handles.{SameWorker, stealer_deque, stealer_flavor, worker_deque, worker_flavor, worker_index, worker_view};
ghost use Rattle.local_pool.specs.Pools.{IsBlankWorkerOf, IsWorkerOf, SameItems, handed_out};

use crate::law::{Deal, Gather, Took};
use crate::owner::{Deque, Owner};
use crate::worker::{BodyWorker, Thief};
use std::alloc::{AllocError, Global};
use std::marker::Model;

/// A pool of tickets, which its owner and its workers share. Contracts see which pool it is.
#[derive(Drop)]
pub struct LocalPool<T> {
    alloc: Global,
    thief: Thief<T>,
}

impl<T> Model for LocalPool<T> {
    ghost use Rattle.local_pool.specs.Pools.{PoolId};

    ghost Value = { PoolId };

    ghost use Rattle.crossbeam_deque.specs.Handles.{stealer_deque};

    ghost view = { λ p. stealer_deque p.thief };
}

impl<T: Drop> LocalPool<T> {
    /// An empty pool, its owner, and its workers, at most 1,024 of them. The first `room` offers
    /// take no memory.
    pub fn new(
        alloc: Global,
        room: usize,
        workers: usize,
    ) -> Result<(LocalPool<T>, Owner<T>, Vec<BodyWorker<T>>), AllocError>
        requires { workers ≤ 1024 }
        ensures owner { IfOk result (λ r. (r.1.pool ≡ r.0) × (r.1.workers ≡ workers) × (r.1.room ≡ room)) }
        ensures blank { IfOk result (λ r. (r.1.offered ≡ []) × (r.1.taken ≡ [])) }
        ensures workers { IfOk result (λ r. (vec_len r.2 ≡ workers) × All (IsBlankWorkerOf r.0) r.2.items) }
    {
        let mut deque = Deque::fifo_as(alloc, room)?;
        let thief = deque.stealer()?;
        let mut dealt = Vec::with_capacity(alloc, workers)?;
        for _ in 0..workers {
            let own = deque.stealer()?;
            dealt.push(deal(&mut deque, own))?;
        }
        let owner = Owner {
            deque,
            room,
            workers,
            offered: 0,
            taken: 0,
        };
        Ok((LocalPool { alloc, thief }, owner, dealt))
    }

    /// Ends the pool, once its owner and all its workers are back, and gives the tickets that are
    /// left. What was handed out and what is left are the tickets that were offered, each as often.
    /// Without memory all comes back.
    pub fn close(
        self,
        owner: Owner<T>,
        workers: Vec<BodyWorker<T>>,
    ) -> Result<Vec<T>, (LocalPool<T>, Owner<T>, Vec<BodyWorker<T>>)>
        requires pool { owner.pool ≡ self }
        requires whole { owner.workers ≡ vec_len workers }
        requires own { All (IsWorkerOf self) workers.items }
        ensures ok { IfOk result (λ left. SameItems owner.offered (handed_out owner workers.items ++ left.items)) }
        ensures err { IfErr result (λ r. (r.0 ≡ self) × (r.1 ≡ owner) × (r.2 ≡ workers)) }
    {
        let count = tickets_left(&owner, workers.as_slice()) as usize;
        let Ok(mut left) = Vec::with_capacity(self.alloc, count) else {
            return Err((self, owner, workers));
        };
        let Owner { mut deque, .. } = owner;
        gather_all(&mut deque, workers);
        drain(&mut deque, &mut left);
        Ok(left)
    }
}

// A worker with one of the owner's parts.
fn deal<T>(deque: &mut Deque<T>, thief: Thief<T>) -> BodyWorker<T>
    requires pool { stealer_deque thief ≡ worker_deque deque.old }
    requires first_in { stealer_flavor thief ≡ 0 }
    requires part { 1 < (worker_view deque.old).parts }
    ensures same { SameWorker deque.old deque.new × (worker_index deque.new ≡ worker_index deque.old) }
    ensures part { (worker_view deque.new).parts + 1 ≡ (worker_view deque.old).parts }
    ensures kept { ((worker_view deque.new).owners ≡ (worker_view deque.old).owners)
        × ((worker_view deque.new).offered ≡ (worker_view deque.old).offered)
        × ((worker_view deque.new).taken ≡ (worker_view deque.old).taken) }
    ensures worker { (result.pool ≡ worker_deque deque.old) × (result.taken ≡ []) }
{
    let token = deque.another::<Deal>();
    BodyWorker {
        thief,
        token,
        stolen: 0,
    }
}

// How many of the offered tickets neither the owner nor a worker has taken.
fn tickets_left<T>(owner: &Owner<T>, workers: &[BodyWorker<T>]) -> u64
    ensures { result ≡ length owner.now.offered - length owner.now.taken - sum_by (λ w. length w.taken) workers.now }
{
    let mut left = owner.offered - owner.taken;
    for worker in workers {
        left = left.saturating_sub(worker.count());
    }
    left
}

// Takes a worker's part and tickets in.
fn gather<T: Drop>(deque: &mut Deque<T>, worker: BodyWorker<T>)
    requires pool { worker.pool ≡ worker_deque deque.old }
    ensures same { SameWorker deque.old deque.new }
    ensures part { (worker_view deque.new).parts ≡ (worker_view deque.old).parts + 1 }
    ensures kept { ((worker_view deque.new).owners ≡ (worker_view deque.old).owners)
        × ((worker_view deque.new).offered ≡ (worker_view deque.old).offered) }
    ensures taken { (worker_view deque.new).taken ≡ (worker_view deque.old).taken ++ worker.taken }
{
    let BodyWorker {
        thief: _,
        token,
        stolen: _,
    } = worker;
    deque.absorb::<Gather>(token);
}

// The same of all workers.
fn gather_all<T: Drop>(deque: &mut Deque<T>, mut workers: Vec<BodyWorker<T>>)
    requires own { All (λ w. w.pool ≡ worker_deque deque.old) workers.items }
    ensures same { SameWorker deque.old deque.new }
    ensures parts { (worker_view deque.new).parts ≡ (worker_view deque.old).parts + vec_len workers }
    ensures kept { ((worker_view deque.new).owners ≡ (worker_view deque.old).owners)
        × ((worker_view deque.new).offered ≡ (worker_view deque.old).offered) }
    ensures taken { SameItems (worker_view deque.new).taken ((worker_view deque.old).taken
        ++ flat_map (λ w. w.taken) workers.items) }
{
    while let Some(worker) = workers.pop() {
        gather(deque, worker);
    }
}

// Takes all tickets that are left, once all parts are back.
fn drain<T>(deque: &mut Deque<T>, left: &mut Vec<T>)
    requires first_in { worker_flavor deque.old ≡ 0 }
    requires whole { ((worker_view deque.old).owners ≡ 1) × ((worker_view deque.old).parts ≡ 1025) }
    requires room { length (worker_view deque.old).offered - length
        (worker_view deque.old).taken ≤ vec_capacity left.old }
    requires empty { vec_len left.old ≡ 0 }
    ensures { SameItems (worker_view deque.old).offered ((worker_view deque.old).taken ++ left.new.items) }
{
    while let Some(ticket) = deque.pop_as::<Took>() {
        left.push_reserved(ticket);
    }
}
