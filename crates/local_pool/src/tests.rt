ghost use Rattle.std.specs.Prelude.{◌≡◌, All, IfOk, IfSome, Some, vec_len};
ghost use Rattle.local_pool.specs.Pools.{IsWorkerOf};

use crate::{BodyWorker, LocalPool, Owner, Stamped, TurnPass, TurnQueue};
use std::alloc::{AllocError, Global};
use std::sync::Wait;
use std::sync::atomic::AtomicU64;
use std::sync::atomic::Ordering::SeqCst;
use std::test::Fail;
use std::thread;
use std::thread::join;

/// Offers the tickets 1 to 1,000, takes 10 back, and then says that it is done. Answers whether all
/// were taken in.
fn offer_all(
    pool: &LocalPool<u64>,
    mut owner: Owner<u64>,
    seen: &[AtomicU64],
    done: &AtomicU64,
) -> (Owner<u64>, bool)
    requires { owner.pool ≡ pool.now }
    ensures { (result.0.pool ≡ pool.entry.now) × (result.0.workers ≡ owner.workers) }
{
    let mut all = true;
    for ticket in 1..1001 {
        all = owner.offer(ticket).is_ok() && all;
        if ticket % 100 == 0 {
            if let Some(own) = owner.take_own() {
                mark(seen, own);
            }
        }
    }
    done.store(1, SeqCst);
    (owner, all)
}

/// A ticket, or none where the owner was done before the pool was found empty.
fn steal_one(worker: &mut BodyWorker<u64>, done: &AtomicU64) -> Option<u64>
    ensures { worker.new.pool ≡ worker.old.pool }
{
    for _ in 0..100_000_000 {
        let last = done.load(SeqCst);
        let ticket = worker.steal();
        if ticket.is_some() || last == 1 {
            return ticket;
        }
        thread::yield_now();
    }
    None
}

/// Steals at most 300 tickets.
fn steal_some(
    pool: &LocalPool<u64>,
    mut worker: BodyWorker<u64>,
    seen: &[AtomicU64],
    done: &AtomicU64,
) -> BodyWorker<u64>
    requires { worker.pool ≡ pool.now }
    ensures { result.pool ≡ pool.entry.now }
{
    for _ in 0..300 {
        let Some(ticket) = steal_one(&mut worker, done) else {
            break;
        };
        mark(seen, ticket);
    }
    worker
}

fn mark(seen: &[AtomicU64], ticket: u64) {
    if let Some(times) = seen.get(ticket as usize) {
        times.fetch_add(1, SeqCst);
    }
}

#[test]
fn each_ticket_is_handed_out_or_left_once(rt: HostRuntime) -> Result<(), Fail> {
    let alloc = rt.alloc();
    let (pool, owner, workers) = LocalPool::<u64>::new(alloc, 4, 3)?;
    let mut counts = Vec::new(alloc);
    for _ in 0..1001 {
        counts.push(AtomicU64::new(0))?;
    }
    let (seen, done, shared) = (counts.as_slice(), &AtomicU64::new(0), &pool);
    let ((owner, all), workers) = join(
        &rt,
        || -> (Owner<u64>, bool)
            requires { (owner.pool ≡ shared.now) × (owner.workers ≡ 3) }
            ensures { (result.0.pool ≡ shared.entry.now) × (result.0.workers ≡ 3) }
        { offer_all(shared, owner, seen, done) },
        || -> Result<Vec<BodyWorker<u64>>, AllocError>
            requires { (vec_len workers ≡ 3) × All (IsWorkerOf shared.now) workers.items }
            ensures { IfOk result (λ v. (vec_len v ≡ 3) × All (IsWorkerOf shared.entry.now) v.items) }
        {
            thread::map_vec(
                &rt,
                workers,
                &|worker: BodyWorker<u64>| -> BodyWorker<u64>
                    requires { worker.pool ≡ shared.now }
                    ensures { result.pool ≡ shared.entry.now }
                { steal_some(shared, worker, seen, done) },
            )
        },
    );
    assert_eq!(rt; all, true);
    let left = pool.close(owner, workers?).ok().ok_or(AllocError)?;
    for ticket in left {
        mark(seen, ticket);
    }
    for (ticket, times) in counts.iter().enumerate() {
        assert_eq!(rt; times.load(SeqCst), u64::from(ticket > 0));
    }
    Ok(())
}

#[test]
fn as_many_workers_as_there_may_be(rt: HostRuntime) -> Result<(), Fail> {
    let (pool, mut owner, workers) = LocalPool::<u64>::new(rt.alloc(), 0, 1024)?;
    assert_eq!(rt; workers.len(), 1024);
    for ticket in 0..5000 {
        assert_eq!(rt; owner.offer(ticket), Ok(()));
    }
    let left = pool.close(owner, workers).ok().ok_or(AllocError)?;
    assert_eq!(rt; (left.len(), left.first()), (5000, Some(&0)));
    Ok(())
}

/// What the owner and a worker find in turn: nothing, and then two tickets, the older one first.
fn find(owner: &mut Owner<u64>, worker: &mut BodyWorker<u64>) -> [Option<u64>; 5]
    ensures { (owner.new.pool ≡ owner.old.pool) × (owner.new.workers ≡ owner.old.workers)
        × (worker.new.pool ≡ worker.old.pool) }
{
    let before = [owner.take_own(), worker.steal()];
    let all = owner.offer(7).is_ok() && owner.offer(8).is_ok();
    let first = worker.steal();
    let second = owner.take_own();
    [
        before[0],
        before[1],
        first,
        second,
        if all { worker.steal() } else { Some(0) },
    ]
}

/// A pool with room for one ticket, its owner and its one worker.
fn small_pool(alloc: Global) -> Result<(LocalPool<u64>, Owner<u64>, BodyWorker<u64>), AllocError>
    ensures { IfOk result (λ r. (r.1.pool ≡ r.0) × (r.1.workers ≡ 1) × (r.2.pool ≡ r.0)) }
{
    let (pool, owner, mut workers) = LocalPool::<u64>::new(alloc, 1, 1)?;
    let worker = workers.pop().ok_or(AllocError)?;
    Ok((pool, owner, worker))
}

#[test]
fn tickets_come_in_their_order(rt: HostRuntime) -> Result<(), Fail> {
    let (pool, mut owner, mut worker) = small_pool(rt.alloc())?;
    assert_eq!(rt;
        find(&mut owner, &mut worker),
        [None, None, Some(7), Some(8), None]
    );
    let mut workers = Vec::new(rt.alloc());
    workers.push(worker)?;
    let left = pool.close(owner, workers).ok().ok_or(AllocError)?;
    assert_eq!(rt; left.len(), 0);
    Ok(())
}

/// A turn of a job, with its number.
#[derive(Debug, PartialEq, Drop)]
struct Turn {
    job: u64,
    number: u64,
}

impl Stamped for Turn {
    type Stamp = u64;

    ghost stamp = { λ t. t.job };
}

/// A finished turn of the job 5.
fn finished(number: u64) -> Turn
    ensures { result ≡ record { job = 5; number = number } }
{
    Turn { job: 5, number }
}

/// Puts the turns 2 to 1,000.
fn put_all<R: Wait>(rt: &R, queue: &TurnQueue<Turn>, mut pass: TurnPass<Turn>) -> TurnPass<Turn>
    requires { (pass.queue ≡ queue.now.queue) × (pass.stamp ≡ Some 5) }
    ensures { result.queue ≡ queue.entry.now.queue }
{
    let mut number = 2u64;
    for _ in rt.forever() {
        if number > 1000 {
            break;
        }
        match queue.put(rt, &mut pass, finished(number)) {
            Ok(()) => number += 1,
            Err(_) => thread::yield_now(),
        }
    }
    pass
}

/// Takes turns as long as they come in their order, up to 1,000, and answers how many came.
fn take_all<R: Wait>(
    rt: &R,
    queue: &TurnQueue<Turn>,
    mut pass: TurnPass<Turn>,
) -> (TurnPass<Turn>, u64)
    requires { pass.queue ≡ queue.now.queue }
    ensures { result.0.queue ≡ queue.entry.now.queue }
{
    let mut taken = 0;
    for _ in rt.forever() {
        if taken >= 1000 {
            break;
        }
        match queue.take(rt, &mut pass) {
            Some(turn) if turn.number == taken + 1 => taken = turn.number,
            Some(_) => break,
            None => thread::yield_now(),
        }
    }
    (pass, taken)
}

#[test]
fn turns_come_back_in_their_order(rt: HostRuntime) -> Result<(), Fail> {
    let (queue, keeper, mut passes) = TurnQueue::new(&rt, rt.alloc(), 16, 2, finished(1))?;
    let line = &queue;
    let giver = passes.pop().ok_or(AllocError)?;
    let taker = passes.pop().ok_or(AllocError)?;
    let (giver, (taker, taken)) = join(
        &rt,
        || -> TurnPass<Turn>
            requires { (giver.queue ≡ line.now.queue) × (giver.stamp ≡ Some 5) }
            ensures { result.queue ≡ line.entry.now.queue }
        { put_all(&rt, line, giver) },
        || -> (TurnPass<Turn>, u64)
            requires { taker.queue ≡ line.now.queue }
            ensures { result.0.queue ≡ line.entry.now.queue }
        { take_all(&rt, line, taker) },
    );
    assert_eq!(rt; taken, 1000);
    passes.push(giver)?;
    passes.push(taker)?;
    let left = queue.close(&rt, keeper, passes).ok().ok_or(AllocError)?;
    assert_eq!(rt; left.len(), 0);
    Ok(())
}

/// What a queue with room for two turns answers to two more than its first, and then which turn
/// comes first.
fn fill<R: Wait>(
    rt: &R,
    queue: &TurnQueue<Turn>,
    pass: &mut TurnPass<Turn>,
) -> ([Result<(), Turn>; 2], Option<Turn>)
    requires { (pass.old.queue ≡ queue.now.queue) × (pass.old.stamp ≡ Some 5) }
    ensures queue { pass.new.queue ≡ pass.old.queue }
    ensures job { IfSome result.1 (λ t. t.job ≡ 5) }
{
    let second = queue.put(rt, pass, finished(8));
    let third = queue.put(rt, pass, finished(9));
    ([second, third], queue.take(rt, pass))
}

#[test]
fn a_full_queue_gives_a_turn_back(rt: HostRuntime) -> Result<(), Fail> {
    let (queue, keeper, mut passes) = TurnQueue::new(&rt, rt.alloc(), 2, 1, finished(7))?;
    let mut pass = passes.pop().ok_or(AllocError)?;
    assert_eq!(rt;
        fill(&rt, &queue, &mut pass),
        ([Ok(()), Err(finished(9))], Some(finished(7)))
    );
    passes.push(pass)?;
    let left = queue.close(&rt, keeper, passes).ok().ok_or(AllocError)?;
    assert_eq!(rt; left.as_slice(), [finished(8)].as_slice());
    Ok(())
}

#[test]
fn as_many_passes_as_there_may_be(rt: HostRuntime) -> Result<(), Fail> {
    let (queue, keeper, passes) = TurnQueue::new(&rt, rt.alloc(), 16, 1024, finished(1))?;
    assert_eq!(rt; passes.len(), 1024);
    let left = queue.close(&rt, keeper, passes).ok().ok_or(AllocError)?;
    assert_eq!(rt; left.as_slice(), [finished(1)].as_slice());
    Ok(())
}
