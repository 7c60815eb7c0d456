ghost use Rattle.std.specs.Prelude.{All, IfOk, None, Some};
ghost use Rattle.turn_lock.specs.Seats.{IsFreeSeatOf};

use crate::{KeepsHistory, LockSeat, TurnLock};
use std::alloc::{AllocError, Global};
use std::sync::Wait;
use std::sync::atomic::AtomicU64;
use std::sync::atomic::Ordering::SeqCst;
use std::test::Fail;
use std::thread;
use std::thread::join;
use std::time::{Clock, Duration};

/// Lines, each an actor and a number.
#[derive(Drop)]
struct Lines {
    all: Vec<(u64, u64)>,
}

impl KeepsHistory for Lines {
    type Entry = (u64, u64);

    type Fixed = ();

    ghost history = { λ l. l.all.items };

    ghost actor_of = { λ line. line.0 };

    ghost fixed = { λ l. tt };
}

/// Writes the lines 0, 1, .. of its actor, so many, and each in a turn of its own.
fn write_all<R: Wait>(
    rt: &R,
    lock: &TurnLock<Lines>,
    mut seat: LockSeat<Lines>,
    lines: u64,
) -> LockSeat<Lines>
    requires { IsFreeSeatOf lock.now seat }
    ensures { IsFreeSeatOf lock.entry.now result }
{
    for line in 0..lines {
        let actor = seat.actor();
        let mut kept = lock.take(rt, &mut seat);
        let _ = kept.all.push((actor, line)).is_ok();
        lock.put(&mut seat, kept);
    }
    seat
}

/// Whom a try finds with the value. Where it finds nobody, the value is put back as it was.
fn holder(lock: &TurnLock<Lines>, seat: &mut LockSeat<Lines>) -> Option<u64>
    requires { IsFreeSeatOf lock.now seat.old }
    ensures { IsFreeSeatOf lock.now seat.new }
{
    match lock.try_take(seat) {
        Ok(kept) => {
            lock.put(seat, kept);
            None
        }
        Err(holder) => Some(holder),
    }
}

/// Whom the other seat's try finds while the seat has the value.
fn holder_meanwhile(
    lock: &TurnLock<Lines>,
    seat: &mut LockSeat<Lines>,
    other: &mut LockSeat<Lines>,
) -> Option<u64>
    requires { IsFreeSeatOf lock.now seat.old × IsFreeSeatOf lock.now other.old }
    ensures { IsFreeSeatOf lock.now seat.new × IsFreeSeatOf lock.now other.new }
{
    let kept = lock.try_take(seat).ok()?;
    let found = holder(lock, other);
    lock.put(seat, kept);
    found
}

/// The lines, once all seats are back.
fn end(lock: TurnLock<Lines>, mut seats: Vec<LockSeat<Lines>>) -> Option<Vec<(u64, u64)>>
    requires { All (IsFreeSeatOf lock) seats.items }
{
    if seats.len() < lock.actors() {
        return None;
    }
    let mut all = lock.gathering();
    while let Some(seat) = seats.pop() {
        all.add(&lock, seat);
    }
    let Lines { all } = lock.close(all);
    Some(all)
}

/// How many lines each of four actors has, if each one's lines are 0, 1, .. in this order.
fn counts(lines: &[(u64, u64)]) -> Option<[u64; 4]> {
    let mut next = [0; 4];
    for &(actor, line) in lines {
        let count = next.get_mut(actor as usize)?;
        if *count != line {
            return None;
        }
        *count = line.wrapping_add(1);
    }
    Some(next)
}

#[test]
fn four_threads_write_each_line_once_in_its_order(rt: HostRuntime) -> Result<(), Fail> {
    let alloc = rt.alloc();
    let all = Vec::new(alloc);
    let (lock, seats) = TurnLock::new(alloc, Lines { all }, 4, ())?;
    let shared = &lock;
    let seats = thread::map_vec(
        &rt,
        seats,
        &|seat: LockSeat<Lines>| -> LockSeat<Lines>
            requires { IsFreeSeatOf shared.now seat }
            ensures { IsFreeSeatOf shared.entry.now result }
        { write_all(&rt, shared, seat, 25000) },
    )?;
    let lines = end(lock, seats).ok_or(AllocError)?;
    assert_eq!(rt; counts(lines.as_slice()), Some([25000; 4]));
    Ok(())
}

/// Waits until the word isn't 0, some twenty seconds at most. Whether it came to that.
fn comes<R: Clock>(rt: &R, word: &AtomicU64) -> bool {
    for _ in 0..20_000 {
        if word.load(SeqCst) != 0 {
            return true;
        }
        thread::sleep(rt, Duration::from_millis(1));
    }
    false
}

/// Takes the value, says so, and puts it back only once another thread waits for it. Whether that
/// one counted as waiting, and whether it had the value then; where it hadn't, it is woken here, so
/// that the test ends.
fn put_late<R: Clock + Wait>(
    rt: &R,
    lock: &TurnLock<Lines>,
    mut seat: LockSeat<Lines>,
    taken: &AtomicU64,
    had: &AtomicU64,
) -> (LockSeat<Lines>, (bool, bool))
    requires { IsFreeSeatOf lock.now seat }
    ensures { IsFreeSeatOf lock.entry.now result.0 }
{
    let kept = lock.take(rt, &mut seat);
    taken.store(1, SeqCst);
    let counted = comes(rt, &lock.waiting);
    // By now it sleeps.
    thread::sleep(rt, Duration::from_millis(50));
    lock.put(&mut seat, kept);
    let woken = comes(rt, had);
    if !woken {
        lock.table.shared.wake_one(0);
    }
    (seat, (counted, woken))
}

/// Waits for the value, once another has it, and says that it had it.
fn take_late<R: Clock + Wait>(
    rt: &R,
    lock: &TurnLock<Lines>,
    seat: LockSeat<Lines>,
    taken: &AtomicU64,
    had: &AtomicU64,
) -> LockSeat<Lines>
    requires { IsFreeSeatOf lock.now seat }
    ensures { IsFreeSeatOf lock.entry.now result }
{
    let _ = comes(rt, taken);
    let seat = write_all(rt, lock, seat, 1);
    had.store(1, SeqCst);
    seat
}

/// A lock for two actors, with their seats.
fn for_two(alloc: Global) -> Result<(TurnLock<Lines>, LockSeat<Lines>, LockSeat<Lines>), AllocError>
    ensures { IfOk result (λ r. IsFreeSeatOf r.0 r.1 × IsFreeSeatOf r.0 r.2) }
{
    let all = Vec::new(alloc);
    let (lock, mut seats) = TurnLock::new(alloc, Lines { all }, 2, ())?;
    let second = seats.pop().ok_or(AllocError)?;
    let first = seats.pop().ok_or(AllocError)?;
    Ok((lock, first, second))
}

#[test]
fn a_sleeper_counts_and_is_woken(rt: HostRuntime) -> Result<(), Fail> {
    let (lock, first, second) = for_two(rt.alloc())?;
    let (shared, taken, had) = (&lock, &AtomicU64::new(0), &AtomicU64::new(0));
    let ((first, seen), second) = join(
        &rt,
        || -> (LockSeat<Lines>, (bool, bool))
            requires { IsFreeSeatOf shared.now first }
            ensures { IsFreeSeatOf shared.entry.now result.0 }
        { put_late(&rt, shared, first, taken, had) },
        || -> LockSeat<Lines>
            requires { IsFreeSeatOf shared.now second }
            ensures { IsFreeSeatOf shared.entry.now result }
        { take_late(&rt, shared, second, taken, had) },
    );
    assert_eq!(rt; (seen, lock.waiting.load(SeqCst)), ((true, true), 0));
    let mut seats = Vec::new(rt.alloc());
    seats.push(first)?;
    seats.push(second)?;
    let lines = end(lock, seats).ok_or(AllocError)?;
    assert_eq!(rt; lines.as_slice(), [(1, 0)].as_slice());
    Ok(())
}

#[test]
fn a_refused_try_says_who_has_the_value(rt: HostRuntime) -> Result<(), Fail> {
    let alloc = rt.alloc();
    let all = Vec::new(alloc);
    let (lock, mut seats) = TurnLock::new(alloc, Lines { all }, 3, ())?;
    let mut third = seats.pop().ok_or(AllocError)?;
    let mut second = seats.pop().ok_or(AllocError)?;
    assert_eq!(rt; (second.actor(), third.actor()), (1, 2));
    let found = [
        holder(&lock, &mut second),
        holder_meanwhile(&lock, &mut third, &mut second),
        holder_meanwhile(&lock, &mut second, &mut third),
        holder(&lock, &mut second),
    ];
    assert_eq!(rt; found, [None, Some(2), Some(1), None]);
    Ok(())
}

#[test]
fn as_many_seats_as_there_may_be(rt: HostRuntime) -> Result<(), Fail> {
    let alloc = rt.alloc();
    let all = Vec::new(alloc);
    let (lock, mut seats) = TurnLock::new(alloc, Lines { all }, 1024, ())?;
    assert_eq!(rt; (lock.actors(), seats.len()), (1024, 1024));
    for seat in seats.iter_mut() {
        assert_eq!(rt; holder(&lock, seat), None);
    }
    let lines = end(lock, seats).ok_or(AllocError)?;
    assert_eq!(rt; lines.len(), 0);
    Ok(())
}
