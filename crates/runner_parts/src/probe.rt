//! Whether the system makes the threads of a run, which is tried where one of them wasn't there,
//! and before any of them has something to do.

use std::sync::Wait;
use std::sync::atomic::AtomicU64;
use std::sync::atomic::Ordering::SeqCst;
use std::thread::{Scope, Threads, scope, scope_env};

/// Whether so many threads can be there beside this one, all at once. They are gone when it
/// answers.
pub fn can_make<R: Threads + Wait + Sync>(rt: &R, threads: u64) -> bool {
    let is_over = AtomicU64::new(0);
    let over = &is_over;
    scope(scope_env(), rt, |all| -> bool {
        are_made(all, rt, threads, over)
    })
}

/// Whether so many threads of a scope are made, which wait until the last one is, or one is
/// refused.
fn are_made<'s, 'e, R: Wait + Sync>(
    all: &'s Scope<'s, &'e ()>,
    rt: &'s R,
    threads: u64,
    over: &'s AtomicU64,
) -> bool {
    let mut made = true;
    for _ in 0..threads {
        if all.spawn(move || wait(rt, over)).is_err() {
            made = false;
            break;
        }
    }
    over.store(1, SeqCst);
    over.wake_all();
    made
}

/// A thread waits until the word isn't 0.
fn wait<R: Wait>(rt: &R, over: &AtomicU64) {
    for _ in rt.forever() {
        if over.load(SeqCst) != 0 {
            break;
        }
        over.park(rt, 0);
    }
}
