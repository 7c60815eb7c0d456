ghost use Rattle.std.specs.Prelude.{◌≡◌, ◌+◌, ◌-◌, ◌^◌, ◌<◌, ◌≤◌, ◌⊎◌, ◌++◌, ◌∷◌, [], length, IfSome, IfNone};
ghost use Rattle.crossbeam_deque.specs.Handles.{view, taken, IsPassOf, stealer_deque, stealer_flavor};
ghost use Rattle.local_pool.specs.Hands.{Takes, FoundEmpty};
ghost use Rattle.local_pool.specs.Pools.{NoneFound};

use crate::law::{Hand, Law, Took};
use crossbeam_deque::{Pass, Steal, Stealer};
use std::alloc::Global;
use std::marker::Model;

pub(crate) type Thief<T> = Stealer<T, Global, Hand<T>, Law>;

pub(crate) type Token<T> = Pass<T, Hand<T>>;

/// The right of one thread to steal tickets of a pool. It has no clone, and can go to another
/// thread. Contracts see the pool that it is of, how many tickets it knows to have left that pool,
/// and those that it stole, the newest last.
#[derive(Drop)]
pub struct BodyWorker<T> {
    pub(crate) thief: Thief<T>,
    pub(crate) token: Token<T>,
    pub(crate) stolen: u64,
}

impl<T> Model for BodyWorker<T> {
    ghost use Rattle.local_pool.specs.Pools.{WorkerOf};

    ghost Value = { WorkerOf T };

    ghost use Rattle.local_pool.specs.Ends.{IsWorker, worker_of};

    ghost view = { λ w. worker_of w.thief w.token };

    ghost invariant = { λ w. IsWorker w.thief w.token w.stolen };
}

impl<T> BodyWorker<T> {
    /// A ticket of the pool, without waiting and without memory. The worker tries again where
    /// another took the ticket that it saw. `None` where the pool is found empty, or where others
    /// took 2^64 - 1 tickets meanwhile. That nobody else is given the ticket is what
    /// `LocalPool::close` says, once all are back; that it is the oldest is shown by tests.
    pub fn steal(&mut self) -> Option<T>
        ensures pool { self.new.pool ≡ self.old.pool }
        ensures stolen { IfSome result (λ x. self.new.taken ≡ self.old.taken ++ x ∷ []) }
        ensures none { IfNone result (self.new.taken ≡ self.old.taken) }
        ensures empty { IfNone result (NoneFound self.old ⊎ (self.old.passed + (2 ^ 64 - 1) ≤ self.new.passed)) }
    {
        let ticket = steal_from(&self.thief, &mut self.token)?;
        self.stolen += 1;
        Some(ticket)
    }
}

impl<T> BodyWorker<T> {
    // How many tickets it stole.
    pub(crate) fn count(&self) -> u64
        ensures { result ≡ length self.now.taken }
    {
        self.stolen
    }
}

// Tries until a ticket is stolen or none is there.
fn steal_from<T>(thief: &Thief<T>, token: &mut Token<T>) -> Option<T>
    requires pool { IsPassOf (stealer_deque thief.now) token.old }
    requires first_in { stealer_flavor thief.now ≡ 0 }
    requires part { 0 < (view token.old).parts }
    ensures pool { IsPassOf (stealer_deque thief.now) token.new }
    ensures stolen { IfSome result (λ x. Takes (view token.old) (x ∷ []) (view token.new)) }
    ensures none { IfNone result (view token.new ≡ view token.old) }
    ensures empty { IfNone result (FoundEmpty (view token.old) ⊎ (taken token.old + (2 ^ 64 - 1) ≤ taken token.new)) }
{
    let mut lost = 0u64;
    while lost < u64::MAX {
        match thief.steal_as::<Took>(token) {
            Steal::Success(ticket) => return Some(ticket),
            Steal::Empty => return None,
            Steal::Retry => lost += 1,
        }
    }
    None
}
