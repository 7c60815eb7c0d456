ghost use Rattle.std.specs.Prelude.{◌≡◌, ◌≤◌, ◌++◌, ◌∷◌, [], length, IfErr, IfNone, IfSome, OnOk};
ghost use Rattle.local_pool.specs.Items.{AtMost};
ghost use Rattle.local_pool.specs.Pools.{AllHandedOut};

use crate::law::{Hand, Law, Offered, Took};
use crossbeam_deque::Worker;
use std::alloc::Global;
use std::marker::Model;

pub(crate) type Deque<T> = Worker<T, Global, Hand<T>, Law>;

/// The right of one thread to offer tickets to a pool and to take them back. It has no clone, and
/// can go to another thread. Contracts see the pool that it is of, with the number of its workers,
/// how many offers have room from the start, and the tickets that it offered and that it took back,
/// the newest last.
#[derive(Drop)]
pub struct Owner<T> {
    pub(crate) deque: Deque<T>,
    pub(crate) room: usize,
    pub(crate) workers: usize,
    pub(crate) offered: u64,
    pub(crate) taken: u64,
}

impl<T> Model for Owner<T> {
    ghost use Rattle.local_pool.specs.Pools.{OwnerOf};

    ghost Value = { OwnerOf T };

    ghost use Rattle.local_pool.specs.Ends.{IsOwner, owner_of};

    ghost view = { λ o. owner_of o.deque o.room o.workers };

    ghost invariant = { λ o. IsOwner o.deque o.room o.workers o.offered o.taken };
}

impl<T> Owner<T> {
    /// Puts a ticket into the pool, or gives it back and changes nothing: never among the first
    /// `room` offers, and later where the pool can't grow, out of memory or past its limits (2^39
    /// tickets at once, 2^62 in all). No clause says that it comes back only there, and that a
    /// ticket is put behind all others is shown by tests.
    pub fn offer(&mut self, ticket: T) -> Result<(), T>
        ensures pool { (self.new.pool ≡ self.old.pool) × (self.new.workers ≡ self.old.workers)
            × (self.new.room ≡ self.old.room) }
        ensures offered { OnOk result (self.new.offered ≡ self.old.offered ++ ticket ∷ []) }
        ensures taken { self.new.taken ≡ self.old.taken }
        ensures refused { IfErr result (λ x. (x ≡ ticket) × (self.new ≡ self.old)) }
        ensures room { IfErr result (λ x. self.old.room ≤ length self.old.offered) }
    {
        if self.offered == u64::MAX {
            return Err(ticket);
        }
        self.deque.push_as::<Offered>(ticket)?;
        self.offered += 1;
        Ok(())
    }

    /// A ticket of the pool, without waiting and without memory: none more often than it was
    /// offered. `None` where the pool is found empty. That the ticket is the oldest is shown by
    /// tests.
    pub fn take_own(&mut self) -> Option<T>
        ensures pool { (self.new.pool ≡ self.old.pool) × (self.new.workers ≡ self.old.workers)
            × (self.new.room ≡ self.old.room) }
        ensures offered { self.new.offered ≡ self.old.offered }
        ensures taken { IfSome result (λ x. self.new.taken ≡ self.old.taken ++ x ∷ []) }
        ensures once { IfSome result (λ x. AtMost self.new.taken self.new.offered) }
        ensures none { IfNone result (self.new ≡ self.old) }
        ensures empty { IfNone result (AllHandedOut self.old) }
    {
        let ticket = self.deque.pop_as::<Took>()?;
        self.taken += 1;
        Some(ticket)
    }
}
