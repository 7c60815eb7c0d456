//! The clearinghouse over its disk.
ghost use Rattle.std.specs.Prelude.{◌≡◌, ◌⊎◌, ◌+◌, ◌<◌, ◌^◌, ℕ, true, false, IfOk, IfErr, IsErrOf, IsTrue, [], Some, None};
ghost use Rattle.disk.specs.Device.{armed};
ghost use Rattle.disk.specs.File.{bytes_of};
ghost use Rattle.checkpoint.specs.Commit.{next_of, with_saved};
ghost use Rattle.checkpoint.specs.Store.{KeepsContent, KeepsRecord, ReadsAsStore};
ghost use Rattle.checkpoint.specs.declared.record.CheckpointRecord.{CheckpointRecord as Stored};
ghost use Rattle.clearinghouse.specs.Calls as calls;
ghost use Rattle.clearinghouse.specs.Errors.{error_of_stop};
ghost use Rattle.clearinghouse.specs.House.{Stopped};
ghost use Rattle.clearinghouse.specs.Meeting.{Committed, Halted, IsFoundFor, IsOpened, IsRefusedOver, HouseMeets, KeepsOneOf};
ghost use Rattle.clearinghouse.specs.declared.parts.Stop.{Stop as StopOf};

use crate::book::Book;
use crate::error::HouseError;
use crate::parts::{Act, HouseStep, Stop};
use checkpoint::{LastEpoch, Store, StoreError};
use codec::{Datagram, ReadError, decode};
use disk::Disk;
use ids::{Epoch, Listed, Outcome};
use saved_values::SavedTable;
use serial_meaning::Job;
use std::alloc::Global;
use std::marker::Model;

/// A clearinghouse of a job, over a disk. Contracts see the job, where the clearinghouse stands,
/// open or stopped, and its checkpoint's store.
#[derive(Drop)]
pub struct House<'a, D: Disk> {
    job: &'a Job,
    book: Book,
    store: Store<D>,
    stop: Option<Stop>,
}

impl<'a, D: Disk> Model for House<'a, D> {
    ghost use Rattle.task_tree.specs.Codes.{program_codes};
    ghost use Rattle.clearinghouse.specs.Meeting.{HouseOn, IsHouseOn, state_of};

    ghost Value = { HouseOn D };

    ghost coded = { Prim.hlevel program_codes };

    ghost view = { λ h. record { job = h.job.now; state = state_of h.book h.stop; store = h.store } };

    ghost invariant = { λ h. IsHouseOn (record { job = h.job.now; state = state_of h.book h.stop; store = h.store }) (state_of h.book h.stop) };
}

/// Nothing is done, since a packet is ignored.
fn ignored(alloc: Global) -> HouseStep
    ensures { result ≡ record { sent = []; ignored = true } }
{
    HouseStep {
        sent: Listed::new(alloc),
        ignored: true,
    }
}

/// Packets are sent.
fn sends(sent: Listed<Datagram>) -> HouseStep
    ensures { result ≡ record { sent = sent; ignored = false } }
{
    HouseStep {
        sent,
        ignored: false,
    }
}

impl<'a, D: Disk> House<'a, D> {
    /// Opens the clearinghouse of a job over its checkpoint, and commits a new epoch: nobody is
    /// listed, and the root isn't granted. `limit` is how long a member may be silent. Refused, it
    /// gives the disk back, in this order: E72; E71 for a file that doesn't begin as a checkpoint;
    /// E73 for another version; E71 for one that is none; E70 for another job; E62 where the epochs
    /// or the commits are spent, before anything is written; E72 where a call of the commit failed,
    /// or one by which a checkpoint of the older form becomes one of the newer form. Takes no
    /// memory but for what it reads.
    pub fn open(
        alloc: Global,
        disk: D,
        job: &'a Job,
        limit: u64,
    ) -> Result<House<'a, D>, (HouseError, D)>
        ensures opened { IfOk result (λ h. IsOpened D.device D.planned job.now limit disk h) }
        ensures refused { IfErr result (λ e. IsRefusedOver D.device D.planned e.0 job.now disk e.1) }

        // Where a store of this job is read, it is opened, or the device failed, or no epoch or
        // commit is left.
        ensures alone { IfErr result (λ e. (n : ℕ) (r : Stored)
            → ReadsAsStore (bytes_of (D.device disk).file) n r → r.job ≡ job.now.number
            → (e.0 ≡ HouseError.Device) ⊎ (e.0 ≡ HouseError.Spent)) }
        // Where whatever a crash leaves has one current record, it has that one or the one of the
        // new epoch.
        ensures kept_back { IfErr result (λ e. (n : ℕ) (r : Stored) → KeepsRecord (D.device disk).file n r
            → KeepsOneOf (D.device e.1).file r (next_of r (r.epoch + 1) r.outcome)) }
    {
        match open_store(alloc, disk, job) {
            Ok((store, epoch)) => begin_epoch(alloc, store, epoch, job, limit),
            Err(refused) => Err(refused),
        }
    }

    /// What comes in a packet's bytes is done, by the kind of the packet. Bytes that are no packet
    /// are refused (E30 to E36), and nothing changes; a packet of another job, or to somebody else,
    /// is ignored. E80 where a new worker joins and 4,096 are listed, E62 where a grant or a commit
    /// can't be counted any more; nothing changes then. E72 where a call of the device failed, and
    /// E9 where there is no memory: both stop it, and a stopped one answers each call by what
    /// stopped it.
    pub fn on_bytes(&mut self, alloc: Global, bytes: &[u8]) -> Result<HouseStep, HouseError>
        ensures meets { HouseMeets D.device D.planned (calls.on_bytes self.old.job bytes.now self.old.state)
            result self.old self.new }
        ensures stopped { (s : StopOf) → self.old.state ≡ Stopped s → IsErrOf result (error_of_stop s)
            × (self.new ≡ self.old) }
    {
        if let Some(stop) = self.stop {
            return Err(stop.error());
        }
        let packet = match decode(alloc, bytes) {
            Ok(packet) => packet,
            Err(ReadError::Fault(fault)) => return Err(HouseError::Bytes(fault)),
            Err(ReadError::Memory) => {
                self.stop = Some(Stop::Memory);
                return Err(HouseError::Memory);
            }
        };
        match self.book.on_packet(alloc, self.job, &packet) {
            Ok(Act::Ignored) => Ok(ignored(alloc)),
            Ok(Act::Sends(sent)) => Ok(sends(sent)),
            Ok(Act::Records(outcome, sent)) => {
                if !commit_outcome(&mut self.book, &mut self.store, outcome) {
                    self.stop = Some(Stop::Device);
                    return Err(HouseError::Device);
                }
                Ok(sends(sent))
            }
            Ok(Act::Saves(saved)) => {
                if !commit_saved(&mut self.book, &mut self.store, saved) {
                    self.stop = Some(Stop::Device);
                    return Err(HouseError::Device);
                }
                Ok(sends(Listed::new(alloc)))
            }
            Err(HouseError::Memory) => {
                self.stop = Some(Stop::Memory);
                Err(HouseError::Memory)
            }
            Err(error) => Err(error),
        }
    }

    /// A moment comes: each live member that was last heard more than the limit before it is dead,
    /// and then the root's grant is settled. One that is no later than the last changes nothing.
    /// Refused only when out of memory (E9), which stops it, and where it is stopped.
    pub fn tick(&mut self, alloc: Global, now: u64) -> Result<HouseStep, HouseError>
        ensures meets { HouseMeets D.device D.planned (calls.tick self.old.job now self.old.state)
            result self.old self.new }
        ensures stopped { (s : StopOf) → self.old.state ≡ Stopped s → IsErrOf result (error_of_stop s)
            × (self.new ≡ self.old) }
    {
        if let Some(stop) = self.stop {
            return Err(stop.error());
        }
        match self.book.pass(alloc, self.job, now) {
            Ok(sent) => Ok(sends(sent)),
            Err(_) => {
                self.stop = Some(Stop::Memory);
                Err(HouseError::Memory)
            }
        }
    }

    /// The outcome, once there is one. Refused where the clearinghouse is stopped, by what stopped
    /// it.
    pub fn outcome(&self) -> Result<Option<Outcome>, HouseError>
        ensures { result ≡ calls.outcome self.now.state }
    {
        match self.stop {
            Some(stop) => Err(stop.error()),
            None => Ok(self.book.outcome),
        }
    }

    /// Gives the disk back.
    pub fn into_disk(self) -> D
        ensures { result ≡ self.entry.store.disk }
    {
        self.store.into_disk()
    }

    /// Arms the disk.
    pub fn arm(&mut self, calls: u64, bytes: Vec<u8>)
        ensures disk { self.new ≡ record self.old { store = record self.old.store { disk = self.new.store.disk } } }
        ensures armed { IsTrue (D.device self.old.store.disk).can_cut
            → D.device self.new.store.disk ≡ armed (D.device self.old.store.disk) calls bytes.items }
        ensures unmoved { (D.device self.old.store.disk).can_cut ≡ false → self.new ≡ self.old }
    {
        self.store.arm(calls, bytes);
    }

    /// The number of device calls that failed, modulo 2^64.
    pub fn failures(&self) -> u64
        ensures { result ≡ (D.device self.now.store.disk).failures }
    {
        self.store.failures()
    }

    /// Whether the disk can be armed and crashed.
    pub fn can_cut(&self) -> bool
        ensures { result ≡ (D.device self.now.store.disk).can_cut }
    {
        self.store.can_cut()
    }
}

/// The store of a job, opened, and the epoch that can begin.
fn open_store<D: Disk>(
    alloc: Global,
    disk: D,
    job: &Job,
) -> Result<(Store<D>, Epoch), (HouseError, D)>
    ensures found { IfOk result (λ x. IsFoundFor D.device D.planned job.now disk x.0 x.1) }
    ensures refused { IfErr result (λ e. IsRefusedOver D.device D.planned e.0 job.now disk e.1) }
    ensures alone { IfErr result (λ e. (n : ℕ) (r : Stored)
        → ReadsAsStore (bytes_of (D.device disk).file) n r → r.job ≡ job.now.number
        → (e.0 ≡ HouseError.Device) ⊎ (e.0 ≡ HouseError.Spent)) }
    ensures kept_back { IfErr result (λ e. (n : ℕ) (r : Stored) → KeepsRecord (D.device disk).file n r
        → KeepsContent (D.device e.1).file r) }
{
    let looked = match Store::look(alloc, disk, job.number()) {
        Ok(looked) => looked,
        Err((fault, disk)) => return Err((HouseError::from(fault), disk)),
    };
    let _sequence = looked.sequence();
    let Some(epoch) = looked.record().epoch.next() else {
        return Err((HouseError::Spent, looked.into_disk()));
    };
    match looked.open() {
        Ok(store) => Ok((store, epoch)),
        Err((fault, disk)) => Err((HouseError::from(fault), disk)),
    }
}

/// Commits a new epoch of a job, over its store.
fn begin_epoch<'a, D: Disk>(
    alloc: Global,
    store: Store<D>,
    epoch: Epoch,
    job: &'a Job,
    limit: u64,
) -> Result<House<'a, D>, (HouseError, D)>
    requires own { store.record.job ≡ job.now.number }
    ensures opened { IfOk result (λ h. (disk : D) → IsFoundFor D.device D.planned job.now disk store epoch
        → IsOpened D.device D.planned job.now limit disk h) }
    ensures refused { IfErr result (λ e. (disk : D) → IsFoundFor D.device D.planned job.now disk store epoch
        → IsRefusedOver D.device D.planned e.0 job.now disk e.1) }
    ensures alone { IfErr result (λ e. (e.0 ≡ HouseError.Device) ⊎ (e.0 ≡ HouseError.Spent)) }
    ensures kept_back { IfErr result (λ e. (disk : D) → IsFoundFor D.device D.planned job.now disk store epoch
        → (n : ℕ) (r : Stored) → KeepsRecord (D.device disk).file n r
        → KeepsOneOf (D.device e.1).file r (next_of r (r.epoch + 1) r.outcome)) }
{
    let mut store = store;
    let sequence = store.sequence();
    let kept = store.record();
    let outcome = kept.outcome;
    let saved = kept.saved.copied();
    match store.commit(LastEpoch::at(epoch), outcome) {
        Ok(()) => Ok(House {
            job,
            book: Book::opened(alloc, epoch, limit, outcome, sequence + 1, saved),
            store,
            stop: None,
        }),
        Err(fault) => Err((HouseError::from(fault), store.into_disk())),
    }
}

/// An outcome is committed, and then recorded; whether the device carried the commit out.
fn commit_outcome<D: Disk>(book: &mut Book, store: &mut Store<D>, outcome: Outcome) -> bool
    requires counted { book.old.sequence + 1 < 2 ^ 64 }
    requires stored { store.old
        ≡ record store.old {
          «record» = record store.old.record { epoch = book.old.epoch };
          sequence = book.old.sequence;
          ended = false;
        } }
    ensures done { result ≡ true → (book.new ≡ record book.old {
      outcome = Some outcome;
      root = None;
      sequence = book.old.sequence + 1;
    }) × Committed D.device D.planned
        (record store.old.record { outcome = Some outcome }) store.old store.new }
    ensures halted { result ≡ false → (book.new ≡ book.old)
        × Halted D.device D.planned (record store.old.record { outcome = Some outcome }) store.old store.new }
{
    match store.commit(LastEpoch::at(book.epoch), Some(outcome)) {
        Ok(()) => {
            book.record(outcome);
            true
        }
        Err(_) => false,
    }
}

/// Other saved values are committed, and then kept; whether the device carried the commit out. It
/// isn't compiled into the call that asks, which would make room for its values with every packet.
#[inline(never)]
fn commit_saved<D: Disk>(book: &mut Book, store: &mut Store<D>, saved: SavedTable) -> bool
    requires counted { book.old.sequence + 1 < 2 ^ 64 }
    requires stored { store.old ≡ record store.old { sequence = book.old.sequence; ended = false } }
    ensures done { result ≡ true → (book.new ≡ record book.old { saved = saved; sequence = book.old.sequence + 1 })
        × Committed D.device D.planned (with_saved store.old.record saved) store.old store.new }
    ensures halted { result ≡ false → (book.new ≡ book.old)
        × Halted D.device D.planned (with_saved store.old.record saved) store.old store.new }
{
    let values = saved.copied();
    match store.save(values) {
        Ok(()) => {
            book.keep_saved(saved);
            true
        }
        Err(_) => false,
    }
}
