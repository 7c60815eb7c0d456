ghost use Rattle.std.specs.Prelude.{◌≡◌, ◌≢◌, ◌⊎◌, ◌+◌, ◌++◌, false, if◌then◌else◌, List, ℕ, length, IsTrue, IfOk, IfErr};
ghost use Rattle.disk.specs.Device.{armed};
ghost use Rattle.disk.specs.File.{bytes_of};
ghost use Rattle.checkpoint.specs.Calls.{DeviceCall, Passed, Stopped};
ghost use Rattle.checkpoint.specs.Commit.{IsOpening, next_of, opening, with_saved};
ghost use Rattle.checkpoint.specs.Committing.{Commits, Opens};
ghost use Rattle.checkpoint.specs.Store.{IsRefused, KeepsContent, KeepsItself, KeepsRecord, ReadsAsStore};
ghost use Rattle.checkpoint.specs.declared.record.CheckpointRecord.{CheckpointRecord as StoredRecord};

use crate::body::spell;
use crate::look::{Found, SIZE, look};
use crate::migrate::migrate;
use crate::publish::publish;
use crate::record::SlotId;
use crate::{CheckpointRecord, LastEpoch, StoreError};
use disk::Disk;
use ids::Outcome;
use saved_values::SavedTable;
use std::alloc::Global;
use std::marker::Model;

/// A store that was read, and isn't opened yet. Contracts see its disk, the current record, its
/// sequence and where it stands.
#[derive(Drop)]
pub struct Looked<D: Disk> {
    disk: D,
    current: CheckpointRecord,
    sequence: u64,
    slot: SlotId,
    // Whether the gate beside it reads as open.
    gate: bool,
}

impl<D: Disk> Model for Looked<D> {
    ghost use Rattle.disk.specs.File.{bytes_of};
    ghost use Rattle.checkpoint.specs.Store.{IsHeld, LookedAt};

    ghost Value = { LookedAt D };

    ghost view = { λ s. record { disk = s.disk; «record» = s.current; sequence = s.sequence; slot = s.slot } };

    ghost invariant = { λ s. IsHeld (bytes_of (D.device s.disk).file) s.slot s.sequence s.current s.gate };
}

/// An open store. Contracts see its disk, the current record and its sequence, and whether it has
/// ended: a call of the device failed, and each commit from then on answers E72.
#[derive(Drop)]
pub struct Store<D: Disk> {
    disk: D,
    current: CheckpointRecord,
    sequence: u64,
    // Whether the record stands in the second slot.
    second: bool,
    // Whether the gate of the other slot reads as open.
    gate: bool,
    ended: bool,
}

impl<D: Disk> Model for Store<D> {
    ghost use Rattle.std.specs.Prelude.{◌≡◌, false};
    ghost use Rattle.disk.specs.File.{bytes_of};
    ghost use Rattle.checkpoint.specs.Store.{IsHeld, Opened};
    ghost use Rattle.checkpoint.specs.declared.record.SlotId.TheVariants.{Large};

    ghost Value = { Opened D };

    ghost view = { λ s. record { disk = s.disk; «record» = s.current; sequence = s.sequence; ended = s.ended } };

    ghost invariant = { λ s. s.ended ≡ false → IsHeld (bytes_of (D.device s.disk).file) (Large s.second) s.sequence s.current s.gate };
}

// Where a large slot begins.
fn place(second: bool) -> usize
    ensures { result ≡ (if second then 2248 else 136) }
{
    if second { 2248 } else { 136 }
}

impl<D: Disk> Looked<D> {
    /// The current record.
    pub fn record(&self) -> &CheckpointRecord
        ensures same { result.now ≡ self.now.record }
        ensures reads { ReadsAsStore (bytes_of (D.device self.now.disk).file) self.now.sequence self.now.record }
    {
        &self.current
    }

    /// The sequence of the current record.
    pub fn sequence(&self) -> u64
        ensures { result ≡ self.now.sequence }
    {
        self.sequence
    }

    /// Opens the store. One of the older form becomes one of the newer form, by eight device calls,
    /// and its sequence counts from 0 then; else no call is made. Refused, it gives the disk back:
    /// E62 where the sequence of a store of the older form is spent, before any call, and E72.
    pub fn open(self) -> Result<Store<D>, (StoreError, D)>
        ensures opened { IfOk result (λ s. (s.ended ≡ false) × (s.record ≡ self.record)
            × ReadsAsStore (bytes_of (D.device s.disk).file) s.sequence s.record) }
        ensures calls { IfOk result (λ s. (calls : List DeviceCall)
            × IsOpening (bytes_of (D.device self.disk).file) self.sequence self.record s.sequence (opening ++ calls)
            × Passed calls (D.planned self.disk) (D.device self.disk) (D.device s.disk)
            × ((i : ℕ) → D.planned s.disk i ≡ D.planned self.disk (i + length calls))) }

        // Where whatever a crash leaves has this record, it stays so, also where the device fails.
        ensures kept { IfOk result (λ s. KeepsRecord (D.device self.disk).file self.sequence self.record
            → KeepsItself D.device s) }
        ensures kept_back { IfErr result (λ e. KeepsRecord (D.device self.disk).file self.sequence self.record
            → KeepsContent (D.device e.1).file self.record) }
        ensures refused { IfErr result (λ e. (e.0 ≡ StoreError.Spent) ⊎ (e.0 ≡ StoreError.Device)) }
        ensures spent { IfErr result (λ e. e.0 ≡ StoreError.Spent
            → IsRefused StoreError.Spent (bytes_of (D.device self.disk).file) self.record.job × (e.1 ≡ self.disk)) }
        ensures stopped { IfErr result (λ e. e.0 ≡ StoreError.Device → (m : ℕ) × (calls : List DeviceCall)
            × IsOpening (bytes_of (D.device self.disk).file) self.sequence self.record m (opening ++ calls)
            × Stopped calls (D.planned self.disk) (D.device self.disk) (D.device e.1)) }
    {
        let Looked {
            disk,
            current,
            sequence,
            slot,
            gate,
        } = self;
        match slot {
            SlotId::Large(second) => Ok(Store {
                disk,
                current,
                sequence,
                second,
                gate,
                ended: false,
            }),
            SlotId::Small(second) => {
                if sequence == u64::MAX {
                    return Err((StoreError::Spent, disk));
                }
                let mut disk = disk;
                match migrate(&mut disk, second, gate, sequence, &current) {
                    Ok(()) => Ok(Store {
                        disk,
                        current,
                        sequence: 0,
                        second: false,
                        gate: false,
                        ended: false,
                    }),
                    Err(_) => Err((StoreError::Device, disk)),
                }
            }
        }
    }

    /// Gives the disk back.
    pub fn into_disk(self) -> D
        ensures { result ≡ self.disk }
    {
        self.disk
    }
}

impl<D: Disk> Store<D> {
    /// Looks for the store of a job, by one read. Refused, it gives the disk back, in this order:
    /// E72; E71 for a file that doesn't begin as a store; E73 for another version; E71 for one that
    /// is no store; E70 for another job.
    pub fn look(alloc: Global, disk: D, job: u64) -> Result<Looked<D>, (StoreError, D)>
        ensures found { IfOk result (λ s. ReadsAsStore (bytes_of (D.device disk).file) s.sequence s.record
            × (s.record.job ≡ job)) }
        ensures calls { IfOk result (λ s. Passed opening (D.planned disk) (D.device disk) (D.device s.disk)) }
        ensures plan { IfOk result (λ s. (i : ℕ) → D.planned s.disk i ≡ D.planned disk (i + length opening)) }

        // Where whatever a crash leaves has one current record, that is the one that is found, and
        // it stays so.
        ensures kept { IfOk result (λ s. (n : ℕ) (r : StoredRecord) → KeepsRecord (D.device disk).file n r
            → KeepsRecord (D.device s.disk).file s.sequence s.record × (s.record ≡ r)) }
        ensures kept_back { IfErr result (λ e. (n : ℕ) (r : StoredRecord) → KeepsRecord (D.device disk).file n r
            → KeepsRecord (D.device e.1).file n r) }
        ensures plan_back { IfErr result (λ e. (i : ℕ) → D.planned e.1 i ≡ D.planned disk (i + length opening)) }
        ensures alone { IfErr result (λ e. (n : ℕ) (r : StoredRecord)
            → ReadsAsStore (bytes_of (D.device disk).file) n r → r.job ≡ job
            → (e.0 ≡ StoreError.Device) ⊎ (e.0 ≡ StoreError.Spent)) }
        ensures refused { IfErr result (λ e. e.0 ≢ StoreError.Device
            → IsRefused e.0 (bytes_of (D.device disk).file) job
            × Passed opening (D.planned disk) (D.device disk) (D.device e.1)) }
        ensures stopped { IfErr result (λ e. e.0 ≡ StoreError.Device
            → Stopped opening (D.planned disk) (D.device disk) (D.device e.1)) }
    {
        let mut disk = disk;
        let bytes = match disk.read(alloc, SIZE + 1) {
            Ok(bytes) => bytes,
            Err(_) => return Err((StoreError::Device, disk)),
        };
        match look(&bytes) {
            Ok(found) if found.record.job != job => Err((StoreError::JobMismatch, disk)),
            Ok(found) => Ok(Looked {
                disk,
                current: found.record,
                sequence: found.sequence,
                slot: found.slot,
                gate: found.gate,
            }),
            Err(fault) => Err((fault, disk)),
        }
    }

    /// Opens the store of a job, by one read; one of the older form becomes one of the newer form,
    /// by eight further calls, and its sequence counts from 0 then. Refused, it gives the disk
    /// back, in this order: E72; E71 for a file that doesn't begin as a store; E73 for another
    /// version; E71 for one that is no store; E70 for another job; E62 where the sequence of one of
    /// the older form is spent; E72.
    pub fn open(alloc: Global, disk: D, job: u64) -> Result<Store<D>, (StoreError, D)>
        ensures { Opens D.device D.planned job disk result }
    {
        match Store::look(alloc, disk, job) {
            Ok(looked) => looked.open(),
            Err(refused) => Err(refused),
        }
    }

    /// Commits a record of the job, by six device calls; the values that are saved stay. E72 where
    /// one of them fails, which ends the store, and in a store that has ended; E62 where the
    /// sequence is spent.
    pub fn commit(&mut self, epoch: LastEpoch, outcome: Option<Outcome>) -> Result<(), StoreError>
        ensures { Commits D.device D.planned (next_of self.old.record epoch outcome) result self.old self.new }
    {
        let saved = self.current.saved.copied();
        self.put(epoch, outcome, saved)
    }

    /// Commits other values that are saved; the epoch and the outcome stay. Refused as `commit` is.
    pub fn save(&mut self, saved: SavedTable) -> Result<(), StoreError>
        ensures { Commits D.device D.planned (with_saved self.old.record saved) result self.old self.new }
    {
        let (epoch, outcome) = (self.current.epoch, self.current.outcome);
        self.put(epoch, outcome, saved)
    }

    /// Commits a record of the job, by six device calls.
    fn put(
        &mut self,
        epoch: LastEpoch,
        outcome: Option<Outcome>,
        saved: SavedTable,
    ) -> Result<(), StoreError>
        ensures { Commits D.device D.planned (with_saved (next_of self.old.record epoch outcome) saved)
            result self.old self.new }
    {
        if self.ended {
            return Err(StoreError::Device);
        }
        if self.sequence == u64::MAX {
            return Err(StoreError::Spent);
        }
        let body = spell(self.sequence + 1, self.current.job, epoch, &outcome, &saved);
        match publish(&mut self.disk, place(!self.second), self.gate, &body) {
            Ok(()) => {
                self.current.epoch = epoch;
                self.current.outcome = outcome;
                self.current.saved = saved;
                self.sequence += 1;
                self.second = !self.second;
                self.gate = true;
                Ok(())
            }
            Err(_) => {
                self.ended = true;
                Err(StoreError::Device)
            }
        }
    }

    /// The current record. Up to the end of the store it is what a read gives.
    pub fn record(&self) -> &CheckpointRecord
        ensures same { result.now ≡ self.now.record }
        ensures reads { self.now.ended ≡ false → ReadsAsStore (bytes_of (D.device self.now.disk).file)
            self.now.sequence self.now.record }
    {
        &self.current
    }

    /// The sequence of the current record: how many were committed since the store was made, or
    /// became one of the newer form.
    pub fn sequence(&self) -> u64
        ensures { result ≡ self.now.sequence }
    {
        self.sequence
    }

    /// Arms the disk.
    pub fn arm(&mut self, calls: u64, bytes: Vec<u8>)
        ensures disk { self.new ≡ record self.old { disk = self.new.disk } }
        ensures armed { IsTrue (D.device self.old.disk).can_cut
            → D.device self.new.disk ≡ armed (D.device self.old.disk) calls bytes.items }
        ensures unmoved { (D.device self.old.disk).can_cut ≡ false → self.new ≡ self.old }
    {
        self.disk.arm(calls, bytes);
    }

    /// The number of device calls that failed, modulo 2^64.
    pub fn failures(&self) -> u64
        ensures { result ≡ (D.device self.now.disk).failures }
    {
        self.disk.failures()
    }

    /// Whether the disk can be armed and crashed.
    pub fn can_cut(&self) -> bool
        ensures { result ≡ (D.device self.now.disk).can_cut }
    {
        self.disk.can_cut()
    }

    /// Gives the disk back.
    pub fn into_disk(self) -> D
        ensures { result ≡ self.disk }
    {
        self.disk
    }
}
