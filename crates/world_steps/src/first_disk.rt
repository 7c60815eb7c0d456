//! The disk over which a run of a job begins.
ghost use Rattle.std.specs.Prelude.{◌≡◌, ◌≢◌, IfErr, IfOk};
ghost use Rattle.agreement_laws.specs.Agreement.{AllSavedAgree};
ghost use Rattle.disk.specs.Crash.{Only, Shrinks};
ghost use Rattle.disk.specs.File.{CrashLeaves, bytes_of};
ghost use Rattle.job_store.specs.Failed.{HasFailed};
ghost use Rattle.world_steps.specs.Agrees.{StoredAgree};
ghost use Rattle.world_steps.specs.First.{IsFirst, IsFirstWith};
ghost use Rattle.world_steps.specs.Found.{IsFoundOn, IsRefusedOn, StillAgrees};
ghost use Rattle.world_steps.specs.Runs.{IsFormattedFor};
ghost use Rattle.world_steps.specs.Seats.{IsStill};

use crate::parts::NoMemory;
use checkpoint::StoreError;
use disk::{Disk, MemDisk, SteadyDisk};
use ids::Outcome;
use job_store::open_store;
use saved_values::SavedTable;
use serial_meaning::Job;
use std::alloc::Global;
use std::marker::Model;

/// A disk over which a run of a job can begin: it isn't armed, all of it is there for good, and it
/// is the job's checkpoint, without an outcome. The values that are saved there are those that an
/// earlier run of the job saved: no test tells that they are the job's. Contracts see the job, the
/// disk and these values.
#[derive(Drop)]
pub struct FirstDisk<'a, D: SteadyDisk + Drop = MemDisk> {
    job: &'a Job,
    disk: D,
    saved: SavedTable,
}

impl<'a, D: SteadyDisk + Drop> Model for FirstDisk<'a, D> {
    ghost use Rattle.task_tree.specs.Codes.{program_codes};
    ghost use Rattle.world_steps.specs.First.{FirstOf, IsFirstWith};

    ghost Value = { FirstOf D };

    ghost coded = { Prim.hlevel program_codes };

    ghost view = { λ f. record { job = f.job.now; disk = f.disk; saved = f.saved } };

    ghost invariant = { λ f. IsFirstWith f.job.now (D.device f.disk) f.saved };
}

/// What was found on a disk: the outcome of its job, or that a run can begin.
#[derive(Drop)]
pub enum Found<'a, D: SteadyDisk + Drop> {
    Kept(Outcome, D),
    Begins(FirstDisk<'a, D>),
}

impl<'a> FirstDisk<'a, MemDisk> {
    /// A disk in memory, formatted for a job; nothing is saved there. Refused only when out of
    /// memory (E9).
    pub fn formatted(alloc: Global, job: &'a Job) -> Result<FirstDisk<'a, MemDisk>, NoMemory>
        ensures formatted { IfOk result (λ f. (f.job ≡ job.now) × IsFormattedFor job.now (⟦<MemDisk as Disk>⟧.device f.disk)) }
        ensures agree { IfOk result (λ f. StoredAgree job.now (⟦<MemDisk as Disk>⟧.device f.disk)) }
    {
        let mut disk = MemDisk::new(alloc);
        match checkpoint::format(&mut disk, job.number()) {
            Ok(()) => Ok(FirstDisk {
                job,
                disk,
                saved: SavedTable::new(),
            }),
            Err(_) => Err(NoMemory),
        }
    }
}

impl<'a, D: SteadyDisk + Drop> FirstDisk<'a, D> {
    /// What a disk holds of a job. What is armed is disarmed, as by a crash, and what isn't there
    /// for good is synced; where it is empty then, the job's checkpoint is made. Refused, it gives
    /// the disk back, in this order: E72; E71 for a file that doesn't begin as a checkpoint; E73
    /// for another version; E71 for one that is none; E70 for another job; E62 where the sequence
    /// of one of the older form is spent. Where a byte is there, nothing is written but what makes
    /// a checkpoint of the older form one of the newer form.
    pub fn found(alloc: Global, job: &'a Job, disk: D) -> Result<Found<'a, D>, (StoreError, D)>
        ensures found { IfOk result (IsFoundOn D.device job.now (D.device disk)) }
        ensures agree { IfOk result (StillAgrees D.device job.now (D.device disk)) }
        ensures refused { IfErr result (λ e. e.0 ≢ StoreError.Device → IsRefusedOn e.0 (D.device disk).file job.now.number) }
        ensures failed { IfErr result (λ e. e.0 ≡ StoreError.Device → HasFailed (D.device disk) (D.device e.1)) }

        // A disk that the device doesn't refuse, but what it holds, keeps that.
        ensures unchanged { IfErr result (λ e. e.0 ≢ StoreError.Device
            → Shrinks (CrashLeaves (D.device disk).file) (CrashLeaves (D.device e.1).file)) }
    {
        let disk = settled(disk)?;
        let store = open_store(alloc, disk, job.number())?;
        let kept = store.record().outcome;
        let saved = store.record().saved.copied();
        let disk = settled(store.into_disk())?;
        match kept {
            Some(outcome) => Ok(Found::Kept(outcome, disk)),
            None => Ok(Found::Begins(FirstDisk { job, disk, saved })),
        }
    }

    /// A disk that is one over which a run of the job can begin, on which these values are saved.
    pub fn of(job: &'a Job, disk: D, saved: SavedTable) -> FirstDisk<'a, D>
        requires { IsFirstWith job.now (D.device disk) saved }
        ensures job { result.job ≡ job.now }
        ensures disk { result.disk ≡ disk }
        ensures saved { result.saved ≡ saved }
    {
        FirstDisk { job, disk, saved }
    }

    /// The job.
    pub fn job(&self) -> &'a Job
        ensures { result.now ≡ self.now.job }
    {
        self.job
    }

    /// The disk.
    pub fn disk(&self) -> &D
        ensures same { result.now ≡ self.now.disk }
        ensures first { IsFirst self.now.job (D.device self.now.disk) }
    {
        &self.disk
    }

    /// The values that are saved there: those with which a run goes on. Where they agree, all that
    /// a crash leaves of the disk does.
    pub fn saved(&self) -> &SavedTable
        ensures same { result.now ≡ self.now.saved }
        ensures first { IsFirstWith self.now.job (D.device self.now.disk) self.now.saved }
        ensures agree { AllSavedAgree self.now.job self.now.saved → StoredAgree self.now.job (D.device self.now.disk) }
    {
        &self.saved
    }

    /// The job and the disk.
    pub(crate) fn into_parts(self) -> (&'a Job, D)
        ensures job { result.0.now ≡ self.entry.job }
        ensures disk { result.1 ≡ self.entry.disk }
        ensures first { IsFirst self.entry.job (D.device result.1) }
    {
        let FirstDisk { job, disk, .. } = self;
        (job, disk)
    }
}

/// Disarms a disk, as by a crash, and has all of it there for good.
fn settled<D: SteadyDisk + Drop>(disk: D) -> Result<D, (StoreError, D)>
    ensures still { IfOk result (λ d. IsStill (D.device d)) }
    ensures passed { IfOk result (λ d. (D.device d).failures ≡ (D.device disk).failures) }
    ensures only { IfOk result (λ d. Only (bytes_of (D.device d).file) (CrashLeaves (D.device d).file)) }
    ensures leaves { IfOk result (λ d. Shrinks (CrashLeaves (D.device disk).file) (CrashLeaves (D.device d).file)) }
    ensures refused { IfErr result (λ e. e.0 ≡ StoreError.Device) }
    ensures failed { IfErr result (λ e. HasFailed (D.device disk) (D.device e.1)) }
{
    let mut disk = disk;
    disk.crash();
    match disk.sync() {
        Ok(()) => Ok(disk),
        Err(_) => Err((StoreError::Device, disk)),
    }
}
