//! The clearinghouse of a host.
ghost use Rattle.std.specs.Prelude.{◌≡◌, ◌⊎◌, ◌+◌, ◌<◌, ◌==◌, ℕ, [], Err, IfErr, IfOk, OnOk, length};
ghost use Rattle.checkpoint.specs.Store.{KeepsRecord, ReadsAsStore};
ghost use Rattle.disk.specs.File.{bytes_of};
ghost use Rattle.checkpoint.specs.declared.record.CheckpointRecord.{CheckpointRecord as Stored};
ghost use Rattle.checkpoint.specs.Commit.{next_of};
ghost use Rattle.clearinghouse.specs.Calls as calls;
ghost use Rattle.clearinghouse.specs.Meeting.{HouseMeets, IsOpened, IsRefusedOver, KeepsOneOf};
ghost use Rattle.actors.specs.Actors.{HouseCalled, HouseTells, IsGiven, MeetsStopped};
ghost use Rattle.actors.specs.declared.error.HouseCallError.TheVariants.{Unsent};

use crate::error::HouseCallError;
use crate::outbox::Outbox;
use clearinghouse::{House, HouseError, HouseStep};
use disk::Disk;
use serial_meaning::Job;
use std::alloc::Global;
use std::marker::Model;

/// The clearinghouse of a host, over a disk, and the packets that wait for the host. Contracts see
/// the clearinghouse with its job and its checkpoint's store, and these packets in their order.
///
/// A call that may send is refused where packets wait (`Unsent`), and changes nothing. Else it is
/// one case of the protocol: what the clearinghouse sends waits then, and it is told whether a
/// packet was ignored, or why the clearinghouse refuses the call.
#[derive(Drop)]
pub struct HouseActor<'a, D: Disk> {
    alloc: Global,
    house: House<'a, D>,
    outbox: Outbox,
}

impl<'a, D: Disk> Model for HouseActor<'a, D> {
    ghost use Rattle.task_tree.specs.Codes.{program_codes};
    ghost use Rattle.actors.specs.Actors.{HouseActorOf};

    ghost Value = { HouseActorOf D };

    ghost coded = { Prim.hlevel program_codes };

    ghost view = { λ a. record { on = a.house; waits = a.outbox } };
}

impl<'a, D: Disk> HouseActor<'a, D> {
    /// Opens the clearinghouse of a job over its checkpoint, as `House::open` does. No packet
    /// waits. Refused, it gives the disk back.
    pub fn open(
        alloc: Global,
        job: &'a Job,
        disk: D,
        limit: u64,
    ) -> Result<HouseActor<'a, D>, (HouseError, D)>
        ensures opened { IfOk result (λ a. IsOpened D.device D.planned job.now limit disk a.on × (a.waits ≡ [])) }
        ensures refused { IfErr result (λ e. IsRefusedOver D.device D.planned e.0 job.now disk e.1) }
        ensures alone { IfErr result (λ e. (n : ℕ) (r : Stored)
            → ReadsAsStore (bytes_of (D.device disk).file) n r → r.job ≡ job.now.number
            → (e.0 ≡ HouseError.Device) ⊎ (e.0 ≡ HouseError.Spent)) }
        ensures kept_back { IfErr result (λ e. (n : ℕ) (r : Stored) → KeepsRecord (D.device disk).file n r
            → KeepsOneOf (D.device e.1).file r (next_of r (r.epoch + 1) r.outcome)) }
    {
        let house = House::open(alloc, disk, job, limit)?;
        Ok(HouseActor {
            alloc,
            house,
            outbox: Outbox::new(alloc),
        })
    }

    /// The clearinghouse.
    pub fn house(&self) -> &House<'a, D>
        ensures { result.now ≡ self.now.on }
    {
        &self.house
    }

    /// Whether no packet waits.
    pub fn is_clear(&self) -> bool
        ensures { result ≡ (length self.now.waits == 0) }
    {
        self.outbox.is_empty()
    }

    /// Copies the first packet that waits to a buffer that is long enough, and it waits no longer.
    /// How many bytes it has; 0 where none waits.
    pub fn give(&mut self, buffer: &mut [u8]) -> usize
        ensures given { IsGiven result buffer.old buffer.new self.old.waits self.new.waits }
        ensures house { self.new.on ≡ self.old.on }
    {
        self.outbox.give(buffer)
    }

    /// What comes in a packet's bytes is done: the case of `House::on_bytes`.
    pub fn take(&mut self, bytes: &[u8]) -> Result<bool, HouseCallError>
        ensures unsent { 0 < length self.old.waits → (result ≡ Err Unsent) × (self.new ≡ self.old) }
        ensures called { self.old.waits ≡ [] → HouseCalled (MeetsStopped (HouseMeets D.device D.planned (calls.on_bytes
            self.old.on.job bytes.now self.old.on.state))) result self.old self.new }
    {
        self.check_clear()?;
        let answer = self.house.on_bytes(self.alloc, bytes);
        self.tell(answer)
    }

    /// A moment comes: the case of `House::tick`.
    pub fn tick(&mut self, now: u64) -> Result<bool, HouseCallError>
        ensures unsent { 0 < length self.old.waits → (result ≡ Err Unsent) × (self.new ≡ self.old) }
        ensures called { self.old.waits ≡ [] → HouseCalled (MeetsStopped (HouseMeets D.device D.planned (calls.tick
            self.old.on.job now self.old.on.state))) result self.old self.new }
    {
        self.check_clear()?;
        let answer = self.house.tick(self.alloc, now);
        self.tell(answer)
    }

    /// Gives the disk back.
    pub fn into_disk(self) -> D
        ensures { result ≡ self.entry.on.store.disk }
    {
        let HouseActor { house, .. } = self;
        house.into_disk()
    }

    /// A call that may send is refused where packets wait.
    fn check_clear(&self) -> Result<(), HouseCallError>
        ensures ok { OnOk result (self.now.waits ≡ []) }
        ensures err { IfErr result (λ e. (e ≡ Unsent) × (0 < length self.now.waits)) }
    {
        if self.outbox.is_empty() {
            Ok(())
        } else {
            Err(HouseCallError::Unsent)
        }
    }

    /// What a call sends waits, and what is told of it is answered.
    fn tell(&mut self, answer: Result<HouseStep, HouseError>) -> Result<bool, HouseCallError>
        ensures told { HouseTells answer result self.old.waits self.new.waits }
        ensures house { self.new.on ≡ self.old.on }
    {
        match answer {
            Ok(step) => {
                let HouseStep { sent, ignored } = step;
                self.outbox.keep(sent);
                Ok(ignored)
            }
            Err(error) => Err(HouseCallError::House(error)),
        }
    }
}
