//! The clearinghouse at its place, over its disk.
ghost use Rattle.std.specs.Prelude.{◌≡◌, true, false, [], IfOk, None, OnErr, Some, option_copied};
ghost use Rattle.disk.specs.Device.{armed as armed_disk, crashed as crashed_disk};
ghost use Rattle.serial_meaning.specs.Job.{JobOf};
ghost use Rattle.clearinghouse.specs.Calls.{passes};
ghost use Rattle.clearinghouse.specs.Cases.{on_packet};
ghost use Rattle.clearinghouse.specs.House.{HouseOf, Open, Stopped};
ghost use Rattle.clearinghouse.specs.Meeting.{IsHouseOn};
ghost use Rattle.clearinghouse.specs.Steps.{Does};
ghost use Rattle.clearinghouse.specs.declared.parts.Stop.{Stop as StopOf};
ghost use Rattle.clearinghouse.specs.declared.parts.Stop.TheVariants as by;
ghost use Rattle.world_steps.specs.Coming.{Answered, AnsweredIf, HasCome, IsReply, RestartComes, answer_to, closed_at, is_open_at, replying, seat_of, stop_by as stopping_by, unopened_at};
ghost use Rattle.world_steps.specs.Runs.{IsFormattedFor};
ghost use Rattle.world_steps.specs.Seats.{Happens, CutHappens, DeliversPacket, IsOf, Seats, disk_of, fallen, house_at, replied};
ghost use Rattle.world_steps.specs.Steps.{Applies};
ghost use Rattle.world_steps.specs.World.{Down, IsUp, WorldOf, recorded_at};

use crate::first_disk::FirstDisk;
use crate::parts::NoMemory;
use clearinghouse::{House, HouseError, HouseStep, Stop};
use codec::Datagram;
use disk::{Disk, SteadyDisk};
use event_script::HouseEvent;
use ids::{Listed, Outcome};
use serial_meaning::Job;
use std::alloc::Global;
use std::marker::Model;
use std::mem;

/// How long a member may be silent.
const SILENCE: u64 = 500;

/// It is down; or stopped after it lost what it held; or up, open or stopped.
#[derive(Drop)]
enum HouseState<'a, D: SteadyDisk + Drop> {
    Fallen(D),
    Halted(Stop, D),
    Up(House<'a, D>),
    /// Within a call: what stood here is being changed.
    Away,
}

/// The clearinghouse of a job, wherever it stands, and its disk. Contracts see the job, where it
/// stands, and the device.
#[derive(Drop)]
pub struct HouseSlot<'a, D: SteadyDisk + Drop> {
    job: &'a Job,
    stand: HouseState<'a, D>,
}

impl<'a, D: SteadyDisk + Drop> Model for HouseSlot<'a, D> {
    ghost use Rattle.task_tree.specs.Codes.{program_codes};
    ghost use Rattle.world_steps.specs.Seats.{IsSeat, HouseSlotOf, disk_of, house_at};

    ghost Value = { HouseSlotOf };

    ghost coded = { Prim.hlevel program_codes };

    ghost view = { λ s. record { job = s.job.now; house = house_at s.stand; disk = disk_of D.device s.stand } };

    ghost invariant = { λ s. IsSeat D.device s.job.now s.stand };
}

/// What the clearinghouse replies to an event: why it refuses, if it does, and the packets that it
/// sends.
#[derive(Drop)]
pub struct HouseReply {
    pub refused: Option<HouseError>,
    pub sent: Listed<Datagram>,
}

impl<'a, D: SteadyDisk + Drop> HouseSlot<'a, D> {
    /// It is down, over the disk with which a run begins.
    pub fn over(first: FirstDisk<'a, D>) -> HouseSlot<'a, D>
        ensures { result ≡ record { job = first.entry.job; house = Down; disk = D.device first.entry.disk } }
    {
        let (job, disk) = first.into_parts();
        HouseSlot {
            job,
            stand: HouseState::Fallen(disk),
        }
    }

    /// Its disk.
    pub fn into_disk(self) -> D
        ensures { D.device result ≡ self.entry.disk }
    {
        let HouseSlot { job, stand } = self;
        disk_in(job, stand)
    }

    /// The outcome that an open clearinghouse has recorded.
    pub fn outcome(&self) -> Option<Outcome>
        ensures { result ≡ recorded_at self.now.house }
    {
        match &self.stand {
            HouseState::Up(house) => match house.outcome() {
                Ok(outcome) => outcome,
                Err(_) => None,
            },
            HouseState::Fallen(_) | HouseState::Halted(_, _) | HouseState::Away => None,
        }
    }

    /// Whether its disk can be cut.
    pub fn can_cut(&self) -> bool
        ensures { result ≡ self.now.disk.can_cut }
    {
        match &self.stand {
            HouseState::Fallen(disk) | HouseState::Halted(_, disk) => disk.can_cut(),
            HouseState::Up(house) => house.can_cut(),
            HouseState::Away => false,
        }
    }

    /// Whether an event applies, with the packet that it delivers.
    pub fn applies(&self, event: HouseEvent, packet: Option<&Datagram>) -> bool
        ensures yes { result ≡ true → (w : WorldOf) → Seats self.now w
            → DeliversPacket event (option_copied packet.entry) w
            → Applies self.now.job event self.now.house w }
        ensures no { result ≡ false → (w : WorldOf) → Seats self.now w
            → DeliversPacket event (option_copied packet.entry) w → Applies self.now.job event self.now.house w
            → ⊥ }
    {
        let open = is_open(&self.stand);
        match event {
            HouseEvent::Deliver(_) => open && packet.is_some(),
            HouseEvent::Tick(_) => open,
            HouseEvent::Restart => !open,
        }
    }

    /// An event comes, with the packet that it delivers; one that doesn't apply changes nothing.
    /// Refused only when out of memory: then the event applies, and the clearinghouse is stopped.
    pub fn meet(
        &mut self,
        alloc: Global,
        event: HouseEvent,
        packet: Option<&Datagram>,
    ) -> Result<HouseReply, NoMemory>
        ensures ok { IfOk result (λ r. (w : WorldOf) → Seats self.old w
            → DeliversPacket event (option_copied packet.entry) w
            → Happens self.old.job event w (replied r self.new w)) }
        ensures job { self.new.job ≡ self.old.job }
        ensures stopped { OnErr result (self.new ≡ record self.old { house = IsUp (Stopped by.Memory) }) }
        ensures applied { OnErr result ((w : WorldOf) → Seats self.old w
            → DeliversPacket event (option_copied packet.entry) w
            → Applies self.old.job event self.old.house w) }
    {
        come(alloc, self.job, &mut self.stand, event, packet)
    }

    /// An event is cut off: after so many device calls the clearinghouse is stopped, and what isn't
    /// on the disk becomes these bytes. One that doesn't apply changes nothing. Refused only when
    /// out of memory: then the event applies, and the clearinghouse is stopped.
    pub fn cut(
        &mut self,
        alloc: Global,
        calls: u64,
        bytes: Vec<u8>,
        event: HouseEvent,
        packet: Option<&Datagram>,
    ) -> Result<HouseReply, NoMemory>
        requires can_cut { self.old.disk.can_cut ≡ true }
        ensures ok { IfOk result (λ r. (w : WorldOf) → Seats self.old w
            → DeliversPacket event (option_copied packet.entry) w
            → CutHappens self.old.job (record { calls = calls; bytes = bytes.items; event = event }) w
            (replied r self.new w)) }
        ensures job { self.new.job ≡ self.old.job }
        ensures stopped { OnErr result (self.new ≡ record self.old { house = IsUp (Stopped by.Memory) }) }
        ensures applied { OnErr result ((w : WorldOf) → Seats self.old w
            → DeliversPacket event (option_copied packet.entry) w
            → Applies self.old.job event self.old.house w) }
    {
        if !self.applies(event, packet) {
            return Ok(silent(alloc));
        }
        let stand = mem::replace(&mut self.stand, HouseState::Away);
        let mut stand = armed(self.job, stand, calls, bytes);
        let reply = come(alloc, self.job, &mut stand, event, packet);
        self.stand = HouseState::Halted(stop_by(&reply), crashed(self.job, stand));
        reply
    }

    /// It loses its memory, if it is up. What it wrote is on the disk for good, so a crash changes
    /// nothing there.
    pub fn fall(&mut self)
        ensures { self.new ≡ fallen self.old }
    {
        let stand = mem::replace(&mut self.stand, HouseState::Away);
        self.stand = HouseState::Fallen(disk_in(self.job, stand));
    }

    /// It finds no memory, and is stopped.
    pub fn lack_memory(&mut self)
        ensures { self.new ≡ record self.old { house = IsUp (Stopped by.Memory) } }
    {
        let stand = mem::replace(&mut self.stand, HouseState::Away);
        self.stand = HouseState::Halted(Stop::Memory, disk_in(self.job, stand));
    }
}

/// Whether it is open.
fn is_open<D: SteadyDisk + Drop>(stand: &HouseState<'_, D>) -> bool
    ensures { result ≡ is_open_at (house_at stand.now) }
{
    match stand {
        HouseState::Up(house) => house.outcome().is_ok(),
        HouseState::Fallen(_) | HouseState::Halted(_, _) | HouseState::Away => false,
    }
}

/// What stopped it, if it is up and stopped.
fn stop_of<D: SteadyDisk + Drop>(house: &House<'_, D>) -> Stop
    ensures { (s : StopOf) → house.now.state ≡ Stopped s → result ≡ s }
{
    match house.outcome() {
        Err(HouseError::Memory) => Stop::Memory,
        _ => Stop::Device,
    }
}

/// What stops one of which an event was cut off.
fn stop_by(reply: &Result<HouseReply, NoMemory>) -> Stop
    ensures { result ≡ stopping_by reply.now }
{
    match reply {
        Ok(_) => Stop::Device,
        Err(_) => Stop::Memory,
    }
}

/// Its disk.
fn disk_in<'a, D: SteadyDisk + Drop>(_job: &'a Job, stand: HouseState<'a, D>) -> D
    requires there { IsOf _job.now stand }
    ensures { D.device result ≡ disk_of D.device stand.entry }
{
    match stand {
        HouseState::Fallen(disk) => disk,
        HouseState::Halted(_, disk) => disk,
        HouseState::Up(house) => house.into_disk(),
        HouseState::Away => unreachable!(),
    }
}

/// Its disk, after a crash.
fn crashed<'a, D: SteadyDisk + Drop>(job: &'a Job, stand: HouseState<'a, D>) -> D
    requires there { IsOf job.now stand }
    ensures cut { (disk_of D.device stand.entry).can_cut ≡ true
        → D.device result ≡ crashed_disk (disk_of D.device stand.entry) }
    ensures uncut { (disk_of D.device stand.entry).can_cut ≡ false
        → D.device result ≡ disk_of D.device stand.entry }
{
    let mut disk = disk_in(job, stand);
    disk.crash();
    disk
}

/// Its disk is armed.
fn armed<'a, D: SteadyDisk + Drop>(
    _job: &'a Job,
    stand: HouseState<'a, D>,
    calls: u64,
    bytes: Vec<u8>,
) -> HouseState<'a, D>
    requires there { IsOf _job.now stand }
    requires can_cut { (disk_of D.device stand).can_cut ≡ true }
    ensures house { house_at result ≡ house_at stand.entry }
    ensures disk { disk_of D.device result ≡ armed_disk (disk_of D.device stand.entry) calls bytes.items }
    ensures own { IsOf _job.now result }
{
    match stand {
        HouseState::Fallen(disk) => {
            let mut disk = disk;
            disk.arm(calls, bytes);
            HouseState::Fallen(disk)
        }
        HouseState::Halted(stop, disk) => {
            let mut disk = disk;
            disk.arm(calls, bytes);
            HouseState::Halted(stop, disk)
        }
        HouseState::Up(house) => {
            let mut house = house;
            house.arm(calls, bytes);
            HouseState::Up(house)
        }
        HouseState::Away => unreachable!(),
    }
}

/// Nothing is replied.
fn silent(alloc: Global) -> HouseReply
    ensures { result ≡ replying None [] }
{
    HouseReply {
        refused: None,
        sent: Listed::new(alloc),
    }
}

/// An event is refused.
fn refused(alloc: Global, error: HouseError) -> HouseReply
    ensures { result ≡ replying (Some error) [] }
{
    HouseReply {
        refused: Some(error),
        sent: Listed::new(alloc),
    }
}

/// What a call of an open clearinghouse answered, as a reply.
fn reply_of(alloc: Global, answer: Result<HouseStep, HouseError>) -> Result<HouseReply, NoMemory>
    ensures { IsReply answer result }
{
    match answer {
        Ok(step) => Ok(HouseReply {
            refused: None,
            sent: step.sent,
        }),
        Err(HouseError::Memory) => Err(NoMemory),
        Err(error) => Ok(refused(alloc, error)),
    }
}

/// A packet comes to an open clearinghouse.
fn hear<D: SteadyDisk + Drop>(
    alloc: Global,
    house: &mut House<'_, D>,
    packet: &Datagram,
) -> Result<HouseReply, NoMemory>
    requires stands { IsHouseOn house.old house.old.state }
    ensures { (h : HouseOf) → house.old.state ≡ Open h
        → Answered D.device h (on_packet house.old.job packet.now h) result house.old house.new }
{
    let answer = house.on_bytes(alloc, packet.as_bytes());
    reply_of(alloc, answer)
}

/// A moment comes to an open clearinghouse.
fn wake<D: SteadyDisk + Drop>(
    alloc: Global,
    house: &mut House<'_, D>,
    now: u64,
) -> Result<HouseReply, NoMemory>
    requires stands { IsHouseOn house.old house.old.state }
    ensures { (h : HouseOf) → house.old.state ≡ Open h
        → Answered D.device h (Does (passes house.old.job now h)) result house.old house.new }
{
    let answer = house.tick(alloc, now);
    reply_of(alloc, answer)
}

/// What stopped it, if it is stopped.
fn stop_at<D: SteadyDisk + Drop>(stand: &HouseState<'_, D>) -> Option<Stop>
    ensures { is_open_at (house_at stand.now) ≡ false → house_at stand.now ≡ closed_at result }
{
    match stand {
        HouseState::Fallen(_) | HouseState::Away => None,
        HouseState::Halted(stop, _) => Some(*stop),
        HouseState::Up(house) => Some(stop_of(house)),
    }
}

/// Where it stands once it isn't opened: stopped, where its device failed, and else as before.
fn unopened<'a, D: SteadyDisk + Drop>(
    stop: Option<Stop>,
    error: HouseError,
    disk: D,
) -> HouseState<'a, D>
    ensures house { house_at result ≡ unopened_at error stop }
    ensures disk { disk_of D.device result ≡ D.device disk }
    ensures own { (job : JobOf) → IsOf job result }
{
    match (error, stop) {
        (HouseError::Device, _) => HouseState::Halted(Stop::Device, disk),
        (_, Some(stop)) => HouseState::Halted(stop, disk),
        (_, None) => HouseState::Fallen(disk),
    }
}

/// One that isn't open is opened over its disk.
fn restart<'a, D: SteadyDisk + Drop>(
    alloc: Global,
    job: &'a Job,
    stand: HouseState<'a, D>,
) -> (HouseState<'a, D>, HouseReply)
    requires there { IsOf job.now stand }
    requires closed { is_open_at (house_at stand) ≡ false }
    ensures comes { RestartComes result.1 (seat_of D.device job.now stand.entry)
        (seat_of D.device job.now result.0) }
    ensures own { IsOf job.now result.0 }
{
    let stop = stop_at(&stand);
    match House::open(alloc, disk_in(job, stand), job, SILENCE) {
        Ok(house) => (HouseState::Up(house), silent(alloc)),
        Err((error, disk)) => (unopened(stop, error, disk), refused(alloc, error)),
    }
}

/// An event comes to one that is open.
fn come_open<D: SteadyDisk + Drop>(
    alloc: Global,
    house: &mut House<'_, D>,
    event: HouseEvent,
    packet: Option<&Datagram>,
) -> Result<HouseReply, NoMemory>
    requires stands { IsHouseOn house.old house.old.state }
    ensures { (h : HouseOf) → house.old.state ≡ Open h
        → AnsweredIf D.device h (answer_to house.old.job event (option_copied packet.entry) h)
        result house.old house.new }
{
    match event {
        HouseEvent::Deliver(_) => match packet {
            Some(datagram) => hear(alloc, house, datagram),
            None => Ok(silent(alloc)),
        },
        HouseEvent::Tick(now) => wake(alloc, house, now),
        HouseEvent::Restart => Ok(silent(alloc)),
    }
}

/// An event comes to one that is open, with the packet that is delivered.
fn come_up<'a, D: SteadyDisk + Drop>(
    alloc: Global,
    job: &'a Job,
    stand: &mut HouseState<'a, D>,
    event: HouseEvent,
    packet: Option<&Datagram>,
) -> Result<HouseReply, NoMemory>
    requires own { IsOf job.now stand.old }
    requires is_open { is_open_at (house_at stand.old) ≡ true }
    ensures { HasCome D.device job.now event (option_copied packet.entry) result stand.old stand.new }
{
    match stand {
        HouseState::Up(house) => come_open(alloc, house, event, packet),
        HouseState::Fallen(_) | HouseState::Halted(_, _) | HouseState::Away => Ok(silent(alloc)),
    }
}

/// One that isn't open is opened over its disk, where it stands. What is large here is paid for at
/// its entry, so it is no part of `come`.
fn reopen<'a, D: SteadyDisk + Drop>(
    alloc: Global,
    job: &'a Job,
    stand: &mut HouseState<'a, D>,
) -> HouseReply
    requires own { IsOf job.now stand.old }
    requires closed { is_open_at (house_at stand.old) ≡ false }
    ensures comes { RestartComes result (seat_of D.device job.now stand.old) (seat_of D.device job.now stand.new) }
    ensures own { IsOf job.now stand.new }
{
    let closed = mem::replace(stand, HouseState::Away);
    let (opened, reply) = restart(alloc, job, closed);
    *stand = opened;
    reply
}

/// An event comes to where it stands, with the packet that is delivered.
fn come<'a, D: SteadyDisk + Drop>(
    alloc: Global,
    job: &'a Job,
    stand: &mut HouseState<'a, D>,
    event: HouseEvent,
    packet: Option<&Datagram>,
) -> Result<HouseReply, NoMemory>
    requires own { IsOf job.now stand.old }
    ensures { HasCome D.device job.now event (option_copied packet.entry) result stand.old stand.new }
{
    if is_open(stand) {
        return come_up(alloc, job, stand, event, packet);
    }
    match event {
        HouseEvent::Restart => Ok(reopen(alloc, job, stand)),
        HouseEvent::Deliver(_) | HouseEvent::Tick(_) => Ok(silent(alloc)),
    }
}
