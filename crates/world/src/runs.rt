//! Runs of a world, by lists of events and by scripts.
ghost use Rattle.std.specs.Prelude.{◌≡◌, ◌+◌, ◌<◌, ◌^◌, IfOk, Ok, Err, List, None, Some, false, true};
ghost use Rattle.disk.specs.Device.{Device};
ghost use Rattle.event_script.specs.Scripts.{script};
ghost use Rattle.event_script.specs.declared.event.Event.{Event as EventOf};
ghost use Rattle.world_steps.specs.Answers.{StepResult};
ghost use Rattle.world_steps.specs.Calls.{IsOutOfMemory};
ghost use Rattle.world_steps.specs.Runs.{IsFormattedFor};
ghost use Rattle.world_steps.specs.Steps.{Step as StepOf};
ghost use Rattle.world_steps.specs.World.{first_over};
ghost use Rattle.world_steps.specs.declared.parts.NoMemory.{NoMemory as NoMemoryOf};
ghost use Rattle.world.specs.Runs.{IsReplay, IsRun, IsRunTo, StopsIn, StopsReading};
ghost use Rattle.world.specs.declared.runs.ReplayError.TheVariants as replay_error;

use crate::watch::{Unwatched, Watch};
use event_script::{Event, KeptScript, Line};
use serial_meaning::Job;
use std::alloc::Global;
use thiserror::Error;
use world_steps::{NoMemory, World};

/// Where a run ended: the world to which it led, how many events were carried out, and E9 where the
/// next one found no memory.
#[derive(Drop)]
pub struct RunEnd<'a> {
    pub world: World<'a>,
    pub done: usize,
    pub stopped: Option<NoMemory>,
}

/// Why a script isn't replayed; no event was carried out.
#[derive(Clone, Copy, Debug, PartialEq, Eq, Error)]
pub enum ReplayError {
    /// A line that isn't an event's.
    #[error("{0}")]
    Line(Line),
    /// E9: there is no memory for a first world.
    #[error("E{number}", number = ids::error_numbers::MEMORY)]
    Memory,
}

/// Events are carried out one after another, from the first world of a job on. It stops (E9) only
/// at an event that applies and finds no memory; where that was the clearinghouse's, the
/// clearinghouse is stopped. Refused where there is no memory for the first world alone (E9). In
/// each world of it, from the first one on, no slot was filled twice and each value in one is the
/// serial program's, no grant has two live holders, a recorded outcome is the job's meaning and
/// stays, what was sent and what is held agrees with the serial meaning, the work of each wanted
/// grant is somewhere, or is cut off, no member waits for somebody who is gone by its own roster,
/// and work and outcomes that come now are taken.
pub fn run<'a>(alloc: Global, job: &'a Job, events: &[Event]) -> Result<RunEnd<'a>, NoMemory>
    ensures job { IfOk result (λ r. r.world.job ≡ job.now) }
    ensures run { IfOk result (λ r. IsRun job.now events.now r.done r.stopped r.world) }
{
    let _checked = job.checked();
    carried_out(alloc, job, events)
}

/// The events of a script are carried out one after another, as `run` does. Refused by the first
/// line that isn't of the form of `Script::new`, and no event is carried out then; and, of a script
/// whose lines are all events', where there is no memory for the first world (E9). E9 may stop it
/// at a Cut too, for which there is no memory; then nothing changes.
pub fn replay<'a>(alloc: Global, job: &'a Job, text: &[u8]) -> Result<RunEnd<'a>, ReplayError>
    ensures job { IfOk result (λ r. r.world.job ≡ job.now) }
    ensures run { IfOk result (λ r. (events : List EventOf) × (script text.now ≡ Ok events)
        × IsReplay job.now events r.done r.stopped r.world) }
    ensures line { (l : _) → result ≡ Err (replay_error.Line l) → script text.now ≡ Err l }
    ensures memory { result ≡ Err replay_error.Memory → (events : List EventOf) × (script text.now ≡ Ok events) }
{
    replay_watched(alloc, job, text, &mut Unwatched)
}

/// Replays a script as `replay` does, while somebody looks on. What comes of it is the same,
/// whoever that is.
pub fn replay_watched<'a, W: Watch>(
    alloc: Global,
    job: &'a Job,
    text: &[u8],
    watch: &mut W,
) -> Result<RunEnd<'a>, ReplayError>
    ensures job { IfOk result (λ r. r.world.job ≡ job.now) }
    ensures run { IfOk result (λ r. (events : List EventOf) × (script text.now ≡ Ok events)
        × IsReplay job.now events r.done r.stopped r.world) }
    ensures line { (l : _) → result ≡ Err (replay_error.Line l) → script text.now ≡ Err l }
    ensures memory { result ≡ Err replay_error.Memory → (events : List EventOf) × (script text.now ≡ Ok events) }
{
    let _checked = job.checked();
    script_carried_out(alloc, job, text, watch)
}

/// Events are carried out one after another.
fn carried_out<'a>(alloc: Global, job: &'a Job, events: &[Event]) -> Result<RunEnd<'a>, NoMemory>
    ensures job { IfOk result (λ r. r.world.job ≡ job.now) }
    ensures run { IfOk result (λ r. IsRunTo (StopsIn job.now) job.now events.now r.done r.stopped r.world) }
{
    let mut run = begun(alloc, job)?;
    for event in events {
        if !run.carry_on(alloc, event, &mut Unwatched) {
            return Ok(run);
        }
    }
    Ok(run)
}

/// The events of a script are carried out one after another.
fn script_carried_out<'a, W: Watch>(
    alloc: Global,
    job: &'a Job,
    text: &[u8],
    watch: &mut W,
) -> Result<RunEnd<'a>, ReplayError>
    ensures job { IfOk result (λ r. r.world.job ≡ job.now) }
    ensures run { IfOk result (λ r. (events : List EventOf) × (script text.now ≡ Ok events)
        × IsRunTo (StopsReading job.now) job.now events r.done r.stopped r.world) }
    ensures line { (l : _) → result ≡ Err (replay_error.Line l) → script text.now ≡ Err l }
    ensures memory { result ≡ Err replay_error.Memory → (events : List EventOf) × (script text.now ≡ Ok events) }
{
    let mut script = match KeptScript::new(alloc, text) {
        Ok(script) => script,
        Err(line) => return Err(ReplayError::Line(line)),
    };
    let Ok(mut run) = begun(alloc, job) else {
        return Err(ReplayError::Memory);
    };
    loop {
        match script.next(alloc) {
            Ok(Some(event)) => {
                if !run.carry_on(alloc, &event, watch) {
                    return Ok(run);
                }
            }
            Ok(None) => return Ok(run),
            Err(_) => {
                run.stopped = Some(NoMemory);
                return Ok(run);
            }
        }
    }
}

/// A run that has just begun.
fn begun<'a>(alloc: Global, job: &'a Job) -> Result<RunEnd<'a>, NoMemory>
    ensures job { IfOk result (λ r. r.world.job ≡ job.now) }
    ensures first { IfOk result (λ r. (d : Device) × IsFormattedFor job.now d × (r.world.world ≡ first_over d)) }
    ensures none { IfOk result (λ r. (r.done ≡ 0) × (r.stopped ≡ None)) }
{
    Ok(RunEnd {
        world: World::new(alloc, job)?,
        done: 0,
        stopped: None,
    })
}

impl<'a> RunEnd<'a> {
    /// An event is carried out, and whoever looks on sees it; whether it found memory.
    fn carry_on<W: Watch>(&mut self, alloc: Global, event: &Event, watch: &mut W) -> bool
        requires { self.old.done + 1 < 2 ^ 64 }
        ensures job { self.new.world.job ≡ self.old.world.job }
        ensures carried { result ≡ true → (o : StepResult)
            × StepOf self.old.world.job event.now self.old.world.world o × (self.new.world.world ≡ o.world)
            × (self.new.done ≡ self.old.done + 1) × (self.new.stopped ≡ self.old.stopped) }
        ensures out_of_memory { result ≡ false → (o : StepResult)
            × IsOutOfMemory event.now self.old.world self.new.world.is_placed o
            × (self.new.world.world ≡ o.world) × (self.new.done ≡ self.old.done) × (lacks : NoMemoryOf)
            × (self.new.stopped ≡ Some lacks) }
    {
        match self.world.step(alloc, event, None) {
            Ok(told) => {
                self.done += 1;
                watch.see(alloc, event, told, &self.world);
                true
            }
            Err(lacks) => {
                self.stopped = Some(lacks);
                false
            }
        }
    }
}
