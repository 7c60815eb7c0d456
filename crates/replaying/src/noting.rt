//! Replays whose progress is told on a terminal.
ghost use Rattle.std.specs.Prelude.{◌≡◌, IfErr, IfOk, true};
ghost use Rattle.replaying.specs.Replays.{IsNamedRefusal, IsNamedReplay, IsReplayOf};

use crate::fault::ReplayFault;
use crate::replayed::{Replayed, replay_asked};
use event_script::Event;
use progress::{RunProgress, tell};
use serial_meaning::Job;
use std::alloc::Global;
use std::io::{IsTerminal, Stderr};
use std::thread::{Threads, join};
use std::time::Clock;
use world::{EventAnswer, Unwatched, Watch, World};

/// Notes how far a replay has come.
#[derive(Drop)]
struct Noting<'p> {
    progress: &'p RunProgress,
    events: u64,
}

impl<'p> Watch for Noting<'p> {
    fn see(&mut self, _alloc: Global, _event: &Event, _told: EventAnswer, world: &World<'_>) {
        self.events = self.events.saturating_add(1);
        self.progress.note(self.events, world.packets() as u64);
    }
}

/// Replays a script on a job, and notes how far that has come, to its end; names are compared where
/// that is asked for.
fn replay_noted(
    alloc: Global,
    job: &Job,
    script: &[u8],
    names: bool,
    progress: &RunProgress,
) -> Result<Replayed, ReplayFault>
    ensures run { IfOk result (IsReplayOf job.now script.now) }
    ensures named { names ≡ true → IfOk result (IsNamedReplay job.now script.now) }
    ensures refused { IfErr result (IsNamedRefusal script.now) }
{
    let mut noting = Noting {
        progress,
        events: 0,
    };
    let replayed = replay_asked(alloc, job, script, names, &mut noting);
    progress.end();
    replayed
}

/// Replays a script on a job; names are compared where that is asked for. Where standard error is a
/// terminal and the replay takes long, how far it has come is told there.
pub(crate) fn replay_shown<R: Threads + Clock + Sync>(
    rt: &R,
    alloc: Global,
    job: &Job,
    script: &[u8],
    names: bool,
    err: &mut Stderr,
) -> Result<Replayed, ReplayFault>
    ensures run { IfOk result (IsReplayOf job.now script.now) }
    ensures named { names ≡ true → IfOk result (IsNamedReplay job.now script.now) }
    ensures refused { IfErr result (IsNamedRefusal script.now) }
{
    if !err.is_terminal() {
        return replay_asked(alloc, job, script, names, &mut Unwatched);
    }
    let progress = RunProgress::new();
    let shared = &progress;
    // (where no second thread can be made, the first closure is called last: then the replay has
    // ended, and nothing is told)
    let (_, replayed) = join(
        rt,
        || tell(rt, err, shared),
        || -> Result<Replayed, ReplayFault>
            ensures run { IfOk result (IsReplayOf job.entry.now script.entry.now) }
            ensures named { names ≡ true → IfOk result (IsNamedReplay job.entry.now script.entry.now) }
            ensures refused { IfErr result (IsNamedRefusal script.entry.now) }
        { replay_noted(alloc, job, script, names, shared) },
    );
    replayed
}
