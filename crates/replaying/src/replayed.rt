ghost use Rattle.std.specs.Prelude.{◌≡◌, false, true, IfErr, IfOk};
ghost use Rattle.replaying.specs.Replays.{IsNamedRefusal, IsNamedReplay, IsReplayOf, IsScriptRefusal};

use crate::fault::ReplayFault;
use crate::naming::compare_names;
use serial_meaning::{Job, Outcome};
use std::alloc::Global;
use std::io::{self, Write};
use world::{RunCounts, RunEnd, Watch, replay_watched};

/// What a run came to: how many events were carried out, how many packets were sent, how many
/// values were put into slots, the outcome that an open clearinghouse has recorded, and what was
/// counted.
#[derive(Clone, Copy)]
pub struct Replayed {
    pub events: usize,
    pub packets: usize,
    pub fills: usize,
    pub outcome: Option<Outcome>,
    pub counts: RunCounts,
}

/// Replays a script on a job, from its first world on, while somebody looks on. Refused by the
/// first line that isn't an event's, before any event, and where an event or the first world finds
/// no memory (E9). What comes of it is the same, whoever looks on.
pub fn replay_script<W: Watch>(
    alloc: Global,
    job: &Job,
    script: &[u8],
    watch: &mut W,
) -> Result<Replayed, ReplayFault>
    ensures run { IfOk result (λ r. IsReplayOf job.now script.now r) }
    ensures refused { IfErr result (IsScriptRefusal script.now) }
{
    replay_asked(alloc, job, script, false, watch)
}

/// Replays a script on a job as `replay_script` does, or as `replay_named` does where names are to
/// be compared.
pub(crate) fn replay_asked<W: Watch>(
    alloc: Global,
    job: &Job,
    script: &[u8],
    names: bool,
    watch: &mut W,
) -> Result<Replayed, ReplayFault>
    ensures run { IfOk result (IsReplayOf job.now script.now) }
    ensures named { names ≡ true → IfOk result (IsNamedReplay job.now script.now) }
    ensures refused { IfErr result (IsNamedRefusal script.now) }
    ensures unnamed { names ≡ false → IfErr result (IsScriptRefusal script.now) }
{
    let RunEnd {
        world,
        done,
        stopped,
    } = replay_watched(alloc, job, script, watch)?;
    if stopped.is_some() {
        return Err(ReplayFault::Memory);
    }
    if let Err(fault) = compare_names(alloc, &world, script, names) {
        return Err(fault);
    }
    Ok(Replayed {
        events: done,
        packets: world.packets(),
        fills: world.fills(),
        outcome: world.outcome(),
        counts: *world.counts(),
    })
}

/// Writes what a run came to as four lines, each with its end, and hands them on.
pub fn write_replayed<O: Write>(out: &mut O, replayed: &Replayed) -> io::Result<()> {
    writeln!(out, "events {}", replayed.events)?;
    writeln!(out, "packets {}", replayed.packets)?;
    writeln!(out, "fills {}", replayed.fills)?;
    match replayed.outcome {
        Some(Outcome::Value(value)) => writeln!(out, "outcome value {value}")?,
        Some(Outcome::TooDeep) => writeln!(out, "outcome too deep")?,
        None => writeln!(out, "outcome none")?,
    }
    out.flush()
}
