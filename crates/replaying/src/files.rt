ghost use Rattle.std.specs.Prelude.{◌≡◌, IfErr, IfOk, true};
ghost use Rattle.replaying.specs.Replays.{IsFilesRefusal, IsFilesReplay, IsNamedFiles, IsNamedReplay, IsReplayOf, IsToldRefusal};

use crate::fault::ReplayFault;
use crate::noting::replay_shown;
use crate::replayed::{Replayed, replay_asked, replay_script};
use crate::words::ReplayWords;
use event_words::Narrator;
use jobs::{bytes_within, job_of, text_bytes};
use serial_meaning::Job;
use std::alloc::Global;
use std::io::{Stderr, Write};
use std::rt::Files;
use std::thread::Threads;
use std::time::Clock;
use world::Watch;

/// Replays the script of a file, which may have any length, on a job, while somebody looks on: the
/// program whose text a file holds, its input and the job's number. The faults come in this order:
/// the text's file, the text (E2 to E6), its kinds (E10 to E18), the count of inputs (E21), the
/// script's file, the first line of it that isn't an event's, and a run that finds no memory (E9).
/// E9 may come in the place of any of these.
pub fn replay_files<R: Files + AllocGlobal, W: Watch>(
    rt: &R,
    file: &str,
    script: &str,
    input: Vec<i64>,
    job: u64,
    watch: &mut W,
) -> Result<Replayed, ReplayFault>
    ensures run { IfOk result (IsFilesReplay input.items job) }
    ensures refused { IfErr result (IsFilesRefusal input.items) }
{
    let text = text_bytes(rt, file)?;
    let job = job_of(rt.alloc(), text.as_slice(), input, job)?;
    let script = bytes_within(rt, script, u64::MAX)?;
    replay_script(rt.alloc(), &job, script.as_slice(), watch)
}

/// Replays the files that words name. Where the words ask for that, each event is told on `out`, a
/// line each (`event_words`); else how far the replay has come is told on `err`, if that is a
/// terminal and the replay takes long. What comes of the replay is the same. Where they ask for
/// that, the packets that are sent have the names that the script tells, all of them and in their
/// order. The faults are those of `replay_files`, behind them the first packet of another name, and
/// then a line that can't be written on `out`, or for which there is no memory (E9); the lines
/// before it stay. Nothing is written on `out` where the script isn't read to its end.
pub fn replay_words<R: Files + AllocGlobal + Threads + Clock + Sync, O: Write>(
    rt: &R,
    words: ReplayWords<'_>,
    out: &mut O,
    err: &mut Stderr,
) -> Result<Replayed, ReplayFault>
    ensures run { IfOk result (IsFilesReplay words.entry.input.items words.entry.job) }
    ensures named { words.entry.names ≡ true → IfOk result (IsNamedFiles words.entry.input.items words.entry.job) }
    ensures refused { IfErr result (IsFilesRefusal words.entry.input.items) }
{
    let ReplayWords {
        file,
        script,
        job: number,
        input,
        packets,
        names,
    } = words;
    let text = text_bytes(rt, file)?;
    let job = job_of(rt.alloc(), text.as_slice(), input, number)?;
    let script = bytes_within(rt, script, u64::MAX)?;
    if packets {
        replay_told(rt.alloc(), &job, script.as_slice(), names, out)
    } else {
        replay_shown(rt, rt.alloc(), &job, script.as_slice(), names, err)
    }
}

/// Replays a script on a job and tells each event, a line each; names are compared where that is
/// asked for. Refused also by the first line that can't be written, or for which there is no memory.
fn replay_told<O: Write>(
    alloc: Global,
    job: &Job,
    script: &[u8],
    names: bool,
    out: &mut O,
) -> Result<Replayed, ReplayFault>
    ensures run { IfOk result (IsReplayOf job.now script.now) }
    ensures named { names ≡ true → IfOk result (IsNamedReplay job.now script.now) }
    ensures refused { IfErr result (IsToldRefusal script.now) }
{
    let mut narrator = Narrator::new(alloc, out, script);
    let replayed = replay_asked(alloc, job, script, names, &mut narrator);
    let told = narrator.finish();
    let replayed = replayed?;
    told?;
    Ok(replayed)
}
