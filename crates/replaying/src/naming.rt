//! Replays whose packets are compared with the names that a script tells.
ghost use Rattle.std.specs.Prelude.{◌≡◌, IfErr, IfOk, IsOk, None, OnOk, false, true};
ghost use Rattle.traces.specs.Names.{names_in};
ghost use Rattle.replaying.specs.Replays.{AreEvents, AreNamed, IsNamedAt, IsNamedRefusal, IsNamedReplay};

use crate::fault::ReplayFault;
use crate::replayed::{Replayed, replay_asked};
use serial_meaning::Job;
use std::alloc::Global;
use traces::{PacketName, names_in};
use world::{Watch, World};

/// Replays a script on a job as `replay_script` does, and compares the names of the packets that
/// are sent with those that the script tells in its comments: they are the same, all of them and in
/// their order. Refused also by the first packet that has another name, or none.
pub fn replay_named<W: Watch>(
    alloc: Global,
    job: &Job,
    script: &[u8],
    watch: &mut W,
) -> Result<Replayed, ReplayFault>
    ensures run { IfOk result (λ r. IsNamedReplay job.now script.now r) }
    ensures refused { IfErr result (IsNamedRefusal script.now) }
{
    replay_asked(alloc, job, script, true, watch)
}

/// Compares the names of a world's packets with those that a script of events tells, if they are to
/// be compared. Refused by the first packet that has another name, or none, and by want of memory.
pub(crate) fn compare_names(
    alloc: Global,
    world: &World<'_>,
    script: &[u8],
    names: bool,
) -> Result<(), ReplayFault>
    ensures named { names ≡ true → OnOk result (AreNamed (names_in script.now) world.now.world.net) }
    ensures refused { AreEvents script.now → IfErr result (IsNamedRefusal script.now) }
    ensures unnamed { names ≡ false → IsOk result }
{
    if !names {
        return Ok(());
    }
    let Ok(told) = names_in(alloc, script) else {
        return Err(ReplayFault::Memory);
    };
    match misnamed(world, told.as_slice()) {
        Some(number) => Err(ReplayFault::Packet(number)),
        None => Ok(()),
    }
}

/// The number of the first packet of a world that isn't one of the name that comes after so many
/// others, or that has none; or of the first name that has no packet.
fn misnamed(world: &World<'_>, names: &[PacketName]) -> Option<u64>
    ensures { result ≡ None → AreNamed names.now world.now.world.net }
{
    for number in 0..names.len() {
        if !is_named_at(world, names, number) {
            return Some(number as u64);
        }
    }
    if names.len() == world.packets() {
        None
    } else {
        Some(names.len() as u64)
    }
}

/// Whether there is a packet of this number, and it is one of the name that comes after so many
/// others.
fn is_named_at(world: &World<'_>, names: &[PacketName], number: usize) -> bool
    ensures { result ≡ true → IsNamedAt names.now world.now.world.net number }
{
    let Some(packet) = world.packet(number as u64) else {
        return false;
    };
    match names.get(number) {
        Some(name) => name.names(packet.as_bytes()),
        None => false,
    }
}
