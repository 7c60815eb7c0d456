//! Lines of traces.
ghost use Rattle.std.specs.Prelude.{◌≡◌, IfOk};
ghost use Rattle.traces.specs.Lines.{told_by};

use crate::name::{PacketName, sent_name, taken_name};
use event_script::{Event, Script};
use std::alloc::{AllocError, Global};

/// What a line of a trace tells: a packet was sent, one came, or another event.
#[derive(Drop)]
pub enum TraceLine {
    Sent(PacketName),
    Took(PacketName),
    Did(Event),
}

/// What a line is: it tells nothing, something, or is none of a trace.
#[derive(Drop)]
pub enum Told {
    Nothing,
    Says(TraceLine),
    Refused,
}

/// What a line is. Refused only when out of memory.
#[tactic(auto, unfolding(crate::specs::Lines::by_script, crate::specs::Lines::or_took, crate::specs::Lines::or_sent))]
pub(crate) fn line_in(alloc: Global, line: &[u8]) -> Result<Told, AllocError>
    ensures { IfOk result (λ t. t ≡ told_by line.now) }
{
    if let Some(name) = sent_name(line) {
        return Ok(Told::Says(TraceLine::Sent(name)));
    }
    if let Some(name) = taken_name(line) {
        return Ok(Told::Says(TraceLine::Took(name)));
    }
    let Ok(mut script) = Script::new(line) else {
        return Ok(Told::Refused);
    };
    let Some(event) = script.next(alloc)? else {
        return Ok(Told::Nothing);
    };
    match script.next(alloc)? {
        None => Ok(Told::Says(TraceLine::Did(event))),
        Some(_) => Ok(Told::Refused),
    }
}
