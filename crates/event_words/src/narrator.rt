//! A run that is told while it goes.

use crate::fault::NarratorFault;
use crate::telling::Telling;
use crate::turn::{ran_in, write_task};
use event_script::{Event, Script};
use ids::Outcome;
use std::alloc::Global;
use std::io::{self, Write};
use world::{EventAnswer, Watch, World};

/// Tells the replay of a script while it goes: a line for each event, handed on in one piece. It is
/// told what was done, and of the clearinghouse's outcome where it is seen first.
#[derive(Drop)]
pub struct Narrator<'o, 's, O: Write> {
    out: &'o mut O,
    /// The events behind the one that is seen next, unless the script is refused: then none is
    /// seen.
    ahead: Option<Script<'s>>,
    /// The thread and the numbers of the frame that the next event runs, if it does: behind that
    /// event the frame is gone.
    task: Vec<u8>,
    events: u64,
    has_outcome: bool,
    fault: Option<NarratorFault>,
}

impl<'o, 's, O: Write> Narrator<'o, 's, O> {
    /// One that has told nothing yet of the replay of this script.
    pub fn new(alloc: Global, out: &'o mut O, script: &'s [u8]) -> Narrator<'o, 's, O> {
        let mut narrator = Narrator {
            out,
            ahead: Script::new(script).ok(),
            task: Vec::new(alloc),
            events: 0,
            has_outcome: false,
            fault: None,
        };
        narrator.fault = narrator.next(alloc).err();
        narrator
    }

    /// Hands on what was written. Refused where a line couldn't be written, or found no memory: the
    /// lines before it are written, and none behind it.
    pub fn finish(self) -> Result<(), NarratorFault> {
        match self.fault {
            Some(fault) => Err(fault),
            None => self.out.flush().map_err(|_| NarratorFault::Unwritten),
        }
    }

    /// The outcome that is recorded after an event, where none was seen before.
    fn new_outcome(&mut self, told: EventAnswer) -> Option<Outcome> {
        let EventAnswer::House(_, _, Some(outcome)) = told else {
            return None;
        };
        if self.has_outcome {
            return None;
        }
        self.has_outcome = true;
        Some(outcome)
    }

    /// The event behind those that were seen, and behind the one that is seen next.
    fn next(&mut self, alloc: Global) -> Result<Option<Event>, NarratorFault> {
        match &mut self.ahead {
            Some(script) => script.next(alloc).map_err(|_| NarratorFault::Memory),
            None => Ok(None),
        }
    }

    /// Looks at what the next event is to run, in the world before it.
    fn look_ahead(&mut self, alloc: Global, world: &World<'_>) -> Result<(), NarratorFault> {
        self.task.clear();
        let Some(event) = self.next(alloc)? else {
            return Ok(());
        };
        match ran_in(&event) {
            Some(ran) => {
                write_task(&mut self.task, world, &ran).map_err(|_| NarratorFault::Memory)
            }
            None => Ok(()),
        }
    }

    /// Writes the line of an event.
    fn tell(
        &mut self,
        alloc: Global,
        event: &Event,
        told: EventAnswer,
        world: &World<'_>,
    ) -> Result<(), NarratorFault> {
        self.events = self.events.saturating_add(1);
        let new = self.new_outcome(told);
        let task = self.task.as_slice();
        let Ok(text) = text_of(alloc, self.events, event, task, told, new, world) else {
            return Err(NarratorFault::Memory);
        };
        self.out
            .write_all(text.as_slice())
            .map_err(|_| NarratorFault::Unwritten)?;
        self.look_ahead(alloc, world)
    }
}

impl<'o, 's, O: Write> Watch for Narrator<'o, 's, O> {
    fn see(&mut self, alloc: Global, event: &Event, told: EventAnswer, world: &World<'_>) {
        if self.fault.is_none() {
            self.fault = self.tell(alloc, event, told, world).err();
        }
    }
}

/// The line of an event, with its end; of one that runs a frame, by the words of its thread and
/// numbers. Refused only when out of memory.
fn text_of(
    alloc: Global,
    number: u64,
    event: &Event,
    task: &[u8],
    told: EventAnswer,
    new: Option<Outcome>,
    world: &World<'_>,
) -> io::Result<Vec<u8>> {
    let mut telling = Telling::of(alloc, number, event)?;
    match (ran_in(event), told) {
        (Some(ran), EventAnswer::Did(sent, fills)) => {
            telling.say_turn(world, &ran, task, fills)?;
            telling.say_packets(alloc, world, sent)?;
        }
        _ => telling.tell(alloc, told, new, world)?,
    }
    telling.finish()
}
