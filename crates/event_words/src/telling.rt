//! The line of an event, in the making.

use crate::names::{GrantName, OutcomeWords};
use crate::packet::write_packet;
use crate::turn::{Ran, ran_in, write_end, write_ran};
use codec::{Datagram, decode};
use event_script::{Event, add_line};
use ids::Outcome;
use node_core::Fill;
use std::alloc::Global;
use std::fmt;
use std::io::{self, Write};
use task_tree::Program;
use world::{EventAnswer, World};

/// The number of an event and its line, and behind a colon what it did, parted by semicolons. All
/// that fails here fails when out of memory.
#[derive(Drop)]
pub(crate) struct Telling {
    text: Vec<u8>,
    has_deed: bool,
}

impl Telling {
    /// One of which nothing is told yet.
    pub(crate) fn of(alloc: Global, number: u64, event: &Event) -> io::Result<Telling> {
        let mut text = Vec::new(alloc);
        write!(text, "{number}  ")?;
        match ran_in(event) {
            Some(ran) => write_ran(&mut text, &ran)?,
            None => add_line(&mut text, event)?,
        }
        Ok(Telling {
            text,
            has_deed: false,
        })
    }

    /// Tells what was told of an event, behind which the world is this; of an outcome only where it
    /// is a new one.
    pub(crate) fn tell(
        &mut self,
        alloc: Global,
        told: EventAnswer,
        new: Option<Outcome>,
        world: &World<'_>,
    ) -> io::Result<()> {
        match told {
            EventAnswer::Unfit => self.say("nothing"),
            EventAnswer::Ignored => self.say("ignored"),
            EventAnswer::Refused(error) => self.say(error),
            EventAnswer::Did(sent, fills) => {
                self.say_fills(world, fills)?;
                self.say_packets(alloc, world, sent)
            }
            EventAnswer::House(refused, sent, _) => {
                if let Some(error) = refused {
                    self.say(error)?;
                }
                if let Some(outcome) = new {
                    self.say(format_args!("outcome {}", OutcomeWords(outcome)))?;
                }
                self.say_packets(alloc, world, sent)
            }
        }
    }

    /// The whole line, with its end. One that did nothing else has sent nothing.
    pub(crate) fn finish(mut self) -> io::Result<Vec<u8>> {
        if !self.has_deed {
            self.say("sends nothing")?;
        }
        writeln!(self.text)?;
        Ok(self.text)
    }

    /// Begins something else that it did.
    fn begin(&mut self) -> io::Result<()> {
        let sign = if self.has_deed { "; " } else { ": " };
        self.has_deed = true;
        write!(self.text, "{sign}")
    }

    /// Says one thing.
    fn say(&mut self, words: impl fmt::Display + Drop) -> io::Result<()> {
        self.begin()?;
        write!(self.text, "{words}")
    }

    /// Says which body ran, by the words of its thread and numbers, and what it came to, with so
    /// many values put into slots.
    pub(crate) fn say_turn(
        &mut self,
        world: &World<'_>,
        ran: &Ran,
        task: &[u8],
        fills: usize,
    ) -> io::Result<()> {
        self.begin()?;
        self.text.write_all(task)?;
        write_end(&mut self.text, world, ran, fills)
    }

    /// Says which values it put into slots: the last ones of the world's, so many.
    fn say_fills(&mut self, world: &World<'_>, count: usize) -> io::Result<()> {
        let all = world.fills();
        for index in all.saturating_sub(count)..all {
            if let Some(fill) = world.fill(index as u64) {
                self.begin()?;
                write_fill(&mut self.text, fill)?;
            }
        }
        Ok(())
    }

    /// Says which packets it sent: the last ones of the world's, so many.
    pub(crate) fn say_packets(
        &mut self,
        alloc: Global,
        world: &World<'_>,
        count: usize,
    ) -> io::Result<()> {
        let program = world.job().checked().program();
        let all = world.packets();
        for index in all.saturating_sub(count)..all {
            if let Some(packet) = world.packet(index as u64) {
                self.begin()?;
                write!(self.text, "sends {index} ")?;
                write_datagram(alloc, &mut self.text, program, packet)?;
            }
        }
        Ok(())
    }
}

/// Writes the words of a value that was put into a slot.
fn write_fill<O: Write>(out: &mut O, fill: &Fill) -> io::Result<()> {
    write!(
        out,
        "fills slot {} of frame {} of {} with {}",
        fill.slot,
        fill.frame.number(),
        GrantName(fill.grant),
        fill.value
    )
}

/// Writes the words of a packet that was sent.
fn write_datagram<O: Write>(
    alloc: Global,
    out: &mut O,
    program: &Program,
    packet: &Datagram,
) -> io::Result<()> {
    match decode(alloc, packet.as_bytes()) {
        Ok(packet) => write_packet(out, program, &packet),
        // what is sent spells a packet, so memory is wanting
        Err(_) => Err(io::Error::from(io::ErrorKind::OutOfMemory)),
    }
}
