//! What turns came to, in words.

use crate::shown::{Lost, keep};
use event_script::{FrameOf, NodePlace};
use event_words::{Ran, write_task, write_turn};
use node_core::SubView;
use std::alloc::Global;
use std::io;
use world::World;

/// So many turns are told in words. A picture with a dot for each event has fewer.
const MOST: usize = 1000;

/// A frame that is ready, and the words of its thread and numbers. Once it is carried out it is
/// gone.
#[derive(Drop)]
pub(crate) struct Task {
    pub(crate) frame: FrameOf,
    pub(crate) words: Vec<u8>,
}

/// The words of the turn that an event took.
#[derive(Drop)]
struct Saying {
    at: usize,
    words: Vec<u8>,
}

/// The words of a run's first turns, in their order.
#[derive(Drop)]
pub(crate) struct Said {
    all: Vec<Saying>,
}

impl Said {
    /// Those of a run without turns.
    pub(crate) fn new(alloc: Global) -> Said {
        Said {
            all: Vec::new(alloc),
        }
    }

    /// Whether no more turns are told.
    pub(crate) fn is_full(&self) -> bool {
        self.all.len() >= MOST
    }

    /// Keeps the words of a turn that put so many values into slots, in the world after it.
    pub(crate) fn say(
        &mut self,
        alloc: Global,
        at: usize,
        world: &World<'_>,
        ran: &Ran,
        task: &[u8],
        fills: usize,
    ) -> Result<(), Lost> {
        let mut words = Vec::new(alloc);
        match write_turn(&mut words, world, ran, task, fills) {
            Ok(()) => keep(&mut self.all, Saying { at, words }),
            Err(_) => Err(Lost),
        }
    }

    /// The words of the turn that an event took, if they are kept.
    pub(crate) fn of(&self, event: usize) -> Option<&[u8]> {
        let index = self.all.partition_point(|saying| saying.at < event);
        match self.all.get(index) {
            Some(saying) if saying.at == event => Some(saying.words.as_slice()),
            _ => None,
        }
    }
}

/// The ready frames of the node of a place, by what it holds.
pub(crate) fn tasks_of(
    alloc: Global,
    world: &World<'_>,
    place: NodePlace,
    subs: &[SubView],
) -> Result<Vec<Task>, Lost> {
    let mut tasks = Vec::new(alloc);
    for sub in subs {
        add_tasks(alloc, world, place, sub, &mut tasks)?;
    }
    Ok(tasks)
}

/// Adds the ready frames of a subcomputation.
fn add_tasks(
    alloc: Global,
    world: &World<'_>,
    place: NodePlace,
    sub: &SubView,
    tasks: &mut Vec<Task>,
) -> Result<(), Lost> {
    for number in sub.ready.as_slice() {
        let frame = FrameOf {
            minter: sub.grant.minter().word(),
            number: sub.grant.number(),
            frame: u64::from(number.number()),
        };
        match task_of(alloc, world, place, frame) {
            Ok(task) => keep(tasks, task)?,
            Err(_) => return Err(Lost),
        }
    }
    Ok(())
}

/// A ready frame of the node of a place.
fn task_of(alloc: Global, world: &World<'_>, place: NodePlace, frame: FrameOf) -> io::Result<Task> {
    let ran = Ran {
        place,
        frame,
        is_whole: false,
    };
    let mut words = Vec::new(alloc);
    write_task(&mut words, world, &ran)?;
    Ok(Task { frame, words })
}
