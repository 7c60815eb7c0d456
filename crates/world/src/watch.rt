//! Looking on while a run goes.

use event_script::Event;
use std::alloc::Global;
use world_steps::{EventAnswer, World};

/// Who looks on while a run goes: to tell it, to count, or to draw it. Nothing of the run hangs on
/// it.
pub trait Watch {
    /// An event was carried out. It sees what was told of the event, and the world after it.
    fn see(&mut self, alloc: Global, event: &Event, told: EventAnswer, world: &World<'_>);
}

/// Nobody looks on.
#[derive(Drop)]
pub struct Unwatched;

impl Watch for Unwatched {
    fn see(&mut self, _alloc: Global, _event: &Event, _told: EventAnswer, _world: &World<'_>) {}
}

/// Who looks on only where there is somebody.
impl<W: Watch> Watch for Option<W> {
    fn see(&mut self, alloc: Global, event: &Event, told: EventAnswer, world: &World<'_>) {
        if let Some(watch) = self {
            watch.see(alloc, event, told, world);
        }
    }
}

/// Two look on, one after the other.
#[derive(Drop)]
pub struct Both<A: Drop, B: Drop> {
    pub first: A,
    pub second: B,
}

impl<A: Watch + Drop, B: Watch + Drop> Watch for Both<A, B> {
    fn see(&mut self, alloc: Global, event: &Event, told: EventAnswer, world: &World<'_>) {
        self.first.see(alloc, event, told, world);
        self.second.see(alloc, event, told, world);
    }
}
