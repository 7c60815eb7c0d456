use ids::{Listed, Numbers};

/// A spawned task: the hole that awaits its value (1 to 8), its thread and its numbers.
#[derive(Drop)]
pub struct Kid {
    pub hole: u8,
    pub thread: u8,
    pub arguments: Numbers,
}

/// A slot of a successor: a given number, or a hole that awaits the value of a kid.
#[derive(Drop)]
pub enum Slot {
    Filled(i64),
    Awaits(Kid),
}

/// The end that a body reaches: it sends a number to its continuation, or spawns a successor thread
/// (its number) with these slots, and the kids that the slots await.
#[derive(Drop)]
pub enum Turn {
    Sends(i64),
    Joins(u8, Listed<Slot>),
}
