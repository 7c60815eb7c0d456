//! The limits that several layers share.

/// A place has at most so many steps.
pub const MOST_STEPS: u16 = 1024;

/// A program has at most so many threads, so a thread's number is below this.
pub const MOST_THREADS: u8 = 64;

/// A thread takes at most so many numbers, and a task has at most so many.
pub const MOST_NUMBERS: u8 = 8;

/// A frame has at most so many slots, and a successor so many holes.
pub const MOST_SLOTS: u8 = MOST_NUMBERS;

/// The greatest step of a place, to the kid of the last hole.
pub const LAST_STEP: u8 = MOST_SLOTS;

/// A roster has at most so many members.
pub const MOST_MEMBERS: u16 = 4096;
