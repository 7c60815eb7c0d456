//! The number of each error, once: code and definitions name these constants. A number is a part of
//! the product, and stays. `docs/ERRORS.md` says which call answers which, and when.

// Places, texts and kinds

/// E1: a place has 1,024 steps.
pub const PLACE_FULL: u8 = 1;
/// E2: a token or byte can't stand there.
pub const UNEXPECTED: u8 = 2;
/// E3: a text or a name is too long.
pub const TOO_LONG: u8 = 3;
/// E4: too many levels of parentheses, blocks or operators.
pub const TOO_DEEP_NEST: u8 = 4;
/// E5: a number is too large.
pub const NUMBER_RANGE: u8 = 5;
/// E6: a byte is above 7F.
pub const NOT_ASCII: u8 = 6;
/// E9: there is no memory.
pub const MEMORY: u8 = 9;
/// E10: there is no thread `main`.
pub const NO_MAIN: u8 = 10;
/// E11: a name stands twice.
pub const NAME_TWICE: u8 = 11;
/// E12: a spawned thread isn't there.
pub const UNKNOWN_THREAD: u8 = 12;
/// E13: a name isn't in scope.
pub const UNKNOWN_NAME: u8 = 13;
/// E14: a wrong count of arguments.
pub const ARITY: u8 = 14;
/// E15: a number stands for a continuation, or the reverse.
pub const KIND_MISMATCH: u8 = 15;
/// E16: a hole isn't used.
pub const CONT_UNUSED: u8 = 16;
/// E17: a hole or the own continuation is used again.
pub const CONT_TWICE: u8 = 17;
/// E18: the 65th thread, or the 9th number parameter.
pub const LIMIT: u8 = 18;

// Jobs

/// E20: a serial evaluation takes more turns than were allowed.
pub const SERIAL_TURNS_SPENT: u8 = 20;
/// E21: `main` takes another count of numbers than there are inputs.
pub const INPUT_ARITY: u8 = 21;

// Packets

/// E30: a packet is too large.
pub const PACKET_TOO_BIG: u8 = 30;
/// E31: the bytes end inside a field.
pub const SHORT: u8 = 31;
/// E32: no magic bytes stand in front.
pub const MAGIC: u8 = 32;
/// E33: a packet is of no version that is known.
pub const PACKET_VERSION: u8 = 33;
/// E34: no kind of this version.
pub const PACKET_KIND: u8 = 34;
/// E35: a field is outside its range, or an item is out of order.
pub const FIELD: u8 = 35;
/// E36: bytes stand behind the last field.
pub const TRAILING: u8 = 36;

// Nodes

/// E40: a frame isn't ready there.
pub const STALE: u8 = 40;
/// E41: a task has no value in the turns and the room that there are.
pub const NO_VALUE: u8 = 41;
/// E50: a request is pending.
pub const PENDING: u8 = 50;
/// E51: an Offer would be too large.
pub const OFFER_TOO_BIG: u8 = 51;
/// E52: a subcomputation has moved too often.
pub const HOP_SPENT: u8 = 52;
/// E53: the heir isn't another live member.
pub const NO_HEIR: u8 = 53;
/// E60: a node isn't joined, or has ended.
pub const NOT_JOINED: u8 = 60;
/// E61: a request is pending, or the node leaves.
pub const BUSY: u8 = 61;
/// E62: no number is left of what is counted.
pub const SPENT: u8 = 62;
/// E63: a node finds no memory.
pub const NODE_MEMORY: u8 = 63;

// The disk and the clearinghouse

/// E70: a record is of another job.
pub const JOB_MISMATCH: u8 = 70;
/// E71: a file is no store.
pub const DAMAGED: u8 = 71;
/// E72: a call of the device failed.
pub const DEVICE: u8 = 72;
/// E73: a store is of another version.
pub const STORE_VERSION: u8 = 73;
/// E80: the roster is full.
pub const ROSTER_FULL: u8 = 80;

// Threads and runs

/// E90: a pen has drawn all its start words.
pub const PEN_SPENT: u8 = 90;
/// E95: a run has taken all turns that were allowed.
pub const RUN_TURNS_SPENT: u8 = 95;
/// E96: a run finds no memory, or can't make a thread.
pub const RUN_MEMORY: u8 = 96;

// Actors of a host

/// 100: a call is for another actor.
pub const NOT_THIS: u8 = 100;
/// 101: packets wait to be taken first.
pub const UNSENT: u8 = 101;
