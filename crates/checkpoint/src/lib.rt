//! The clearinghouse's record on a disk: what was committed is found again, whenever a crash comes.
//!
//! The file has two large slots, each behind a gate. The current record is that of the open slot of
//! the greater sequence. A commit writes into the other slot: it closes its gate, writes its body
//! and opens its gate, each on the disk before the next.
//!
//! Stores of an older form have two small slots alone, which have no room for values that are
//! saved. They stand in front of the large ones, and say there that the record has moved. Such a
//! store becomes one of the newer form when it is opened: the large slots are written, and are on
//! the disk before a small one says so.
#![tactic(auto)]

mod blank;
mod body;
mod entries;
mod info;
mod laws;
mod look;
mod migrate;
mod publish;
mod record;
mod reopen;
mod store;

pub use blank::{format, format_small};
pub use info::{Info, inspect};
pub use laws::{a_commit_at_any_moment, an_opening_at_any_moment};
pub use record::{CheckpointRecord, LastEpoch, StoreError};
pub use reopen::commit_and_reopen;
pub use store::{Looked, Store};
