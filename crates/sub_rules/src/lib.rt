//! How the frames and records of a subcomputation change.
#![tactic(auto)]

mod arriving;
mod change;
mod content;
mod executing;
mod granting;
mod joining;
mod laws;
mod leaving;
mod readiness;
mod resuming;
mod updates;

pub use change::{
    ContentChange, ContentGrant, ContentRedo, Filling, Opening, Readied, ReadyList, SubError,
};
pub use content::Content;
pub use executing::{exec, is_stale, is_stale_for, law_turn_is_few, prepare_exec, prepare_turn};
pub use granting::{close, grant_out, granted, numbers_in, prepare_close, prepare_grant_out, redo};
pub use laws::{
    contents_without_records_have_a_ready_frame, granted_contents_are_sound,
    ready_frames_await_nothing, renaming_keeps_sound,
};
pub use readiness::{
    law_frames_done_again_are_told, law_frames_that_leave_are_gone, law_grants_tell_what_is_ready,
    law_ready_frames_are_listed_once, law_renaming_makes_nothing_ready,
    law_results_tell_what_is_ready, law_turns_tell_what_is_ready,
};
pub use resuming::{Knows, NothingKnown};
pub use updates::{Leaver, Prepared, Replacement, Update};
