//! Each change of a subcomputation keeps what its frames and records hold in agreement with the
//! serial meaning of a job.
#![tactic(auto)]

mod laws;

pub use laws::{
    finished_roots_mean, grant_keeps_agreement, granted_content_agrees, redoing_keeps_agreement,
    renaming_keeps_agreement, result_keeps_agreement, root_content_agrees, saved_values_agree,
    turn_keeps_agreement, whole_keeps_agreement,
};
