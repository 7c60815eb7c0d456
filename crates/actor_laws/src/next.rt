//! What a member does with an Offer or a Result that comes now, and with a ready frame.
//!
//! An Offer of what agrees with the serial meaning, is kept as its holder keeps it, and is new to
//! the member is taken: it fits, since it is linked and its threads take its numbers
//! (`what_fits_is_taken`). A Result closes the record of its grant, if one is open
//! (`a_result_closes_its_record`). A ready frame is carried out by one call
//! (`a_ready_frame_is_carried_out`). That what comes agrees and is new follows from the whole run.

mod laws;

pub use laws::{a_ready_frame_is_carried_out, a_result_closes_its_record, what_fits_is_taken};
