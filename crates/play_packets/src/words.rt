//! Packets in words, as `Steal from=5 seq=1 to=3 job=7`.

mod fields;
mod lists;
mod reading;
mod work;
mod writing;

pub use fields::{actor, ends, frame_ends, frame_number, grant, outcome, size_at, status};
pub use lists::{add_times, members, numbers, place, saved_values, steps};
pub use reading::{let_go, packet_in, read_packet};
pub use work::read_frames;
pub use writing::{
    write_field, write_frame, write_framed, write_grant, write_numbers, write_outcome,
    write_packet, write_place, write_saved, write_steps,
};
