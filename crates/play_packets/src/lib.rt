//! Packets in transcripts: packets in words, the packets that were sent, by their numbers or their
//! kinds, and commands on packets and bytes.
//!
//! A packet in words is its kind, its fields in their order, `to=` and `job=`, as in
//! `Steal from=5 seq=1 to=house:1 job=7`. A place is its steps joined by dots, `-` for the root,
//! where `STEP*TIMES` is so many of a step; a frame or a member whose number is `FROM..TO`, where
//! TO isn't less, is one for each number, and a member that is `left:next` left to the next one.
//! The saved values of a SavedGrant, which is a Grant with one or more, are `PLACE:VALUE`, parted
//! by commas. HEX is pairs of digits, and may have blanks between them. The bytes of a Piece are
//! HEX without blanks, or `HEX*TIMES`, as which several bytes that are all the same are answered.
//! Some bytes are kept:
//!
//! - `encode PACKET` answers the bytes of a packet, or their count where they are more than 400,
//!   and keeps them; `no packet`, where a field is out of its range or order, or the address
//!   doesn't suit the kind. It writes the packet in each way that there is, and says so where one
//!   gives other bytes.
//! - `decode HEX` keeps bytes, and answers the packet that they are read as, in words, or their
//!   fault. The packet is written again, and it is said where it has other bytes.
//! - `decodes TIMES HEX` reads bytes so often and `encodes TIMES HEX` writes their packet so often,
//!   for who takes the time: they answer `ok`, or the fault, and keep nothing.
//! - `with AT HEX` is the same of the kept bytes with others from AT on, and answers `ok` for a
//!   packet; so does `front COUNT PIECES..` of the first COUNT of them with pieces behind: `HEX`,
//!   `HEX*TIMES` or `@AT`, the kept bytes from AT on. What is kept stays.
//! - `beginnings` counts the beginnings of the kept bytes that end inside a field, and shows each
//!   other one.
//! - `part AT COUNT` shows so many of the kept bytes from AT on.
//!
//! Behind E9, when out of memory, the same call is made once more.
#![tactic(auto)]

mod calls;
mod mail;
mod packets;
mod shown;
mod words;

pub use mail::{Mail, Wanted, packet_number, wanted_in};
pub use packets::Packets;
pub use shown::write_bytes;
pub use words::{
    actor, add_times, ends, frame_ends, frame_number, grant, let_go, members, numbers, outcome,
    place, read_frames, read_packet, saved_values, size_at, status, steps, write_field,
    write_frame, write_framed, write_grant, write_numbers, write_outcome, write_packet,
    write_place, write_saved, write_steps,
};
