//! The packets of versions 1 and 2: what they hold, how they are read and how they are written.
#![tactic(auto)]

mod body;
mod cutting;
mod datagram;
mod decoding;
mod encoding;
mod fields;
mod laws;
mod packet;
mod part;
mod room;

pub use body::{
    Abort, Beat, Body, Grant, Join, Kind, Leave, Offer, OfferAck, Piece, Refuse, ResultAck, Roster,
    Save, Steal, TaskResult,
};
pub use cutting::send_cut;
pub use datagram::{Datagram, alone, send};
pub use decoding::{decode, decode_joined};
pub use encoding::{EncodeError, encode, encode_short};
pub use fields::kind_of;
pub use laws::{one_to_one, parts_join, rosters_rise, saved_values_rise};
pub use packet::Packet;
pub use packet_fields::{Fault, ReadError};
pub use part::Part;
