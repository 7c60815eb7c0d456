//! What goes over the wire is read as whole packets, of which large Offers are cut.
//!
//! A node that leaves offers what it holds; an Offer whose spelling has more bytes than a part of
//! one goes in Pieces (`codec`'s `cut`). So what went over the wire is `cut_all wholes`, where
//! `wholes` are whole packets, Offers of any length among them, and no Piece. These laws say that
//! nothing more has to be known of Pieces: where each grant and hop has one Offer among `wholes`,
//! and the parts that a node keeps came in pieces of them (`NodeKept`), each packet that comes over
//! the wire, whole or a Piece, leads to right moves of the node (`wires_lead_to_moves`) and to what
//! agrees (`wires_agree`); and each step of a node keeps it so (`offers_stay_one`): who departs
//! never offered before what it holds, a leaving node offers that again and nothing else, and
//! nobody else offers anything. What a node sends is what its definitions say of whole Offers, cut
//! (`what_is_sent_goes_cut`).

mod laws;

pub use laws::{
    offers_stay_one, what_goes_is_whole, what_is_sent_goes_cut, wires_agree, wires_lead_to_moves,
};
