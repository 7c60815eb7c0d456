//! Who acts in a move of the tables, and that nobody else's rows change by it.
//!
//! A step of a worker is a list of moves of its own name (`MovedBy`, specs/Beside): each is right,
//! as the moves of a run are, and leaves the rows of all other names and the clearinghouse as they
//! were (`others_stay_as_they_were`), while what was sent stays sent (`what_was_sent_stays_sent`).
//! So what tables show of the other nodes and of the packets needs no proof case by case.
//!
//! Beside these stands what rosters of packets have to do with rosters of tables (specs/Listed):
//! following heirs in the one is following heirs in the other
//! (`heirs_of_members_are_those_of_tables`), and a verdict of death can be marked as a loss
//! (`a_verdict_can_be_marked_as_a_loss`). The crate knows tables and lists of members, and no
//! nodes, packets or contents.
#![tactic(auto)]

mod laws;

pub use laws::{
    a_verdict_can_be_marked_as_a_loss, heirs_of_members_are_those_of_tables,
    others_stay_as_they_were, what_was_sent_stays_sent,
};
