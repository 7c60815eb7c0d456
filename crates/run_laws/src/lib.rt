//! Every run is safe and agrees with the serial program, and the work of each wanted grant is
//! somewhere, or is cut off.
//!
//! For every job and every list of events, from a disk on which a run of the job can begin
//! (`runs_are_safe`): in each world of the run no slot was filled twice, each value in a slot is
//! the one that the serial program puts there, no grant has two live holders, and a recorded
//! outcome is the job's meaning; once recorded it stays. Every packet that was sent and all that is
//! held and not frozen agrees with the serial meaning. And `NothingLost` holds: while the
//! clearinghouse is open and wants an outcome, the work of each wanted grant is somewhere, or is
//! cut off, and where all of it is held, somebody can go on. That is put together of three things.
//!
//! # Each step of the world is a list of moves on tables that show it (`moves`)
//!
//! A world is *tied* (specs/Shown) where there are tables that come of a run of right moves and
//! show it: each node that is up by the rows of its name, the open clearinghouse by those of its
//! own, each packet that was sent, each value that was put into a slot, and the record that the
//! disk keeps whatever a crash leaves. Large Offers go in Pieces, of which tables know nothing. So
//! a world is *sound* (specs/Sound) where it is cut from a world of whole packets that is tied,
//! with one Offer for each grant and hop, and that agrees with the serial meaning. A first world is
//! sound, and each step leads from a sound world to a sound one, whatever the event
//! (`steps_are_moves`, proofs/Wholes). So what is true of tables after every list of moves is true
//! of the worlds of every run: no grant has two live holders, no slot was filled twice, and a
//! recorded outcome is the job's meaning (`sound_worlds_are_safe`, `worlds_of_runs_are_safe`).
//!
//! What a node does is said by `actor_laws::node_moves`, what the clearinghouse does by
//! `house_moves`; here stand the places of nodes, starts and crashes, the disk over commits,
//! openings, Cuts and crashes (proofs/Disks, Stopping, Opening), and how one actor's moves leave
//! the rest of the world shown (proofs/Stepping, Housing). A call of the disk that fails in a
//! commit leaves the record before or the next one; the tables follow what the disk has then.
//!
//! # Each world agrees with the serial meaning (`agrees`)
//!
//! What its packets give away, what is held and not frozen, the parts of Offers that are kept, what
//! Results tell, and each value that was put into a slot. By value (specs/Right) each step of one
//! actor keeps that, as `actor_laws::actor_agreement` says; that a Result tells the outcome of the
//! task that was granted follows from the tables to which the world is tied, in which the whole run
//! so far is (proofs/StepsAgree). So a sound world agrees as a reader of packets and of what is
//! held would say it (`worlds_agree`).
//!
//! # Where work is (`loss`)
//!
//! In each world of a run in which the clearinghouse is open, the root's grant is out and no
//! outcome is recorded, the work of each wanted grant is somewhere, or is cut off. A grant is
//! wanted if it is the root's, or if a record of a live subcomputation of a wanted grant waits for
//! it. Its work has a live holder; or a thief awaits it, whose Grant was sent; or a leaving node
//! holds it frozen; or somebody is cut off to whom it went, or to whom the grant went that waits
//! for it. And where each wanted grant has a live holder, one of these has a ready frame or has
//! finished: so not all wait for each other (`nothing_is_lost`). It says where work is, and nothing
//! of what is done next: not that a roster comes, nor that work that was cut off is done again.
//!
//! # Nobody waits for somebody who is gone (`standing`)
//!
//! By its own roster no member waits for a worker that is dead or left, who goes on is live, and by
//! the clearinghouse's members the holder of the root's grant is live (specs/Standing). What one
//! actor does keeps that, as `actor_laws::standing` says; that no two subcomputations have a record
//! of one grant follows from the tables (`worlds_stand`).
//!
//! # What comes now is taken (`next`)
//!
//! In each such world (specs/Next) a ready frame of what is held live is carried out by its turn;
//! to who awaits a grant a packet was sent whose delivery makes it hold the grant; what a leaver
//! holds was offered, and an heir that is a member and hasn't taken that hop takes it if it comes
//! now; a Result that comes to a member closes the record of its grant, and that of the root's
//! grant is recorded; and Resends and last answers tell again what isn't answered
//! (`what_comes_now_is_taken`). What fits where is said by `actor_laws::next`, and that it is new
//! there by the tables. A moment at which the root's holder was silent for too long frees the root,
//! and a free root is granted to a live thief that asks anew. For other work that is cut off it
//! names no event, and it says nothing of whether any of these comes.
#![tactic(auto)]

mod agrees;
mod loss;
mod moves;
mod next;
mod runs;
mod standing;

pub use agrees::worlds_agree;
pub use loss::nothing_is_lost;
pub use moves::{sound_worlds_are_safe, steps_are_moves, worlds_of_runs_are_safe};
pub use next::what_comes_now_is_taken;
pub use runs::{disks_go_on, openings_find_their_store, runs_are_safe};
pub use standing::worlds_stand;
