//! Commands of transcripts on nodes: workers by their start words, the packets that they sent, and
//! what each call of a node answers.
//!
//! A job is set before the first start: `program TEXT`, `input NUMBERS..` and `job NUMBER` answer
//! nothing, but for the refusal of a text that is no program. Another `program` begins another job,
//! of the nodes that start behind it. Then
//!
//! - `start W` and `crash W` begin and end worker W; `crash` answers nothing.
//! - `ask W V` and `ask W house`, `run W` (the first frame that it shows as ready),
//!   `exec W GRANT FRAME` (that frame, by its own turn), `exec W GRANT FRAME thread=T on=NUMBERS`
//!   (that frame, by the turn of a thread on numbers),
//!   `exec W GRANT FRAME given thread=T on=NUMBERS` (by that turn if it is the frame's own, else by
//!   its own), `whole W GRANT FRAME TURNS` (that frame, by what its task gives in at most so many
//!   turns), `depart W HEIR` and `resend W` are calls of worker W's node.
//! - `give W PACKET` carries a packet to worker W. PACKET is `#N`, the Nth of all that were sent;
//!   `KIND from V`, the last packet of a kind from worker V to W; a packet in words, which comes of
//!   nobody; or `bytes HEX`. A packet that was sent may be followed by `with AT HEX`: the byte at
//!   AT, from 0, is another.
//! - `make WORDS` makes a packet by hand and gives it the next number, as if it was sent.
//! - `same #N #M` tells whether two packets have the same bytes, and `hex #N` what these are.
//! - `ready W` shows its ready frames, in the order in which its workers take them, or
//!   `nothing ready`, and `subs W` what it holds, or `nothing held`.
//! - `brief` and `full` answer nothing. Between them a call shows nothing of what it sends and
//!   fills, and what it sends gets no number: so who takes the time of calls doesn't take that of
//!   words.
//!
//! A call answers each packet that it sends, in words behind its number, and then each value that
//! came to a slot; `ignored`, for a packet that was ignored; `nothing`, where it neither sends nor
//! fills; `nothing ready`, where `run` finds no frame; or the number of its refusal. Behind E63 or
//! E9, when out of memory, the same call is made once more.
#![tactic(auto)]

mod job;
mod named;
mod nodes;
mod player;
mod post;
mod shown;
mod views;

pub use nodes::Nodes;
