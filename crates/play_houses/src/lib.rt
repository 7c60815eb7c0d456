//! Commands of transcripts on a disk, on the store of a checkpoint over it, and on a clearinghouse
//! over that.
//!
//! There is one disk at a time, bare, in a store or in a clearinghouse. CALLS is how many calls of
//! the device pass before one fails. HEX is bytes, as pairs of hexadecimal digits, `-` for none, or
//! `HEX times COUNT`.
//!
//! - `disk new` makes an empty disk in memory, in place of what was there. `disk fails CALLS HEX`
//!   makes it, while it is bare, one of which that call fails, by which HEX settle the file, and no
//!   other.
//! - `file new HEX` makes a file of the transcript's own, with these bytes; `file write AT HEX`
//!   writes into it, which no disk knows of, and both answer nothing; `file read` shows its bytes.
//!   `disk file` makes a disk over it, in place of what was there. `disk failing CALLS` makes one
//!   over a file that takes all bytes and gives none, and of which that call fails.
//! - `disk read COUNT`, `disk write AT HEX`, `disk cut COUNT` and `disk sync` are calls of a bare
//!   disk. So are `disk arm CALLS HEX` and `disk crash`, which answer nothing; `disk failures`, the
//!   count of the calls that failed; and `disk kind`, whether it can be cut.
//! - `store format JOB` makes the store of a job on a bare disk, and `store open JOB` opens it: it
//!   answers its record and sequence. `store commit EPOCH OUTCOME` commits, where OUTCOME is
//!   `none`, `deep` or a value, and `store reopen EPOCH OUTCOME` commits, crashes and opens.
//!   `store record`, `store arm CALLS HEX`, `store failures` and `store kind` are as they say.
//!   `store close` gives the disk back, bare. `store epoch NUMBER` tells whether that is a last
//!   epoch, and which is the next one.
//! - `house program TEXT`, `house input NUMBERS..` and `house job NUMBER` set the job of each
//!   clearinghouse that is opened later, and answer nothing. `house open LIMIT` opens one over a
//!   bare disk, where a member may be silent for so long.
//! - `house hear PACKET` carries bytes to it: a packet in words, `bytes HEX`, or `#N`, the Nth
//!   packet that it sent. `house joins FIRST LAST` carries to it the Joins of these workers, in
//!   turn, up to one that is refused, and shows what the last one answers. `house tick MOMENT`,
//!   `house outcome`, `house arm CALLS HEX`, `house failures` and `house close` are as they say.
//! - `house brief` and `house full` answer nothing. Between them nothing of what a clearinghouse
//!   sends is shown or kept: so who takes the time of calls doesn't take that of words.
//! - `house same #N #M` tells whether two packets have the same bytes, and `house hex #N` what
//!   these are.
//!
//! A call answers `ok`, what it gives, or the number of its refusal. What a clearinghouse sends is
//! shown packet by packet, in words behind its number; `ignored`, for a packet that was ignored;
//! `nothing`, where it sends nothing. Of more than 1,000 bytes the count is shown, and of a packet
//! the kind. Behind an opening that is refused the disk is bare.
//!
//! Being out of memory is a failure of the device (E72), or stops the clearinghouse (E9), and
//! leaves what these leave. So no call is made again: where the transcript planned no failure, it
//! ends with it.
#![tactic(auto)]

mod bench;
mod device;
mod file;
mod house;
mod houses;
mod job;
mod shown;
mod store;

pub use houses::Houses;
