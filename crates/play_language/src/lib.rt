//! Commands of transcripts on texts of the task language: how they are read, printed, checked and
//! evaluated; and on the names, places, lists and stores that all layers share.
//!
//! TEXT goes to the end of the line. In it `\n` is the end of a line, `\xHH` the byte of two
//! hexadecimal digits, and `⟦(*65⟧` is `(` 65 times. The text of a command is kept, and a command
//! without one takes the text that was kept last.
//!
//! - `text TEXT` keeps a text, and answers nothing.
//! - `tokens TEXT` shows its tokens, each with its offset, and `tree TEXT` its tree, names and
//!   closing braces with their offsets.
//! - `reads TEXT` tells whether it is read, and `kinds TEXT` whether it is accepted: then by its
//!   threads and its bytes.
//! - `prints TEXT` shows how the program that it reads as is printed: in lines; `nothing`, where it
//!   has no thread; or `as it is`, with its bytes, where that is the text itself.
//! - `turn THREAD NUMBERS..` is the turn of a thread of the kept text on numbers, and
//!   `evaluate TURNS NUMBERS..` the meaning of that text on numbers, in at most so many turns.
//! - `name KIND NUMBER` is what the name of a kind tells that a number makes, or `none`: `worker`
//!   and `frame` the number; `member` the name under which it is kept; `actor`, and `house` by its
//!   epoch, the word, and the epoch of a clearinghouse; `epoch` its number and its clearinghouse's
//!   word; `address` its word; `count` and `hop` the number and the next one.
//!   `name grant MINTER NUMBER` is its minter's word and its number. `before GRANT GRANT` is the
//!   order of two grants, as `3/9` or `house:1/1`.
//! - `place level PLACE`, `place step PLACE INDEX`, `place child PLACE HOLE` and `place next PLACE`
//!   are a place's level and length, a step of it, and the places of the kid of a hole and of the
//!   successor.
//! - `list NUMBERS AT NUMBER` is a list after a number was put at an index, this item, the one
//!   behind the last, and the list once it is cleared.
//! - `copy PACKET` is the packet of copies of what an Offer hands on.
//!
//! What a node is made of is played by itself. N is a number, or all from one to another that isn't
//! less, `FIRST..LAST`; the last thing that was taken is shown.
//!
//! - `frames put FRAME`, `frames get N`, `frames missing N`, `frames fill N SLOT VALUE`, where the
//!   slot is empty, `frames take N`, where they are ready, and `frames all`, in a copy.
//! - `posts post LEVEL GRANT N`, `posts deepest TIMES` and `posts shallowest TIMES`, which take,
//!   `posts withdraw GRANT N`, `posts retain LEVEL`, which keeps those from a level on, and in a
//!   copy all, and `posts all`: the deepest, the shallowest, and all from the deepest on.
//! - `records open PACKET`, an Offer's, `records held WORKER`, `records rename GRANT WORKER`,
//!   `records get GRANT`, `records copy GRANT`, which closes it in a copy, and
//!   `records close MINTER N`.
//! - `heirs MEMBERS N` tells who has the work of workers, by members that stand in any order.
//! - `asker ask ACTOR`, `asker pending SEQ`, `asker answered SEQ GRANT`, `asker settle STATUS`,
//!   where `nothing` may be said of the victim, and `asker clear`.
//! - `replies keep THIEF SEQ PACKET` and `replies hear THIEF SEQ`.
//! - `saved put PLACE VALUE`, where the place is one whose value is saved, `saved kid PLACE HOLE`,
//!   the value of a kid, `saved task PLACE`, where the value of a task is saved,
//!   `saved below PLACE`, `saved all`, in a copy, and `saved clear`.
//!
//! A refusal is answered by its number and offset. Behind E9, when out of memory, the same call is
//! made once more; but the copies of `copy` end the transcript there.
#![tactic(auto)]

mod calls;
mod copies;
mod language;
mod lists;
mod names;
mod shown;
mod stores;
mod tree;
mod written;

pub use language::Language;
