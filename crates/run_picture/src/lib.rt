//! A picture of a run, as SVG: who held which work, what was sent, and what became of the nodes and
//! the clearinghouse.
//!
//! `Recorder` looks on while a script is replayed, and keeps what the picture needs;
//! `write_picture` writes it. All that is written is numbers, fixed words and the names of threads,
//! which are letters, digits and `_`: so nothing has to be escaped. The same job and script give
//! the same picture.
#![tactic(auto)]

mod arrows;
mod bars;
mod choice;
mod deed;
mod folds;
mod head;
mod held;
mod kind;
mod lanes;
mod layout;
mod legend;
mod mark;
mod marks;
mod names;
mod picture;
mod px;
mod record;
mod rooms;
mod said;
mod shown;
mod style;
mod texts;

pub use choice::Shows;
pub use picture::write_picture;
pub use record::Recorder;
