//! How large tasks are that a node evaluates whole.
//!
//! A node may carry out a ready frame by what its task gives with all that comes of it. How many
//! turns that takes nobody knows before it is done. So a task is evaluated in as many turns as
//! those before it suggest (`TaskSizes`). Where it takes more, what was finished below it is kept
//! (`KeptValues`), and frames are carried out by it once they are there; those tasks that were
//! under way are known to be large, and are not tried. So what is evaluated in vain is at most some
//! times as much as what isn't, and with most programs a small part of it.
//!
//! **Proved**: a value that is kept, or that an evaluation gives, is what a task of the program
//! gives with all that comes of it. **Not proved**: anything of which tasks are tried, in how many
//! turns, and what is kept. That a frame is carried out by its own task's value is not a matter of
//! this crate: a node looks whether a value fits (`Node::whole_with`).
#![tactic(auto)]

mod budget;
mod kept;
mod large;
mod left;
mod sizes;
mod threads;

pub use budget::Grain;
pub use kept::KeptValues;
pub use left::{Left, evaluate, takes_its_numbers};
pub use sizes::TaskSizes;
