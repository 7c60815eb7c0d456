//! Names, places, tasks and frames that every layer speaks of, and the types that contracts see as
//! a list or as a map.
#![tactic(auto)]

pub mod error_numbers;
pub mod limits;
mod listed;
mod member;
mod names;
mod outcome;
mod place;
mod returns;
mod short_list;
mod sorted_map;
mod work;

pub use listed::Listed;
pub use member::{Member, Status};
pub use names::{Actor, Address, Count, Epoch, FrameNo, GrantId, Hop, Incarnation};
pub use outcome::{Outcome, Progress};
pub use place::{Place, PlaceError, are_steps};
pub use returns::Return;
pub use short_list::{Numbers, ShortList, Slots};
pub use sorted_map::{Exact, ItemChange, Named, SortedMap, TryItemChange, Values, item_of};
pub use work::{Frame, Record, Task};
