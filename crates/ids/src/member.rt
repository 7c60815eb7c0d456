ghost use Rattle.ids.specs.Naming.{name_of_member};

use crate::names::Incarnation;
use crate::sorted_map::Named;

/// What the clearinghouse says of a worker: it lives, is dead, or left to an heir.
#[derive(Clone, Copy, PartialEq, Eq, Debug)]
pub enum Status {
    Live,
    Dead,
    Left(Incarnation),
}

/// A worker in a roster, and its status. In a packet it is not its own heir.
#[derive(Clone, Copy, PartialEq, Eq, Debug)]
pub struct Member {
    pub incarnation: Incarnation,
    pub status: Status,
}

/// A member's name is its incarnation.
impl Named for Member {
    ghost name_of = { name_of_member };

    fn name(&self) -> (u64, u64) {
        (self.incarnation.word(), 0)
    }
}
