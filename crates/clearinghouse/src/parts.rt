ghost use Rattle.clearinghouse.specs.House.{name_of_enlisted};

use crate::error::HouseError;
use codec::Datagram;
use ids::{GrantId, Incarnation, Listed, Named, Outcome, Status};
use saved_values::SavedTable;

/// A worker of a roster: what is said of it, and the moment at which it was last heard.
#[derive(Clone, Copy, PartialEq, Eq, Debug)]
pub struct Enlisted {
    pub incarnation: Incarnation,
    pub status: Status,
    pub heard: u64,
}

/// Its name is its incarnation.
impl Named for Enlisted {
    ghost name_of = { name_of_enlisted };

    fn name(&self) -> (u64, u64) {
        (self.incarnation.word(), 0)
    }
}

/// The root's grant, and the worker that holds it.
#[derive(Clone, Copy, PartialEq, Eq, Debug)]
pub struct RootGrant {
    pub grant: GrantId,
    pub holder: Incarnation,
}

/// What stopped a clearinghouse: a call of the device that failed, or being out of memory.
#[derive(Clone, Copy, PartialEq, Eq, Debug)]
pub enum Stop {
    Device,
    Memory,
}

impl Stop {
    ghost use Rattle.std.specs.Prelude.{◌≡◌};
    ghost use Rattle.clearinghouse.specs.Errors.{error_of_stop};

    /// What a clearinghouse answers that was stopped by it: E72 or E9.
    pub fn error(self) -> HouseError
        ensures { result ≡ error_of_stop self }
    {
        match self {
            Stop::Device => HouseError::Device,
            Stop::Memory => HouseError::Memory,
        }
    }
}

/// What a call of the clearinghouse did: the packets that it sends, in their order, and whether it
/// ignored a packet, which changes nothing.
#[derive(Drop)]
pub struct HouseStep {
    pub sent: Listed<Datagram>,
    pub ignored: bool,
}

/// What is to be done by a packet or at a moment: it is ignored; packets are sent; an outcome is
/// recorded, and then packets are sent; or these values are saved.
#[derive(Drop)]
pub enum Act {
    Ignored,
    Sends(Listed<Datagram>),
    Records(Outcome, Listed<Datagram>),
    Saves(SavedTable),
}
