ghost use Rattle.std.specs.Prelude.{◌≡◌};

use departure::FreezeError;
use packet_fields::Fault;
use std::alloc::AllocError;
use steal_protocol::AskError;
use sub_rules::SubError;
use thiserror::Error;

/// Why a call of a node is refused. It changes nothing then.
#[derive(Clone, Copy, PartialEq, Eq, Debug, Error)]
#[error("E{number}", number = self.number())]
pub enum NodeError {
    /// E30 to E36: the bytes are no packet.
    Bytes(Fault),
    /// E40: the frame isn't ready here with that thread and those numbers.
    Stale,
    /// E41: the frame's task takes more turns than were given, or gives nothing in the room below
    /// its place.
    NoValue,
    /// E50: a request is pending.
    Pending,
    /// E51: an Offer would have more than 1,073,741,824 bytes.
    TooBig,
    /// E52: a subcomputation has moved as often as is counted.
    HopSpent,
    /// E53: the heir isn't another live member.
    NoHeir,
    /// E60: the node isn't joined or has ended, or the victim isn't shown live or is the node
    /// itself.
    NotJoined,
    /// E61: a request is pending, or the node leaves.
    Busy,
    /// E62: a count is spent.
    Spent,
    /// E63: there is no memory.
    Memory,
}

impl NodeError {
    ghost use Rattle.node_steps.specs.Errors.{number_of_error};

    /// The number of the error.
    pub fn number(self) -> u8
        ensures { result ≡ number_of_error self }
    {
        match self {
            NodeError::Bytes(fault) => fault.number(),
            NodeError::Stale => ids::error_numbers::STALE,
            NodeError::NoValue => ids::error_numbers::NO_VALUE,
            NodeError::Pending => ids::error_numbers::PENDING,
            NodeError::TooBig => ids::error_numbers::OFFER_TOO_BIG,
            NodeError::HopSpent => ids::error_numbers::HOP_SPENT,
            NodeError::NoHeir => ids::error_numbers::NO_HEIR,
            NodeError::NotJoined => ids::error_numbers::NOT_JOINED,
            NodeError::Busy => ids::error_numbers::BUSY,
            NodeError::Spent => ids::error_numbers::SPENT,
            NodeError::Memory => ids::error_numbers::NODE_MEMORY,
        }
    }
}

impl From<AllocError> for NodeError {
    ghost use Rattle.node_steps.specs.declared.error.NodeError.TheVariants.{Memory};

    ghost from_gives = { λ _ e. e ≡ Memory };

    fn from(_refused: AllocError) -> NodeError {
        NodeError::Memory
    }
}

impl From<SubError> for NodeError {
    ghost use Rattle.node_steps.specs.Errors.{of_change};

    ghost from_gives = { λ s e. e ≡ of_change s };

    fn from(refused: SubError) -> NodeError {
        match refused {
            SubError::Stale => NodeError::Stale,
            SubError::Spent => NodeError::Spent,
            SubError::Memory => NodeError::Memory,
        }
    }
}

impl From<AskError> for NodeError {
    ghost use Rattle.node_steps.specs.Errors.{of_request};

    ghost from_gives = { λ a e. e ≡ of_request a };

    fn from(refused: AskError) -> NodeError {
        match refused {
            AskError::Busy => NodeError::Busy,
            AskError::Spent => NodeError::Spent,
        }
    }
}

impl From<FreezeError> for NodeError {
    ghost use Rattle.node_steps.specs.Errors.{of_freezing};

    ghost from_gives = { λ f e. e ≡ of_freezing f };

    fn from(refused: FreezeError) -> NodeError {
        match refused {
            FreezeError::Pending => NodeError::Pending,
            FreezeError::TooBig => NodeError::TooBig,
            FreezeError::HopSpent => NodeError::HopSpent,
            FreezeError::NoHeir => NodeError::NoHeir,
            FreezeError::Memory => NodeError::Memory,
        }
    }
}
