//! Why an actor refuses a call.
ghost use Rattle.std.specs.Prelude.{◌≡◌};

use clearinghouse::HouseError;
use node_core::NodeError;
use thiserror::Error;

/// Why a node refuses a call.
#[derive(Clone, Copy, PartialEq, Eq, Debug, Error)]
pub enum NodeCallError {
    /// Packets wait to be taken first.
    #[error("packets wait")]
    Unsent,
    /// As the node refuses it.
    #[error("{0}")]
    Node(NodeError),
}

/// Why a clearinghouse refuses a call.
#[derive(Clone, Copy, PartialEq, Eq, Debug, Error)]
pub enum HouseCallError {
    /// Packets wait to be taken first.
    #[error("packets wait")]
    Unsent,
    /// As the clearinghouse refuses it.
    #[error("{0}")]
    House(HouseError),
}

/// Why a host's actor refuses a call.
#[derive(Clone, Copy, PartialEq, Eq, Debug, Error)]
pub enum ActorError {
    /// 100: the call is for the other kind of actor or for none, or the actor is over.
    #[error("not for this actor")]
    NotThis,
    /// 101: packets wait to be taken first, or what is to be done to the file.
    #[error("packets or calls of the file wait")]
    Unsent,
    /// As the node refuses it.
    #[error("{0}")]
    Node(NodeError),
    /// As the clearinghouse refuses it.
    #[error("{0}")]
    House(HouseError),
}

impl ActorError {
    ghost use Rattle.actors.specs.Called.{number_of_error};

    /// The number of the error.
    pub fn number(self) -> u8
        ensures { result ≡ number_of_error self }
    {
        match self {
            ActorError::NotThis => ids::error_numbers::NOT_THIS,
            ActorError::Unsent => ids::error_numbers::UNSENT,
            ActorError::Node(error) => error.number(),
            ActorError::House(error) => error.number(),
        }
    }
}

impl From<NodeCallError> for ActorError {
    ghost use Rattle.actors.specs.Called.{of_node};

    ghost from_gives = { λ n e. e ≡ of_node n };

    fn from(refused: NodeCallError) -> ActorError {
        match refused {
            NodeCallError::Unsent => ActorError::Unsent,
            NodeCallError::Node(error) => ActorError::Node(error),
        }
    }
}

impl From<HouseCallError> for ActorError {
    ghost use Rattle.actors.specs.Called.{of_house};

    ghost from_gives = { λ h e. e ≡ of_house h };

    fn from(refused: HouseCallError) -> ActorError {
        match refused {
            HouseCallError::Unsent => ActorError::Unsent,
            HouseCallError::House(error) => ActorError::House(error),
        }
    }
}
