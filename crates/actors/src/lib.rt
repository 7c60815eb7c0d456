//! Nodes and the clearinghouse as actors of a host, which carries their packets and says when each
//! acts.
//!
//! An actor does no input or output: the host hands in what happens, and takes the packets that are
//! to be sent, in their order. Besides its node or its clearinghouse it keeps what it knows of its
//! tasks' sizes, and which frame it carried out last. `HostActor` is an actor for a host that has
//! only numbers and bytes.
//!
//! **Proved**: each call is the case of the protocol that it is named for, of the node or the
//! clearinghouse that the actor is, and what that case sends waits for the host. While packets
//! wait, a call that may send is refused, and changes nothing. The same is said of each number by
//! which a call is made. **Not proved**: what an actor shows of itself but an outcome, that what is
//! done to a host's file waits for the host, and that the clearinghouse is refused while it does.
#![tactic(auto)]

mod actor;
mod call;
mod error;
mod host_actor;
mod host_file;
mod house_actor;
mod node_actor;
mod outbox;

pub use actor::{Actor, HostHouse, HostNode};
pub use call::{Call, Seen};
pub use error::{ActorError, HouseCallError, NodeCallError};
pub use host_actor::HostActor;
pub use host_file::{FileCalls, HostFile};
pub use house_actor::HouseActor;
pub use node_actor::{NodeActor, Worked};
