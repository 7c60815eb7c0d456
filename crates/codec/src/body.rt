use ids::{
    Actor, Count, Epoch, Frame, FrameNo, GrantId, Hop, Incarnation, Listed, Member, Outcome, Place,
    Progress, Record, Task,
};
use saved_values::SavedValue;

/// A worker asks the clearinghouse of any epoch to list it.
#[derive(Clone, Copy, PartialEq, Eq, Debug)]
pub struct Join {
    pub from: Incarnation,
}

/// The clearinghouse tells a worker who is listed: the members by rising incarnation, at most
/// 4,096. Each change of the roster raises its version by 1.
#[derive(Drop)]
pub struct Roster {
    pub epoch: Epoch,
    pub version: Count,
    pub members: Listed<Member>,
}

/// A thief asks for work. Its requests are counted.
#[derive(Clone, Copy, PartialEq, Eq, Debug)]
pub struct Steal {
    pub from: Incarnation,
    pub seq: Count,
}

/// The answer to a request: a task, under the name of a new grant, and values that are saved below
/// the task's place, at most 64 by the order of their places. With one or more of these it is
/// spelled as a SavedGrant.
#[derive(Drop)]
pub struct Grant {
    pub seq: Count,
    pub grant: GrantId,
    pub task: Task,
    pub saved: Listed<SavedValue>,
}

/// The answer to a request where there is no work.
#[derive(Clone, Copy, PartialEq, Eq, Debug)]
pub struct Refuse {
    pub seq: Count,
}

/// The outcome of a granted task.
#[derive(Clone, Copy, PartialEq, Eq, Debug)]
pub struct TaskResult {
    pub from: Incarnation,
    pub grant: GrantId,
    pub outcome: Outcome,
}

/// The outcome of a grant has come.
#[derive(Clone, Copy, PartialEq, Eq, Debug)]
pub struct ResultAck {
    pub grant: GrantId,
}

/// A worker that leaves offers a subcomputation to its heir: its grant, how often it has moved with
/// this move, the host of the subcomputation that waits for it, how far it is, its root task, the
/// number of its next frame, its frames by rising number and its records by rising grant. A
/// finished one has neither frames nor records.
#[derive(Drop)]
pub struct Offer {
    pub from: Incarnation,
    pub grant: GrantId,
    pub hop: Hop,
    pub parent: Actor,
    pub progress: Progress,
    pub task: Task,
    pub next: FrameNo,
    pub frames: Listed<Frame>,
    pub records: Listed<Record>,
}

/// An offer at a hop has come, or, at hop 0, a grant.
#[derive(Clone, Copy, PartialEq, Eq, Debug)]
pub struct OfferAck {
    pub from: Incarnation,
    pub grant: GrantId,
    pub hop: Hop,
}

/// A worker leaves to another one.
#[derive(Clone, Copy, PartialEq, Eq, Debug)]
pub struct Leave {
    pub from: Incarnation,
    pub heir: Incarnation,
}

/// The outcome of a grant isn't wanted any more.
#[derive(Clone, Copy, PartialEq, Eq, Debug)]
pub struct Abort {
    pub grant: GrantId,
}

/// A worker lives, and has a roster of this version.
#[derive(Clone, Copy, PartialEq, Eq, Debug)]
pub struct Beat {
    pub from: Incarnation,
    pub version: Count,
}

/// A part of an offer that is too long for one packet: who leaves, the grant, how often it has
/// moved with this move, into how many parts the offer's spelling is cut, which of them this is,
/// counted from 0, and its bytes.
#[derive(Drop)]
pub struct Piece {
    pub from: Incarnation,
    pub grant: GrantId,
    pub hop: Hop,
    pub pieces: u16,
    pub number: u16,
    pub bytes: Listed<u8>,
}

/// A worker hands the value of a task, with the task's place, to the clearinghouse, which may save
/// it.
#[derive(Drop)]
pub struct Save {
    pub from: Incarnation,
    pub place: Place,
    pub value: i64,
}

/// What a packet says, by its kind.
#[derive(Drop)]
pub enum Body {
    Join(Join),
    Roster(Roster),
    Steal(Steal),
    Grant(Grant),
    Refuse(Refuse),
    Result(TaskResult),
    ResultAck(ResultAck),
    Offer(Offer),
    OfferAck(OfferAck),
    Leave(Leave),
    Abort(Abort),
    Beat(Beat),
    Piece(Piece),
    Save(Save),
}

impl Body {
    /// The grant that it speaks of; none where it speaks of no single one.
    pub fn grant(&self) -> Option<GrantId> {
        match self {
            Body::Grant(grant) => Some(grant.grant),
            Body::Result(outcome) => Some(outcome.grant),
            Body::ResultAck(ack) => Some(ack.grant),
            Body::Offer(offer) => Some(offer.grant),
            Body::OfferAck(ack) => Some(ack.grant),
            Body::Abort(abort) => Some(abort.grant),
            Body::Piece(piece) => Some(piece.grant),
            Body::Join(_)
            | Body::Roster(_)
            | Body::Steal(_)
            | Body::Refuse(_)
            | Body::Leave(_)
            | Body::Beat(_)
            | Body::Save(_) => None,
        }
    }
}

/// The kinds of packets.
#[derive(Clone, Copy, PartialEq, Eq, Debug)]
pub enum Kind {
    Join,
    Roster,
    Steal,
    Grant,
    Refuse,
    Result,
    ResultAck,
    Offer,
    OfferAck,
    Leave,
    Abort,
    Beat,
    Piece,
    Save,
    SavedGrant,
}
