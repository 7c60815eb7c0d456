//! The kinds of packets, as a picture tells them apart.

use codec::Kind;

/// What packets are about. Those of one family have arrows of one look.
#[derive(Clone, Copy)]
pub(crate) enum Family {
    /// A task goes to another node.
    Work,
    /// An outcome goes back, or a value to be saved.
    Outcome,
    /// Work is asked for.
    Asking,
    /// Something came, or isn't wanted any more.
    Answer,
    /// Who takes part.
    Members,
}

/// What packets of a kind are about.
pub(crate) fn family_of(kind: Kind) -> Family {
    match kind {
        Kind::Grant | Kind::SavedGrant | Kind::Offer | Kind::Piece => Family::Work,
        Kind::Result | Kind::Save => Family::Outcome,
        Kind::Steal | Kind::Refuse => Family::Asking,
        Kind::ResultAck | Kind::OfferAck | Kind::Abort => Family::Answer,
        Kind::Join | Kind::Roster | Kind::Leave | Kind::Beat => Family::Members,
    }
}

/// Whether packets of a kind are about work, and not only about who takes part and is there.
pub(crate) fn is_of_work(kind: Kind) -> bool {
    !matches!(kind, Kind::Join | Kind::Roster | Kind::Beat)
}

/// Whether a packet of a kind takes a task or an outcome to another one.
pub(crate) fn carries_work(kind: Kind) -> bool {
    !matches!(kind, Kind::Save) && matches!(family_of(kind), Family::Work | Family::Outcome)
}

impl Family {
    /// The name of its look.
    pub(crate) fn look(self) -> &'static str {
        match self {
            Family::Work => "work",
            Family::Outcome => "outcome",
            Family::Asking => "asking",
            Family::Answer => "answer",
            Family::Members => "members",
        }
    }
}
