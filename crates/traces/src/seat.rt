use event_script::NodePlace;

/// Where an actor of a merged run stands.
#[derive(Clone, Copy, PartialEq, Eq, Debug)]
pub enum Seat {
    /// At a place of a node.
    Place(NodePlace),
    /// It is the clearinghouse.
    House,
}
