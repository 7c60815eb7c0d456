//! The events of a run, as a picture keeps them.

use event_script::{Asked, Event, FrameOf, HouseEvent, NodeEvent, NodePlace};

/// Where an event happens.
#[derive(Clone, Copy, PartialEq, Eq)]
pub(crate) enum Site {
    House,
    At(NodePlace),
}

/// What happens. A cut keeps how many device calls there are, and not its bytes.
#[derive(Clone, Copy)]
pub(crate) enum Deed {
    Start(u64),
    Deliver(u64),
    Exec(FrameOf),
    /// A frame is carried out by its whole value, in so many turns: in at most so many, where it
    /// isn't done.
    Whole(FrameOf, u64),
    Ask(Asked),
    Resend,
    Depart(u64),
    Crash,
    Tick(u64),
    /// The clearinghouse is opened for the first time.
    Open,
    Restart,
    Cut(u64, HouseEvent),
}

/// What came of an event.
#[derive(Clone, Copy, PartialEq, Eq)]
pub(crate) enum Effect {
    /// It was carried out.
    Done,
    /// A node ignored the packet that came.
    Ignored,
    /// It was refused, by the error of this number.
    Refused(u8),
    /// It names what isn't there.
    Nothing,
}

/// An event, what came of it, and the thread whose body ran, or whose task was evaluated whole, if
/// one was.
#[derive(Clone, Copy)]
pub(crate) struct Step {
    pub(crate) site: Site,
    pub(crate) deed: Deed,
    pub(crate) effect: Effect,
    pub(crate) ran: Option<u8>,
}

impl Deed {
    /// The packet that is delivered, if one is.
    pub(crate) fn packet(self) -> Option<u64> {
        match self {
            Deed::Deliver(index) | Deed::Cut(_, HouseEvent::Deliver(index)) => Some(index),
            _ => None,
        }
    }
}

/// Where an event happens, and what.
pub(crate) fn read_event(event: &Event) -> (Site, Deed) {
    match event {
        Event::Start(place, word) => (Site::At(*place), Deed::Start(*word)),
        Event::AtNode(place, event) => (Site::At(*place), node_deed(*event)),
        Event::Crash(place) => (Site::At(*place), Deed::Crash),
        Event::AtHouse(event) => (Site::House, house_deed(*event)),
        Event::HouseCrash => (Site::House, Deed::Crash),
        Event::Cut(cut) => {
            let cut = cut.as_ref();
            (Site::House, Deed::Cut(cut.calls, cut.event))
        }
    }
}

fn node_deed(event: NodeEvent) -> Deed {
    match event {
        NodeEvent::Deliver(packet) => Deed::Deliver(packet),
        NodeEvent::Exec(frame) => Deed::Exec(frame),
        NodeEvent::Whole(frame, most) => Deed::Whole(frame, most),
        NodeEvent::Ask(whom) => Deed::Ask(whom),
        NodeEvent::Resend => Deed::Resend,
        NodeEvent::Depart(heir) => Deed::Depart(heir),
    }
}

fn house_deed(event: HouseEvent) -> Deed {
    match event {
        HouseEvent::Deliver(packet) => Deed::Deliver(packet),
        HouseEvent::Tick(moment) => Deed::Tick(moment),
        HouseEvent::Restart => Deed::Restart,
    }
}
