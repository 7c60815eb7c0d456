use crate::config::RunConfig;
use event_script::NodePlace;

/// How many events are committed between two crashes.
const CRASH: u64 = 50;

/// How many events after a crash a departure comes.
const DEPARTURE: u64 = 25;

/// The crashes and the departure that are planned for a place. Crash i of the run falls on the
/// place i modulo the count of nodes, once 50 i events were committed beyond those that come before
/// all faults; departure i on the place that many before the last one's end, once 50 i + 25 were.
#[derive(Clone, Copy)]
pub struct Plans {
    nodes: u64,
    after: u64,
    crashes: u64,
    crash: u64,
    departure: Option<u64>,
    leaves: bool,
}

impl Plans {
    /// Those of a place.
    pub fn new(config: &RunConfig, place: NodePlace) -> Plans {
        let faults = config.faults();
        let (nodes, place) = (u64::from(config.nodes()), u64::from(place.index()));
        let departure = nodes.saturating_sub(place);
        Plans {
            nodes,
            after: faults.after,
            crashes: faults.crashes,
            crash: if place == 0 { nodes } else { place },
            departure: if departure <= faults.departures {
                Some(
                    departure
                        .saturating_mul(CRASH)
                        .saturating_add(DEPARTURE)
                        .saturating_add(faults.after),
                )
            } else {
                None
            },
            leaves: false,
        }
    }

    /// Whether the next crash is due, after so many events; it is over then.
    pub fn take_crash(&mut self, events: u64) -> bool {
        let due = self.crash.saturating_mul(CRASH).saturating_add(self.after);
        if self.crash > self.crashes || events < due {
            return false;
        }
        self.crash = self.crash.saturating_add(self.nodes);
        true
    }

    /// Whether the departure is due, after so many events. It is due again after as many more as
    /// there are between the two, should it be refused.
    pub fn take_departure(&mut self, events: u64) -> bool {
        match self.departure {
            Some(at) if at <= events => {
                self.departure = Some(events.saturating_add(DEPARTURE));
                self.leaves = true;
                true
            }
            _ => false,
        }
    }

    /// Whether the departure was due. A node that is to leave asks for no more work, since none may
    /// leave while it waits for an answer.
    pub fn is_to_leave(&self) -> bool {
        self.leaves
    }
}
