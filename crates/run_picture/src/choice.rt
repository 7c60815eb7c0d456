//! Which packets a picture shows.

use crate::kind::{carries_work, is_of_work};
use crate::record::Recorder;
use crate::shown::{Delivery, Sent};
use codec::Kind;

/// How many arrows and stubs there are at most.
const MOST: usize = 400;

/// What is asked for: all packets, or none of those that are only about who takes part and is
/// there, Joins, Rosters and Beats.
#[derive(Clone, Copy, PartialEq, Eq, Debug)]
pub enum Shows {
    All,
    Work,
}

/// Which packets have arrows: all; all but Joins, Rosters and Beats; those that take a task or an
/// outcome to another one; or none.
#[derive(Clone, Copy)]
pub(crate) enum Arrows {
    All,
    Work,
    Tasks,
    Hidden,
}

impl Arrows {
    /// Whether packets of a kind are shown.
    pub(crate) fn shows(self, kind: Kind) -> bool {
        match self {
            Arrows::All => true,
            Arrows::Work => is_of_work(kind),
            Arrows::Tasks => carries_work(kind),
            Arrows::Hidden => false,
        }
    }

    /// Whether there aren't too many arrows and stubs.
    fn are_few(self, run: &Recorder) -> bool {
        self.stubs(run).saturating_add(self.arrows(run)) <= MOST
    }

    /// How many stubs there are.
    fn stubs(self, run: &Recorder) -> usize {
        let mut count = 0usize;
        for sent in &run.packets {
            if self.shows(sent.kind) && has_stub(run, sent) {
                count = count.saturating_add(1);
            }
        }
        count
    }

    /// How many arrows there are.
    fn arrows(self, run: &Recorder) -> usize {
        let mut count = 0usize;
        for delivery in &run.deliveries {
            if self.shows_delivery(run, delivery) {
                count = count.saturating_add(1);
            }
        }
        count
    }

    /// Whether a delivery has an arrow.
    fn shows_delivery(self, run: &Recorder, delivery: &Delivery) -> bool {
        match run.packets.get(delivery.packet) {
            Some(sent) => self.shows(sent.kind) && has_arrow(run, sent, delivery),
            None => false,
        }
    }
}

/// Whether a packet has a stub, if its kind is shown: it never came, and wasn't sent within a fold.
pub(crate) fn has_stub(run: &Recorder, sent: &Sent) -> bool {
    !sent.is_delivered && !run.folds.is_folded(sent.at)
}

/// Whether a delivery of a packet has an arrow, if its kind is shown: it isn't all in one fold.
pub(crate) fn has_arrow(run: &Recorder, sent: &Sent, delivery: &Delivery) -> bool {
    !run.folds.are_together(sent.at, delivery.at)
}

/// Which packets have arrows: what is asked for, or less, so that these aren't too many.
pub(crate) fn arrows_of(run: &Recorder, shows: Shows) -> Arrows {
    if shows == Shows::All && Arrows::All.are_few(run) {
        Arrows::All
    } else if Arrows::Work.are_few(run) {
        Arrows::Work
    } else if Arrows::Tasks.are_few(run) {
        Arrows::Tasks
    } else {
        Arrows::Hidden
    }
}
