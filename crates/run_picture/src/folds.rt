//! Stretches of a run in which no body runs, and nothing else that is shown but packets. They are
//! folded.

use crate::shown::{Lost, keep};
use std::alloc::Global;

/// So many events in a row are folded at least.
const FEWEST: usize = 40;

/// Events in a row that are folded: the first one, how many they are, and how many are folded
/// before them.
#[derive(Clone, Copy)]
pub(crate) struct Fold {
    pub(crate) first: usize,
    pub(crate) count: usize,
    before: usize,
}

/// Where an event stands: behind so many folds and so many folded events, and whether it is folded
/// itself: then its own fold, and those of its events that stand before it, are among these.
#[derive(Clone, Copy)]
pub(crate) struct Spot {
    pub(crate) folds: usize,
    pub(crate) folded: usize,
    pub(crate) is_folded: bool,
}

/// The folds of a run, in their order.
#[derive(Drop)]
pub(crate) struct Folds {
    all: Vec<Fold>,
    events: usize,
    /// How many events were taken since the last one that stands out.
    row: usize,
    folded: usize,
}

impl Folds {
    /// Those of a run without events.
    pub(crate) fn new(alloc: Global) -> Folds {
        Folds {
            all: Vec::new(alloc),
            events: 0,
            row: 0,
            folded: 0,
        }
    }

    /// Takes the next event, which stands out or doesn't.
    pub(crate) fn take(&mut self, stands_out: bool) -> Result<(), Lost> {
        self.events = self.events.saturating_add(1);
        if stands_out {
            self.row = 0;
            return Ok(());
        }
        self.row = self.row.saturating_add(1);
        if self.row == FEWEST {
            self.begin()?;
        } else if self.row > FEWEST {
            self.go_on();
        }
        Ok(())
    }

    /// The last events are a fold.
    fn begin(&mut self) -> Result<(), Lost> {
        let fold = Fold {
            first: self.events.saturating_sub(FEWEST),
            count: FEWEST,
            before: self.folded,
        };
        self.folded = self.folded.saturating_add(FEWEST);
        keep(&mut self.all, fold)
    }

    /// The last fold has one event more.
    fn go_on(&mut self) {
        self.folded = self.folded.saturating_add(1);
        if let Some(fold) = self.all.last_mut() {
            fold.count = fold.count.saturating_add(1);
        }
    }

    /// The folds.
    pub(crate) fn as_slice(&self) -> &[Fold] {
        self.all.as_slice()
    }

    /// How many events are folded.
    pub(crate) fn folded(&self) -> usize {
        self.folded
    }

    /// Where an event stands.
    pub(crate) fn spot(&self, event: usize) -> Spot {
        let folds = self.all.partition_point(|fold| fold.first <= event);
        match self.all.get(folds.saturating_sub(1)) {
            Some(fold) if folds > 0 => {
                let inside = event.saturating_sub(fold.first);
                Spot {
                    folds,
                    folded: fold.before.saturating_add(inside.min(fold.count)),
                    is_folded: inside < fold.count,
                }
            }
            _ => Spot {
                folds: 0,
                folded: 0,
                is_folded: false,
            },
        }
    }

    /// Whether an event is folded.
    pub(crate) fn is_folded(&self, event: usize) -> bool {
        self.spot(event).is_folded
    }

    /// Whether two events are folded, in one fold.
    pub(crate) fn are_together(&self, one: usize, other: usize) -> bool {
        let (one, other) = (self.spot(one), self.spot(other));
        one.is_folded && other.is_folded && one.folds == other.folds
    }
}
