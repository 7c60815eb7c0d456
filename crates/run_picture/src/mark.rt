//! The marks of events: shapes and words.

use crate::deed::{Deed, Effect, Step};
use std::fmt;

/// The shape of a mark.
#[derive(Clone, Copy)]
pub(crate) enum Shape {
    Start,
    Crash,
    Cut,
    Leave,
    Dead,
    Outcome,
}

impl Shape {
    /// Its look, and its way from the point on at which it stands.
    pub(crate) fn drawn(self) -> (&'static str, &'static str) {
        match self {
            Shape::Start => ("start", "m-4 -6.5v13l10 -6.5z"),
            Shape::Crash => ("stop", "m-5 -5l10 10m0 -10l-10 10"),
            Shape::Cut => ("stop", "m3 -9l-6 8h6l-6 9"),
            Shape::Leave => ("leave", "m-6 -6h5v3h3v-3.5l7 6.5l-7 6.5v-3.5h-3v3h-5z"),
            Shape::Dead => ("dead", "m-1.6 -8h3.2v4h4v3.2h-4v9h-3.2v-9h-4v-3.2h4z"),
            Shape::Outcome => (
                "done",
                "m0 -9l2.6 5.6l6.1 .7l-4.5 4.2l1.2 6l-5.4 -3l-5.4 3l1.2 -6l-4.5 -4.2l6.1 -.7z",
            ),
        }
    }
}

/// The words of a mark.
#[derive(Clone, Copy)]
pub(crate) enum Words {
    Start(u64),
    /// A start at the event of this number, of which the words stand far off.
    FarStart(u64, usize),
    Leave(u64),
    Crash,
    Open,
    Restart,
    Cut,
    Dead(u64),
}

impl fmt::Display for Words {
    fn fmt<W: fmt::Write>(&self, f: &mut fmt::Formatter<W>) -> fmt::Result {
        match *self {
            Words::Start(word) => write!(f, "start {word}"),
            Words::FarStart(word, event) => write!(f, "start {word} at {event}"),
            Words::Leave(heir) => write!(f, "leaves to {heir}"),
            Words::Crash => write!(f, "crash"),
            Words::Open => write!(f, "start"),
            Words::Restart => write!(f, "restart"),
            Words::Cut => write!(f, "cut"),
            Words::Dead(word) => write!(f, "{word} dead"),
        }
    }
}

/// The mark of an event, if it has one: only what is carried out, and a cut whatever comes of it,
/// has.
pub(crate) fn mark_of(step: &Step) -> Option<(Shape, Words)> {
    match (step.deed, step.effect) {
        (_, Effect::Nothing) => None,
        (Deed::Cut(_, _), _) => Some((Shape::Cut, Words::Cut)),
        (Deed::Start(word), Effect::Done) => Some((Shape::Start, Words::Start(word))),
        (Deed::Depart(heir), Effect::Done) => Some((Shape::Leave, Words::Leave(heir))),
        (Deed::Crash, Effect::Done) => Some((Shape::Crash, Words::Crash)),
        (Deed::Open, Effect::Done) => Some((Shape::Start, Words::Open)),
        (Deed::Restart, Effect::Done) => Some((Shape::Start, Words::Restart)),
        _ => None,
    }
}
