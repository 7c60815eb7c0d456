//! Short names of workers, the clearinghouse, grants and places, and what an outcome and progress
//! are called.

use ids::{Actor, Address, GrantId, Outcome, Place, Progress, Status};
use std::fmt;

/// A worker by its start word, or `HN` for the clearinghouse in epoch N.
#[derive(Clone, Copy)]
pub(crate) struct ActorName(pub(crate) Actor);

/// A grant, as `3/1`: by its minter and its number.
#[derive(Clone, Copy)]
pub(crate) struct GrantName(pub(crate) GrantId);

/// Who is named as the minter of a grant, by its number: an actor, or what no grant has, 0 or
/// `house`.
#[derive(Clone, Copy)]
pub(crate) struct MinterName(pub(crate) u64);

/// Whom a packet goes to: an actor, or `house` for the clearinghouse of any epoch.
#[derive(Clone, Copy)]
pub(crate) struct AddressName(pub(crate) Address);

/// A place: `the root`, or `place 0.2, level 1`, its steps from the root on and how many levels
/// below the root it is.
#[derive(Clone, Copy)]
pub(crate) struct PlaceName<'a>(pub(crate) &'a Place);

/// An outcome: `value V` or `too deep`.
#[derive(Clone, Copy)]
pub(crate) struct OutcomeWords(pub(crate) Outcome);

/// How far a subcomputation is: `active`, or `finished with` its outcome.
#[derive(Clone, Copy)]
pub(crate) struct ProgressWords(pub(crate) Progress);

/// What the clearinghouse says of a worker: `live`, `dead`, or `left to W`.
#[derive(Clone, Copy)]
pub(crate) struct StatusWords(pub(crate) Status);

impl fmt::Display for ActorName {
    fn fmt<W: fmt::Write>(&self, f: &mut fmt::Formatter<W>) -> fmt::Result {
        match self.0.epoch() {
            Some(epoch) => write!(f, "H{epoch}"),
            None => write!(f, "{}", self.0.word()),
        }
    }
}

impl fmt::Display for GrantName {
    fn fmt<W: fmt::Write>(&self, f: &mut fmt::Formatter<W>) -> fmt::Result {
        write!(f, "{}/{}", ActorName(self.0.minter()), self.0.number())
    }
}

impl fmt::Display for MinterName {
    fn fmt<W: fmt::Write>(&self, f: &mut fmt::Formatter<W>) -> fmt::Result {
        match Actor::of(self.0) {
            Some(actor) => write!(f, "{}", ActorName(actor)),
            None if self.0 == 0 => write!(f, "0"),
            None => write!(f, "house"),
        }
    }
}

impl fmt::Display for AddressName {
    fn fmt<W: fmt::Write>(&self, f: &mut fmt::Formatter<W>) -> fmt::Result {
        match Actor::of(self.0.word()) {
            Some(actor) => write!(f, "{}", ActorName(actor)),
            None => write!(f, "house"),
        }
    }
}

impl<'a> fmt::Display for PlaceName<'a> {
    fn fmt<W: fmt::Write>(&self, f: &mut fmt::Formatter<W>) -> fmt::Result {
        let steps = self.0.steps();
        if steps.is_empty() {
            return write!(f, "the root");
        }
        for (index, step) in steps.iter().enumerate() {
            write!(f, "{}{step}", if index == 0 { "place " } else { "." })?;
        }
        write!(f, ", level {}", self.0.level())
    }
}

impl fmt::Display for OutcomeWords {
    fn fmt<W: fmt::Write>(&self, f: &mut fmt::Formatter<W>) -> fmt::Result {
        match self.0 {
            Outcome::Value(value) => write!(f, "value {value}"),
            Outcome::TooDeep => write!(f, "too deep"),
        }
    }
}

impl fmt::Display for ProgressWords {
    fn fmt<W: fmt::Write>(&self, f: &mut fmt::Formatter<W>) -> fmt::Result {
        match self.0 {
            Progress::Active => write!(f, "active"),
            Progress::Finished(outcome) => write!(f, "finished with {}", OutcomeWords(outcome)),
        }
    }
}

impl fmt::Display for StatusWords {
    fn fmt<W: fmt::Write>(&self, f: &mut fmt::Formatter<W>) -> fmt::Result {
        match self.0 {
            Status::Live => write!(f, "live"),
            Status::Dead => write!(f, "dead"),
            Status::Left(heir) => write!(f, "left to {}", heir.word()),
        }
    }
}
