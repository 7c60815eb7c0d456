//! What a picture says in words.

use crate::deed::{Deed, Effect, Site, Step};
use crate::held::{Held, Lane};
use crate::record::HOUSE;
use crate::shown::Sent;
use event_script::{Asked, HouseEvent};
use ids::{GrantId, Outcome, Progress};
use node_core::SubState;
use std::fmt::{self, Write};

/// Who acts or is addressed: a worker by its start word, the clearinghouse of an epoch as H and the
/// epoch, and that of any epoch as `house`.
#[derive(Clone, Copy)]
pub(crate) struct Who(pub(crate) u64);

impl fmt::Display for Who {
    fn fmt<W: fmt::Write>(&self, f: &mut fmt::Formatter<W>) -> fmt::Result {
        let word = self.0;
        if word > HOUSE {
            let epoch = word - HOUSE;
            write!(f, "H{epoch}")
        } else if word == HOUSE {
            write!(f, "house")
        } else {
            write!(f, "{word}")
        }
    }
}

/// To whom a packet goes.
#[derive(Clone, Copy)]
struct Whither(u64);

impl fmt::Display for Whither {
    fn fmt<W: fmt::Write>(&self, f: &mut fmt::Formatter<W>) -> fmt::Result {
        let word = self.0;
        if word == HOUSE {
            write!(f, "the clearinghouse")
        } else if word > HOUSE {
            let epoch = word - HOUSE;
            write!(f, "the clearinghouse of epoch {epoch}")
        } else {
            write!(f, "worker {word}")
        }
    }
}

/// The name of a grant: who minted it, and its number.
#[derive(Clone, Copy)]
pub(crate) struct GrantName(pub(crate) GrantId);

impl fmt::Display for GrantName {
    fn fmt<W: fmt::Write>(&self, f: &mut fmt::Formatter<W>) -> fmt::Result {
        let (minter, number) = (Who(self.0.minter().word()), self.0.number());
        write!(f, "{minter}/{number}")
    }
}

/// An outcome, as the programs print it.
#[derive(Clone, Copy)]
pub(crate) struct OutcomeText(pub(crate) Outcome);

impl fmt::Display for OutcomeText {
    fn fmt<W: fmt::Write>(&self, f: &mut fmt::Formatter<W>) -> fmt::Result {
        match self.0 {
            Outcome::Value(value) => write!(f, "value {value}"),
            Outcome::TooDeep => write!(f, "too deep"),
        }
    }
}

/// The name of a lane.
#[derive(Clone, Copy)]
pub(crate) struct SiteName(pub(crate) Site);

impl fmt::Display for SiteName {
    fn fmt<W: fmt::Write>(&self, f: &mut fmt::Formatter<W>) -> fmt::Result {
        match self.0 {
            Site::House => write!(f, "clearinghouse"),
            Site::At(place) => {
                let index = place.index();
                write!(f, "place {index}")
            }
        }
    }
}

/// A name of the program: ASCII letters, digits and `_`.
#[derive(Clone, Copy)]
pub(crate) struct ThreadName<'r>(pub(crate) &'r [u8]);

impl<'r> fmt::Display for ThreadName<'r> {
    fn fmt<W: fmt::Write>(&self, f: &mut fmt::Formatter<W>) -> fmt::Result {
        for letter in self.0 {
            f.write_char(char::from(*letter))?;
        }
        Ok(())
    }
}

/// The name of a lane once more, with the worker that started there last.
#[derive(Clone, Copy)]
pub(crate) struct AgainName(pub(crate) Site, pub(crate) Option<u64>);

impl fmt::Display for AgainName {
    fn fmt<W: fmt::Write>(&self, f: &mut fmt::Formatter<W>) -> fmt::Result {
        match self.1 {
            Some(word) => write!(f, "{}: worker {word}", SiteName(self.0)),
            None => write!(f, "{}", SiteName(self.0)),
        }
    }
}

/// An event by the words of its line, in which a grant has its short name and the bytes of a cut
/// are left out, and the name of the thread whose body it ran, if it did.
#[derive(Clone, Copy)]
pub(crate) struct EventWords<'r> {
    pub(crate) step: Step,
    pub(crate) thread: Option<&'r [u8]>,
}

impl<'r> fmt::Display for EventWords<'r> {
    fn fmt<W: fmt::Write>(&self, f: &mut fmt::Formatter<W>) -> fmt::Result {
        match self.step.site {
            Site::House => write_house_words(f, self.step.deed)?,
            Site::At(place) => write_node_words(f, place.index(), &self.step)?,
        }
        match self.thread {
            Some(thread) => write!(f, ": {}", ThreadName(thread)),
            None => Ok(()),
        }
    }
}

/// What a fold is called, by how many events it has.
#[derive(Clone, Copy)]
pub(crate) struct FoldWords(pub(crate) usize);

impl fmt::Display for FoldWords {
    fn fmt<W: fmt::Write>(&self, f: &mut fmt::Formatter<W>) -> fmt::Result {
        let count = self.0;
        write!(f, "{count} events in which no body runs")
    }
}

/// The words of an event of the clearinghouse.
fn write_house_words<W: fmt::Write>(f: &mut fmt::Formatter<W>, deed: Deed) -> fmt::Result {
    match deed {
        Deed::Deliver(packet) => write!(f, "house-deliver {packet}"),
        Deed::Tick(moment) => write!(f, "house-tick {moment}"),
        Deed::Open | Deed::Restart => write!(f, "house-restart"),
        Deed::Crash => write!(f, "house-crash"),
        Deed::Cut(calls, HouseEvent::Deliver(packet)) => {
            write!(f, "cut {calls} house-deliver {packet}")
        }
        Deed::Cut(calls, HouseEvent::Tick(moment)) => write!(f, "cut {calls} house-tick {moment}"),
        Deed::Cut(calls, HouseEvent::Restart) => write!(f, "cut {calls} house-restart"),
        _ => Ok(()),
    }
}

/// The words of an event at a place.
fn write_node_words<W: fmt::Write>(
    f: &mut fmt::Formatter<W>,
    place: u8,
    step: &Step,
) -> fmt::Result {
    match step.deed {
        Deed::Start(word) => write!(f, "start {place} {word}"),
        Deed::Deliver(packet) => write!(f, "deliver {place} {packet}"),
        Deed::Exec(frame) => {
            let (minter, number, frame) = (Who(frame.minter), frame.number, frame.frame);
            write!(f, "exec {place} {minter}/{number} {frame}")
        }
        Deed::Whole(frame, turns) => {
            let (minter, number, frame) = (Who(frame.minter), frame.number, frame.frame);
            write!(f, "whole {place} {minter}/{number} {frame} in ")?;
            write_turns(f, turns, step.effect)
        }
        Deed::Ask(Asked::House) => write!(f, "ask {place} house"),
        Deed::Ask(Asked::Worker(word)) => write!(f, "ask {place} {word}"),
        Deed::Resend => write!(f, "resend {place}"),
        Deed::Depart(heir) => write!(f, "depart {place} {heir}"),
        Deed::Crash => write!(f, "crash {place}"),
        _ => Ok(()),
    }
}

/// How many turns a task took that was evaluated whole, or might have taken.
fn write_turns<W: fmt::Write>(
    f: &mut fmt::Formatter<W>,
    turns: u64,
    effect: Effect,
) -> fmt::Result {
    if effect != Effect::Done {
        write!(f, "at most ")?;
    }
    let s = if turns == 1 { "" } else { "s" };
    write!(f, "{turns} turn{s}")
}

/// What came of an event, where it isn't just done.
#[derive(Clone, Copy)]
pub(crate) struct EffectText(pub(crate) Effect);

impl fmt::Display for EffectText {
    fn fmt<W: fmt::Write>(&self, f: &mut fmt::Formatter<W>) -> fmt::Result {
        match self.0 {
            Effect::Done => Ok(()),
            Effect::Ignored => write!(f, ", which is ignored"),
            Effect::Refused(number) => write!(f, ", refused: E{number}"),
            Effect::Nothing => write!(f, ", which changes nothing"),
        }
    }
}

/// A packet: its number, kind, grant and address, and the event at which it was sent.
#[derive(Clone, Copy)]
pub(crate) struct PacketText(pub(crate) usize, pub(crate) Sent);

impl fmt::Display for PacketText {
    fn fmt<W: fmt::Write>(&self, f: &mut fmt::Formatter<W>) -> fmt::Result {
        let (index, kind, to) = (self.0, self.1.kind.name(), Whither(self.1.to));
        let at = self.1.at.saturating_add(1);
        write!(f, "packet {index}: {kind}")?;
        if let Some(grant) = self.1.grant {
            let name = GrantName(grant);
            write!(f, " of grant {name}")?;
        }
        write!(f, " to {to}, sent at event {at}")
    }
}

/// What is held, and its state.
#[derive(Clone, Copy)]
pub(crate) struct HeldText(pub(crate) Held);

impl fmt::Display for HeldText {
    fn fmt<W: fmt::Write>(&self, f: &mut fmt::Formatter<W>) -> fmt::Result {
        let name = GrantName(self.0.grant);
        write!(f, "subcomputation of grant {name}, ")?;
        match self.0.state {
            SubState::Active => write!(f, "live"),
            SubState::Frozen(heir, progress) => {
                let heir = heir.word();
                let how = match progress {
                    Progress::Active => "live",
                    Progress::Finished(_) => "finished",
                };
                write!(f, "frozen for worker {heir}, {how} till then")
            }
            SubState::Finished(outcome) => {
                let outcome = OutcomeText(outcome);
                write!(f, "finished with {outcome}")
            }
        }
    }
}

/// Counts the characters of what is written, which has ASCII alone.
struct Counter(usize);

impl fmt::Write for Counter {
    fn write_str(&mut self, text: &str) -> fmt::Result {
        self.0 = self.0.saturating_add(text.len());
        Ok(())
    }
}

/// How many characters a text has.
pub(crate) fn count_chars<T: fmt::Display + Drop>(text: T) -> usize {
    let mut counter = Counter(0);
    let _ = counter.write(text);
    let Counter(count) = counter;
    count
}

/// The name of the lane of a place: the place, and the worker that started there first.
#[derive(Clone, Copy)]
pub(crate) struct LaneName {
    place: usize,
    first: u64,
    starts: usize,
}

impl LaneName {
    pub(crate) fn of(place: usize, lane: &Lane) -> LaneName {
        LaneName {
            place,
            first: lane.first,
            starts: lane.starts,
        }
    }

    /// How many workers started there behind the first one.
    pub(crate) fn later(&self) -> usize {
        self.starts.saturating_sub(1)
    }
}

impl fmt::Display for LaneName {
    fn fmt<W: fmt::Write>(&self, f: &mut fmt::Formatter<W>) -> fmt::Result {
        let (place, first) = (self.place, self.first);
        if self.starts == 0 {
            write!(f, "place {place}: no node")
        } else {
            write!(f, "place {place}: worker {first}")
        }
    }
}
