use ids::{
    Actor, Address, Count, Epoch, FrameNo, GrantId, Hop, Incarnation, Outcome, Progress, Return,
    Status,
};
use play_words::{CommandLine, byte, signed64, size, word32, word64};

pub fn worker(text: &str) -> Option<Incarnation> {
    Incarnation::worker(word64(text)?)
}

pub fn count(text: &str) -> Option<Count> {
    Count::of(word64(text)?)
}

pub fn epoch(text: &str) -> Option<Epoch> {
    Epoch::of(word64(text)?)
}

pub fn hop(text: &str) -> Option<Hop> {
    Some(Hop::of(word32(text)?))
}

pub fn word16(text: &str) -> Option<u16> {
    u16::try_from(word64(text)?).ok()
}

pub fn frame_number(text: &str) -> Option<FrameNo> {
    Some(FrameNo::of(word32(text)?))
}

pub fn actor(text: &str) -> Option<Actor> {
    match text.strip_prefix("house:") {
        Some(number) => Some(epoch(number)?.house()),
        None => Some(Actor::worker(worker(text)?)),
    }
}

pub fn address(text: &str) -> Option<Address> {
    if text == "house" {
        Some(Address::any_house())
    } else {
        Some(Address::actor(actor(text)?))
    }
}

pub fn grant(text: &str) -> Option<GrantId> {
    let (minter, number) = text.split_once('/')?;
    GrantId::of(actor(minter)?, word64(number)?)
}

pub fn outcome(text: &str) -> Option<Outcome> {
    if text == "deep" {
        Some(Outcome::TooDeep)
    } else {
        Some(Outcome::Value(signed64(text)?))
    }
}

pub fn progress(text: &str) -> Option<Progress> {
    if text == "active" {
        Some(Progress::Active)
    } else {
        Some(Progress::Finished(outcome(text)?))
    }
}

pub fn returned(text: &str) -> Option<Return> {
    if text == "whole" {
        return Some(Return::Whole);
    }
    let (frame, slot) = text.split_once('.')?;
    Some(Return::Local(frame_number(frame)?, byte(slot)?))
}

/// What is said of a worker: that it lives, is dead, left to another one or to the next one.
pub fn status(text: &str, word: u64) -> Option<Status> {
    match text {
        "live" => Some(Status::Live),
        "dead" => Some(Status::Dead),
        "left:next" => Some(Status::Left(Incarnation::worker(word.checked_add(1)?)?)),
        _ => Some(Status::Left(worker(text.strip_prefix("left:")?)?)),
    }
}

/// The first and the last number of `FROM..TO`, which may be one number; none where the first is
/// greater.
pub fn ends(text: &str) -> Option<(u64, u64)> {
    let (first, last) = text.split_once("..").unwrap_or((text, text));
    let (first, last) = (word64(first)?, word64(last)?);
    (first <= last).then_some((first, last))
}

/// The same as numbers of frames.
pub fn frame_ends(text: &str) -> Option<(u32, u32)> {
    let (first, last) = ends(text)?;
    Some((u32::try_from(first).ok()?, u32::try_from(last).ok()?))
}

/// The count that the word at an index is.
pub fn size_at(line: &CommandLine<'_>, index: usize) -> Option<usize> {
    size(line.word(index)?)
}
