use ids::{Actor, Count, FrameNo, Incarnation};
use play_packets::{actor, frame_ends};
use play_words::{CommandLine, word64};

/// The first and the last number that the word at an index is, as numbers of frames.
pub fn range(line: &CommandLine<'_>, index: usize) -> Option<(u32, u32)> {
    frame_ends(line.word(index)?)
}

pub fn frame_at(line: &CommandLine<'_>, index: usize) -> Option<FrameNo> {
    Some(FrameNo::of(u32::try_from(line.number(index)?).ok()?))
}

pub fn worker_at(line: &CommandLine<'_>, index: usize) -> Option<Incarnation> {
    Incarnation::worker(line.number(index)?)
}

pub fn count_at(line: &CommandLine<'_>, index: usize) -> Option<Count> {
    Count::of(line.number(index)?)
}

/// An actor by its word, or a clearinghouse by its epoch.
pub fn actor_at(line: &CommandLine<'_>, index: usize) -> Option<Actor> {
    let word = line.word(index)?;
    match word64(word) {
        Some(word) => Actor::of(word),
        None => actor(word),
    }
}
