use crate::words::fields;
use crate::words::lists::{bytes, members, place, saved_values};
use crate::words::work::{add_frames, add_records, task};
use codec::{
    Abort, Beat, Body, Grant, Join, Leave, Offer, OfferAck, Packet, Piece, Refuse, ResultAck,
    Roster, Save, Steal, TaskResult,
};
use ids::{
    Actor, Address, Frame, FrameNo, GrantId, Hop, Incarnation, Listed, Progress, Record, Task,
};
use play_words::{Answers, CommandLine, byte, signed64, word64};
use std::alloc::Global;

/// The words of a packet that are still to be read, none behind the last one, and whether one was
/// wrong of which a list was to be read.
#[derive(Clone, Copy)]
struct Words<'a> {
    rest: Option<&'a str>,
    is_wrong: bool,
}

impl<'a> Words<'a> {
    /// The next word; an empty one behind the last.
    fn word(&mut self) -> &'a str {
        let rest = self.rest.unwrap_or("");
        match rest.split_once(' ') {
            Some((word, behind)) => {
                self.rest = Some(behind);
                word
            }
            None => {
                self.rest = None;
                rest
            }
        }
    }

    /// The value of the next word, which has this key; empty, which is no value of any key, where
    /// it has not.
    fn value(&mut self, key: &str) -> &'a str {
        match self.word().split_once('=') {
            Some((name, value)) if name == key => value,
            _ => "",
        }
    }

    /// Whether the next word has this key.
    fn is_next(&self, key: &str) -> bool {
        match self.rest.unwrap_or("").split_once('=') {
            Some((name, _)) => name == key,
            None => false,
        }
    }
}

/// The packet that the words from an index on spell; none where they are no packet's.
pub fn read_packet(
    alloc: Global,
    line: &CommandLine<'_>,
    from: usize,
    out: &mut Answers,
) -> Option<Packet> {
    packet_in(alloc, line, from, out)?
}

/// The same, where words that are no packet's in form are none; none inside where they have a field
/// that no packet can hold, or an address that doesn't suit the kind.
pub fn packet_in(
    alloc: Global,
    line: &CommandLine<'_>,
    from: usize,
    out: &mut Answers,
) -> Option<Option<Packet>> {
    let mut words = Words {
        rest: Some(line.rest(from)),
        is_wrong: false,
    };
    let body = body(alloc, &mut words, out)?;
    match sent(&mut words) {
        Some((to, job)) => Some(Packet::of(job, to, body)),
        None => {
            let_go_body(body);
            None
        }
    }
}

/// Whom a packet goes to, and its job: its last words.
fn sent(words: &mut Words<'_>) -> Option<(Address, u64)> {
    let to = fields::address(words.value("to"))?;
    let job = word64(words.value("job"))?;
    if words.is_wrong || words.rest.is_some() {
        None
    } else {
        Some((to, job))
    }
}

/// What is read is let go here alone, as each place where a packet may be let go is long to prove.
fn let_go_body(body: Body) {
    let _body = body;
}

/// Lets a packet go.
pub fn let_go(packet: Packet) {
    let_go_body(packet.into_body());
}

fn body(alloc: Global, words: &mut Words<'_>, out: &mut Answers) -> Option<Body> {
    match words.word() {
        "Roster" => roster(alloc, words, out),
        "Grant" => grant(alloc, words, false, out),
        "SavedGrant" => grant(alloc, words, true, out),
        "Offer" => offer(alloc, words, out),
        "Piece" => piece(alloc, words, out),
        "Save" => save(alloc, words, out),
        kind => short_body(kind, words),
    }
}

/// A body that takes no memory.
fn short_body(kind: &str, words: &mut Words<'_>) -> Option<Body> {
    match kind {
        "Join" => join(words),
        "Steal" => steal(words),
        "Refuse" => refuse(words),
        "Result" => result(words),
        "ResultAck" => result_ack(words),
        "OfferAck" => offer_ack(words),
        "Leave" => leave(words),
        "Abort" => abort(words),
        "Beat" => beat(words),
        _ => None,
    }
}

fn join(words: &mut Words<'_>) -> Option<Body> {
    let from = fields::worker(words.value("from"))?;
    Some(Body::Join(Join { from }))
}

fn roster(alloc: Global, words: &mut Words<'_>, out: &mut Answers) -> Option<Body> {
    let epoch = fields::epoch(words.value("epoch"))?;
    let version = fields::count(words.value("version"))?;
    let members = members(alloc, words.value("members"), out)?;
    Some(Body::Roster(Roster {
        epoch,
        version,
        members,
    }))
}

fn steal(words: &mut Words<'_>) -> Option<Body> {
    let from = fields::worker(words.value("from"))?;
    let seq = fields::count(words.value("seq"))?;
    Some(Body::Steal(Steal { from, seq }))
}

/// The task of the words that follow.
fn task_in(alloc: Global, words: &mut Words<'_>, out: &mut Answers) -> Option<Task> {
    let thread = byte(words.value("thread"))?;
    let at = words.value("at");
    task(alloc, thread, at, words.value("on"), out)
}

/// A Grant, with saved values where its kind has some.
fn grant(alloc: Global, words: &mut Words<'_>, has_saved: bool, out: &mut Answers) -> Option<Body> {
    let seq = fields::count(words.value("seq"))?;
    let grant = fields::grant(words.value("grant"))?;
    let task = task_in(alloc, words, out)?;
    let saved = if has_saved {
        saved_values(alloc, words.value("saved"), out)?
    } else {
        Listed::new(alloc)
    };
    Some(Body::Grant(Grant {
        seq,
        grant,
        task,
        saved,
    }))
}

fn save(alloc: Global, words: &mut Words<'_>, out: &mut Answers) -> Option<Body> {
    let from = fields::worker(words.value("from"))?;
    let at = words.value("at");
    let value = signed64(words.value("value"))?;
    let place = place(alloc, at, out)?;
    Some(Body::Save(Save { from, place, value }))
}

fn refuse(words: &mut Words<'_>) -> Option<Body> {
    let seq = fields::count(words.value("seq"))?;
    Some(Body::Refuse(Refuse { seq }))
}

fn result(words: &mut Words<'_>) -> Option<Body> {
    let from = fields::worker(words.value("from"))?;
    let grant = fields::grant(words.value("grant"))?;
    let outcome = fields::outcome(words.value("outcome"))?;
    Some(Body::Result(TaskResult {
        from,
        grant,
        outcome,
    }))
}

fn result_ack(words: &mut Words<'_>) -> Option<Body> {
    let grant = fields::grant(words.value("grant"))?;
    Some(Body::ResultAck(ResultAck { grant }))
}

/// The fields of an Offer before its task.
#[derive(Clone, Copy)]
struct BeforeTask {
    from: Incarnation,
    grant: GrantId,
    hop: Hop,
    parent: Actor,
    progress: Progress,
}

fn fields_before(words: &mut Words<'_>) -> Option<BeforeTask> {
    let from = fields::worker(words.value("from"))?;
    let grant = fields::grant(words.value("grant"))?;
    let hop = fields::hop(words.value("hop"))?;
    let parent = fields::actor(words.value("parent"))?;
    let progress = fields::progress(words.value("progress"))?;
    Some(BeforeTask {
        from,
        grant,
        hop,
        parent,
        progress,
    })
}

fn offer(alloc: Global, words: &mut Words<'_>, out: &mut Answers) -> Option<Body> {
    let before = fields_before(words)?;
    let task = task_in(alloc, words, out)?;
    Some(Body::Offer(Offer {
        from: before.from,
        grant: before.grant,
        hop: before.hop,
        parent: before.parent,
        progress: before.progress,
        task,
        next: next(words),
        frames: frames(alloc, words, out),
        records: records(alloc, words, out),
    }))
}

/// The next number of a frame.
fn next(words: &mut Words<'_>) -> FrameNo {
    match fields::frame_number(words.value("next")) {
        Some(number) => number,
        None => {
            words.is_wrong = true;
            FrameNo::of(0)
        }
    }
}

/// The frames of the words that follow.
fn frames(alloc: Global, words: &mut Words<'_>, out: &mut Answers) -> Listed<Frame> {
    let mut list = Listed::new(alloc);
    for _ in 0..u32::MAX {
        if words.is_wrong || !words.is_next("frame") {
            break;
        }
        words.is_wrong = !add_frames(alloc, &mut list, words.value("frame"), out);
    }
    list
}

/// The records of the words that follow.
fn records(alloc: Global, words: &mut Words<'_>, out: &mut Answers) -> Listed<Record> {
    let mut list = Listed::new(alloc);
    for _ in 0..u32::MAX {
        if words.is_wrong || !words.is_next("record") {
            break;
        }
        words.is_wrong = !add_records(alloc, &mut list, words.value("record"), out);
    }
    list
}

fn offer_ack(words: &mut Words<'_>) -> Option<Body> {
    let from = fields::worker(words.value("from"))?;
    let grant = fields::grant(words.value("grant"))?;
    let hop = fields::hop(words.value("hop"))?;
    Some(Body::OfferAck(OfferAck { from, grant, hop }))
}

fn leave(words: &mut Words<'_>) -> Option<Body> {
    let from = fields::worker(words.value("from"))?;
    let heir = fields::worker(words.value("heir"))?;
    Some(Body::Leave(Leave { from, heir }))
}

fn abort(words: &mut Words<'_>) -> Option<Body> {
    let grant = fields::grant(words.value("grant"))?;
    Some(Body::Abort(Abort { grant }))
}

fn beat(words: &mut Words<'_>) -> Option<Body> {
    let from = fields::worker(words.value("from"))?;
    let version = fields::count(words.value("version"))?;
    Some(Body::Beat(Beat { from, version }))
}

fn piece(alloc: Global, words: &mut Words<'_>, out: &mut Answers) -> Option<Body> {
    let from = fields::worker(words.value("from"))?;
    let grant = fields::grant(words.value("grant"))?;
    let hop = fields::hop(words.value("hop"))?;
    let pieces = fields::word16(words.value("pieces"))?;
    let number = fields::word16(words.value("number"))?;
    let bytes = bytes(alloc, words.value("bytes"), out)?;
    Some(Body::Piece(Piece {
        from,
        grant,
        hop,
        pieces,
        number,
        bytes,
    }))
}
