use codec::{Body, Grant, Offer, OfferAck, Packet, Piece, Roster, Save, TaskResult};
use ids::{
    Actor, Address, Frame, FrameNo, GrantId, Incarnation, Member, Outcome, Place, Progress, Record,
    Return, Status, Task,
};
use play_words::Answers;
use saved_values::SavedValue;

/// Writes a packet in words: its kind, its fields in their order, whom it goes to and its job.
pub fn write_packet(out: &mut Answers, packet: &Packet) {
    write_body(out, packet.body());
    out.text(" to=");
    write_address(out, packet.to());
    write_field(out, " job=", packet.job());
}

/// Writes a number behind a text.
pub fn write_field(out: &mut Answers, name: &str, number: u64) {
    out.text(name);
    out.number(number);
}

/// Writes the kind of a packet, and who it comes from.
fn write_from(out: &mut Answers, kind: &str, from: Incarnation) {
    out.text(kind);
    write_field(out, " from=", from.word());
}

/// Writes a grant behind its key.
fn write_granted(out: &mut Answers, grant: GrantId) {
    out.text(" grant=");
    write_grant(out, grant);
}

fn write_body(out: &mut Answers, body: &Body) {
    match body {
        Body::Join(join) => write_from(out, "Join", join.from),
        Body::Roster(roster) => write_roster(out, roster),
        Body::Steal(steal) => {
            write_from(out, "Steal", steal.from);
            write_field(out, " seq=", steal.seq.number());
        }
        Body::Grant(grant) => write_given(out, grant),
        Body::Refuse(refuse) => write_field(out, "Refuse seq=", refuse.seq.number()),
        Body::Result(result) => write_result(out, result),
        Body::ResultAck(ack) => {
            out.text("ResultAck");
            write_granted(out, ack.grant);
        }
        Body::Offer(offer) => write_offer(out, offer),
        Body::OfferAck(ack) => write_offer_ack(out, ack),
        Body::Leave(leave) => {
            write_from(out, "Leave", leave.from);
            write_field(out, " heir=", leave.heir.word());
        }
        Body::Abort(abort) => {
            out.text("Abort");
            write_granted(out, abort.grant);
        }
        Body::Beat(beat) => {
            write_from(out, "Beat", beat.from);
            write_field(out, " version=", beat.version.number());
        }
        Body::Piece(piece) => write_piece(out, piece),
        Body::Save(save) => write_save(out, save),
    }
}

fn write_given(out: &mut Answers, grant: &Grant) {
    let saved = grant.saved.as_slice();
    let kind = if saved.is_empty() {
        "Grant seq="
    } else {
        "SavedGrant seq="
    };
    write_field(out, kind, grant.seq.number());
    write_granted(out, grant.grant);
    write_task(out, &grant.task);
    if !saved.is_empty() {
        out.text(" saved=");
        write_saved(out, saved);
    }
}

/// Writes values that are saved, as `PLACE:VALUE`, parted by commas.
pub fn write_saved(out: &mut Answers, saved: &[SavedValue]) {
    let mut mark = "";
    for value in saved {
        out.text(mark);
        write_steps(out, value.place.steps());
        out.text(":");
        out.signed(value.value);
        mark = ",";
    }
}

fn write_save(out: &mut Answers, save: &Save) {
    write_from(out, "Save", save.from);
    out.text(" at=");
    write_place(out, &save.place);
    out.text(" value=");
    out.signed(save.value);
}

fn write_result(out: &mut Answers, given: &TaskResult) {
    write_from(out, "Result", given.from);
    write_granted(out, given.grant);
    out.text(" outcome=");
    write_outcome(out, given.outcome);
}

fn write_offer_ack(out: &mut Answers, ack: &OfferAck) {
    write_from(out, "OfferAck", ack.from);
    write_granted(out, ack.grant);
    write_field(out, " hop=", u64::from(ack.hop.count()));
}

fn write_piece(out: &mut Answers, piece: &Piece) {
    write_from(out, "Piece", piece.from);
    write_granted(out, piece.grant);
    write_field(out, " hop=", u64::from(piece.hop.count()));
    write_field(out, " pieces=", u64::from(piece.pieces));
    write_field(out, " number=", u64::from(piece.number));
    out.text(" bytes=");
    write_bytes(out, piece.bytes.as_slice());
}

/// The value of bytes that are several and all the same.
fn repeated(bytes: &[u8]) -> Option<u8> {
    let first = *bytes.first()?;
    if bytes.len() > 1 && bytes.iter().all(|byte| *byte == first) {
        Some(first)
    } else {
        None
    }
}

/// Writes bytes in hexadecimal digits; several that are all the same as one of them and how many
/// there are.
fn write_bytes(out: &mut Answers, bytes: &[u8]) {
    match repeated(bytes) {
        Some(byte) => {
            out.hex(&[byte]);
            write_field(out, "*", bytes.len() as u64);
        }
        None => out.hex(bytes),
    }
}

fn write_roster(out: &mut Answers, roster: &Roster) {
    write_field(out, "Roster epoch=", roster.epoch.number());
    write_field(out, " version=", roster.version.number());
    out.text(" members=");
    if roster.members.is_empty() {
        out.text("-");
    }
    let mut mark = "";
    for member in roster.members.as_slice() {
        out.text(mark);
        write_member(out, member);
        mark = ",";
    }
}

fn write_member(out: &mut Answers, member: &Member) {
    out.number(member.incarnation.word());
    match member.status {
        Status::Live => out.text(":live"),
        Status::Dead => out.text(":dead"),
        Status::Left(heir) => write_field(out, ":left:", heir.word()),
    }
}

fn write_offer(out: &mut Answers, offer: &Offer) {
    write_from(out, "Offer", offer.from);
    write_granted(out, offer.grant);
    write_field(out, " hop=", u64::from(offer.hop.count()));
    out.text(" parent=");
    write_actor(out, offer.parent);
    out.text(" progress=");
    write_progress(out, offer.progress);
    write_task(out, &offer.task);
    write_field(out, " next=", u64::from(offer.next.number()));
    for frame in offer.frames.as_slice() {
        write_frame(out, frame);
    }
    for record in offer.records.as_slice() {
        write_record(out, record);
    }
}

fn write_progress(out: &mut Answers, progress: Progress) {
    match progress {
        Progress::Active => out.text("active"),
        Progress::Finished(outcome) => write_outcome(out, outcome),
    }
}

pub fn write_frame(out: &mut Answers, frame: &Frame) {
    write_field(out, " frame=", u64::from(frame.number.number()));
    out.text(";");
    write_place(out, &frame.place);
    write_field(out, ";", u64::from(frame.thread));
    out.text(";");
    write_slots(out, frame.slots.as_slice());
    write_return(out, frame.returns);
}

fn write_record(out: &mut Answers, record: &Record) {
    out.text(" record=");
    write_grant(out, record.grant);
    write_field(out, ";", record.holder.word());
    write_field(out, ";", u64::from(record.frame.number()));
    out.text(";");
    write_place(out, &record.task.place);
    write_field(out, ";", u64::from(record.task.thread));
    out.text(";");
    write_numbers(out, record.task.numbers.as_slice());
    write_return(out, record.returns);
}

fn write_slots(out: &mut Answers, slots: &[Option<i64>]) {
    if slots.is_empty() {
        out.text("-");
    }
    let mut mark = "";
    for slot in slots {
        out.text(mark);
        match *slot {
            Some(value) => out.signed(value),
            None => out.text("_"),
        }
        mark = ",";
    }
}

pub fn write_numbers(out: &mut Answers, numbers: &[i64]) {
    if numbers.is_empty() {
        out.text("-");
    }
    let mut mark = "";
    for number in numbers {
        out.text(mark);
        out.signed(*number);
        mark = ",";
    }
}

pub fn write_place(out: &mut Answers, place: &Place) {
    if place.len() == 0 {
        out.text("-");
    }
    write_steps(out, place.steps());
}

/// Writes steps joined by dots.
pub fn write_steps(out: &mut Answers, steps: &[u8]) {
    let mut mark = "";
    for step in steps {
        write_field(out, mark, u64::from(*step));
        mark = ".";
    }
}

fn write_task(out: &mut Answers, task: &Task) {
    write_field(out, " thread=", u64::from(task.thread));
    out.text(" at=");
    write_place(out, &task.place);
    out.text(" on=");
    write_numbers(out, task.numbers.as_slice());
}

/// Writes where a value returns, behind a mark.
fn write_return(out: &mut Answers, returns: Return) {
    match returns {
        Return::Whole => out.text(";whole"),
        Return::Local(frame, slot) => {
            write_field(out, ";", u64::from(frame.number()));
            write_field(out, ".", u64::from(slot));
        }
    }
}

pub fn write_outcome(out: &mut Answers, outcome: Outcome) {
    match outcome {
        Outcome::Value(value) => out.signed(value),
        Outcome::TooDeep => out.text("deep"),
    }
}

pub fn write_grant(out: &mut Answers, grant: GrantId) {
    write_actor(out, grant.minter());
    write_field(out, "/", grant.number());
}

/// Writes a frame of a grant, as `3/9 frame 4`.
pub fn write_framed(out: &mut Answers, grant: GrantId, frame: FrameNo) {
    write_grant(out, grant);
    write_field(out, " frame ", u64::from(frame.number()));
}

fn write_actor(out: &mut Answers, actor: Actor) {
    match actor.epoch() {
        Some(epoch) => write_field(out, "house:", epoch),
        None => out.number(actor.word()),
    }
}

fn write_address(out: &mut Answers, address: Address) {
    match Actor::of(address.word()) {
        Some(actor) => write_actor(out, actor),
        None => out.text("house"),
    }
}
