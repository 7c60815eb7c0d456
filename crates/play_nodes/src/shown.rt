//! What nodes show, in words.

use ids::{FrameNo, GrantId, Progress};
use node_core::{Fill, SubState, SubView, Work};
use play_packets::{
    write_field, write_framed, write_grant, write_numbers, write_outcome, write_place,
};
use play_words::Answers;

/// Writes a value that came to a slot.
pub fn write_fill(out: &mut Answers, fill: &Fill) {
    out.text("> fill ");
    write_framed(out, fill.grant, fill.frame);
    write_field(out, " slot ", u64::from(fill.slot));
    out.text(" at ");
    write_place(out, &fill.place);
    out.text(" value ");
    out.signed(fill.value);
    out.end();
}

/// Writes a frame that is ready.
pub fn write_work(out: &mut Answers, work: &Work) {
    out.text("> ready ");
    write_framed(out, work.grant, work.frame);
    write_field(out, " thread=", u64::from(work.thread));
    out.text(" on=");
    write_numbers(out, work.numbers.as_slice());
    out.end();
}

fn write_progress(out: &mut Answers, progress: Progress) {
    match progress {
        Progress::Active => out.text("active"),
        Progress::Finished(outcome) => {
            out.text("finished:");
            write_outcome(out, outcome);
        }
    }
}

fn write_state(out: &mut Answers, state: SubState) {
    match state {
        SubState::Active => write_progress(out, Progress::Active),
        SubState::Finished(outcome) => write_progress(out, Progress::Finished(outcome)),
        SubState::Frozen(heir, progress) => {
            write_field(out, "frozen:", heir.word());
            out.text(":");
            write_progress(out, progress);
        }
    }
}

fn write_frames(out: &mut Answers, frames: &[FrameNo]) {
    if frames.is_empty() {
        out.text("-");
    }
    let mut mark = "";
    for frame in frames {
        write_field(out, mark, u64::from(frame.number()));
        mark = ",";
    }
}

fn write_grants(out: &mut Answers, grants: &[GrantId]) {
    if grants.is_empty() {
        out.text("-");
    }
    let mut mark = "";
    for grant in grants {
        out.text(mark);
        write_grant(out, *grant);
        mark = ",";
    }
}

/// Writes a subcomputation: its grant, its hop, its state, the frames that are ready and those that
/// wait, and the grants of its open records.
pub fn write_sub(out: &mut Answers, view: &SubView) {
    out.text("> sub ");
    write_grant(out, view.grant);
    write_field(out, " hop=", u64::from(view.hop.count()));
    out.text(" state=");
    write_state(out, view.state);
    out.text(" ready=");
    write_frames(out, view.ready.as_slice());
    out.text(" waiting=");
    write_frames(out, view.waiting.as_slice());
    out.text(" open=");
    write_grants(out, view.open.as_slice());
    out.end();
}
