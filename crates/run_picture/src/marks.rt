//! What became of nodes and of the clearinghouse, and a dot for each other event.

use crate::deed::{Effect, Site, Step};
use crate::layout::Layout;
use crate::mark::{Shape, Words, mark_of};
use crate::px::Px;
use crate::record::Recorder;
use crate::rooms::Rooms;
use crate::texts::{EffectText, OutcomeText, count_chars};
use std::io::{self, Write};

/// The width of a character of a mark's words.
const CHAR: Px = Px(67);

/// Writes a shape at a point.
fn write_shape<O: Write>(out: &mut O, shape: Shape, x: Px, y: Px) -> io::Result<()> {
    let (look, way) = shape.drawn();
    write!(out, "<path class=\"{look}\" d=\"M{x} {y}{way}\"/>")
}

/// Writes the marks of all events, and dots where there is room for them.
pub(crate) fn write_marks<O: Write>(
    out: &mut O,
    layout: &Layout,
    run: &Recorder,
) -> io::Result<()> {
    let mut rooms = Rooms::new();
    for (event, step) in run.steps.iter().enumerate() {
        match mark_of(step) {
            Some((shape, words)) => {
                write_event(out, layout, run, event, step, shape)?;
                write_words(out, layout, run, &mut rooms, event, &step.site, &words)?;
            }
            None if layout.has_dots() && !layout.folds.is_folded(event) => {
                write_dot(out, layout, run, event, step)?;
            }
            None => {}
        }
        if step.site == Site::House {
            write_deaths(out, layout, run, &mut rooms, event)?;
        }
    }
    write_outcome(out, layout, run)
}

/// Begins what has an event's title, and writes that: of a turn the words of what it came to.
pub(crate) fn write_title<O: Write>(
    out: &mut O,
    run: &Recorder,
    event: usize,
    step: &Step,
) -> io::Result<()> {
    write!(out, "<g><title>event {}: ", event.saturating_add(1))?;
    match run.said.of(event) {
        Some(words) => out.write_all(words)?,
        None => write!(out, "{}{}", run.words_of(step), EffectText(step.effect))?,
    }
    write!(out, "</title>")
}

/// Writes the shape of an event that has a mark.
fn write_event<O: Write>(
    out: &mut O,
    layout: &Layout,
    run: &Recorder,
    event: usize,
    step: &Step,
    shape: Shape,
) -> io::Result<()> {
    write_title(out, run, event, step)?;
    write_shape(out, shape, layout.x(event), layout.line(step.site))?;
    writeln!(out, "</g>")
}

/// Writes the dot of an event: an open one, where it does nothing.
fn write_dot<O: Write>(
    out: &mut O,
    layout: &Layout,
    run: &Recorder,
    event: usize,
    step: &Step,
) -> io::Result<()> {
    let (x, y) = (layout.x(event), layout.line(step.site));
    let look = match step.effect {
        Effect::Done => "dot",
        Effect::Ignored | Effect::Refused(_) | Effect::Nothing => "none",
    };
    write_title(out, run, event, step)?;
    writeln!(
        out,
        "<circle class=\"{look}\" cx=\"{x}\" cy=\"{y}\" r=\"2.8\"/></g>"
    )
}

/// Writes the words of a mark where there is room at it, and then for the next start's at that one.
/// Those of a start are written in any case: where there is no room at the mark, farther off, with
/// the event's number; and where there is none up to the picture's right end, at the mark, over
/// other words.
fn write_words<O: Write>(
    out: &mut O,
    layout: &Layout,
    run: &Recorder,
    rooms: &mut Rooms,
    event: usize,
    site: &Site,
    words: &Words,
) -> io::Result<()> {
    let (from, width) = (words_left(layout, event), width_of(words));
    let next = match words {
        Words::Start(_) => Px::FAR,
        _ => next_start(layout, run, event, site),
    };
    if let Some(x) = rooms.take(site, from, width, next) {
        return write_at(out, layout, site, x, words);
    }
    let Words::Start(word) = *words else {
        return Ok(());
    };
    let far = Words::FarStart(word, event.saturating_add(1));
    match rooms.take_far(site, from, width_of(&far), layout.width()) {
        Some(x) => write_at(out, layout, site, x, &far),
        None => write_at(out, layout, site, from, words),
    }
}

/// The width of words.
fn width_of(words: &Words) -> Px {
    CHAR.times(count_chars(*words))
}

/// Writes the words of a mark from here on, or so that they end with the picture.
fn write_at<O: Write>(
    out: &mut O,
    layout: &Layout,
    site: &Site,
    x: Px,
    words: &Words,
) -> io::Result<()> {
    let (x, y) = (
        x.at_most(layout.width().minus(width_of(words))),
        layout.mark_words(*site),
    );
    writeln!(
        out,
        "<text class=\"mark\" x=\"{x}\" y=\"{y}\">{words}</text>"
    )
}

/// From where on the words of an event's mark stand.
fn words_left(layout: &Layout, event: usize) -> Px {
    layout.x(event).minus(Px(50))
}

/// Where the words of the next start in a lane stand, behind an event.
fn next_start(layout: &Layout, run: &Recorder, event: usize, site: &Site) -> Px {
    for worker in &run.workers {
        if worker.at > event && *site == Site::At(worker.place) {
            return words_left(layout, worker.at);
        }
    }
    Px::FAR
}

/// Writes whom a roster shows dead for the first time, at an event of the clearinghouse.
fn write_deaths<O: Write>(
    out: &mut O,
    layout: &Layout,
    run: &Recorder,
    rooms: &mut Rooms,
    event: usize,
) -> io::Result<()> {
    for death in &run.deaths {
        if death.at == event {
            let (number, word) = (event.saturating_add(1), death.word);
            write!(
                out,
                "<g><title>event {number}: a roster says that worker {word} is dead</title>"
            )?;
            write_shape(out, Shape::Dead, layout.x(event), layout.line(Site::House))?;
            writeln!(out, "</g>")?;
            write_words(
                out,
                layout,
                run,
                rooms,
                event,
                &Site::House,
                &Words::Dead(word),
            )?;
        }
    }
    Ok(())
}

/// Writes when the outcome was recorded, and what it is.
fn write_outcome<O: Write>(out: &mut O, layout: &Layout, run: &Recorder) -> io::Result<()> {
    let Some((event, outcome)) = run.outcome else {
        return Ok(());
    };
    let (number, text, x) = (
        event.saturating_add(1),
        OutcomeText(outcome),
        layout.x(event),
    );
    let (top, end) = (layout.outcome_words(), layout.lanes_end);
    let anchor = if x > layout.middle() { "end" } else { "start" };
    writeln!(out, "<path class=\"moment\" d=\"M{x} {top}V{end}\"/>")?;
    write!(
        out,
        "<g><title>event {number}: the outcome is recorded</title>"
    )?;
    write_shape(out, Shape::Outcome, x, layout.line(Site::House))?;
    writeln!(
        out,
        "<text class=\"mark\" text-anchor=\"{anchor}\" x=\"{x}\" y=\"{top}\">outcome {text}</text></g>"
    )
}
