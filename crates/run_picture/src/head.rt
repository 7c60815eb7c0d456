//! What stands above the lanes: what the run came to, and which event is where.

use crate::deed::Step;
use crate::folds::Fold;
use crate::layout::{ABOVE_NUMBERS, Layout};
use crate::px::Px;
use crate::record::Recorder;
use crate::texts::{FoldWords, OutcomeText};
use std::io::{self, Write};

/// How many events there may be between two numbers of the axis.
const INTERVALS: [usize; 22] = [
    1, 2, 5, 10, 20, 50, 100, 200, 500, 1000, 2000, 5000, 10_000, 20_000, 50_000, 100_000, 200_000,
    500_000, 1_000_000, 2_000_000, 5_000_000, 10_000_000,
];

/// Two numbers of the axis are at least so far apart.
const APART: Px = Px(600);

/// The words of two folds are at least so far apart.
const FOLDS_APART: Px = Px(140);

/// Writes what a run came to.
pub(crate) fn write_heading<O: Write>(out: &mut O, run: &Recorder) -> io::Result<()> {
    let (events, packets, fills) = (run.steps.len(), run.packets.len(), run.fills);
    write!(
        out,
        "<text class=\"heading\" x=\"14\" y=\"26\">{events} events, {packets} packets, {fills} fills, outcome "
    )?;
    match run.outcome {
        Some((_, outcome)) => writeln!(out, "{}</text>", OutcomeText(outcome)),
        None => writeln!(out, "none</text>"),
    }
}

/// Writes which event is where: by its words where there is room, else by numbers of some of them;
/// and the words of folds.
pub(crate) fn write_axis<O: Write>(out: &mut O, layout: &Layout, run: &Recorder) -> io::Result<()> {
    if layout.has_words() {
        write_events(out, layout, run)?;
        write_folds(out, layout, Px::ZERO)
    } else {
        write_numbers(out, layout, run)?;
        write_folds(out, layout, ABOVE_NUMBERS)
    }
}

/// Writes the words of all events that aren't folded.
fn write_events<O: Write>(out: &mut O, layout: &Layout, run: &Recorder) -> io::Result<()> {
    for (event, step) in run.steps.iter().enumerate() {
        if !layout.folds.is_folded(event) {
            write_words(out, layout, run, event, step)?;
        }
    }
    Ok(())
}

/// Writes numbers of some events that aren't folded.
fn write_numbers<O: Write>(out: &mut O, layout: &Layout, run: &Recorder) -> io::Result<()> {
    let interval = interval_of(layout).max(1);
    let mut free = Px::ZERO;
    for event in 0..run.steps.len() {
        let number = event.saturating_add(1);
        if number % interval == 0 && !layout.folds.is_folded(event) && layout.x(event) >= free {
            free = layout.x(event).plus(APART);
            write_number(out, layout, event)?;
        }
    }
    Ok(())
}

/// Writes the words of folds, aslant and so far above the axis, where they aren't too close to one
/// another.
fn write_folds<O: Write>(out: &mut O, layout: &Layout, above: Px) -> io::Result<()> {
    let (y, mut free) = (layout.axis().minus(above), Px::ZERO);
    for fold in layout.folds.as_slice() {
        let (x, words) = (layout.x(fold.first), FoldWords(fold.count));
        if x >= free {
            free = x.plus(FOLDS_APART);
            writeln!(
                out,
                "<text class=\"words\" transform=\"translate({x} {y}) rotate(-60)\" x=\"5\" y=\"3\">{words}</text>"
            )?;
        }
    }
    Ok(())
}

/// Writes the marks of folds, across all lanes.
pub(crate) fn write_creases<O: Write>(out: &mut O, layout: &Layout) -> io::Result<()> {
    for fold in layout.folds.as_slice() {
        write_crease(out, layout, fold)?;
    }
    Ok(())
}

fn write_crease<O: Write>(out: &mut O, layout: &Layout, fold: &Fold) -> io::Result<()> {
    let (x, width) = (layout.fold_left(fold.first), layout.fold_width());
    let (y, end, right) = (layout.axis(), layout.lanes_end, x.plus(width));
    let (first, last) = (
        fold.first.saturating_add(1),
        fold.first.saturating_add(fold.count),
    );
    write!(
        out,
        "<g><title>events {first} to {last}: no body runs</title><rect class=\"fold\" x=\"{x}\" y=\"{y}\""
    )?;
    write!(out, " width=\"{width}\" height=\"{}\"/>", end.minus(y))?;
    writeln!(
        out,
        "<path class=\"crease\" d=\"M{x} {y}V{end}M{right} {y}V{end}\"/></g>"
    )
}

/// Writes the number and the words of an event, aslant, and a line through all lanes.
fn write_words<O: Write>(
    out: &mut O,
    layout: &Layout,
    run: &Recorder,
    event: usize,
    step: &Step,
) -> io::Result<()> {
    let (x, y, end) = (layout.x(event), layout.axis(), layout.lanes_end);
    let (number, words) = (event.saturating_add(1), run.words_of(step));
    writeln!(out, "<path class=\"grid\" d=\"M{x} {y}V{end}\"/>")?;
    writeln!(
        out,
        "<text class=\"words\" transform=\"translate({x} {y}) rotate(-60)\" x=\"5\" y=\"3\">{number} {words}</text>"
    )
}

/// Writes the number of an event, and a line through all lanes.
fn write_number<O: Write>(out: &mut O, layout: &Layout, event: usize) -> io::Result<()> {
    let (x, y, end) = (layout.x(event), layout.axis(), layout.lanes_end);
    let (number, above) = (event.saturating_add(1), y.minus(Px(50)));
    writeln!(out, "<path class=\"grid\" d=\"M{x} {y}V{end}\"/>")?;
    writeln!(
        out,
        "<text class=\"words\" text-anchor=\"middle\" x=\"{x}\" y=\"{above}\">{number}</text>"
    )
}

/// How many events there are between two numbers of the axis.
fn interval_of(layout: &Layout) -> usize {
    let mut last = 1usize;
    for interval in INTERVALS {
        last = interval;
        if layout.span(interval) >= APART {
            break;
        }
    }
    last
}
