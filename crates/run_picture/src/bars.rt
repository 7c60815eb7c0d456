//! What nodes held, and the thread bodies that ran.

use crate::held::Held;
use crate::layout::Layout;
use crate::marks::write_title;
use crate::px::Px;
use crate::record::Recorder;
use crate::shown::Turn;
use crate::texts::HeldText;
use event_script::NodePlace;
use node_core::SubState;
use std::io::{self, Write};

/// A bar is at least so wide.
const NARROWEST: Px = Px(10);

/// Writes a bar for each state of each subcomputation that was held.
pub(crate) fn write_bars<O: Write>(out: &mut O, layout: &Layout, run: &Recorder) -> io::Result<()> {
    for bar in &run.bars {
        let end = layout.x(bar.until);
        write_bar(out, layout, bar.place, &bar.held, end)?;
        writeln!(out, " to {}</title></rect>", bar.until.saturating_add(1))?;
    }
    for (index, lane) in run.lanes.iter().enumerate() {
        let Some(place) = NodePlace::of(index as u64) else {
            continue;
        };
        for held in &lane.held {
            write_bar(out, layout, place, held, layout.right())?;
            writeln!(out, " on</title></rect>")?;
        }
    }
    Ok(())
}

/// Begins a bar, and its title up to the event from which on it is.
fn write_bar<O: Write>(
    out: &mut O,
    layout: &Layout,
    place: NodePlace,
    held: &Held,
    end: Px,
) -> io::Result<()> {
    let (x, y) = (layout.x(held.since), layout.track_top(place, held.track));
    let width = end.minus(x).at_least(NARROWEST);
    let height = layout.track().minus(gap(layout));
    let look = match held.state {
        SubState::Active => "live",
        SubState::Frozen(_, _) => "frozen",
        SubState::Finished(_) => "finished",
    };
    write!(
        out,
        "<rect class=\"bar {look}\" x=\"{x}\" y=\"{y}\" width=\"{width}\" height=\"{height}\">"
    )?;
    let (text, since) = (HeldText(*held), held.since.saturating_add(1));
    write!(out, "<title>{text}, from event {since}")
}

/// What is left free between two tracks.
fn gap(layout: &Layout) -> Px {
    layout.track().over(5)
}

/// Writes a stroke into a bar for each thread body that ran, and a broad one with a title for each
/// task that was evaluated whole.
pub(crate) fn write_turns<O: Write>(
    out: &mut O,
    layout: &Layout,
    run: &Recorder,
) -> io::Result<()> {
    for turn in &run.turns {
        if turn.is_of_whole {
            write_whole(out, layout, run, turn)?;
        } else {
            write_stroke(out, layout, turn, "turn")?;
            writeln!(out)?;
        }
    }
    Ok(())
}

/// Writes a broad stroke, with a title.
fn write_whole<O: Write>(
    out: &mut O,
    layout: &Layout,
    run: &Recorder,
    turn: &Turn,
) -> io::Result<()> {
    let Some(step) = run.steps.get(turn.at) else {
        return Ok(());
    };
    write_title(out, run, turn.at, step)?;
    write_stroke(out, layout, turn, "whole")?;
    writeln!(out, "</g>")
}

/// Writes a stroke of a look.
fn write_stroke<O: Write>(out: &mut O, layout: &Layout, turn: &Turn, look: &str) -> io::Result<()> {
    let height = layout.track().minus(gap(layout)).over(2);
    let x = layout.x(turn.at);
    let y = layout
        .track_top(turn.place, turn.track)
        .plus(height.over(2));
    write!(out, "<path class=\"{look}\" d=\"M{x} {y}v{height}\"/>")
}
