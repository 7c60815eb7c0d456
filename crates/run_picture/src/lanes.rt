//! The lanes: their names, and since when somebody was up there.

use crate::deed::Site;
use crate::held::Lane;
use crate::layout::{Layout, SCREEN};
use crate::px::Px;
use crate::record::{Recorder, Stand};
use crate::shown::Life;
use crate::texts::{AgainName, LaneName, SiteName};
use event_script::NodePlace;
use std::io::{self, Write};

/// Writes the ground and the name of each lane.
pub(crate) fn write_lanes<O: Write>(
    out: &mut O,
    layout: &Layout,
    run: &Recorder,
) -> io::Result<()> {
    write_ground(out, layout, Site::House, true)?;
    writeln!(out, "{}</text></g>", SiteName(Site::House))?;
    let mut is_even = false;
    for (index, lane) in run.lanes.iter().enumerate() {
        if let (true, Some(place)) = (lane.is_used, NodePlace::of(index as u64)) {
            write_ground(out, layout, Site::At(place), is_even)?;
            write_name(out, layout, place, LaneName::of(index, lane))?;
            is_even = !is_even;
        }
    }
    Ok(())
}

/// Begins a lane: its ground, and the text of its name.
fn write_ground<O: Write>(
    out: &mut O,
    layout: &Layout,
    site: Site,
    is_even: bool,
) -> io::Result<()> {
    let band = layout.band(site);
    let (y, height, width) = (band.top, band.end.minus(band.top), layout.width());
    let below = band.line.plus(Px(40));
    let look = if is_even { "even" } else { "odd" };
    write!(
        out,
        "<g class=\"lane\"><rect class=\"{look}\" x=\"0\" y=\"{y}\" width=\"{width}\" height=\"{height}\"/>"
    )?;
    write!(out, "<text class=\"name\" x=\"14\" y=\"{below}\">")
}

/// Writes the name of a place's lane, and ends it.
fn write_name<O: Write>(
    out: &mut O,
    layout: &Layout,
    place: NodePlace,
    name: LaneName,
) -> io::Result<()> {
    write!(out, "{name}</text>")?;
    let later = name.later();
    if later > 0 {
        let below = layout.line(Site::At(place)).plus(Px(180));
        write!(out, "<text x=\"14\" y=\"{below}\">and {later} later</text>")?;
    }
    writeln!(out, "</g>")
}

/// Writes the names of all lanes again, a screen's width from one another, in a picture that is
/// wide.
pub(crate) fn write_again<O: Write>(
    out: &mut O,
    layout: &Layout,
    run: &Recorder,
) -> io::Result<()> {
    if !layout.repeats_names() {
        return Ok(());
    }
    for screen in 1..4usize {
        let x = SCREEN.times(screen).plus(Px(140));
        if x.plus(Px(1000)) < layout.right() {
            write_again_at(out, layout, run, x)?;
        }
    }
    Ok(())
}

/// Writes the names of all lanes again, from here on, those of places with the worker that started
/// there last.
fn write_again_at<O: Write>(out: &mut O, layout: &Layout, run: &Recorder, x: Px) -> io::Result<()> {
    write_again_name(out, layout, &Site::House, x, None)?;
    for (index, lane) in run.lanes.iter().enumerate() {
        if let (true, Some(place)) = (lane.is_used, NodePlace::of(index as u64)) {
            write_again_name(
                out,
                layout,
                &Site::At(place),
                x,
                worker_at(layout, run, place, x),
            )?;
        }
    }
    Ok(())
}

fn write_again_name<O: Write>(
    out: &mut O,
    layout: &Layout,
    site: &Site,
    x: Px,
    worker: Option<u64>,
) -> io::Result<()> {
    let (y, name) = (layout.again_name(*site), AgainName(*site, worker));
    writeln!(
        out,
        "<text class=\"again-name\" x=\"{x}\" y=\"{y}\">{name}</text>"
    )
}

/// The worker that started at a place last, up to here.
fn worker_at(layout: &Layout, run: &Recorder, place: NodePlace, x: Px) -> Option<u64> {
    let mut found = None;
    for worker in &run.workers {
        if worker.place == place && layout.x(worker.at) <= x {
            found = Some(worker.word);
        }
    }
    found
}

/// Writes since when and until when nodes were up, and the clearinghouse was open.
pub(crate) fn write_lives<O: Write>(
    out: &mut O,
    layout: &Layout,
    run: &Recorder,
) -> io::Result<()> {
    for life in &run.lives {
        write_life(out, layout, life.site, life.since, layout.x(life.until))?;
    }
    if let Stand::Open(since) = run.house {
        write_life(out, layout, Site::House, since, layout.right())?;
    }
    for (index, lane) in run.lanes.iter().enumerate() {
        if let (Some(since), Some(place)) = (lane.up, NodePlace::of(index as u64)) {
            write_life(out, layout, Site::At(place), since, layout.right())?;
        }
    }
    Ok(())
}

fn write_life<O: Write>(
    out: &mut O,
    layout: &Layout,
    site: Site,
    since: usize,
    end: Px,
) -> io::Result<()> {
    let (x, y) = (layout.x(since), layout.line(site));
    writeln!(out, "<path class=\"life\" d=\"M{x} {y}H{end}\"/>")
}
