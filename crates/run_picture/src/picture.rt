//! A whole picture.

use crate::arrows::write_arrows;
use crate::bars::{write_bars, write_turns};
use crate::choice::Shows;
use crate::head::{write_axis, write_creases, write_heading};
use crate::lanes::{write_again, write_lanes, write_lives};
use crate::layout::Layout;
use crate::legend::write_legend;
use crate::marks::write_marks;
use crate::names::write_names;
use crate::record::Recorder;
use crate::style::write_beginning;
use std::io::{self, Write};

/// Writes the picture of a run as SVG: a lane for the clearinghouse and one for each place that an
/// event names, events from left to right, a bar for each subcomputation that a node held, arrows
/// for packets, marks for what became of nodes, and a legend. Packets are shown as is asked for, or
/// fewer kinds of them where there would be more than 400 arrows. Forty or more events in a row in
/// which no body runs, and nothing else changes that is shown but packets, are folded.
pub fn write_picture<O: Write>(out: &mut O, run: &Recorder, shows: Shows) -> io::Result<()> {
    let layout = Layout::of(run, shows);
    write_beginning(out, &layout, run)?;
    write_heading(out, run)?;
    write_lanes(out, &layout, run)?;
    write_axis(out, &layout, run)?;
    write_lives(out, &layout, run)?;
    write_bars(out, &layout, run)?;
    write_turns(out, &layout, run)?;
    write_creases(out, &layout)?;
    write_arrows(out, &layout, run)?;
    write_marks(out, &layout, run)?;
    write_names(out, &layout, run)?;
    write_again(out, &layout, run)?;
    write_legend(out, &layout, run)?;
    writeln!(out, "</svg>")?;
    out.flush()
}
