//! What stands below the lanes: what the looks mean.

use crate::choice::Arrows;
use crate::layout::{LEGEND_WIDTH, Layout, SCREEN};
use crate::px::Px;
use crate::record::Recorder;
use std::io::{self, Write};

/// The rows of the legend, from the middle of the first one on: bars, marks, the families of
/// packets, and what becomes of a packet.
const ROWS: &str = "<rect class=\"live\" x=\"14\" y=\"-6\" width=\"30\" height=\"12\"/>
<text x=\"52\" y=\"4\">subcomputation, live</text>
<rect class=\"frozen\" x=\"206\" y=\"-6\" width=\"30\" height=\"12\"/>
<text x=\"244\" y=\"4\">frozen, for an heir</text>
<rect class=\"finished\" x=\"391.3\" y=\"-6\" width=\"30\" height=\"12\"/>
<text x=\"429.3\" y=\"4\">finished</text>
<path class=\"turn\" d=\"M502.9 0m4 -4v8m6 -8v8m6 -8v8\"/>
<text x=\"528.9\" y=\"4\">thread bodies that ran</text>
<rect class=\"fold\" x=\"706\" y=\"-7\" width=\"14\" height=\"14\"/><path class=\"crease\" d=\"M706 -7v14m14 -14v14\"/>
<text x=\"728\" y=\"4\">events in which no body runs</text>
<path class=\"start\" d=\"M20 24m-4 -6.5v13l10 -6.5z\"/><text x=\"32\" y=\"28\">start, restart</text>
<path class=\"stop\" d=\"M151.8 24m-5 -5l10 10m0 -10l-10 10\"/><text x=\"163.8\" y=\"28\">crash</text>
<path class=\"stop\" d=\"M223.3 24m3 -9l-6 8h6l-6 9\"/><text x=\"235.3\" y=\"28\">cut</text>
<path class=\"leave\" d=\"M281.4 24m-6 -6h5v3h3v-3.5l7 6.5l-7 6.5v-3.5h-3v3h-5z\"/><text x=\"293.4\" y=\"28\">departure</text>
<path class=\"dead\" d=\"M379.7 24m-1.6 -8h3.2v4h4v3.2h-4v9h-3.2v-9h-4v-3.2h4z\"/><text x=\"391.7\" y=\"28\">dead, by a roster</text>
<path class=\"done\" d=\"M531.6 24m0 -9l2.6 5.6l6.1 .7l-4.5 4.2l1.2 6l-5.4 -3l-5.4 3l1.2 -6l-4.5 -4.2l6.1 -.7z\"/><text x=\"543.6\" y=\"28\">outcome recorded</text>
<path class=\"line work\" d=\"M14 48h30\" marker-end=\"url(#work)\"/>
<text x=\"49\" y=\"52\">Grant, Offer, Piece</text>
<path class=\"line outcome\" d=\"M189.4 48h30\" marker-end=\"url(#outcome)\"/>
<text x=\"224.4\" y=\"52\">Result, Save</text>
<path class=\"line asking\" d=\"M322.6 48h30\" marker-end=\"url(#asking)\"/>
<text x=\"357.6\" y=\"52\">Steal, Refuse</text>
<path class=\"line answer\" d=\"M462.7 48h30\" marker-end=\"url(#answer)\"/>
<text x=\"497.7\" y=\"52\">ResultAck, OfferAck, Abort</text>
<path class=\"line members\" d=\"M689.9 48h30\" marker-end=\"url(#members)\"/>
<text x=\"724.9\" y=\"52\">Join, Roster, Beat, Leave</text>
<path class=\"line any again\" d=\"M14 72h30\" marker-end=\"url(#any)\"/>
<text x=\"49\" y=\"76\">comes again</text>
<path class=\"line any\" d=\"M160 72h30\" marker-end=\"url(#any-ignored)\"/>
<text x=\"195\" y=\"76\">comes and is ignored</text>
<path class=\"line any\" d=\"M370 72m0 6l9 -13m-4 -3l8 5\"/>
<text x=\"390\" y=\"76\">never comes</text>
<circle class=\"dot\" cx=\"500\" cy=\"72\" r=\"2.8\"/>
<text x=\"508\" y=\"76\">event</text>
<circle class=\"none\" cx=\"570\" cy=\"72\" r=\"2.8\"/>
<text x=\"578\" y=\"76\">event that changes nothing, or is refused</text>
";

/// What the second row has more where a task was evaluated whole.
const WHOLE: &str = "<path class=\"whole\" d=\"M678.6 20v8\"/>
<text x=\"690.6\" y=\"28\">task that was evaluated whole</text>
";

/// Writes the legend, in a wide picture a screen's width on once more, as often as there is room
/// for it.
pub(crate) fn write_legend<O: Write>(
    out: &mut O,
    layout: &Layout,
    run: &Recorder,
) -> io::Result<()> {
    let top = layout.lanes_end.plus(Px(260));
    let more = if run.has_wholes() { WHOLE } else { "" };
    write!(
        out,
        "<g class=\"legend\" id=\"legend\" transform=\"translate(0 {top})\">\n{ROWS}{more}"
    )?;
    write_note(out, layout, run)?;
    for screen in 1..4usize {
        let x = SCREEN.times(screen);
        if x.plus(LEGEND_WIDTH) < layout.width() {
            writeln!(out, "<use href=\"#legend\" x=\"{x}\"/>")?;
        }
    }
    Ok(())
}

/// Writes which arrows there are, and what a name means, and ends the legend.
fn write_note<O: Write>(out: &mut O, layout: &Layout, run: &Recorder) -> io::Result<()> {
    let packets = run.packets.len();
    write!(out, "<text x=\"14\" y=\"98\">")?;
    match layout.arrows {
        Arrows::All => {}
        Arrows::Work => write!(
            out,
            "Of {packets} packets Joins, Rosters and Beats aren't drawn. "
        )?,
        Arrows::Tasks => write!(
            out,
            "Of {packets} packets only Grants, Offers, Pieces and Results are drawn. "
        )?,
        Arrows::Hidden => write!(out, "The {packets} packets aren't drawn. ")?,
    }
    writeln!(
        out,
        "H1 is the clearinghouse of epoch 1; a grant is named by who minted it and its number.</text>\n</g>"
    )
}
