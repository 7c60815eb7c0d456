//! How a picture looks.

use crate::layout::Layout;
use crate::record::Recorder;
use std::io::{self, Write};

/// The looks of all that is drawn, by class.
const LOOKS: &str =
    "text{font-family:\"DejaVu Sans Mono\",Menlo,Consolas,monospace;font-size:11px;fill:#222}
.heading{font-size:16px;font-weight:bold}
.name{font-weight:bold}
.words{font-size:10px}
.mark{font-size:11px;font-weight:bold}
.packet{font-size:9px;fill:#444}
.body{font-size:9px;fill:#0b3a66}
.again-name{font-size:10px;fill:#666}
.packet,.mark,.body,.again-name{paint-order:stroke;stroke:#fff;stroke-width:3px;stroke-linejoin:round}
.even{fill:#f4f4f4}
.odd{fill:#fff}
.grid{stroke:#ddd;stroke-width:1;fill:none}
.life{stroke:#888;stroke-width:3;fill:none}
.live{fill:#9ecbee;stroke:#1f5f99;stroke-width:1}
.frozen{fill:url(#hatch);stroke:#a05a00;stroke-width:1}
.finished{fill:#fff;stroke:#1f5f99;stroke-width:1.5;stroke-dasharray:none}
.turn{stroke:#0b3a66;stroke-width:1.2;fill:none}
.arrow,.stub{fill:none;stroke-width:1}
.again{stroke-dasharray:5 3}
.hit{fill:none;stroke:#000;stroke-opacity:0;stroke-width:8}
.work{stroke:#c2410c;stroke-width:2.2}
.outcome{stroke:#0a7d50;stroke-width:2.2}
.asking{stroke:#2563b0}
.answer{stroke:#a0459b}
.members{stroke:#8a8a8a}
.any{stroke:#444}
.fold{fill:#fff}
.crease{stroke:#888;stroke-width:1;stroke-dasharray:3 3;fill:none}
.dot{fill:#444}
.none{fill:#fff;stroke:#999}
.start{fill:#0a7d50}
.stop{fill:none;stroke:#c00000;stroke-width:2.6}
.leave{fill:#fff;stroke:#a05a00;stroke-width:1.6}
.dead{fill:#111}
.moment{stroke:#b58900;stroke-width:1.2;stroke-dasharray:2 4;fill:none}
.line{fill:none}
.done{fill:#f2b701;stroke:#5c4500;stroke-width:1}
";

/// The look of a task that was evaluated whole.
const LOOK_OF_WHOLE: &str = ".whole{stroke:#0b3a66;stroke-width:5;fill:none}
";

/// What is referred to: the hatching, and for each family of packets the heads of its arrows, a
/// full one, and an open one for packets that are ignored; and those of arrows that stand for any
/// family, in the legend. The shape of its heads tells a family apart without colours.
const PARTS: &str =
    "<pattern id=\"hatch\" width=\"5\" height=\"5\" patternUnits=\"userSpaceOnUse\" patternTransform=\"rotate(45)\"><rect width=\"5\" height=\"5\" fill=\"#fff\"/><rect width=\"2\" height=\"5\" fill=\"#e09a3e\"/></pattern>
<marker id=\"work\" markerWidth=\"14\" markerHeight=\"10\" refX=\"12\" refY=\"5\" orient=\"auto\" markerUnits=\"userSpaceOnUse\"><path d=\"M0.5 0.5L10 5L0.5 9.5z\" fill=\"#c2410c\"/></marker>
<marker id=\"work-ignored\" markerWidth=\"14\" markerHeight=\"10\" refX=\"12\" refY=\"5\" orient=\"auto\" markerUnits=\"userSpaceOnUse\"><path d=\"M0.5 0.5L10 5L0.5 9.5z\" fill=\"#fff\" stroke=\"#c2410c\"/></marker>
<marker id=\"outcome\" markerWidth=\"14\" markerHeight=\"10\" refX=\"12\" refY=\"5\" orient=\"auto\" markerUnits=\"userSpaceOnUse\"><path d=\"M0.5 5L5.5 1L10.5 5L5.5 9z\" fill=\"#0a7d50\"/></marker>
<marker id=\"outcome-ignored\" markerWidth=\"14\" markerHeight=\"10\" refX=\"12\" refY=\"5\" orient=\"auto\" markerUnits=\"userSpaceOnUse\"><path d=\"M0.5 5L5.5 1L10.5 5L5.5 9z\" fill=\"#fff\" stroke=\"#0a7d50\"/></marker>
<marker id=\"asking\" markerWidth=\"14\" markerHeight=\"10\" refX=\"12\" refY=\"5\" orient=\"auto\" markerUnits=\"userSpaceOnUse\"><path d=\"M1 1L10 5L1 9L4 5z\" fill=\"#2563b0\"/></marker>
<marker id=\"asking-ignored\" markerWidth=\"14\" markerHeight=\"10\" refX=\"12\" refY=\"5\" orient=\"auto\" markerUnits=\"userSpaceOnUse\"><path d=\"M1 1L10 5L1 9L4 5z\" fill=\"#fff\" stroke=\"#2563b0\"/></marker>
<marker id=\"answer\" markerWidth=\"14\" markerHeight=\"10\" refX=\"12\" refY=\"5\" orient=\"auto\" markerUnits=\"userSpaceOnUse\"><path d=\"M10 5a3.5 3.5 0 1 1 -7 0a3.5 3.5 0 1 1 7 0z\" fill=\"#a0459b\"/></marker>
<marker id=\"answer-ignored\" markerWidth=\"14\" markerHeight=\"10\" refX=\"12\" refY=\"5\" orient=\"auto\" markerUnits=\"userSpaceOnUse\"><path d=\"M10 5a3.5 3.5 0 1 1 -7 0a3.5 3.5 0 1 1 7 0z\" fill=\"#fff\" stroke=\"#a0459b\"/></marker>
<marker id=\"members\" markerWidth=\"14\" markerHeight=\"10\" refX=\"12\" refY=\"5\" orient=\"auto\" markerUnits=\"userSpaceOnUse\"><path d=\"M3 2L10 5L3 8z\" fill=\"#8a8a8a\"/></marker>
<marker id=\"members-ignored\" markerWidth=\"14\" markerHeight=\"10\" refX=\"12\" refY=\"5\" orient=\"auto\" markerUnits=\"userSpaceOnUse\"><path d=\"M3 2L10 5L3 8z\" fill=\"#fff\" stroke=\"#8a8a8a\"/></marker>
<marker id=\"any\" markerWidth=\"14\" markerHeight=\"10\" refX=\"12\" refY=\"5\" orient=\"auto\" markerUnits=\"userSpaceOnUse\"><path d=\"M1 1L10 5L1 9z\" fill=\"#444\"/></marker>
<marker id=\"any-ignored\" markerWidth=\"14\" markerHeight=\"10\" refX=\"12\" refY=\"5\" orient=\"auto\" markerUnits=\"userSpaceOnUse\"><path d=\"M1 1L10 5L1 9z\" fill=\"#fff\" stroke=\"#444\"/></marker>
";

/// Writes the beginning of a picture: its size, its looks, the hatching and the heads of arrows.
pub(crate) fn write_beginning<O: Write>(
    out: &mut O,
    layout: &Layout,
    run: &Recorder,
) -> io::Result<()> {
    let (width, height) = (layout.width(), layout.height());
    let more = if run.has_wholes() { LOOK_OF_WHOLE } else { "" };
    write!(
        out,
        "<svg xmlns=\"http://www.w3.org/2000/svg\" width=\"{width}\" height=\"{height}\" viewBox=\"0 0 {width} {height}\">\n"
    )?;
    write!(
        out,
        "<style>\n{LOOKS}{more}</style>\n<defs>\n{PARTS}</defs>\n<rect width=\"{width}\" height=\"{height}\" fill=\"#fff\"/>\n"
    )
}
