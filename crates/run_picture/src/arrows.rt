//! The packets: an arrow for each delivery, and a stub for each packet that never came.

use crate::choice::{has_arrow, has_stub};
use crate::deed::Site;
use crate::kind::family_of;
use crate::layout::Layout;
use crate::px::Px;
use crate::record::{HOUSE, Recorder};
use crate::shown::{Delivery, Sent};
use crate::texts::PacketText;
use std::io::{self, Write};

/// Writes the arrows that there is room for, and the stubs.
pub(crate) fn write_arrows<O: Write>(
    out: &mut O,
    layout: &Layout,
    run: &Recorder,
) -> io::Result<()> {
    for (index, sent) in run.packets.iter().enumerate() {
        if layout.arrows.shows(sent.kind) && has_stub(run, sent) {
            write_stub(out, layout, run, index, sent)?;
        }
    }
    for delivery in &run.deliveries {
        match run.packets.get(delivery.packet) {
            Some(sent) if layout.arrows.shows(sent.kind) && has_arrow(run, sent, delivery) => {
                write_arrow(out, layout, sent, delivery)?;
            }
            _ => {}
        }
    }
    Ok(())
}

/// Writes the arrow of a delivery: from the event at which the packet was sent, to that at which it
/// comes.
fn write_arrow<O: Write>(
    out: &mut O,
    layout: &Layout,
    sent: &Sent,
    delivery: &Delivery,
) -> io::Result<()> {
    let look = family_of(sent.kind).look();
    let again = if delivery.is_again { " again" } else { "" };
    let ignored = if delivery.is_ignored { "-ignored" } else { "" };
    write_coming(out, sent, delivery)?;
    write!(out, "<path class=\"hit\" d=\"")?;
    write_way(out, layout, sent, delivery)?;
    write!(out, "\"/><path class=\"arrow {look}{again}\" d=\"")?;
    write_way(out, layout, sent, delivery)?;
    writeln!(out, "\" marker-end=\"url(#{look}{ignored})\"/></g>")
}

/// Writes the title of an arrow: which packet comes, and when.
fn write_coming<O: Write>(out: &mut O, sent: &Sent, delivery: &Delivery) -> io::Result<()> {
    let packet = PacketText(delivery.packet, *sent);
    let comes = if delivery.is_again {
        "comes again at"
    } else {
        "comes at"
    };
    let ignored = if delivery.is_ignored { ", ignored" } else { "" };
    let event = delivery.at.saturating_add(1);
    write!(
        out,
        "<g><title>{packet}, {comes} event {event}{ignored}</title>"
    )
}

/// Writes the way of an arrow: straight, or within one lane as an arc above its line.
fn write_way<O: Write>(
    out: &mut O,
    layout: &Layout,
    sent: &Sent,
    delivery: &Delivery,
) -> io::Result<()> {
    let (x, y) = (layout.x(sent.at), layout.line(sent.site));
    let (to_x, to_y) = (layout.x(delivery.at), layout.line(delivery.site));
    if sent.site == delivery.site {
        let (middle, above) = (x.plus(to_x).over(2), y.minus(Px(300)));
        write!(out, "M{x} {y}Q{middle} {above} {to_x} {to_y}")
    } else {
        write!(out, "M{x} {y}L{to_x} {to_y}")
    }
}

/// Writes the stub of a packet that never came: towards whom it was sent to, with a bar across its
/// end.
fn write_stub<O: Write>(
    out: &mut O,
    layout: &Layout,
    run: &Recorder,
    index: usize,
    sent: &Sent,
) -> io::Result<()> {
    let (x, y) = (layout.x(sent.at), layout.line(sent.site));
    let look = family_of(sent.kind).look();
    let way = if is_above(layout, run, sent) {
        "l9 -15m-4 -2l8 4"
    } else {
        "l9 15m-4 2l8 -4"
    };
    write!(
        out,
        "<g><title>{}, never comes</title>",
        PacketText(index, *sent)
    )?;
    writeln!(out, "<path class=\"stub {look}\" d=\"M{x} {y}{way}\"/></g>")
}

/// Whether whom a packet goes to has a lane above the sender's.
fn is_above(layout: &Layout, run: &Recorder, sent: &Sent) -> bool {
    if sent.to >= HOUSE {
        return sent.site != Site::House;
    }
    for worker in &run.workers {
        if worker.word == sent.to {
            return layout.line(Site::At(worker.place)) < layout.line(sent.site);
        }
    }
    false
}
