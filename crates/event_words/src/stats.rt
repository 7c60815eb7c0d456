//! What a run came to, in numbers.

use crate::packet::write_thread;
use serial_meaning::TurnCounts;
use std::io::{self, Write};
use task_tree::Program;
use world::RunCounts;

/// The kinds of packets, by their numbers from 1 on.
const KINDS: [&str; 15] = [
    "Join",
    "Roster",
    "Steal",
    "Grant",
    "Refuse",
    "Result",
    "ResultAck",
    "Offer",
    "OfferAck",
    "Leave",
    "Abort",
    "Beat",
    "Piece",
    "Save",
    "SavedGrant",
];

/// Writes how many turns were taken, how many by each thread that took one, and the level of the
/// deepest place; a line each.
pub fn write_turns<O: Write>(out: &mut O, program: &Program, turns: &TurnCounts) -> io::Result<()> {
    writeln!(out, "turns {}", turns.all())?;
    for thread in 0..=u8::MAX {
        let count = turns.of(thread);
        if count > 0 {
            write!(out, "turns of ")?;
            write_thread(out, program, thread)?;
            writeln!(out, " {count}")?;
        }
    }
    writeln!(out, "deepest level {}", turns.deepest())?;
    out.flush()
}

/// Writes the turns of a run on nodes as `write_turns` does, and behind them how many tasks were
/// evaluated whole, if any was, and in how many turns; how often work was asked for, granted,
/// refused, and done again; the packets by their kinds; and how many frames and subcomputations one
/// node held at most; a line each.
pub fn write_counts<O: Write>(
    out: &mut O,
    program: &Program,
    counts: &RunCounts,
) -> io::Result<()> {
    write_turns(out, program, counts.turns())?;
    write_wholes(out, counts)?;
    writeln!(out, "steals asked {}", counts.asked())?;
    writeln!(out, "steals granted {}", counts.granted())?;
    writeln!(out, "steals refused {}", counts.refused())?;
    writeln!(out, "tasks done again {}", counts.redone())?;
    write_kinds(out, counts)?;
    writeln!(out, "frames held at most {}", counts.most_frames())?;
    writeln!(out, "subcomputations held at most {}", counts.most_subs())?;
    out.flush()
}

/// Writes how many tasks were evaluated whole, and in how many turns; nothing where none was. Of a
/// run on threads, how many values were used that evaluations had kept which ran out of turns, and
/// how many turns were evaluated of which nothing was kept.
fn write_wholes<O: Write>(out: &mut O, counts: &RunCounts) -> io::Result<()> {
    if counts.wholes() == 0 {
        return Ok(());
    }
    writeln!(out, "tasks evaluated whole {}", counts.wholes())?;
    writeln!(out, "turns in them {}", counts.whole_turns())?;
    let (used, vain) = counts.kept();
    if used > 0 {
        writeln!(out, "values kept and used {used}")?;
    }
    if vain > 0 {
        writeln!(out, "turns evaluated in vain {vain}")?;
    }
    Ok(())
}

/// Writes how many packets were sent of each kind of which one was.
fn write_kinds<O: Write>(out: &mut O, counts: &RunCounts) -> io::Result<()> {
    let mut number: u8 = 0;
    for kind in &KINDS {
        number = number.saturating_add(1);
        let count = counts.packets_of(number);
        if count > 0 {
            writeln!(out, "packets of kind {kind} {count}")?;
        }
    }
    Ok(())
}
