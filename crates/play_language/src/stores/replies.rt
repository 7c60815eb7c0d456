//! The last answer to each thief.

use super::words::{count_at, worker_at};
use ids::{Count, Incarnation};
use play_packets::{read_packet, write_packet};
use play_words::{Answers, CommandLine};
use std::alloc::Global;
use steal_protocol::{Heard, Replies, Reply};

/// Keeps a packet as an answer; once more behind a refusal, which is when out of memory.
fn write_kept(
    alloc: Global,
    line: &CommandLine<'_>,
    (thief, seq): (Incarnation, Count),
    replies: &mut Replies,
    out: &mut Answers,
) -> Option<()> {
    for _ in 0..2 {
        let packet = read_packet(alloc, line, 4, out)?;
        match replies.keep(Reply { thief, seq, packet }) {
            Ok(()) => {
                out.counted(replies.len(), " answers");
                break;
            }
            Err(_) => out.line("E9"),
        }
    }
    Some(())
}

/// Writes what a request is.
fn write_heard(out: &mut Answers, heard: Heard<'_>) {
    match heard {
        Heard::Older => out.line("older"),
        Heard::Newer => out.line("newer"),
        Heard::Again(packet) => {
            out.text("> again ");
            write_packet(out, packet);
            out.end();
        }
    }
}

/// Plays a command on answers.
pub fn play_replies(
    alloc: Global,
    line: &CommandLine<'_>,
    replies: &mut Replies,
    out: &mut Answers,
) -> Option<()> {
    let thief = worker_at(line, 2)?;
    let seq = count_at(line, 3)?;
    match line.word(1)? {
        "keep" => write_kept(alloc, line, (thief, seq), replies, out),
        "hear" => {
            write_heard(out, replies.hear(thief, seq));
            Some(())
        }
        _ => None,
    }
}
