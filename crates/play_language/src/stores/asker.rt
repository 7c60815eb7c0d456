//! The request of a thief.

use super::words::{actor_at, count_at};
use ids::Status;
use play_packets::{grant, status, write_field};
use play_words::{Answers, CommandLine};
use steal_protocol::Asker;

/// What is said of a victim; none inside where nothing is.
fn said(line: &CommandLine<'_>) -> Option<Option<Status>> {
    match line.word(2)? {
        "nothing" => Some(None),
        word => Some(Some(status(word, 0)?)),
    }
}

/// Writes the request that waits, and how many were made.
fn write_state(out: &mut Answers, asker: &Asker) {
    match asker.pending() {
        Some(request) => {
            write_field(out, "> request ", request.seq.number());
            write_field(out, " of ", request.victim.word());
        }
        None => out.text("> no request"),
    }
    write_field(out, ", ", asker.asked());
    out.text(" made");
    out.end();
}

/// A request is made.
fn ask(line: &CommandLine<'_>, asker: &mut Asker, out: &mut Answers) -> Option<()> {
    if let Err(refused) = asker.ask(actor_at(line, 2)?) {
        out.refusal(&refused);
    }
    write_state(out, asker);
    Some(())
}

/// Plays a command on requests.
pub fn play_asker(line: &CommandLine<'_>, asker: &mut Asker, out: &mut Answers) -> Option<()> {
    match line.word(1)? {
        "pending" => out.truth(asker.is_pending(count_at(line, 2)?)),
        "answered" => {
            let seq = count_at(line, 2)?;
            let grant = grant(line.word(3)?)?;
            out.truth(asker.is_answered_by(seq, grant));
        }
        "ask" => return ask(line, asker, out),
        "settle" => {
            asker.settle(said(line)?);
            write_state(out, asker);
        }
        "clear" => {
            asker.clear();
            write_state(out, asker);
        }
        _ => return None,
    }
    Some(())
}
