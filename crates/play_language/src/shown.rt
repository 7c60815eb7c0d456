//! Tokens, printed texts and turns in words.

use crate::tree::write_name;
use body_eval::{Done, Slot, Turn};
use play_packets::write_field;
use play_words::Answers;
use task_tokens::{Token, TokenKind};

fn write_kind(out: &mut Answers, kind: &TokenKind) {
    match kind {
        TokenKind::Ident(name) => write_name(out, name.as_slice()),
        TokenKind::LongIdent => out.text("LongIdent"),
        TokenKind::Keyword(word) => out.debugged(word),
        TokenKind::Numeral(number) => out.shown(number),
        TokenKind::LargeNumeral => out.text("LargeNumeral"),
        TokenKind::Infix(operator) => out.debugged(operator),
        TokenKind::Mark(sign) => out.debugged(sign),
        TokenKind::Unknown => out.text("Unknown"),
        TokenKind::End => out.text("End"),
    }
}

/// Writes tokens with their offsets.
pub fn write_tokens(out: &mut Answers, tokens: &[Token]) {
    out.text(">");
    for token in tokens {
        out.text(" ");
        write_kind(out, &token.kind);
        out.text("@");
        out.shown(&token.offset);
    }
    out.end();
}

/// Writes a printed text, whose lines all end.
pub fn write_printed(out: &mut Answers, printed: &[u8]) {
    let mut is_begun = false;
    for byte in printed {
        if !is_begun {
            out.text("> ");
        }
        is_begun = *byte != b'\n';
        out.character(*byte);
    }
}

fn write_numbers(out: &mut Answers, numbers: &[i64]) {
    for number in numbers {
        out.text(" ");
        out.signed(*number);
    }
}

fn write_slot(out: &mut Answers, slot: &Slot) {
    match slot {
        Slot::Filled(number) => {
            out.text(" ");
            out.signed(*number);
        }
        Slot::Awaits(kid) => {
            write_field(out, " ?", u64::from(kid.hole));
            write_field(out, "=thread ", u64::from(kid.thread));
            out.text(" on");
            write_numbers(out, kid.arguments.as_slice());
            out.text(";");
        }
    }
}

/// Writes a thread, its numbers and the end that it reached.
pub fn write_done(out: &mut Answers, done: &Done) {
    write_field(out, "> thread ", u64::from(done.thread()));
    out.text(" on");
    write_numbers(out, done.numbers());
    write_turn(out, done.turn());
    out.end();
}

fn write_turn(out: &mut Answers, turn: &Turn) {
    match turn {
        Turn::Sends(number) => {
            out.text(" sends ");
            out.signed(*number);
        }
        Turn::Joins(thread, slots) => {
            write_field(out, " joins thread ", u64::from(*thread));
            out.text(" on");
            for slot in slots.as_slice() {
                write_slot(out, slot);
            }
        }
    }
}
