//! What the words of a command name.

use crate::player::{Call, FrameName, FrameOf};
use play_packets::{actor, frame_number, grant};
use play_words::{CommandLine, byte, word64};

/// Who minted a grant, as a number: a worker's, or that of the clearinghouse in an epoch.
fn minter(text: &str) -> Option<u64> {
    match actor(text) {
        Some(actor) => Some(actor.word()),
        None => word64(text),
    }
}

/// The frame that the words `GRANT FRAME` of a command `exec W` name.
fn frame_name(line: &CommandLine<'_>) -> Option<FrameName> {
    let (first, number) = line.word(2)?.split_once('/')?;
    Some(FrameName {
        minter: minter(first)?,
        number: word64(number)?,
        frame: line.number(3)?,
    })
}

/// The same where the words name a grant and a frame.
fn frame_of(line: &CommandLine<'_>) -> Option<FrameOf> {
    Some(FrameOf {
        grant: grant(line.word(2)?)?,
        frame: frame_number(line.word(3)?)?,
    })
}

/// Whether the words of a command `exec W` name a turn that is to be the frame's own.
fn is_given(line: &CommandLine<'_>) -> bool {
    line.word(4) == Some("given")
}

/// The thread that the words `thread=T on=NUMBERS` of a command `exec W` name, and its numbers.
pub fn turn_words<'a>(line: &CommandLine<'a>) -> Option<(u8, &'a str)> {
    let (first, second) = if is_given(line) { (5, 6) } else { (4, 5) };
    let thread = byte(line.word(first)?.strip_prefix("thread=")?)?;
    let numbers = line.word(second)?.strip_prefix("on=")?;
    Some((thread, numbers))
}

/// The call by a turn that the words of a command `exec W` name.
pub fn turn_call<'a>(line: &CommandLine<'_>, thread: u8, numbers: &'a [i64]) -> Option<Call<'a>> {
    if is_given(line) {
        Some(Call::ExecGiven(frame_name(line)?, thread, numbers))
    } else {
        Some(Call::ExecBy(frame_of(line)?, thread, numbers))
    }
}

/// The call that the words of a command name, but for one by a turn of theirs.
pub fn call_in<'a>(line: &'a CommandLine<'_>) -> Option<Call<'a>> {
    match line.word(0)? {
        "ask" => match line.word(2)? {
            "house" => Some(Call::AskHouse),
            victim => Some(Call::Ask(word64(victim)?)),
        },
        "run" => Some(Call::Run),
        "exec" => Some(Call::Exec(frame_name(line)?)),
        "whole" => Some(Call::Whole(frame_of(line)?, line.number(4)?)),
        "depart" => Some(Call::Depart(line.number(2)?)),
        "resend" => Some(Call::Resend),
        _ => None,
    }
}
