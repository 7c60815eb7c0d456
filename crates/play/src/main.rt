//! Plays a transcript: reads it from the standard input and prints it again, each command with what
//! the libraries answer to it now. A right transcript is printed as itself.
//!
//! Empty lines and lines that begin with `#` are comments, and are printed as they are. A line that
//! begins with `> `, or is `>`, is an answer, and is skipped. Any other line is a command: it is
//! printed, and below it what it answers, each line with `> ` in front; `> ?` where no library
//! knows it, and `> malformed` where one knows it but can't carry it out.
//!
//! Status: 0 where the transcript was played to its end, 1 where it can't be read or printed, and
//! 3, with `E9` on the standard error, where there is no memory for its lines.
#![tactic(auto)]

use play_houses::Houses;
use play_language::Language;
use play_nodes::Nodes;
use play_packets::Packets;
use play_scripts::Scripts;
use play_words::{Answers, CommandLine, Ended, Played, keep};
use std::alloc::Global;
use std::io::{BufRead, BufReader, Write};
use std::process::ExitCode;

/// What all libraries keep from one command to the next.
#[derive(Drop)]
struct Libraries {
    language: Language,
    packets: Packets,
    nodes: Nodes,
    houses: Houses,
    scripts: Scripts,
}

impl Libraries {
    fn new(alloc: Global) -> Libraries {
        Libraries {
            language: Language::new(alloc),
            packets: Packets::new(alloc),
            nodes: Nodes::new(alloc),
            houses: Houses::new(alloc),
            scripts: Scripts::new(alloc),
        }
    }

    /// Gives a command to the libraries, in turn, up to the one whose it is.
    fn play(&mut self, rt: &HostRuntime, line: &CommandLine<'_>, out: &mut Answers) -> Played {
        let alloc = rt.alloc();
        let mut played = self.houses.play(rt, line, out);
        if played == Played::NotMine {
            played = self.nodes.play(alloc, line, out);
        }
        if played == Played::NotMine {
            played = self.language.play(alloc, line, out);
        }
        if played == Played::NotMine {
            played = self.packets.play(alloc, line, out);
        }
        if played == Played::NotMine {
            played = self.scripts.play(alloc, line, out);
        }
        played
    }
}

/// Plays a line of a transcript: skips an answer, and writes a comment, or a command and what it
/// answers.
fn play_line(libraries: &mut Libraries, rt: &HostRuntime, text: &str, out: &mut Answers) {
    if text == ">" || text.starts_with("> ") {
        return;
    }
    out.text(text);
    out.end();
    if text.is_empty() || text.starts_with('#') {
        return;
    }
    match libraries.play(rt, &CommandLine::of(text), out) {
        Played::Answered => {}
        Played::NotMine => out.line("?"),
        Played::Malformed => out.line("malformed"),
    }
}

/// Prints what was gathered.
fn print<O: Write>(out: &mut Answers, to: &mut O) {
    if let Err(error) = to.write_all(out.gathered()) {
        out.fail(&error);
    }
    out.clear();
}

/// Plays all lines of a transcript, up to one that isn't played on.
fn play_all<I: BufRead + Drop, O: Write>(
    libraries: &mut Libraries,
    rt: &HostRuntime,
    input: I,
    out: &mut Answers,
    to: &mut O,
) {
    for line in input.lines(rt.alloc()) {
        match line {
            Ok(line) => play_line(libraries, rt, line.as_str(), out),
            Err(error) => out.fail(&error),
        }
        if out.is_full() {
            print(out, to);
        }
        if out.ended().is_some() {
            break;
        }
    }
    print(out, to);
}

/// Plays the standard input, with room for what it answers.
fn play_input(rt: &HostRuntime, out: &mut Answers) {
    let mut to = rt.stdout();
    match BufReader::new(rt.alloc(), rt.reader()) {
        Ok(input) => {
            let mut libraries = Libraries::new(rt.alloc());
            play_all(&mut libraries, rt, input, out, &mut to);
            keep(libraries);
        }
        Err(error) => out.fail(&error),
    }
}

/// Plays the standard input; why it isn't played to its end, where it isn't.
fn played(rt: &HostRuntime) -> Option<Ended> {
    match Answers::new(rt.alloc()) {
        Ok(mut out) => {
            play_input(rt, &mut out);
            out.ended()
        }
        Err(_) => Some(Ended::Memory),
    }
}

fn main(rt: HostRuntime) -> ExitCode {
    match played(&rt) {
        None => ExitCode::SUCCESS,
        Some(Ended::Memory) => {
            let _ = eprintln!(rt; "E9");
            ExitCode::from(3)
        }
        Some(Ended::Output) => {
            let _ = eprintln!(rt; "no input or output");
            ExitCode::from(1)
        }
    }
}
