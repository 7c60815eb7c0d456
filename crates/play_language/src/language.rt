//! The text of a transcript.

use crate::calls::{done, meaning, printed, tokens};
use crate::copies::play_copy;
use crate::lists::play_list;
use crate::names::{play_before, play_name, play_place};
use crate::shown::{write_done, write_printed, write_tokens};
use crate::stores::Stores;
use crate::tree::write_program;
use crate::written::bytes_of;
use kind_check::Checked;
use play_packets::write_field;
use play_programs::{accepted_in, program_in};
use play_words::{Answers, CommandLine, Played, byte, keep, numbers_of};
use serial_meaning::{Job, Outcome};
use std::alloc::Global;
use task_syntax::Program;

/// The text that is kept, and what a node is made of.
#[derive(Drop)]
pub struct Language {
    text: Vec<u8>,
    stores: Stores,
}

fn write_tokens_of(alloc: Global, text: &[u8], out: &mut Answers) {
    if let Some(tokens) = tokens(alloc, text, out) {
        write_tokens(out, tokens.as_slice());
        keep(tokens);
    }
}

fn write_tree(program: &Program, out: &mut Answers) {
    out.text("> ");
    write_program(out, program);
    out.end();
}

/// Writes how a program of this text is printed.
fn write_print(text: &[u8], printed: &[u8], out: &mut Answers) {
    if printed == text {
        write_field(out, "> as it is, ", text.len() as u64);
        out.text(" bytes");
        out.end();
    } else if printed.is_empty() {
        out.line("nothing");
    } else {
        write_printed(out, printed);
    }
}

/// Writes what a command shows of the program that a text is read as.
fn write_read(alloc: Global, name: &str, text: &[u8], program: &Program, out: &mut Answers) {
    match name {
        "tree" => write_tree(program, out),
        "reads" => out.line("ok"),
        _ => {
            if let Some(printed) = printed(alloc, program, out) {
                write_print(text, &printed, out);
            }
        }
    }
}

/// Reads a text, and writes what a command shows of its program.
fn play_read(alloc: Global, name: &str, text: &[u8], out: &mut Answers) {
    if let Some(program) = program_in(alloc, text, out) {
        write_read(alloc, name, text, &program, out);
        keep(program);
    }
}

fn write_kinds(checked: &Checked, out: &mut Answers) {
    write_field(out, "> ok, ", checked.threads() as u64);
    out.text(" threads, ");
    out.shown(&checked.program().length);
    out.text(" bytes");
    out.end();
}

/// The turn of a thread of an accepted program on numbers.
fn turn_of(
    alloc: Global,
    checked: &Checked,
    line: &CommandLine<'_>,
    out: &mut Answers,
) -> Option<()> {
    let thread = byte(line.word(1)?)?;
    let numbers = numbers_of(alloc, line.rest(2), true, out)?;
    match done(alloc, checked, thread, &numbers, out) {
        Some(done) => {
            write_done(out, &done);
            keep(done);
            Some(())
        }
        None => None,
    }
}

/// Carries out a command on an accepted program.
fn play_checked(
    alloc: Global,
    name: &str,
    checked: &Checked,
    line: &CommandLine<'_>,
    out: &mut Answers,
) -> Option<()> {
    if name == "turn" {
        turn_of(alloc, checked, line, out)
    } else {
        write_kinds(checked, out);
        Some(())
    }
}

/// Checks a text, and carries out a command on the accepted program.
fn play_accepted(
    alloc: Global,
    name: &str,
    text: &[u8],
    line: &CommandLine<'_>,
    out: &mut Answers,
) -> Option<()> {
    match accepted_in(alloc, text, out) {
        Some(checked) => {
            let done = play_checked(alloc, name, &checked, line, out);
            keep(checked);
            done
        }
        None => Some(()),
    }
}

/// The meaning of a job.
fn write_meaning(alloc: Global, job: &Job, turns: u64, out: &mut Answers) {
    match meaning(alloc, job, turns, out) {
        Some(Outcome::Value(value)) => {
            out.text("> value ");
            out.signed(value);
            out.end();
        }
        Some(Outcome::TooDeep) => out.line("too deep"),
        None => {}
    }
}

/// The meaning of an accepted program on numbers.
fn meaning_of(alloc: Global, checked: Checked, input: Vec<i64>, turns: u64, out: &mut Answers) {
    match Job::new(checked, input, 1) {
        Ok(job) => {
            write_meaning(alloc, &job, turns, out);
            keep(job);
        }
        Err(refused) => out.refusal(&refused),
    }
}

impl Language {
    pub fn new(alloc: Global) -> Language {
        Language {
            text: Vec::new(alloc),
            stores: Stores::new(alloc),
        }
    }

    /// Plays a command on texts, and writes what it answers.
    pub fn play(&mut self, alloc: Global, line: &CommandLine<'_>, out: &mut Answers) -> Played {
        let name = line.word(0).unwrap_or("");
        Played::of(match name {
            "text" => self.keep(alloc, line.rest(1), out),
            "tokens" | "tree" | "reads" | "prints" | "kinds" => self.on_text(
                alloc, name, line, out,
            ),
            "turn" => play_accepted(alloc, name, &self.text, line, out),
            "evaluate" => self.evaluate(alloc, line, out),
            "name" => play_name(line, out),
            "before" => play_before(line, out),
            "place" => play_place(alloc, line, out),
            "list" => play_list(alloc, line, out),
            "copy" => play_copy(alloc, line, out),
            _ => return self.stores.play(alloc, line, out),
        })
    }

    fn keep(&mut self, alloc: Global, written: &str, out: &mut Answers) -> Option<()> {
        self.text = bytes_of(alloc, written, out)?;
        Some(())
    }

    /// A command on the text behind its name, or on the kept one where there is none.
    fn on_text(
        &mut self,
        alloc: Global,
        name: &str,
        line: &CommandLine<'_>,
        out: &mut Answers,
    ) -> Option<()> {
        if line.word(1).is_some() {
            self.keep(alloc, line.rest(1), out)?;
        }
        let text = self.text.as_slice();
        match name {
            "tokens" => write_tokens_of(alloc, text, out),
            "kinds" => return play_accepted(alloc, name, text, line, out),
            _ => play_read(alloc, name, text, out),
        }
        Some(())
    }

    fn evaluate(&self, alloc: Global, line: &CommandLine<'_>, out: &mut Answers) -> Option<()> {
        let turns = line.number(1)?;
        let input = numbers_of(alloc, line.rest(2), true, out)?;
        if let Some(checked) = accepted_in(alloc, &self.text, out) {
            meaning_of(alloc, checked, input, turns, out);
        }
        Some(())
    }
}
