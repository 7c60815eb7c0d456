//! The job of the nodes that start.

use kind_check::Checked;
use play_programs::{accepted_in, job_of};
use play_words::{Answers, CommandLine, keep, numbers_of};
use serial_meaning::Job;
use std::alloc::Global;
use std::mem;

/// What the commands set, and the job itself once a node of it started.
#[derive(Drop)]
pub struct Setting {
    checked: Option<Checked>,
    input: Vec<i64>,
    number: u64,
    job: Option<&'static Job>,
}

impl Setting {
    pub fn new(alloc: Global) -> Setting {
        Setting {
            checked: None,
            input: Vec::new(alloc),
            number: 1,
            job: None,
        }
    }

    /// A program is set.
    pub fn program(&mut self, alloc: Global, line: &CommandLine<'_>, out: &mut Answers) {
        self.job = None;
        let checked = accepted_in(alloc, line.rest(1).as_bytes(), out);
        keep(mem::replace(&mut self.checked, checked));
    }

    /// The numbers of the input are set, behind the program.
    pub fn input(
        &mut self,
        alloc: Global,
        line: &CommandLine<'_>,
        out: &mut Answers,
    ) -> Option<()> {
        if self.job.is_some() {
            return None;
        }
        self.input = numbers_of(alloc, line.rest(1), false, out)?;
        Some(())
    }

    /// The number of the job is set, behind the program.
    pub fn number(&mut self, line: &CommandLine<'_>) -> Option<()> {
        let number = line.number(1)?;
        if self.job.is_some() {
            return None;
        }
        self.number = number;
        Some(())
    }

    /// The job of a node that starts; none where no program is set, or its `main` takes another
    /// count of numbers.
    pub fn job(&mut self, alloc: Global, out: &mut Answers) -> Option<&'static Job> {
        if self.job.is_none() {
            self.job = self.begun(alloc, out);
        }
        self.job
    }

    /// The job of what is set.
    fn begun(&mut self, alloc: Global, out: &mut Answers) -> Option<&'static Job> {
        let input = out.made(Vec::from_slice(alloc, &self.input))?;
        match self.checked.take() {
            Some(checked) => job_of(alloc, checked, input, self.number, out),
            None => None,
        }
    }
}
