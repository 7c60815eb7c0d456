//! The job of the clearinghouses that are opened.

use play_programs::{accepted_in, job_of};
use play_words::{Answers, CommandLine, numbers_of};
use serial_meaning::Job;
use std::alloc::Global;

/// What the commands set, and the job itself once a clearinghouse of it was opened.
#[derive(Drop)]
pub struct Setting {
    text: Vec<u8>,
    input: Vec<i64>,
    number: u64,
    job: Option<&'static Job>,
}

impl Setting {
    pub fn new(alloc: Global) -> Setting {
        Setting {
            text: Vec::new(alloc),
            input: Vec::new(alloc),
            number: 1,
            job: None,
        }
    }

    /// The number of the job.
    pub fn number(&self) -> u64 {
        self.number
    }

    /// A program is set.
    pub fn set_program(&mut self, alloc: Global, text: &str, out: &mut Answers) -> Option<()> {
        self.text = out.made(Vec::from_slice(alloc, text.as_bytes()))?;
        self.job = None;
        Some(())
    }

    /// The numbers of the input are set.
    pub fn set_input(
        &mut self,
        alloc: Global,
        line: &CommandLine<'_>,
        out: &mut Answers,
    ) -> Option<()> {
        self.input = numbers_of(alloc, line.rest(2), false, out)?;
        self.job = None;
        Some(())
    }

    /// The number of the job is set.
    pub fn set_number(&mut self, number: Option<u64>) -> Option<()> {
        self.number = number?;
        self.job = None;
        Some(())
    }

    /// The job of a clearinghouse that is opened; none where the text is no program, or takes
    /// another count of numbers.
    pub fn job(&mut self, alloc: Global, out: &mut Answers) -> Option<&'static Job> {
        if self.job.is_none() {
            self.job = self.begun(alloc, out);
        }
        self.job
    }

    /// The job of what is set.
    fn begun(&self, alloc: Global, out: &mut Answers) -> Option<&'static Job> {
        let input = out.made(Vec::from_slice(alloc, &self.input))?;
        match accepted_in(alloc, &self.text, out) {
            Some(checked) => job_of(alloc, checked, input, self.number, out),
            None => None,
        }
    }
}
