ghost use Rattle.std.specs.Prelude.{IfErr, IfOk};
ghost use Rattle.jobs.specs.Jobs.{IsJobOf, IsProgramOf, IsProgramRefusal, IsRefusal};

use crate::fault::JobFault;
use kind_check::{Checked, check};
use serial_meaning::Job;
use std::alloc::Global;
use task_syntax::parse;

/// The accepted program of a text. Refused by the text (E2 to E6) or its kinds (E10 to E18), in
/// this order, and when out of memory (E9).
pub fn program_of(alloc: Global, text: &[u8]) -> Result<Checked, JobFault>
    ensures program { IfOk result (IsProgramOf text.now) }
    ensures refused { IfErr result (IsProgramRefusal text.now) }
{
    let program = parse(alloc, text)?;
    Ok(check(alloc, program)?)
}

/// The job of a program's text, an input and a number. Refused by the text (E2 to E6), its kinds
/// (E10 to E18) or the count of inputs (E21), in this order, and when out of memory (E9).
pub fn job_of(alloc: Global, text: &[u8], input: Vec<i64>, number: u64) -> Result<Job, JobFault>
    ensures job { IfOk result (λ j. IsJobOf text.now input.items number j) }
    ensures refused { IfErr result (IsRefusal text.now input.items) }
{
    let checked = program_of(alloc, text)?;
    Ok(Job::new(checked, input, number)?)
}
