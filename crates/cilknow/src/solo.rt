ghost use Rattle.std.specs.Prelude.{IfErr, IfOk};
ghost use Rattle.cilknow.specs.Outcome.{IsOutcomeOf, IsRefusalOf};

use crate::fault::SoloFault;
use jobs::job_of;
use one_node::evaluate_counted;
use serial_meaning::{CountsTurns, Outcome};
use std::alloc::Global;

/// The outcome of a program's text on an input, run on one node and one thread: of the ready frames
/// the newest of the greatest level runs, and each body is one turn. The refusals come in this
/// order: the text (E2 to E6), its kinds (E10 to E18), the count of inputs (E21), and then E95
/// where the run takes more than `turns` turns, and E62 where the number that is next after one of
/// these would pass 2^32 - 1. E9 comes when out of memory. The turns are counted.
pub fn solo<C: CountsTurns>(
    alloc: Global,
    text: &[u8],
    input: Vec<i64>,
    job: u64,
    turns: u64,
    counter: &mut C,
) -> Result<Outcome, SoloFault>
    ensures outcome { IfOk result (IsOutcomeOf text.now input.items) }
    ensures refused { IfErr result (IsRefusalOf text.now input.items job turns) }
{
    let job = job_of(alloc, text, input, job)?;
    Ok(evaluate_counted(alloc, &job, turns, counter)?)
}
