ghost use Rattle.one_node.specs.Outcomes.{IsRunOf};

use crate::begin::begun;
use crate::fault::RunFault;
use crate::turn::turn;
use agreement_laws::finished_roots_mean;
use ids::{Outcome, Progress};
use serial_meaning::{CountsTurns, Job, Uncounted};
use std::alloc::Global;

/// The outcome of a job, which is its meaning, in at most so many turns on one node: of the ready
/// frames the newest of the greatest level runs, and each body is one turn. Refused as `TurnsSpent`
/// (E95) where more turns are needed, as `NumbersSpent` (E62) where the number that is next after a
/// turn would pass 2^32 - 1, and as `Memory` (E9) where there is no memory.
pub fn evaluate(alloc: Global, job: &Job, turns: u64) -> Result<Outcome, RunFault>
    ensures { IsRunOf job.now turns result }
{
    evaluate_counted(alloc, job, turns, &mut Uncounted)
}

/// The outcome of a job, as `evaluate` answers it, while somebody counts its turns.
pub fn evaluate_counted<C: CountsTurns>(
    alloc: Global,
    job: &Job,
    turns: u64,
    counter: &mut C,
) -> Result<Outcome, RunFault>
    ensures { IsRunOf job.now turns result }
{
    finished_roots_mean();
    let mut run = begun(alloc, job)?;
    for taken in 0..turns {
        turn(alloc, job, &mut run, counter)?;
        if let Progress::Finished(outcome) = run.content.progress {
            return Ok(outcome);
        }
    }
    Err(RunFault::TurnsSpent)
}
