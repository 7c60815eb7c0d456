ghost use Rattle.std.specs.Prelude.{◌≡◌, IfErr, IfOk, OnOk, Some};
ghost use Rattle.sub_rules.specs.Carrying.{exec_content};
ghost use Rattle.sub_rules.specs.Resuming.{nothing_known};
ghost use Rattle.sub_rules.specs.Debts.{IsSound};
ghost use Rattle.one_node.specs.Runs.{one_turn, posted_readied, run_of};
ghost use Rattle.one_node.specs.Holding.{Follows, Holds, IsCarried, IsFrame, IsTurnOf, TurnFails};

use crate::begin::{Run, post_of};
use crate::fault::RunFault;
use agreement_laws::turn_keeps_agreement;
use body_eval::Done;
use ids::FrameNo;
use level_deques::Posts;
use serial_meaning::{CountsTurns, Job};
use std::alloc::{AllocError, Global};
use sub_rules::{
    Content, NothingKnown, Prepared, Readied, ReadyList, SubError, numbers_in, prepare_exec,
};

/// One turn of a run that goes on, where it stands: the newest ready frame of the greatest level
/// runs, and is counted.
pub fn turn<C: CountsTurns>(
    alloc: Global,
    job: &Job,
    run: &mut Run,
    counter: &mut C,
) -> Result<(), RunFault>
    requires { Holds job.now (run_of run.old) }
    ensures next { OnOk result (one_turn job.now.program (run_of run.old) ≡ Some (run_of run.new)) }
    ensures follows { OnOk result (Follows job.now (run_of run.new)) }
    ensures fails { IfErr result (TurnFails job.now (run_of run.old)) }
{
    run.content.frames.law_stand_in_order();
    let newest = run.posts.deepest().unwrap();
    let done = evaluated(alloc, job, &run.content, newest.frame)?;
    counter.counts(done.thread(), newest.level);
    let ready = carry_out(alloc, &mut run.content, newest.frame, &done)?;
    run.content.frames.law_stand_in_order();
    turn_keeps_agreement();
    run.posts.take(&newest);
    post_all(&mut run.posts, ready.as_slice())?;
    Ok(())
}

/// The turn of a frame that is ready.
fn evaluated(
    alloc: Global,
    job: &Job,
    content: &Content,
    frame: FrameNo,
) -> Result<Done, AllocError>
    requires { IsFrame job.now content.now frame }
    ensures turn { IfOk result (IsTurnOf content.now frame) }
    ensures program { IfOk result (λ d. d.program ≡ job.now.program) }
{
    let frame = content.frames.get(frame).unwrap();
    let numbers = numbers_in(alloc, frame.slots.as_slice())?.unwrap();
    Done::on(alloc, job.checked(), frame.thread, numbers)
}

/// Carries out a frame by a turn of it, where its content stands. The frames that became ready.
fn carry_out(
    alloc: Global,
    content: &mut Content,
    frame: FrameNo,
    done: &Done,
) -> Result<ReadyList, RunFault>
    requires sound { IsSound content.old }
    requires turn { IsTurnOf content.old frame done.now }
    ensures answer { IsCarried (exec_content nothing_known done.now frame content.old) content.new result }
    ensures sound { OnOk result (IsSound content.new) }
{
    let prepared = match prepare_exec(alloc, content, frame, done, &NothingKnown) {
        Ok(prepared) => prepared,
        Err(SubError::Spent) => return Err(RunFault::NumbersSpent),
        Err(SubError::Memory) => return Err(RunFault::Memory),
        Err(SubError::Stale) => unreachable!(),
    };
    let Prepared { update, ready, .. } = prepared;
    content.update(alloc, update)?;
    Ok(ready)
}

/// Posts frames that became ready, in this order.
fn post_all(posts: &mut Posts, ready: &[Readied]) -> Result<(), AllocError>
    ensures { OnOk result (posts.new ≡ posted_readied ready.now posts.old) }
{
    for readied in ready {
        posts.post(post_of(*readied))?;
    }
    Ok(())
}
