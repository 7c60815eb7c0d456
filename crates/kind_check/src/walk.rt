ghost use Rattle.std.specs.Prelude.{◌≡◌, ◌++◌, [], OnOk, IfOk, None, take};
ghost use Rattle.kind_check.specs.Faults.{again_named, limit_faults, thread_named, block_faults, thread_faults, threads_faults, faults};
ghost use Rattle.kind_check.specs.Least.{least_with};

use crate::checked::KindFault;
use crate::expressions::{expression, own_name};
use crate::least::Least;
use crate::names::Kind;
use crate::scope::Scope;
use crate::statements::{arguments, call, lets, parameters, unused, uses};
use crate::tables::{Threads, Uses};
use ids::limits::MOST_THREADS;
use std::alloc::{AllocError, Global};
use task_tree::{Block, End, Name, Program, Thread};

/// A block; the names that it brings into scope are out of scope behind it.
#[tactic(auto, using(crate::proofs::Leasts::least_append))]
fn block<'a>(
    alloc: Global,
    threads: &Threads<'_>,
    scope: &mut Scope<'a>,
    body: &'a Block,
    least: &mut Least,
) -> Result<(), AllocError>
    ensures scope { OnOk result (scope.new ≡ scope.old) }
    ensures least { OnOk result (least.new ≡ least_with least.old
        (block_faults threads.now.all.now scope.old body.now)) }
{
    let outside = scope.len();
    lets(scope, &body.lets, least)?;
    match &body.end {
        End::If(condition, first, second) => {
            expression(scope, condition, least);
            block(alloc, threads, scope, first, least)?;
            block(alloc, threads, scope, second, least)?;
        }
        End::Send(continuation, value) => {
            own_name(scope, continuation, least);
            expression(scope, value, least);
        }
        End::Next(thread, continuation, slots, given) => {
            call(threads, thread, slots.len(), least);
            own_name(scope, continuation, least);
            arguments(scope, slots, least)?;
            let given = Uses::new(alloc, given.as_slice())?;
            uses(threads, scope, &given, least);
            unused(&given, body.close, slots, least);
        }
    }
    scope.truncate(outside);
    Ok(())
}

/// A thread: its parameters and its body.
#[tactic(auto, using(crate::proofs::Leasts::least_append))]
fn thread(
    alloc: Global,
    threads: &Threads<'_>,
    thread: &Thread,
    least: &mut Least,
) -> Result<(), AllocError>
    ensures { OnOk result (least.new ≡ least_with least.old (thread_faults threads.now.all.now thread.now)) }
{
    let mut scope = Scope::new(alloc);
    scope.add(&thread.continuation.text, Kind::Own)?;
    parameters(&mut scope, &thread.numbers, least)?;
    block(alloc, threads, &mut scope, &thread.body, least)
}

/// The name of thread `number`: no thread before it has that name, and there are at most 64.
#[tactic(auto, using(crate::proofs::Leasts::least_append))]
fn thread_name(threads: &Threads<'_>, number: usize, name: &Name, least: &mut Least)
    ensures { least.new ≡ least_with least.old (again_named name.now.offset
        (thread_named (take number threads.now.all.now) name.now.text)
        ++ limit_faults name.now.offset number 64) }
{
    if threads.is_among(number, name.text.as_slice()) {
        least.note(name.offset, KindFault::NameTwice);
    }
    if number >= MOST_THREADS as usize {
        least.note(name.offset, KindFault::Limit);
    }
}

/// All threads, in their order.
fn all_threads(alloc: Global, threads: &Threads<'_>, least: &mut Least) -> Result<(), AllocError>
    ensures { OnOk result (least.new ≡ least_with least.old
        (threads_faults threads.now.all.now [] threads.now.all.now)) }
{
    for (i, each) in threads.all.iter().enumerate() {
        thread_name(threads, i, &each.name, least);
        thread(alloc, threads, each, least)?;
    }
    Ok(())
}

/// The least fault of a program, if it has one.
#[tactic(auto, using(crate::proofs::Leasts::least_append))]
pub fn least_fault(alloc: Global, program: &Program) -> Result<Least, AllocError>
    ensures { IfOk result (λ least. least ≡ least_with None (faults program.now)) }
{
    let threads = Threads::new(alloc, program.threads.as_slice())?;
    let mut least = Least::new();
    all_threads(alloc, &threads, &mut least)?;
    if threads.named(b"main".as_slice()).is_none() {
        least.note(program.length, KindFault::NoMain);
    }
    Ok(least)
}
