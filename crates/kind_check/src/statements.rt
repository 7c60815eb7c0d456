ghost use Rattle.std.specs.Prelude.{◌≡◌, [], OnOk, take};
ghost use Rattle.kind_check.specs.Turns.{use_of};
ghost use Rattle.kind_check.specs.Faults.{kind_of, hole_faults, lets_faults, after_names, arguments_faults, after_arguments, call_faults, given_faults, uses_faults, unused_faults, parameters_faults, after_parameters};
ghost use Rattle.kind_check.specs.Least.{least_with};

use crate::checked::KindFault;
use crate::expressions::{expression, expressions, new_name};
use crate::least::Least;
use crate::names::Kind;
use crate::scope::Scope;
use crate::tables::{Threads, Uses};
use ids::Listed;
use ids::limits::MOST_NUMBERS;
use std::alloc::AllocError;
use task_tree::{Argument, Given, Let, Name};

/// Number parameters: each name is new, and there are at most 8.
#[tactic(auto, using(crate::proofs::Leasts::least_append))]
pub fn parameters<'a>(
    scope: &mut Scope<'a>,
    numbers: &'a Listed<Name>,
    least: &mut Least,
) -> Result<(), AllocError>
    ensures scope { OnOk result (scope.new ≡ after_parameters scope.old numbers.now) }
    ensures least { OnOk result (least.new ≡ least_with least.old (parameters_faults scope.old 0 numbers.now)) }
{
    for (i, name) in numbers.as_slice().iter().enumerate() {
        new_name(scope, name, least);
        if i >= MOST_NUMBERS as usize {
            least.note(name.offset, KindFault::Limit);
        }
        scope.add(&name.text, Kind::Value)?;
    }
    Ok(())
}

/// `let`s: a name is new, and isn't in scope in its own expression.
#[tactic(auto, using(crate::proofs::Leasts::least_append))]
pub fn lets<'a>(
    scope: &mut Scope<'a>,
    lets: &'a Listed<Let>,
    least: &mut Least,
) -> Result<(), AllocError>
    ensures scope { OnOk result (scope.new ≡ after_names scope.old lets.now) }
    ensures least { OnOk result (least.new ≡ least_with least.old (lets_faults scope.old lets.now)) }
{
    for each in lets.as_slice() {
        new_name(scope, &each.name, least);
        expression(scope, &each.value, least);
        scope.add(&each.name.text, Kind::Value)?;
    }
    Ok(())
}

/// The arguments of a `spawn_next`: a `?` brings its hole into scope from there on.
#[tactic(auto, using(crate::proofs::Leasts::least_append))]
pub fn arguments<'a>(
    scope: &mut Scope<'a>,
    arguments: &'a Listed<Argument>,
    least: &mut Least,
) -> Result<(), AllocError>
    ensures scope { OnOk result (scope.new ≡ after_arguments scope.old arguments.now) }
    ensures least { OnOk result (least.new ≡ least_with least.old (arguments_faults scope.old arguments.now)) }
{
    for argument in arguments.as_slice() {
        match argument {
            Argument::Value(value) => expression(scope, value, least),
            Argument::Hole(name) => {
                new_name(scope, name, least);
                scope.add(&name.text, Kind::Waits)?;
            }
        }
    }
    Ok(())
}

/// A thread that is spawned with that many arguments: it is there, and takes as many.
pub fn call(threads: &Threads<'_>, name: &Name, count: usize, least: &mut Least)
    ensures { least.new ≡ least_with least.old (call_faults threads.now.all.now name.now count) }
{
    match threads.named(name.text.as_slice()) {
        None => least.note(name.offset, KindFault::UnknownThread),
        Some(thread) => {
            if thread.numbers.len() != count {
                least.note(name.offset, KindFault::Arity);
            }
        }
    }
}

/// What is given to a hole.
#[tactic(auto, using(crate::proofs::Leasts::least_append))]
pub fn given(threads: &Threads<'_>, scope: &Scope<'_>, given: &Given, least: &mut Least)
    ensures { least.new ≡ least_with least.old (given_faults threads.now.all.now scope.now given.now) }
{
    match given {
        Given::Sent(value) => expression(scope, value, least),
        Given::Spawned(name, arguments) => {
            call(threads, name, arguments.len(), least);
            expressions(scope, arguments, least);
        }
    }
}

/// The hole of use `number`, behind a `spawn_next` that took the own continuation: it waits, and no
/// use before that one is of it.
#[tactic(auto, using(crate::proofs::Leasts::least_append))]
fn used_hole(scope: &Scope<'_>, uses: &Uses<'_>, number: usize, hole: &Name, least: &mut Least)
    ensures { least.new ≡ least_with least.old (hole_faults hole.now.offset (kind_of scope.now hole.now.text)
        (use_of (take number uses.now.all.now) hole.now.text)) }
{
    match scope.kind(hole.text.as_slice()) {
        None => least.note(hole.offset, KindFault::UnknownName),
        Some(Kind::Waits) => {
            if uses.is_among(number, hole.text.as_slice()) {
                least.note(hole.offset, KindFault::ContTwice);
            }
        }
        Some(Kind::Value) => least.note(hole.offset, KindFault::KindMismatch),
        Some(Kind::Own) => least.note(hole.offset, KindFault::ContTwice),
    }
}

/// The uses of holes, in their order.
pub fn uses(threads: &Threads<'_>, scope: &Scope<'_>, uses: &Uses<'_>, least: &mut Least)
    ensures { least.new ≡ least_with least.old (uses_faults threads.now.all.now scope.now [] uses.now.all.now) }
{
    for (i, each) in uses.all.iter().enumerate() {
        used_hole(scope, uses, i, &each.hole, least);
        given(threads, scope, &each.given, least);
    }
}

/// Each hole among the arguments is used; `close` is the offset of the closing brace.
#[tactic(auto, using(crate::proofs::Leasts::least_append))]
pub fn unused(uses: &Uses<'_>, close: u32, arguments: &Listed<Argument>, least: &mut Least)
    ensures { least.new ≡ least_with least.old (unused_faults close uses.now.all.now arguments.now) }
{
    for argument in arguments.as_slice() {
        if let Argument::Hole(name) = argument {
            if !uses.has(name.text.as_slice()) {
                least.note(close, KindFault::ContUnused);
            }
        }
    }
}
