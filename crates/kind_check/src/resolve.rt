ghost use Rattle.std.specs.Prelude.{◌≡◌, ◌<◌, ◌≤◌, All, OnOk, IfOk, length};
ghost use Rattle.kind_check.specs.InScope.{ExprInScope, LetsInScope, GivenInScope, ArgumentInScope, NextInScope, BlockInScope, ThreadInScope};
ghost use Rattle.kind_check.specs.Resolves.{after, ResolvesExpr, ResolvesExprs, ResolvesLets, ResolvesGiven, ResolvesSlot, ResolvesSlots, ResolvesNext, ResolvesBlock, ResolvesThread, ResolvesThreads};

use crate::code::{BlockCode, Code, EndCode, Leaf, SlotCode};
use crate::index::Index;
use crate::tables::{Threads, Uses};
use ids::Listed;
use std::alloc::{AllocError, Global};
use task_tree::{Argument, Block, End, Expr, Given, Let, Name, Program, Thread, Use};

/// An expression, by the places of its names.
fn expression(alloc: Global, names: &Index<'_>, expr: &Expr) -> Result<Code, AllocError>
    requires { ExprInScope names.now expr.now }
    ensures { IfOk result (ResolvesExpr names.now expr.now) }
{
    match expr {
        Expr::Number(number) => Ok(Code::Number(*number)),
        Expr::Variable(name) => Ok(Code::Local(names.known_place(name.text.as_slice()))),
        Expr::Binary(operator, a, b) => {
            let left = expression(alloc, names, a)?;
            let right = expression(alloc, names, b)?;
            let left = Box::new(alloc, left)?;
            let right = Box::new(alloc, right)?;
            Ok(Code::Binary(*operator, left, right))
        }
    }
}

/// Expressions, one after another.
fn expressions(
    alloc: Global,
    names: &Index<'_>,
    exprs: &Listed<Expr>,
) -> Result<Listed<Code>, AllocError>
    requires { All (ExprInScope names.now) exprs.now }
    ensures { IfOk result (ResolvesExprs names.now exprs.now) }
{
    let mut codes = Listed::with_capacity(alloc, exprs.len())?;
    for expr in exprs.as_slice() {
        let code = expression(alloc, names, expr)?;
        codes.push(code)?;
    }
    Ok(codes)
}

/// What is let, each in the scope of those before.
fn lets<'a>(
    alloc: Global,
    names: &mut Index<'a>,
    lets: &'a Listed<Let>,
) -> Result<Listed<Code>, AllocError>
    requires { LetsInScope names.old lets.now }
    ensures codes { IfOk result (ResolvesLets names.old lets.now) }
    ensures names { OnOk result (names.new ≡ after names.old lets.now) }
{
    let mut codes = Listed::with_capacity(alloc, lets.len())?;
    for each in lets.as_slice() {
        let code = expression(alloc, names, &each.value)?;
        names.add(each.name.text.as_slice())?;
        codes.push(code)?;
    }
    Ok(codes)
}

/// What is given to hole `hole`.
fn given(
    alloc: Global,
    threads: &Threads<'_>,
    names: &Index<'_>,
    hole: u8,
    given: &Given,
) -> Result<SlotCode, AllocError>
    requires few { length threads.now.all.now < 65 }
    requires known { GivenInScope threads.now.all.now names.now given.now }
    ensures { IfOk result (ResolvesGiven threads.now.all.now names.now hole given.now) }
{
    match given {
        Given::Sent(expr) => Ok(SlotCode::Given(expression(alloc, names, expr)?)),
        Given::Spawned(name, exprs) => {
            let thread = threads.number(name.text.as_slice());
            let arguments = expressions(alloc, names, exprs)?;
            Ok(SlotCode::Spawns(hole, thread, arguments))
        }
    }
}

/// The slot of a hole, which is used.
fn hole_slot(
    alloc: Global,
    threads: &Threads<'_>,
    names: &Index<'_>,
    uses: &Uses<'_>,
    hole: u8,
    name: &Name,
) -> Result<SlotCode, AllocError>
    requires few { length threads.now.all.now < 65 }
    requires within { hole ≤ 8 }
    requires known { ArgumentInScope threads.now.all.now names.now uses.now.all.now (Argument.Hole name.now) }
    ensures { IfOk result (ResolvesSlot threads.now.all.now names.now uses.now.all.now hole (Argument.Hole name.now)) }
{
    let used = uses.given(name.text.as_slice());
    given(alloc, threads, names, hole, used)
}

/// The slots of a successor, at most 8.
fn slots(
    alloc: Global,
    threads: &Threads<'_>,
    names: &Index<'_>,
    uses: &Uses<'_>,
    arguments: &Listed<Argument>,
) -> Result<Listed<SlotCode>, AllocError>
    requires few { length threads.now.all.now < 65 }
    requires within { length arguments.now ≤ 8 }
    requires known { All (ArgumentInScope threads.now.all.now names.now uses.now.all.now) arguments.now }
    ensures { IfOk result (ResolvesSlots threads.now.all.now names.now uses.now.all.now 1 arguments.now) }
{
    let mut slots = Listed::with_capacity(alloc, arguments.len())?;
    let mut hole: u8 = 1;
    for argument in arguments.as_slice() {
        match argument {
            Argument::Value(expr) => slots.push(SlotCode::Given(expression(alloc, names, expr)?))?,
            Argument::Hole(name) => {
                slots.push(hole_slot(alloc, threads, names, uses, hole, name)?)?;
                hole += 1;
            }
        }
    }
    Ok(slots)
}

/// A block; its names are out of scope behind it.
fn block<'a>(
    alloc: Global,
    threads: &Threads<'_>,
    names: &mut Index<'a>,
    block: &'a Block,
) -> Result<BlockCode, AllocError>
    requires few { length threads.now.all.now < 65 }
    requires known { BlockInScope threads.now.all.now names.old block.now }
    ensures block { IfOk result (ResolvesBlock threads.now.all.now names.old block.now) }
    ensures names { OnOk result (names.new ≡ names.old) }
{
    let outside = names.len();
    let lets = lets(alloc, names, &block.lets)?;
    let end = match &block.end {
        End::If(condition, first, second) => {
            let condition = expression(alloc, names, condition)?;
            let first = self::block(alloc, threads, names, first)?;
            let second = self::block(alloc, threads, names, second)?;
            let first = Box::new(alloc, first)?;
            let second = Box::new(alloc, second)?;
            EndCode::If(condition, first, second)
        }
        End::Send(_, value) => EndCode::Leaf(Leaf::Sends(expression(alloc, names, value)?)),
        End::Next(name, _, arguments, uses) => {
            EndCode::Leaf(next(alloc, threads, names, name, arguments, uses)?)
        }
    };
    names.truncate(outside);
    Ok(BlockCode { lets, end })
}

/// A successor and its slots.
fn next(
    alloc: Global,
    threads: &Threads<'_>,
    names: &Index<'_>,
    name: &Name,
    arguments: &Listed<Argument>,
    uses: &Listed<Use>,
) -> Result<Leaf, AllocError>
    requires few { length threads.now.all.now < 65 }
    requires known { NextInScope threads.now.all.now names.now name.now.text arguments.now uses.now }
    ensures { IfOk result (ResolvesNext threads.now.all.now names.now name.now.text arguments.now uses.now) }
{
    let thread = threads.number(name.text.as_slice());
    let uses = Uses::new(alloc, uses.as_slice())?;
    Ok(Leaf::Joins(thread, slots(alloc, threads, names, &uses, arguments)?))
}

/// The body of a thread, in the scope of its parameters.
fn thread(alloc: Global, threads: &Threads<'_>, thread: &Thread) -> Result<BlockCode, AllocError>
    requires few { length threads.now.all.now < 65 }
    requires known { ThreadInScope threads.now.all.now thread.now }
    ensures { IfOk result (ResolvesThread threads.now.all.now thread.now) }
{
    let mut names = Index::new(alloc);
    for name in thread.numbers.as_slice() {
        names.add(name.text.as_slice())?;
    }
    block(alloc, threads, &mut names, &thread.body)
}

/// The bodies of all threads, in their order.
pub fn program(alloc: Global, program: &Program) -> Result<Listed<BlockCode>, AllocError>
    requires few { length program.now.threads < 65 }
    requires known { All (ThreadInScope program.now.threads) program.now.threads }
    ensures { IfOk result (ResolvesThreads program.now.threads program.now.threads) }
{
    let threads = Threads::new(alloc, program.threads.as_slice())?;
    let mut bodies = Listed::with_capacity(alloc, program.threads.len())?;
    for each in program.threads.as_slice() {
        let body = thread(alloc, &threads, each)?;
        bodies.push(body)?;
    }
    Ok(bodies)
}
