ghost use Rattle.std.specs.Prelude.{◌≢◌, ◌≤◌, ◌<◌, length, MatchBool, IfOk, IfErr};
ghost use Rattle.task_syntax.specs.Grammar.{IsLet, IsExpr, IsArgument, IsSend, IsUse, IsNext, Many, Further};
ghost use Rattle.task_syntax.specs.Meeting.{a_value, let_part, lets_part, argument_part, send_part, spawn_part, use_part, uses_part, next_part, further, UseStands};

use crate::error::ParseError;
use crate::reader::expressions::value;
use crate::reader::tokens::{begins, expect_mark, expect_word, mark, name};
use ids::Listed;
use std::alloc::Global;
use task_tokens::{Sign, Token, Word};
use task_tree::{Argument, Expr, Given, Let, Name, Use};

/// `let name = value;`
fn binding(alloc: Global, tokens: &[Token]) -> Result<(Let, &[Token]), ParseError>
    ensures read { IfOk result (λ x. IsLet tokens.now x.1.now x.0) }
    ensures shorter { IfOk result (λ x. length x.1.now < length tokens.now) }
    ensures parts { IfOk result (λ x. let_part.reads tokens.now x.1.now) }
    ensures met { IfErr result (λ e. e ≢ ParseError.Memory → let_part.meets tokens.now e) }
{
    let rest = expect_word(Word::Let, tokens)?;
    let (name, rest) = name(alloc, rest)?;
    let rest = expect_mark(Sign::Assign, rest)?;
    let (value, rest) = value(alloc, rest)?;
    let rest = expect_mark(Sign::Semicolon, rest)?;
    Ok((Let { name, value }, rest))
}

/// The `let`s that stand here.
pub fn bindings(alloc: Global, tokens: &[Token]) -> Result<(Listed<Let>, &[Token]), ParseError>
    ensures read { IfOk result (λ x. Many IsLet tokens.now x.1.now x.0) }
    ensures shorter { IfOk result (λ x. length x.1.now ≤ length tokens.now) }
    ensures parts { IfOk result (λ x. lets_part.reads tokens.now x.1.now) }
    ensures met { IfErr result (λ e. e ≢ ParseError.Memory → lets_part.meets tokens.now e) }
{
    let mut all = Listed::new(alloc);
    let mut rest = tokens;
    while begins(Word::Let, rest) {
        let (one, behind) = binding(alloc, rest)?;
        all.push(one)?;
        rest = behind;
    }
    Ok((all, rest))
}

/// `, value` as often as it stands here.
fn further_values(alloc: Global, tokens: &[Token]) -> Result<(Listed<Expr>, &[Token]), ParseError>
    ensures read { IfOk result (λ x. Many (Further IsExpr) tokens.now x.1.now x.0) }
    ensures shorter { IfOk result (λ x. length x.1.now ≤ length tokens.now) }
    ensures parts { IfOk result (λ x. (further a_value).reads tokens.now x.1.now) }
    ensures met { IfErr result (λ e. e ≢ ParseError.Memory → (further a_value).meets tokens.now e) }
{
    let mut all = Listed::new(alloc);
    let mut rest = tokens;
    while let Some(after) = mark(Sign::Comma, rest) {
        let (one, behind) = value(alloc, after)?;
        all.push(one)?;
        rest = behind;
    }
    Ok((all, rest))
}

/// `? name`, or an expression.
fn argument(alloc: Global, tokens: &[Token]) -> Result<(Argument, &[Token]), ParseError>
    ensures read { IfOk result (λ x. IsArgument tokens.now x.1.now x.0) }
    ensures shorter { IfOk result (λ x. length x.1.now < length tokens.now) }
    ensures parts { IfOk result (λ x. argument_part.reads tokens.now x.1.now) }
    ensures met { IfErr result (λ e. e ≢ ParseError.Memory → argument_part.meets tokens.now e) }
{
    if let Some(after) = mark(Sign::Question, tokens) {
        let (hole, rest) = name(alloc, after)?;
        return Ok((Argument::Hole(hole), rest));
    }
    let (given, rest) = value(alloc, tokens)?;
    Ok((Argument::Value(given), rest))
}

/// `, argument` as often as it stands here.
fn further_arguments(
    alloc: Global,
    tokens: &[Token],
) -> Result<(Listed<Argument>, &[Token]), ParseError>
    ensures read { IfOk result (λ x. Many (Further IsArgument) tokens.now x.1.now x.0) }
    ensures shorter { IfOk result (λ x. length x.1.now ≤ length tokens.now) }
    ensures parts { IfOk result (λ x. (further argument_part).reads tokens.now x.1.now) }
    ensures met { IfErr result (λ e. e ≢ ParseError.Memory → (further argument_part).meets tokens.now e) }
{
    let mut all = Listed::new(alloc);
    let mut rest = tokens;
    while let Some(after) = mark(Sign::Comma, rest) {
        let (one, behind) = argument(alloc, after)?;
        all.push(one)?;
        rest = behind;
    }
    Ok((all, rest))
}

/// `send_argument(name, value);`
pub fn send(alloc: Global, tokens: &[Token]) -> Result<(Name, Expr, &[Token]), ParseError>
    ensures read { IfOk result (λ x. IsSend tokens.now x.2.now x.0 x.1) }
    ensures shorter { IfOk result (λ x. length x.2.now < length tokens.now) }
    ensures parts { IfOk result (λ x. send_part.reads tokens.now x.2.now) }
    ensures met { IfErr result (λ e. e ≢ ParseError.Memory → send_part.meets tokens.now e) }
{
    let rest = expect_word(Word::SendArgument, tokens)?;
    let rest = expect_mark(Sign::Open, rest)?;
    let (target, rest) = name(alloc, rest)?;
    let rest = expect_mark(Sign::Comma, rest)?;
    let (sent, rest) = value(alloc, rest)?;
    let rest = expect_mark(Sign::Close, rest)?;
    let rest = expect_mark(Sign::Semicolon, rest)?;
    Ok((target, sent, rest))
}

/// `spawn thread(hole, values);`
fn spawn(alloc: Global, tokens: &[Token]) -> Result<(Use, &[Token]), ParseError>
    ensures read { IfOk result (λ x. IsUse tokens.now x.1.now x.0) }
    ensures shorter { IfOk result (λ x. length x.1.now < length tokens.now) }
    ensures parts { IfOk result (λ x. spawn_part.reads tokens.now x.1.now) }
    ensures met { IfErr result (λ e. e ≢ ParseError.Memory → spawn_part.meets tokens.now e) }
{
    let rest = expect_word(Word::Spawn, tokens)?;
    let (thread, rest) = name(alloc, rest)?;
    let rest = expect_mark(Sign::Open, rest)?;
    let (hole, rest) = name(alloc, rest)?;
    let (values, rest) = further_values(alloc, rest)?;
    let rest = expect_mark(Sign::Close, rest)?;
    let rest = expect_mark(Sign::Semicolon, rest)?;
    let given = Given::Spawned(thread, values);
    Ok((Use { hole, given }, rest))
}

/// What is done with a hole: `send_argument` or `spawn`.
fn hole_use(alloc: Global, tokens: &[Token]) -> Result<(Use, &[Token]), ParseError>
    ensures read { IfOk result (λ x. IsUse tokens.now x.1.now x.0) }
    ensures shorter { IfOk result (λ x. length x.1.now < length tokens.now) }
    ensures parts { IfOk result (λ x. use_part.reads tokens.now x.1.now) }
    ensures met { IfErr result (λ e. e ≢ ParseError.Memory → use_part.meets tokens.now e) }
{
    if begins(Word::Spawn, tokens) {
        return spawn(alloc, tokens);
    }
    let (hole, sent, rest) = send(alloc, tokens)?;
    let given = Given::Sent(sent);
    Ok((Use { hole, given }, rest))
}

/// Whether a use of a hole begins here.
fn begins_use(tokens: &[Token]) -> bool
    ensures { MatchBool result (UseStands tokens.now) (UseStands tokens.now → ⊥) }
{
    begins(Word::SendArgument, tokens) || begins(Word::Spawn, tokens)
}

/// The uses of holes that stand here.
pub fn uses(alloc: Global, tokens: &[Token]) -> Result<(Listed<Use>, &[Token]), ParseError>
    ensures read { IfOk result (λ x. Many IsUse tokens.now x.1.now x.0) }
    ensures shorter { IfOk result (λ x. length x.1.now ≤ length tokens.now) }
    ensures parts { IfOk result (λ x. uses_part.reads tokens.now x.1.now) }
    ensures met { IfErr result (λ e. e ≢ ParseError.Memory → uses_part.meets tokens.now e) }
{
    let mut all = Listed::new(alloc);
    let mut rest = tokens;
    while begins_use(rest) {
        let (one, behind) = hole_use(alloc, rest)?;
        all.push(one)?;
        rest = behind;
    }
    Ok((all, rest))
}

/// `spawn_next thread(continuation, arguments);`
pub fn spawn_next(
    alloc: Global,
    tokens: &[Token],
) -> Result<(Name, Name, Listed<Argument>, &[Token]), ParseError>
    ensures read { IfOk result (λ x. IsNext tokens.now x.3.now x.0 x.1 x.2) }
    ensures shorter { IfOk result (λ x. length x.3.now < length tokens.now) }
    ensures parts { IfOk result (λ x. next_part.reads tokens.now x.3.now) }
    ensures met { IfErr result (λ e. e ≢ ParseError.Memory → next_part.meets tokens.now e) }
{
    let rest = expect_word(Word::SpawnNext, tokens)?;
    let (thread, rest) = name(alloc, rest)?;
    let rest = expect_mark(Sign::Open, rest)?;
    let (continuation, rest) = name(alloc, rest)?;
    let (arguments, rest) = further_arguments(alloc, rest)?;
    let rest = expect_mark(Sign::Close, rest)?;
    let rest = expect_mark(Sign::Semicolon, rest)?;
    Ok((thread, continuation, arguments, rest))
}
