ghost use Rattle.std.specs.Prelude.{◌≢◌, ◌<◌, length, IfOk, IfErr};
ghost use Rattle.task_syntax.specs.Grammar.{IsBlock};
ghost use Rattle.task_syntax.specs.Parts.{IsEnd};
ghost use Rattle.task_syntax.specs.Meeting.{block_part, end_part, branches_part};

use crate::error::ParseError;
use crate::reader::expressions::value;
use crate::reader::statements::{bindings, send, spawn_next, uses};
use crate::reader::tokens::{begins, closing_brace, expect_mark, expect_word, offset};
use std::alloc::Global;
use task_tokens::{Sign, Token, Word};
use task_tree::{Block, End};

/// A block of at most `deep` blocks inside each other, this one among them.
#[cycle(blocks)]
pub fn block(alloc: Global, deep: u8, tokens: &[Token]) -> Result<(Block, &[Token]), ParseError>
    ensures read { IfOk result (λ x. IsBlock deep tokens.now x.1.now x.0) }
    ensures shorter { IfOk result (λ x. length x.1.now < length tokens.now) }
    ensures parts { IfOk result (λ x. (block_part deep).reads tokens.now x.1.now) }
    ensures met { IfErr result (λ e. e ≢ ParseError.Memory → (block_part deep).meets tokens.now e) }
{
    let inside = expect_mark(Sign::OpenBrace, tokens)?;
    if deep == 0 {
        return Err(ParseError::TooDeepNest(offset(tokens)));
    }
    let (lets, rest) = bindings(alloc, inside)?;
    let (end, rest) = ending(alloc, deep - 1, rest)?;
    let (close, rest) = closing_brace(rest)?;
    Ok((Block { lets, end, close }, rest))
}

/// How a block ends, with its uses of holes.
#[cycle(blocks)]
fn ending(alloc: Global, inside: u8, tokens: &[Token]) -> Result<(End, &[Token]), ParseError>
    ensures read { IfOk result (λ x. IsEnd inside tokens.now x.1.now x.0) }
    ensures shorter { IfOk result (λ x. length x.1.now < length tokens.now) }
    ensures parts { IfOk result (λ x. (end_part (block_part inside)).reads tokens.now x.1.now) }
    ensures met { IfErr result (λ e. e ≢ ParseError.Memory → (end_part (block_part inside)).meets tokens.now e) }
{
    if begins(Word::If, tokens) {
        return branches(alloc, inside, tokens);
    }
    if begins(Word::SendArgument, tokens) {
        let (continuation, sent, rest) = send(alloc, tokens)?;
        return Ok((End::Send(continuation, sent), rest));
    }
    let (thread, continuation, arguments, rest) = spawn_next(alloc, tokens)?;
    let (uses, rest) = uses(alloc, rest)?;
    Ok((End::Next(thread, continuation, arguments, uses), rest))
}

/// `if condition block else block`
#[cycle(blocks)]
fn branches(alloc: Global, inside: u8, tokens: &[Token]) -> Result<(End, &[Token]), ParseError>
    ensures read { IfOk result (λ x. IsEnd inside tokens.now x.1.now x.0) }
    ensures shorter { IfOk result (λ x. length x.1.now < length tokens.now) }
    ensures parts { IfOk result (λ x. (branches_part (block_part inside)).reads tokens.now x.1.now) }
    ensures met { IfErr result (λ e. e ≢ ParseError.Memory → (branches_part (block_part inside)).meets tokens.now e) }
{
    let rest = expect_word(Word::If, tokens)?;
    let (condition, rest) = value(alloc, rest)?;
    let (yes, rest) = block(alloc, inside, rest)?;
    let rest = expect_word(Word::Else, rest)?;
    let (no, rest) = block(alloc, inside, rest)?;
    let end = End::If(condition, Box::new(alloc, yes)?, Box::new(alloc, no)?);
    Ok((end, rest))
}
