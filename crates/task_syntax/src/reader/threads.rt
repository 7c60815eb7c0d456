ghost use Rattle.std.specs.Prelude.{◌≢◌, IfErr, ◌≤◌, ◌<◌, [], length, IfOk};
ghost use Rattle.task_tokens.specs.declared.kinds.TokenKind.TheVariants as kind;
ghost use Rattle.task_syntax.specs.Grammar.{BeginsAt, IsName, IsThread, IsProgram, Many, Further};
ghost use Rattle.task_syntax.specs.Meeting.{a_name, thread_part, threads_part, program_part, further, MissesEnd};

use crate::error::ParseError;
use crate::reader::blocks::block;
use crate::reader::tokens::{begins, expect_mark, expect_word, first, mark, name, offset};
use ids::Listed;
use std::alloc::Global;
use task_tokens::{Sign, Token, TokenKind, Word};
use task_tree::{Name, Program, Thread};

/// The most blocks inside each other.
const DEEPEST: u8 = 64;

/// All tokens of a text, the last of them its end.
pub fn program(alloc: Global, tokens: &[Token]) -> Result<Program, ParseError>
    ensures read { IfOk result (λ p. IsProgram tokens.now p) }
    ensures met { IfErr result (λ e. e ≢ ParseError.Memory → program_part.meets tokens.now e) }
{
    let (threads, rest) = threads(alloc, tokens)?;
    let length = end(rest)?;
    Ok(Program { threads, length })
}

/// The place of the end, which has to stand here.
fn end(tokens: &[Token]) -> Result<u32, ParseError>
    ensures ok { IfOk result (λ at. BeginsAt kind.End at tokens.now []) }
    ensures met { IfErr result (λ e. e ≢ ParseError.Memory → MissesEnd tokens.now e) }
{
    match tokens {
        [
            Token {
                kind: TokenKind::End,
                offset,
            },
        ] => Ok(*offset),
        _ => Err(ParseError::Unexpected(offset(tokens))),
    }
}

/// The threads that stand here.
fn threads(alloc: Global, tokens: &[Token]) -> Result<(Listed<Thread>, &[Token]), ParseError>
    ensures read { IfOk result (λ x. Many IsThread tokens.now x.1.now x.0) }
    ensures parts { IfOk result (λ x. threads_part.reads tokens.now x.1.now) }
    ensures met { IfErr result (λ e. e ≢ ParseError.Memory → threads_part.meets tokens.now e) }
{
    let mut all = Listed::new(alloc);
    let mut rest = tokens;
    while begins(Word::Thread, rest) {
        let (one, behind) = thread(alloc, rest)?;
        all.push(one)?;
        rest = behind;
    }
    Ok((all, rest))
}

/// `thread name(continuation, numbers) block`
fn thread(alloc: Global, tokens: &[Token]) -> Result<(Thread, &[Token]), ParseError>
    ensures read { IfOk result (λ x. IsThread tokens.now x.1.now x.0) }
    ensures shorter { IfOk result (λ x. length x.1.now < length tokens.now) }
    ensures parts { IfOk result (λ x. thread_part.reads tokens.now x.1.now) }
    ensures met { IfErr result (λ e. e ≢ ParseError.Memory → thread_part.meets tokens.now e) }
{
    let rest = expect_word(Word::Thread, tokens)?;
    let (title, rest) = name(alloc, rest)?;
    let rest = expect_mark(Sign::Open, rest)?;
    let (continuation, rest) = name(alloc, rest)?;
    let (numbers, rest) = further_names(alloc, rest)?;
    let rest = expect_mark(Sign::Close, rest)?;
    let (body, rest) = block(alloc, DEEPEST, rest)?;
    let thread = Thread {
        name: title,
        continuation,
        numbers,
        body,
    };
    Ok((thread, rest))
}

/// `, name` as often as it stands here.
fn further_names(alloc: Global, tokens: &[Token]) -> Result<(Listed<Name>, &[Token]), ParseError>
    ensures read { IfOk result (λ x. Many (Further IsName) tokens.now x.1.now x.0) }
    ensures shorter { IfOk result (λ x. length x.1.now ≤ length tokens.now) }
    ensures parts { IfOk result (λ x. (further a_name).reads tokens.now x.1.now) }
    ensures met { IfErr result (λ e. e ≢ ParseError.Memory → (further a_name).meets tokens.now e) }
{
    let mut all = Listed::new(alloc);
    let mut rest = tokens;
    while let Some(after) = mark(Sign::Comma, rest) {
        let (one, behind) = name(alloc, after)?;
        all.push(one)?;
        rest = behind;
    }
    Ok((all, rest))
}
