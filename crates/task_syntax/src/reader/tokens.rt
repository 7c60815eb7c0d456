ghost use Rattle.std.specs.Prelude.{◌≡◌, ◌≢◌, ◌<◌, [], ◌∷◌, length, MatchBool, IfSome, IfNone, IfOk, IfErr, Some};
ghost use Rattle.task_tokens.specs.declared.kinds.TokenKind.TheVariants as kind;
ghost use Rattle.task_tokens.specs.declared.kinds.Sign.TheVariants as sign;
ghost use Rattle.task_syntax.specs.Grammar.{BeginsAt, IsMark, IsWord, IsName, level_of};
ghost use Rattle.task_syntax.specs.Refusals.{offset_of, Lacks, Misses, Stands, IsInfix, LacksInfix, name_refusal, first_refusal};

use crate::error::ParseError;
use ids::Listed;
use std::alloc::Global;
use task_tokens::{Operator, Sign, Token, TokenKind, Word};
use task_tree::Name;

/// The first token and those behind it.
pub fn first(tokens: &[Token]) -> Option<(&Token, &[Token])>
    ensures some { IfSome result (λ x. tokens.now ≡ x.0.now ∷ x.1.now) }
    ensures none { IfNone result (tokens.now ≡ []) }
{
    tokens.split_first()
}

/// The place of the first token in the text.
pub fn offset(tokens: &[Token]) -> u32
    ensures { result ≡ offset_of tokens.now }
{
    match first(tokens) {
        Some((token, _)) => token.offset,
        None => 0,
    }
}

/// The tokens behind this mark, where it stands first.
pub fn mark(sign: Sign, tokens: &[Token]) -> Option<&[Token]>
    ensures some { IfSome result (λ rest. IsMark sign tokens.now rest.now) }
    ensures none { IfNone result (Lacks (kind.Mark sign) tokens.now) }
    ensures shorter { IfSome result (λ rest. length rest.now < length tokens.now) }
{
    let (token, rest) = first(tokens)?;
    match token.kind {
        TokenKind::Mark(here) if here == sign => Some(rest),
        _ => None,
    }
}

/// The tokens behind this mark, which has to stand first.
pub fn expect_mark(sign: Sign, tokens: &[Token]) -> Result<&[Token], ParseError>
    ensures ok { IfOk result (λ rest. IsMark sign tokens.now rest.now) }
    ensures err { IfErr result (λ e. Misses (kind.Mark sign) tokens.now e) }
    ensures shorter { IfOk result (λ rest. length rest.now < length tokens.now) }
{
    match mark(sign, tokens) {
        Some(rest) => Ok(rest),
        None => Err(ParseError::Unexpected(offset(tokens))),
    }
}

/// The tokens behind this word, where it stands first.
pub fn word(wanted: Word, tokens: &[Token]) -> Option<&[Token]>
    ensures some { IfSome result (λ rest. IsWord wanted tokens.now rest.now) }
    ensures none { IfNone result (Lacks (kind.Keyword wanted) tokens.now) }
    ensures shorter { IfSome result (λ rest. length rest.now < length tokens.now) }
{
    let (token, rest) = first(tokens)?;
    match token.kind {
        TokenKind::Keyword(here) if here == wanted => Some(rest),
        _ => None,
    }
}

/// Whether this word stands first.
pub fn begins(wanted: Word, tokens: &[Token]) -> bool
    ensures { MatchBool result (Stands (kind.Keyword wanted) tokens.now) (Lacks (kind.Keyword wanted) tokens.now) }
{
    word(wanted, tokens).is_some()
}

/// The tokens behind this word, which has to stand first.
pub fn expect_word(wanted: Word, tokens: &[Token]) -> Result<&[Token], ParseError>
    ensures ok { IfOk result (λ rest. IsWord wanted tokens.now rest.now) }
    ensures err { IfErr result (λ e. Misses (kind.Keyword wanted) tokens.now e) }
    ensures shorter { IfOk result (λ rest. length rest.now < length tokens.now) }
{
    match word(wanted, tokens) {
        Some(rest) => Ok(rest),
        None => Err(ParseError::Unexpected(offset(tokens))),
    }
}

/// The place of a closing brace, which has to stand first, and the tokens behind it.
pub fn closing_brace(tokens: &[Token]) -> Result<(u32, &[Token]), ParseError>
    ensures ok { IfOk result (λ x. BeginsAt (kind.Mark sign.CloseBrace) x.0 tokens.now x.1.now) }
    ensures err { IfErr result (λ e. Misses (kind.Mark sign.CloseBrace) tokens.now e) }
    ensures shorter { IfOk result (λ x. length x.1.now < length tokens.now) }
{
    let rest = expect_mark(Sign::CloseBrace, tokens)?;
    Ok((offset(tokens), rest))
}

/// A name, which has to stand first, and the tokens behind it.
pub fn name(alloc: Global, tokens: &[Token]) -> Result<(Name, &[Token]), ParseError>
    ensures read { IfOk result (λ x. IsName tokens.now x.1.now x.0) }
    ensures met { IfErr result (λ e. e ≢ ParseError.Memory → first_refusal name_refusal tokens.now ≡ Some e) }
    ensures shorter { IfOk result (λ x. length x.1.now < length tokens.now) }
{
    let Some((token, rest)) = first(tokens) else {
        return Err(ParseError::Unexpected(0));
    };
    match &token.kind {
        TokenKind::Ident(text) => Ok((named(alloc, text, token.offset)?, rest)),
        TokenKind::LongIdent => Err(ParseError::TooLong(token.offset)),
        _ => Err(ParseError::Unexpected(token.offset)),
    }
}

/// A name of this text, from this place.
fn named(alloc: Global, text: &Listed<u8>, offset: u32) -> Result<Name, ParseError>
    ensures ok { IfOk result (λ x. x ≡ record { text = text.now; offset = offset }) }
    ensures err { IfErr result (λ e. e ≡ ParseError.Memory) }
{
    let bytes = Vec::from_slice(alloc, text.as_slice())?;
    Ok(Name {
        text: Listed::from_vec(bytes),
        offset,
    })
}

/// The level of an operator, from 0, the loosest, to 7.
pub fn level(op: Operator) -> u8
    ensures { result ≡ level_of op }
{
    match op {
        Operator::Or => 0,
        Operator::Xor => 1,
        Operator::And => 2,
        Operator::Equal | Operator::NotEqual => 3,
        Operator::Less | Operator::AtMost => 4,
        Operator::ShiftLeft | Operator::ShiftRight => 5,
        Operator::Add | Operator::Subtract => 6,
        Operator::Multiply | Operator::Divide | Operator::Remainder => 7,
    }
}

/// An operator of a level from `loosest` to `tightest`, where one stands first, its place, and the
/// tokens behind it.
pub fn infix(loosest: u8, tightest: u8, tokens: &[Token]) -> Option<(Operator, u32, &[Token])>
    ensures some { IfSome result (λ x. IsInfix loosest tightest x.0 x.1 tokens.now x.2.now) }
    ensures none { IfNone result (LacksInfix loosest tightest tokens.now) }
    ensures shorter { IfSome result (λ x. length x.2.now < length tokens.now) }
{
    let (token, rest) = first(tokens)?;
    match token.kind {
        TokenKind::Infix(op) if loosest <= level(op) && level(op) <= tightest => {
            Some((op, token.offset, rest))
        }
        _ => None,
    }
}
