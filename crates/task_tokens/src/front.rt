ghost use Rattle.std.specs.Prelude.{◌≡◌, ◌+◌, ◌≤◌, ◌<◌, length, IfOk};
ghost use Rattle.std.specs.List.{prefix_len};
ghost use Rattle.task_tokens.specs.Tokens as defined;

use crate::kinds::{LONGEST_NAME, Operator, Run, Sign, TokenKind, Word};
use ids::Listed;
use std::alloc::{AllocError, Global};

fn is_blank(b: u8) -> bool
    ensures { result ≡ defined.is_blank b }
{
    matches!(b, b' ' | b'\t' | b'\n' | b'\r')
}

fn begins_name(b: u8) -> bool
    ensures { result ≡ defined.begins_name b }
{
    matches!(b, b'a'..=b'z' | b'A'..=b'Z' | b'_')
}

fn is_of(run: Run, b: u8) -> bool
    ensures { result ≡ defined.is_of run b }
{
    match run {
        Run::Name => begins_name(b) || b.is_ascii_digit(),
        Run::Digits => b.is_ascii_digit(),
        Run::Line => b != b'\n',
    }
}

/// How many bytes of a run stand at the front.
fn size_of(run: Run, text: &[u8]) -> usize
    ensures run { result ≡ prefix_len (defined.is_of run) text.now }
    ensures within { result ≤ length text.now }
{
    for (i, b) in text.iter().enumerate() {
        if !is_of(run, *b) {
            return i;
        }
    }
    text.len()
}

/// A word that is kept, or a name.
fn named(alloc: Global, text: &[u8]) -> Result<TokenKind, AllocError>
    ensures { IfOk result (λ kind. kind ≡ defined.named text.now) }
{
    let word = if text == b"thread".as_slice() {
        Word::Thread
    } else if text == b"let".as_slice() {
        Word::Let
    } else if text == b"if".as_slice() {
        Word::If
    } else if text == b"else".as_slice() {
        Word::Else
    } else if text == b"spawn".as_slice() {
        Word::Spawn
    } else if text == b"spawn_next".as_slice() {
        Word::SpawnNext
    } else if text == b"send_argument".as_slice() {
        Word::SendArgument
    } else if text.len() > LONGEST_NAME {
        return Ok(TokenKind::LongIdent);
    } else {
        return Ok(TokenKind::Ident(Listed::from_vec(Vec::from_slice(alloc, text)?)));
    };
    Ok(TokenKind::Keyword(word))
}

/// The number that digits write.
fn numbered(digits: &[u8]) -> TokenKind
    ensures { result ≡ defined.numbered digits.now }
{
    let mut value: u128 = 0;
    for d in digits {
        value = 10 * value + u128::from(d.saturating_sub(b'0'));
        if value > i64::MAX as u128 {
            return TokenKind::LargeNumeral;
        }
    }
    TokenKind::Numeral(value as i64)
}

fn two_bytes(a: u8, b: u8) -> Option<TokenKind>
    ensures { result ≡ defined.two_bytes a b }
{
    let operator = match (a, b) {
        (b'=', b'=') => Operator::Equal,
        (b'!', b'=') => Operator::NotEqual,
        (b'<', b'=') => Operator::AtMost,
        (b'<', b'<') => Operator::ShiftLeft,
        (b'>', b'>') => Operator::ShiftRight,
        _ => return None,
    };
    Some(TokenKind::Infix(operator))
}

fn one_byte(b: u8) -> TokenKind
    ensures { result ≡ defined.one_byte b }
{
    match b {
        b'|' => TokenKind::Infix(Operator::Or),
        b'^' => TokenKind::Infix(Operator::Xor),
        b'&' => TokenKind::Infix(Operator::And),
        b'<' => TokenKind::Infix(Operator::Less),
        b'+' => TokenKind::Infix(Operator::Add),
        b'-' => TokenKind::Infix(Operator::Subtract),
        b'*' => TokenKind::Infix(Operator::Multiply),
        b'/' => TokenKind::Infix(Operator::Divide),
        b'%' => TokenKind::Infix(Operator::Remainder),
        b'(' => TokenKind::Mark(Sign::Open),
        b')' => TokenKind::Mark(Sign::Close),
        b'{' => TokenKind::Mark(Sign::OpenBrace),
        b'}' => TokenKind::Mark(Sign::CloseBrace),
        b',' => TokenKind::Mark(Sign::Comma),
        b';' => TokenKind::Mark(Sign::Semicolon),
        b'?' => TokenKind::Mark(Sign::Question),
        b'=' => TokenKind::Mark(Sign::Assign),
        _ => TokenKind::Unknown,
    }
}

/// A comment, an operator or a mark.
fn sign_front(a: u8, rest: &[u8]) -> (Option<TokenKind>, usize)
    ensures token { result.0 ≡ (defined.sign_front a rest.now).token }
    ensures size { result.1 ≡ (defined.sign_front a rest.now).size }
    ensures within { result.1 ≤ length rest.now + 1 }
    ensures some { 0 < result.1 }
{
    let Some((b, after)) = rest.split_first() else {
        return (Some(one_byte(a)), 1);
    };
    if a == b'/' && *b == b'/' {
        return (None, 2 + size_of(Run::Line, after));
    }
    match two_bytes(a, *b) {
        Some(kind) => (Some(kind), 2),
        None => (Some(one_byte(a)), 1),
    }
}

/// What stands at the front, where it is no blank or comment, and how many bytes it takes.
pub fn front(alloc: Global, text: &[u8]) -> Result<(Option<TokenKind>, usize), AllocError>
    requires { 0 < length text.now }
    ensures token { IfOk result (λ f. f.0 ≡ (defined.front_of text.now).token) }
    ensures size { IfOk result (λ f. f.1 ≡ (defined.front_of text.now).size) }
    ensures within { IfOk result (λ f. f.1 ≤ length text.now) }
    ensures some { IfOk result (λ f. 0 < f.1) }
{
    let b = text[0];
    if is_blank(b) {
        Ok((None, 1))
    } else if begins_name(b) {
        let size = size_of(Run::Name, text);
        Ok((Some(named(alloc, text.split_at(size).0)?), size))
    } else if b.is_ascii_digit() {
        let size = size_of(Run::Digits, text);
        Ok((Some(numbered(text.split_at(size).0)), size))
    } else {
        Ok(sign_front(b, text.split_at(1).1))
    }
}
