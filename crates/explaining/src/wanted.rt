//! What can stand at a place of a text. The reader itself says so: it reads what stands in front of
//! the place, and behind that one token of a sort. Where it refuses neither that token nor anything
//! before it, it can stand there.

use std::alloc::{AllocError, Global};
use std::io::{self, Write};
use task_syntax::{LONGEST_TEXT, ParseError, parse};

/// A sort of tokens, or the end of a text.
#[derive(Clone, Copy, PartialEq, Eq)]
pub(crate) enum Sort {
    Number,
    Name,
    Open,
    Question,
    Operator,
    Comma,
    Close,
    Semicolon,
    OpenBrace,
    CloseBrace,
    Assign,
    Let,
    If,
    Else,
    SendArgument,
    SpawnNext,
    Spawn,
    Thread,
    End,
}

/// All sorts, in the order in which they are told.
const SORTS: [Sort; 19] = [
    Sort::Number,
    Sort::Name,
    Sort::Open,
    Sort::Question,
    Sort::Operator,
    Sort::Comma,
    Sort::Close,
    Sort::Semicolon,
    Sort::OpenBrace,
    Sort::CloseBrace,
    Sort::Assign,
    Sort::Let,
    Sort::If,
    Sort::Else,
    Sort::SendArgument,
    Sort::SpawnNext,
    Sort::Spawn,
    Sort::Thread,
    Sort::End,
];

impl Sort {
    /// A token of the sort. Where one operator can stand, each can.
    fn token(self) -> &'static str {
        match self {
            Sort::Number => "0",
            Sort::Name => "a",
            Sort::Open => "(",
            Sort::Question => "?",
            Sort::Operator => "+",
            Sort::Comma => ",",
            Sort::Close => ")",
            Sort::Semicolon => ";",
            Sort::OpenBrace => "{",
            Sort::CloseBrace => "}",
            Sort::Assign => "=",
            Sort::Let => "let",
            Sort::If => "if",
            Sort::Else => "else",
            Sort::SendArgument => "send_argument",
            Sort::SpawnNext => "spawn_next",
            Sort::Spawn => "spawn",
            Sort::Thread => "thread",
            Sort::End => "",
        }
    }

    /// What a sort of many tokens is called.
    fn called(self) -> Option<&'static str> {
        match self {
            Sort::Number => Some("a number"),
            Sort::Name => Some("a name"),
            Sort::Operator => Some("an operator"),
            Sort::End => Some("the end of the text"),
            _ => None,
        }
    }

    fn write<W: Write>(self, out: &mut W) -> io::Result<()> {
        match self.called() {
            Some(called) => write!(out, "{called}"),
            None => write!(out, "`{}`", self.token()),
        }
    }
}

/// Some bytes, and behind them others on a new line.
fn joined(alloc: Global, before: &[u8], token: &[u8]) -> Result<Vec<u8>, AllocError> {
    let mut text = Vec::from_slice(alloc, before)?;
    text.extend_from_slice(b"\n")?;
    text.extend_from_slice(token)?;
    Ok(text)
}

/// Where a text is refused, if it is; none where that isn't known.
fn refusal(alloc: Global, text: &[u8]) -> Option<Option<usize>> {
    if text.len() > LONGEST_TEXT {
        return None;
    }
    match parse(alloc, text) {
        Ok(_) => Some(None),
        Err(ParseError::Memory) => None,
        Err(
            ParseError::Unexpected(at)
            | ParseError::TooLong(at)
            | ParseError::TooDeepNest(at)
            | ParseError::NumberRange(at)
            | ParseError::NotAscii(at),
        ) => Some(Some(at as usize)),
    }
}

/// Whether a token can stand behind these bytes, or a text can end there; none where that isn't
/// known. A comment in which they end goes no further.
fn stands(alloc: Global, before: &[u8], token: &[u8]) -> Option<bool> {
    let text = joined(alloc, before, token).ok()?;
    let refused = refusal(alloc, text.as_slice())?;
    Some(match refused {
        None => true,
        Some(at) => at > text.len().saturating_sub(token.len()),
    })
}

/// Whether a token can stand behind these bytes once another one stands between them.
pub(crate) fn stands_behind(alloc: Global, before: &[u8], between: &[u8], token: &[u8]) -> bool {
    match joined(alloc, before, between) {
        Ok(text) => stands(alloc, text.as_slice(), token) == Some(true),
        Err(_) => false,
    }
}

/// The sorts that can stand at a place; none of them where they aren't known.
#[derive(Drop)]
pub(crate) struct Wanted {
    sorts: Vec<Sort>,
}

impl Wanted {
    /// The sorts that can stand behind these bytes.
    pub(crate) fn behind(alloc: Global, before: &[u8]) -> Wanted {
        match sorts_behind(alloc, before) {
            Some(sorts) => Wanted { sorts },
            None => Wanted {
                sorts: Vec::new(alloc),
            },
        }
    }

    pub(crate) fn is_empty(&self) -> bool {
        self.sorts.is_empty()
    }

    pub(crate) fn has(&self, sort: Sort) -> bool {
        self.sorts.as_slice().contains(&sort)
    }

    /// Writes that they are wanted; nothing where they aren't known.
    pub(crate) fn write<W: Write>(&self, out: &mut W) -> io::Result<()> {
        if self.is_empty() {
            return Ok(());
        }
        let last = self.sorts.len().saturating_sub(1);
        for (index, sort) in self.sorts.as_slice().iter().enumerate() {
            if index > 0 {
                write!(out, "{}", if index == last { " or " } else { ", " })?;
            }
            sort.write(out)?;
        }
        write!(out, " is wanted")
    }
}

fn sorts_behind(alloc: Global, before: &[u8]) -> Option<Vec<Sort>> {
    let mut sorts = Vec::new(alloc);
    for sort in SORTS {
        if stands(alloc, before, sort.token().as_bytes())? {
            sorts.push(sort).ok()?;
        }
    }
    Some(sorts)
}
