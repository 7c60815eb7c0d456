ghost use Rattle.std.specs.Prelude.{◌≡◌, ◌≢◌, ℕ, List, ◌<◌, ◌≤◌, length, take, slice_index, All, IfOk, IfErr, MatchOption};
ghost use Rattle.task_syntax.specs.Grammar.{ReadsAsProgram};
ghost use Rattle.task_syntax.specs.declared.error.ParseError.{ParseError};
ghost use Rattle.task_tree.specs.declared.tree.Program.{Program};
ghost use Rattle.task_syntax.specs.Meeting.{MeetsText};
ghost use Rattle.task_tree.specs.Equal.{EqualProgram};

use crate::error::ParseError;
use crate::reader::program;
use std::alloc::Global;
use task_tokens::tokenize;
use task_tree::Program;

/// The longest text, in bytes.
pub const LONGEST_TEXT: usize = 65536;

/// Reads a program's text. A text over 65,536 bytes is refused first, then a byte over 7F, then the
/// first fault that a reader from left to right meets.
pub fn parse(alloc: Global, text: &[u8]) -> Result<Program, ParseError>
    ensures reading { IfOk result (λ p. ReadsAsProgram text.now p) }
    ensures refused { IfErr result (λ e. e ≢ ParseError.Memory → MeetsText text.now e) }
{
    if text.len() > LONGEST_TEXT {
        return Err(ParseError::TooLong(LONGEST_TEXT as u32));
    }
    if let Some(at) = beyond_ascii(text) {
        return Err(ParseError::NotAscii(at as u32));
    }
    let tokens = tokenize(alloc, text)?;
    program(alloc, tokens.as_slice())
}

/// The place of the first byte over 7F.
fn beyond_ascii(text: &[u8]) -> Option<usize>
    ensures { MatchOption result (All (λ b. b < 128) text.now) (λ i. (i < length text.now)
        × All (λ b. b < 128) (take i text.now) × (128 ≤ slice_index text.now i)) }
{
    text.iter().position(|b| *b >= 128)
}

/// That the answer of `parse` is the only one, unless memory runs out: a text reads as at most one
/// program, aside from where its parts lie in memory; a text meets at most one refusal; a text that
/// is read meets none. Does nothing.
pub fn answers_are_exact()
    ensures one_refusal { (text : List ℕ) (e f : ParseError) → MeetsText text e → MeetsText text f → e ≡ f }
    ensures not_both { (text : List ℕ) (p : Program) (e : ParseError) → ReadsAsProgram text p → MeetsText text e → ⊥ }
    ensures one_program { (text : List ℕ) (p q : Program) → ReadsAsProgram text p → ReadsAsProgram text q
        → EqualProgram p q }
{}
