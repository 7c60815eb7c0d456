//! A trace that is read.
ghost use Rattle.std.specs.Prelude.{◌≡◌, IfOk, Some, None, Err};
ghost use Rattle.traces.specs.Lines.{trace};
ghost use Rattle.traces.specs.declared.trace.TraceFault.TheVariants as fault;

use crate::line::{Told, TraceLine, line_in};
use event_script::Pieces;
use std::alloc::{AllocError, Global};
use std::collections::VecDeque;
use std::marker::Model;
use thiserror::Error;

/// A line of a trace, and which one it is, from 1. Contracts see the line.
#[derive(Drop)]
pub(crate) struct Numbered {
    pub(crate) number: u64,
    pub(crate) line: TraceLine,
}

impl Model for Numbered {
    ghost use Rattle.traces.specs.declared.line.TraceLine.{TraceLine as LineOf};

    ghost Value = { LineOf };

    ghost view = { λ n. n.line };
}

impl Numbered {
    /// The line.
    pub(crate) fn line(&self) -> &TraceLine
        ensures { result.now ≡ self.now }
    {
        &self.line
    }
}

/// What an actor wrote down, in its order. Contracts see the lines that tell something.
#[derive(Drop)]
pub struct Trace {
    pub(crate) lines: VecDeque<Numbered>,
}

impl Model for Trace {
    ghost use Rattle.std.specs.Prelude.{List};
    ghost use Rattle.traces.specs.declared.line.TraceLine.{TraceLine as LineOf};

    ghost Value = { List LineOf };

    ghost view = { λ t. t.lines.items };
}

/// Why a text isn't a trace.
#[derive(Clone, Copy, Debug, PartialEq, Eq, Error)]
pub enum TraceFault {
    /// A line of it, counted from 1, is none of a trace.
    #[error("line {0}")]
    Line(u64),
    /// E9: there is no memory.
    #[error("E{number}", number = ids::error_numbers::MEMORY)]
    Memory,
}

impl From<AllocError> for TraceFault {
    ghost from_gives = { λ e f. f ≡ fault.Memory };

    fn from(_error: AllocError) -> TraceFault {
        TraceFault::Memory
    }
}

impl Trace {
    /// Reads a text line by line: `# sent NAME`, `# take NAME`, or a line of a script, in which the
    /// place tells nothing. What begins with `#` otherwise, and empty lines, tell nothing either. A
    /// last line that no line feed ends is passed over: of an actor that was killed it may be cut
    /// off. Refused by the first line that is none of these, and when out of memory (E9).
    pub fn read(alloc: Global, text: &[u8]) -> Result<Trace, TraceFault>
        ensures read { IfOk result (λ t. trace text.now ≡ Some t) }
        ensures refused { (n : _) → result ≡ Err (fault.Line n) → trace text.now ≡ None }
    {
        let mut lines = VecDeque::new(alloc);
        let mut left = Pieces::of(b'\n', text);
        let mut number: u64 = 0;
        while let Some(line) = left.next() {
            if left.is_empty() {
                break;
            }
            number = number.saturating_add(1);
            match line_in(alloc, line)? {
                Told::Nothing => {}
                Told::Says(line) => {
                    if lines.push_back(Numbered { number, line }).is_err() {
                        return Err(TraceFault::Memory);
                    }
                }
                Told::Refused => return Err(TraceFault::Line(number)),
            }
        }
        Ok(Trace { lines })
    }
}
