ghost use Rattle.std.specs.Prelude.{◌≡◌, IfErr, IfOk};
ghost use Rattle.cilknow.specs.Form.{IsFormOf, IsFormRefusal, status_of_form};
ghost use Rattle.cilknow.specs.declared.form.FormFault.TheVariants as faults;

use std::alloc::Global;
use task_syntax::{ParseError, PrintError, parse, print};
use thiserror::Error;

/// Why a text has no form.
#[derive(Clone, Copy, Debug, PartialEq, Eq, Error)]
pub enum FormFault {
    /// E2 to E6: the text isn't read; or E9.
    #[error(transparent)]
    Text(ParseError),
    /// E3: the form would be over 65,536 bytes; or E9.
    #[error(transparent)]
    Long(PrintError),
}

impl FormFault {
    /// The status that a program ends with: 1 for a text that is refused, 3 when out of memory.
    pub fn status(self) -> u8
        ensures { result ≡ status_of_form self }
    {
        match self {
            FormFault::Text(ParseError::Memory) | FormFault::Long(PrintError::Memory) => 3,
            FormFault::Text(_) | FormFault::Long(_) => 1,
        }
    }
}

impl From<ParseError> for FormFault {
    ghost from_gives = { λ e f. f ≡ faults.Text e };

    fn from(e: ParseError) -> FormFault {
        FormFault::Text(e)
    }
}

impl From<PrintError> for FormFault {
    ghost from_gives = { λ e f. f ≡ faults.Long e };

    fn from(e: PrintError) -> FormFault {
        FormFault::Long(e)
    }
}

/// The one form of a program's text: each thread on a line, one blank between any two tokens, and
/// parentheses around the operands that are operations. It is read as the same program, but for
/// offsets. Kinds aren't checked. Refused where the text isn't read (E2 to E6), where the form
/// would be over 65,536 bytes (E3), and when out of memory (E9).
pub fn form_of(alloc: Global, text: &[u8]) -> Result<Vec<u8>, FormFault>
    ensures form { IfOk result (λ v. IsFormOf text.now v.items) }
    ensures refused { IfErr result (IsFormRefusal text.now) }
{
    let program = parse(alloc, text)?;
    Ok(print(alloc, &program)?)
}
