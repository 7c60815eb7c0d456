ghost use Rattle.std.specs.Prelude.{◌≡◌};
ghost use Rattle.task_syntax.specs.declared.error.ParseError.TheVariants.{Memory};

use std::alloc::{AllocError, AllocFailed};
use thiserror::Error;

/// Why a text isn't read, with the byte offset in the text.
#[derive(Clone, Copy, Debug, PartialEq, Eq, Error)]
pub enum ParseError {
    /// E2: a token or byte that can't stand there; the text's length at its end.
    #[error("E{number} at {0}", number = self.number())]
    Unexpected(u32),
    /// E3: a text of more than 65,536 bytes, at 65,536; or a name of more than 31 bytes, at its
    /// start.
    #[error("E{number} at {0}", number = self.number())]
    TooLong(u32),
    /// E4: an open parenthesis inside 64 others of its expression; the `{` of a block 65 deep; an
    /// operator whose tree is over 64 levels, met once its right operand was read.
    #[error("E{number} at {0}", number = self.number())]
    TooDeepNest(u32),
    /// E5: a number over 9223372036854775807.
    #[error("E{number} at {0}", number = self.number())]
    NumberRange(u32),
    /// E6: the first byte over 7F.
    #[error("E{number} at {0}", number = self.number())]
    NotAscii(u32),
    /// E9: there is no memory.
    #[error("E{number}", number = self.number())]
    Memory,
}

impl From<AllocError> for ParseError {
    ghost from_gives = { λ _ e. e ≡ Memory };

    fn from(_e: AllocError) -> ParseError {
        ParseError::Memory
    }
}

impl<T: Drop> From<AllocFailed<T>> for ParseError {
    ghost from_gives = { λ _ e. e ≡ Memory };

    fn from(_e: AllocFailed<T>) -> ParseError {
        ParseError::Memory
    }
}

impl ParseError {
    ghost use Rattle.task_syntax.specs.Errors.{number_of_error};

    /// The number of the refusal: 2 to 6, or 9.
    pub fn number(&self) -> u8
        ensures { result ≡ number_of_error self.now }
    {
        match self {
            ParseError::Unexpected(_) => ids::error_numbers::UNEXPECTED,
            ParseError::TooLong(_) => ids::error_numbers::TOO_LONG,
            ParseError::TooDeepNest(_) => ids::error_numbers::TOO_DEEP_NEST,
            ParseError::NumberRange(_) => ids::error_numbers::NUMBER_RANGE,
            ParseError::NotAscii(_) => ids::error_numbers::NOT_ASCII,
            ParseError::Memory => ids::error_numbers::MEMORY,
        }
    }
}

/// Why a program isn't printed.
#[derive(Clone, Copy, Debug, PartialEq, Eq, Error)]
#[error("E{number}", number = self.number())]
pub enum PrintError {
    /// E3: the printed text would be over 65,536 bytes.
    TooLong,
    /// E9: there is no memory.
    Memory,
}

impl PrintError {
    ghost use Rattle.task_syntax.specs.Errors.{number_of_print_error};

    /// The number of the refusal: 3 or 9.
    pub fn number(&self) -> u8
        ensures { result ≡ number_of_print_error self.now }
    {
        match self {
            PrintError::TooLong => ids::error_numbers::TOO_LONG,
            PrintError::Memory => ids::error_numbers::MEMORY,
        }
    }
}
