ghost use Rattle.std.specs.Prelude.{◌≡◌};

use std::alloc::{AllocError, AllocFailed};
use thiserror::Error;

/// Why bytes are no packet: the first fault that a reader from the front meets.
#[derive(Clone, Copy, Debug, PartialEq, Eq, Error)]
#[error("E{number}", number = self.number())]
pub enum Fault {
    /// There are more than 1,048,576 bytes.
    TooBig,
    /// The bytes end inside a field.
    Short,
    /// The first two bytes aren't 43 4E.
    Magic,
    /// The version isn't 1.
    Version,
    /// There is no such kind.
    Kind,
    /// A field is outside its range, or out of order.
    Field,
    /// Bytes stand after the last field.
    Trailing,
}

impl Fault {
    ghost use Rattle.packet_fields.specs.Faults.{number_of_fault};

    /// The number of the fault, 30 to 36.
    pub fn number(self) -> u8
        ensures { result ≡ number_of_fault self }
    {
        match self {
            Fault::TooBig => ids::error_numbers::PACKET_TOO_BIG,
            Fault::Short => ids::error_numbers::SHORT,
            Fault::Magic => ids::error_numbers::MAGIC,
            Fault::Version => ids::error_numbers::PACKET_VERSION,
            Fault::Kind => ids::error_numbers::PACKET_KIND,
            Fault::Field => ids::error_numbers::FIELD,
            Fault::Trailing => ids::error_numbers::TRAILING,
        }
    }
}

/// Why no value is read.
#[derive(Clone, Copy, Debug, PartialEq, Eq, Error)]
#[error("E{number}", number = self.number())]
pub enum ReadError {
    /// The bytes have a fault.
    Fault(Fault),
    /// There is no memory.
    Memory,
}

impl ReadError {
    ghost use Rattle.packet_fields.specs.Faults.{number_of_error};

    /// The number of the refusal: 9, or 30 to 36.
    pub fn number(self) -> u8
        ensures { result ≡ number_of_error self }
    {
        match self {
            ReadError::Fault(fault) => fault.number(),
            ReadError::Memory => ids::error_numbers::MEMORY,
        }
    }
}

impl From<Fault> for ReadError {
    ghost use Rattle.std.specs.Prelude.{◌≡◌};
    ghost use Rattle.packet_fields.specs.declared.fault.ReadError.TheVariants as errors;

    ghost from_gives = { λ f e. e ≡ errors.Fault f };

    fn from(fault: Fault) -> ReadError {
        ReadError::Fault(fault)
    }
}

impl From<AllocError> for ReadError {
    ghost use Rattle.std.specs.Prelude.{◌≡◌};
    ghost use Rattle.packet_fields.specs.declared.fault.ReadError.TheVariants.{Memory};

    ghost from_gives = { λ _ e. e ≡ Memory };

    fn from(_refused: AllocError) -> ReadError {
        ReadError::Memory
    }
}

impl<T: Drop> From<AllocFailed<T>> for ReadError {
    ghost use Rattle.std.specs.Prelude.{◌≡◌};
    ghost use Rattle.packet_fields.specs.declared.fault.ReadError.TheVariants.{Memory};

    ghost from_gives = { λ _ e. e ≡ Memory };

    fn from(_refused: AllocFailed<T>) -> ReadError {
        ReadError::Memory
    }
}
