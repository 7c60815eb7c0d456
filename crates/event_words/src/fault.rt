use thiserror::Error;

/// Why a run isn't told to its end.
#[derive(Clone, Copy, Debug, PartialEq, Eq, Error)]
pub enum NarratorFault {
    /// A line can't be written.
    #[error("file")]
    Unwritten,
    /// E9: there is no memory for a line.
    #[error("E{number}", number = ids::error_numbers::MEMORY)]
    Memory,
}
