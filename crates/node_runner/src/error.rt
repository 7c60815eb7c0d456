use thiserror::Error;

/// Why a run ends without an outcome.
#[derive(Clone, Copy, Debug, PartialEq, Eq, Error)]
pub enum RunError {
    /// E95: all turns were taken.
    #[error("E{number}", number = ids::error_numbers::RUN_TURNS_SPENT)]
    TurnsSpent,
    /// E96: there is no memory.
    #[error("E{number}", number = ids::error_numbers::RUN_MEMORY)]
    Memory,
    /// E97: the clearinghouse can't go on with its disk. The number of its refusal (62, or 70 to
    /// 73) is told in place of this one.
    #[error("E{0}")]
    Disk(u8),
}
