//! Why a log wasn't written or read.

use thiserror::Error;

/// Why changes weren't appended.
#[derive(Clone, Copy, Debug, PartialEq, Eq, Drop, Error)]
pub enum AppendFault {
    /// The log would have more than 268,435,456 bytes (this project's own limit). Nothing has changed.
    #[error("the log is full")]
    LogFull,
    /// The call was refused by the outside.
    #[error("the call failed")]
    Failed,
    /// Memory was refused. Nothing has changed.
    #[error("memory was refused")]
    Memory,
}

/// Why a log wasn't read.
#[derive(Clone, Copy, Debug, PartialEq, Eq, Drop, Error)]
pub enum ReplayFault {
    /// The log is no list of changes. `at` is the least number such that no list's bytes begin with the first `at + 1` of
    /// it; where all of it begins one, it is its length.
    #[error("the log is no list of changes: byte {at}")]
    BadChange { at: u64 },
    /// The call was refused by the outside.
    #[error("the call failed")]
    Failed,
    /// Memory was refused.
    #[error("memory was refused")]
    Memory,
}
