//! Why the database wasn't opened, and why changes weren't committed.

use thiserror::Error;

/// Why the database wasn't opened.
#[derive(Clone, Copy, Debug, PartialEq, Eq, Drop, Error)]
pub enum BudbFault {
    /// The log is no list of changes. `at` is the least number such that no list's bytes begin with the first `at + 1` of
    /// it; where all of it begins one, it is its length.
    #[error("the log is no list of changes: byte {at}")]
    BadLog { at: u64 },
    /// The call was refused by the outside.
    #[error("the call failed")]
    Failed,
    /// Memory was refused.
    #[error("memory was refused")]
    Memory,
}

/// Why prepared changes weren't committed. They are no longer prepared.
#[derive(Clone, Copy, Debug, PartialEq, Eq, Drop, Error)]
pub enum PreparedFault {
    /// The log would have so many bytes, which is over 268,435,456 (this project's own limit). Log and database are as
    /// they were.
    #[error("the log would have {length} bytes")]
    LogFull { length: u64 },
    /// The call was refused by the outside.
    #[error("the call failed")]
    Failed,
}

/// Why changes weren't committed.
#[derive(Clone, Copy, Debug, PartialEq, Eq, Drop, Error)]
pub enum CommitFault {
    /// The log would have so many bytes, which is over 268,435,456 (this project's own limit). Nothing has changed.
    #[error("the log would have {length} bytes")]
    LogFull { length: u64 },
    /// The call was refused by the outside.
    #[error("the call failed")]
    Failed,
    /// Memory was refused. Nothing has changed.
    #[error("memory was refused")]
    Memory,
}
