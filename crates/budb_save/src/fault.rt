//! Why the database wasn't saved or read back.

use thiserror::Error;

/// Why the database wasn't saved. Of several the first one here is told.
#[derive(Clone, Copy, Debug, PartialEq, Eq, Drop, Error)]
pub enum SaveFault {
    /// No slot of the coordinator that is here has a tape without records, or one whose label has the initial id 0 and no AFS
    /// name or that of saves.
    #[error("no slot has a tape to save on")]
    NoTape,
    /// The save's blocks of 16,384 bytes and its two filemarks pass the capacity of the port's tapes.
    #[error("the database is too big for a tape")]
    TooBig,
    /// The call was refused by the outside.
    #[error("a call of the plant failed")]
    Failed,
    /// Memory was refused. Nothing was written.
    #[error("memory was refused")]
    Memory,
}

/// Why a tape wasn't read to its end, or put on.
#[derive(Clone, Copy, Debug, PartialEq, Eq, Drop, Error)]
pub(crate) enum Stopped {
    /// The call was refused by the outside.
    #[error("a call of the plant failed")]
    Failed,
    /// Memory was refused.
    #[error("memory was refused")]
    Memory,
}

/// Why a saved database wasn't read back. Of several the first one here is told. The database is as it was.
#[derive(Clone, Copy, Debug, PartialEq, Eq, Drop, Error)]
pub enum LoadFault {
    /// A volume set, a dump level or a listed dump is there.
    #[error("the database is in use")]
    InUse,
    /// No slot of the coordinator that is here has a tape whose label has the initial id 0 and the AFS name of saves.
    #[error("no slot has a save")]
    NoSave,
    /// The tape of a slot has no save: the first record with which no save goes on, or the data block of the first byte that no list of
    /// changes has there; where records are wanting, or the bytes are a proper front of a list of changes, the tape's last record.
    #[error("the record {place} of slot {slot} isn't that of a save")]
    BadSave { slot: u32, place: u32 },
    /// The log would have so many bytes, which is over 268,435,456 (this project's own limit).
    #[error("the log would have {length} bytes")]
    LogFull { length: u64 },
    /// The call was refused by the outside. The log may have the saved changes behind it.
    #[error("a call of the plant failed")]
    Failed,
    /// Memory was refused.
    #[error("memory was refused")]
    Memory,
}
