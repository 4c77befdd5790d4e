// How the calls of a plant fail.
ghost use Rattle.std.specs.Prelude.{◌≡◌};

use std::alloc::AllocError;
use thiserror::Error;

/// Want of memory, where it is the only error.
pub type Memory = AllocError;

/// A call was refused by the outside. Its cause is a count of faults that rose.
#[derive(Clone, Copy, Debug, PartialEq, Eq, Drop, Error)]
#[error("a call of the plant failed")]
pub struct Failed;

/// Why nothing was put on the log.
#[derive(Clone, Copy, Debug, PartialEq, Eq, Drop, Error)]
pub enum PutFault {
    /// The log would have more than 268,435,456 bytes (this project's own limit). Nothing has changed.
    #[error("the log would pass 268,435,456 bytes")]
    LogFull,
    /// The call was refused by the outside.
    #[error("a call of the plant failed")]
    Failed,
}

impl From<Failed> for PutFault {
    fn from(_: Failed) -> Self
        ensures { result ≡ PutFault.Failed }
    {
        PutFault::Failed
    }
}
