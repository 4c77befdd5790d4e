//! Why a folder could not be opened.

ghost use Rattle.std.specs.Prelude.{◌≡◌, Ok, Err, MatchResult};
ghost use Rattle.std.specs.declared.io.Error.{Error};
ghost use Rattle.host_edge.specs.Faults.{IsFaultAt};

use std::alloc::{AllocError, Global};
use std::io::{self, ErrorKind};
use thiserror::Error;

/// Why a folder could not be opened.
#[derive(Debug, Drop, Error)]
pub enum EdgeFault {
    /// The system refused a call.
    #[error("{path}: {cause}")]
    Unreadable {
        /// The path that it was about.
        path: String,
        /// What the system says of it.
        cause: io::Error,
    },
    /// There are more than 65,536 images.
    #[error("there are more than 65,536 images")]
    TooMany,
    /// Memory was refused.
    #[error("memory was refused")]
    Memory,
}

impl From<AllocError> for EdgeFault {
    ghost use Rattle.host_edge.specs.declared.fault.EdgeFault.TheVariants.{Memory};

    ghost from_gives = { λ _ e. e ≡ Memory };

    fn from(_e: AllocError) -> EdgeFault {
        EdgeFault::Memory
    }
}

/// The fault of a call that the system refused on a path. Where it refused memory, or there is none to name the path, it is
/// `Memory`.
pub(crate) fn fault_at(alloc: Global, path: &str, cause: io::Error) -> EdgeFault
    ensures { IsFaultAt path.now cause result }
{
    if cause.kind() == ErrorKind::OutOfMemory {
        return EdgeFault::Memory;
    }
    match String::from_str(alloc, path) {
        Ok(path) => EdgeFault::Unreadable { path, cause },
        Err(_) => EdgeFault::Memory,
    }
}

/// A call's answer, whose refusal names the path that it was about.
pub fn at_path<T: Drop>(alloc: Global, path: &str, answer: io::Result<T>) -> Result<T, EdgeFault>
    ensures { MatchResult result (λ value. answer ≡ Ok value) (λ fault. (cause : Error) × (answer ≡ Err cause) × IsFaultAt path.now cause fault) }
{
    match answer {
        Ok(value) => Ok(value),
        Err(cause) => Err(fault_at(alloc, path, cause)),
    }
}
