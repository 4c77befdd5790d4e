//! Why a session wasn't opened, and why it has stopped.

ghost use Rattle.std.specs.Prelude.{◌≡◌};
ghost use Rattle.backup_session.specs.declared.stops.Stop.TheVariants as stop;

use plant_core::Failed;
use std::alloc::AllocError;
use thiserror::Error;

/// Why a session wasn't opened.
#[derive(Clone, Copy, Debug, PartialEq, Eq, Drop, Error)]
pub enum OpenStop {
    /// A call of the plant was refused.
    #[error("a call of the plant failed")]
    Plant,
    /// A call of the cell was refused.
    #[error("a call of the cell failed")]
    Cell,
    /// The journal's log is no list of changes. `at` is the least number such that no list's bytes begin with the first
    /// `at + 1` of it; where all of it begins one, it is its length.
    #[error("the log is no list of changes: byte {at}")]
    BadLog { at: u64 },
    /// Memory was refused.
    #[error("memory was refused")]
    Memory,
}

/// Why a session has stopped. It is spent then.
#[derive(Clone, Copy, Debug, PartialEq, Eq, Drop, Error)]
pub enum Stop {
    /// A call of the plant was refused.
    #[error("a call of the plant failed")]
    Plant,
    /// A call of the cell was refused.
    #[error("a call of the cell failed")]
    Cell,
    /// Memory was refused.
    #[error("memory was refused")]
    Memory,
}

impl From<AllocError> for Stop {
    ghost from_gives = { λ _ e. e ≡ stop.Memory };

    fn from(_e: AllocError) -> Stop {
        Stop::Memory
    }
}

impl From<Failed> for Stop {
    ghost from_gives = { λ _ e. e ≡ stop.Plant };

    fn from(_e: Failed) -> Stop {
        Stop::Plant
    }
}
