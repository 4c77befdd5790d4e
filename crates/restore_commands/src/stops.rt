//! Why a restore has stopped.

ghost use Rattle.std.specs.Prelude.{◌≡◌};
ghost use Rattle.restore_commands.specs.declared.stops.RestoreStop.TheVariants as stop;

use std::alloc::AllocError;
use thiserror::Error;

/// Why a restore has stopped.
#[derive(Clone, Copy, Debug, PartialEq, Eq, Drop, Error)]
pub enum RestoreStop {
    /// A call of the plant was refused.
    #[error("a call of the plant failed")]
    Plant,
    /// A call of the cell was refused.
    #[error("a call of the cell failed")]
    Cell,
    /// Memory was refused.
    #[error("memory was refused")]
    Memory,
}

impl From<AllocError> for RestoreStop {
    ghost from_gives = { λ _ e. e ≡ stop.Memory };

    fn from(_e: AllocError) -> RestoreStop {
        RestoreStop::Memory
    }
}
