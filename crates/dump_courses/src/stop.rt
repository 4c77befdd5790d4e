//! Why a dump has stopped its session.

ghost use Rattle.std.specs.Prelude.{◌≡◌};
ghost use Rattle.dump_courses.specs.declared.stop.DumpStop.TheVariants as stop;

use std::alloc::AllocError;
use thiserror::Error;

/// Why a dump was neither done nor refused. The session is spent then.
#[derive(Clone, Copy, Debug, PartialEq, Eq, Drop, Error)]
pub enum DumpStop {
    /// A call of the plant was refused.
    #[error("a call of the plant failed")]
    Plant,
    /// A call of the cell was refused.
    #[error("a call of the cell failed")]
    Cell,
    /// Memory was refused.
    #[error("memory was refused")]
    Memory,
}

impl From<AllocError> for DumpStop {
    ghost from_gives = { λ _ e. e ≡ stop.Memory };

    fn from(_e: AllocError) -> DumpStop {
        DumpStop::Memory
    }
}
