//! Why no tape was chosen.

ghost use Rattle.std.specs.Prelude.{◌≡◌};
ghost use Rattle.tape_choice.specs.declared.fault.ChoiceFault.TheVariants as faults;

use plant_core::Failed;
use std::alloc::AllocError;
use thiserror::Error;

/// Why the search for a tape gave up.
#[derive(Clone, Copy, Debug, PartialEq, Eq, Drop, Error)]
pub enum ChoiceFault {
    /// A call of the plant was refused.
    #[error("a call of the plant failed")]
    Failed,
    /// Memory was refused.
    #[error("memory was refused")]
    Memory,
}

impl From<AllocError> for ChoiceFault {
    ghost from_gives = { λ _ e. e ≡ faults.Memory };

    fn from(_e: AllocError) -> ChoiceFault {
        ChoiceFault::Memory
    }
}

impl From<Failed> for ChoiceFault {
    ghost from_gives = { λ _ e. e ≡ faults.Failed };

    fn from(_e: Failed) -> ChoiceFault {
        ChoiceFault::Failed
    }
}
