//! Why nothing was put on a tape.

ghost use Rattle.std.specs.Prelude.{◌≡◌};

use plant_core::Failed;
use thiserror::Error;

/// Why a frame wasn't put on a tape.
#[derive(Clone, Copy, Debug, PartialEq, Eq, Drop, Error)]
pub enum WriteFault {
    /// With what must follow it the frame would pass the capacity. Nothing was put.
    #[error("the tape is full")]
    TapeFull,
    /// The call was refused by the outside.
    #[error("a call of the plant failed")]
    Failed,
}

impl From<Failed> for WriteFault {
    ghost use Rattle.tape_writer.specs.declared.fault.WriteFault.TheVariants as faults;

    ghost from_gives = { λ _ e. e ≡ faults.Failed };

    fn from(_: Failed) -> Self {
        WriteFault::Failed
    }
}
