//! Why a call on a cell was refused.

ghost use Rattle.std.specs.Prelude.{◌≡◌};
ghost use Rattle.cell_core.specs.declared.fault.CellFault.TheVariants.{Memory};

use std::alloc::AllocError;
use thiserror::Error;

/// Why a call on a cell was refused. Where several hold, the order is `NoVolume`, `VolumeExists`, `NoVnode`, `TooLarge`,
/// `BadImage` (this project's rule).
#[derive(Clone, Copy, Debug, PartialEq, Eq, Drop, Error)]
pub enum CellFault {
    /// The call was refused by the outside. Its cause is a count of faults that rose.
    #[error("a call of the cell failed")]
    Failed,
    /// There is no volume of this name that the call is for.
    #[error("there is no such volume")]
    NoVolume,
    /// There is one of this name.
    #[error("the volume exists")]
    VolumeExists,
    /// The volume has no vnode of this number.
    #[error("the volume has no such vnode")]
    NoVnode,
    /// A limit would be passed, or no id, no volume or no uniquifier is free.
    #[error("a limit would be passed")]
    TooLarge,
    /// What stands there is no volume; `at` is the place of its first wrong byte.
    #[error("the image is bad at byte {at}")]
    BadImage { at: u64 },
    /// Memory was refused.
    #[error("memory was refused")]
    Memory,
}

impl From<AllocError> for CellFault {
    ghost from_gives = { λ _ e. e ≡ Memory };

    fn from(_e: AllocError) -> CellFault {
        CellFault::Memory
    }
}
