//! Why a chain wasn't told.

ghost use Rattle.std.specs.Prelude.{◌≡◌};
ghost use Rattle.budb_fold.specs.declared.fault.ChainFault.TheVariants as chain_faults;

use std::alloc::AllocError;
use thiserror::Error;

/// Why a chain wasn't told.
#[derive(Clone, Copy, Debug, PartialEq, Eq, Drop, Error)]
pub enum ChainFault {
    /// Going upwards, this is the first id that isn't among the records, or whose record doesn't hold the name.
    #[error("the dump {id} is missing")]
    Missing { id: u32 },
    /// Memory was refused.
    #[error("memory was refused")]
    Memory,
}

impl From<AllocError> for ChainFault {
    ghost from_gives = { λ _ e. e ≡ chain_faults.Memory };

    fn from(_e: AllocError) -> ChainFault {
        ChainFault::Memory
    }
}
