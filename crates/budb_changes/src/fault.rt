//! Why bytes were refused.

ghost use Rattle.std.specs.Prelude.{◌≡◌};
ghost use Rattle.budb_changes.specs.declared.fault.ChangeFault.TheVariants as change_faults;

use std::alloc::AllocError;
use thiserror::Error;

/// Why bytes were refused.
#[derive(Clone, Copy, Debug, PartialEq, Eq, Drop, Error)]
pub enum ChangeFault {
    /// The bytes are no list of changes. `at` is the least number such that no list's bytes begin with the first `at + 1`
    /// of them; where all of them begin one, it is their number.
    #[error("no list of changes: byte {at}")]
    BadChange { at: u64 },
    /// Memory was refused.
    #[error("memory was refused")]
    Memory,
}

impl From<AllocError> for ChangeFault {
    ghost from_gives = { λ _ e. e ≡ change_faults.Memory };

    fn from(_e: AllocError) -> ChangeFault {
        ChangeFault::Memory
    }
}
