//! Why a field was refused.

ghost use Rattle.std.specs.Prelude.{◌≡◌};
ghost use Rattle.byte_formats.specs.declared.fault.ReadFault.TheVariants as read_faults;

use std::alloc::AllocError;

/// Why a field was refused: how many bytes are left from the first bad one on.
#[derive(Clone, Copy, Debug, PartialEq, Eq)]
pub enum ReadFault {
    /// The bytes are good up to the place where so many are left.
    Bad { left: usize },
    /// Memory was refused.
    Memory,
}

impl From<AllocError> for ReadFault {
    ghost from_gives = { λ _ e. e ≡ read_faults.Memory };

    fn from(_e: AllocError) -> ReadFault {
        ReadFault::Memory
    }
}
