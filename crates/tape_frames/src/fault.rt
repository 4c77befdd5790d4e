//! Why a block was refused.

ghost use Rattle.std.specs.Prelude.{◌≡◌};
ghost use Rattle.tape_frames.specs.declared.fault.FrameFault.TheVariants.{Memory};

use std::alloc::AllocError;
use thiserror::Error;

/// Why a block was refused.
#[derive(Clone, Copy, Debug, PartialEq, Eq, Drop, Error)]
pub enum FrameFault {
    /// The block is no frame's. `at` is the least number such that no frame's block begins with its first `at + 1`
    /// bytes.
    #[error("the block is no frame at byte {at}")]
    NotFrame { at: usize },
    /// Memory was refused.
    #[error("memory was refused")]
    Memory,
}

impl From<AllocError> for FrameFault {
    ghost from_gives = { λ _ e. e ≡ Memory };

    fn from(_e: AllocError) -> FrameFault {
        FrameFault::Memory
    }
}
