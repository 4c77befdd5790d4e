//! Why a configuration was refused.

ghost use Rattle.std.specs.Prelude.{◌≡◌};
ghost use Rattle.tape_config.specs.declared.fault.ConfigFault.TheVariants.{Memory};

use std::alloc::AllocError;
use thiserror::Error;

/// Why a configuration was refused. Lines count from 1; a number above 4,294,967,295 is told as that. The first faulty
/// line is told, and of its faults the first in this order.
#[derive(Clone, Copy, Debug, PartialEq, Eq, Drop, Error)]
pub enum ConfigFault {
    /// The line is of no form, or a second one that names the cell.
    #[error("line {line} has no known form")]
    BadLine { line: u32 },
    /// It is a second device line for its port.
    #[error("line {line} is a second one for its port")]
    PortTwice { line: u32 },
    /// It has a slot that an earlier line has.
    #[error("line {line} has a slot that an earlier line has")]
    SlotTwice { line: u32 },
    /// Memory was refused.
    #[error("memory was refused")]
    Memory,
}

impl From<AllocError> for ConfigFault {
    ghost from_gives = { λ _ e. e ≡ Memory };

    fn from(_e: AllocError) -> ConfigFault {
        ConfigFault::Memory
    }
}
