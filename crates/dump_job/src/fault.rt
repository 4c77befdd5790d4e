//! Why a dump isn't begun, or isn't gone on with.

ghost use Rattle.std.specs.Prelude.{◌≡◌};
ghost use Rattle.dump_job.specs.Faults.{job_fault};
ghost use Rattle.dump_job.specs.declared.fault.JobFault.TheVariants as faults;

use bk_text::TapeName;
use std::alloc::AllocError;
use tape_choice::ChoiceFault;
use thiserror::Error;

/// Why a dump isn't begun, or isn't gone on with. Of several the first one here is told.
#[derive(Debug, Drop, Error)]
pub enum JobFault {
    /// No listed dump has the volume set, to whose dumps this one is to be appended.
    #[error("no dump has the volume set")]
    NothingToAppend,
    /// No slot has a tape that may be taken under this name, or the tape of this name that is to be appended to.
    #[error("no slot has the tape")]
    NoTape { name: TapeName },
    /// A fresh tape of the port hasn't room for the smallest part of a dump, which is 6 blocks and 3 filemarks.
    #[error("the port's tapes are too small")]
    CapacityTooSmall,
    /// The greatest id that was begun or recorded is 4,294,967,295.
    #[error("no id is left")]
    IdsSpent,
    /// The log would have so many bytes, which is over 268,435,456 (this project's own limit).
    #[error("the log would have {length} bytes")]
    LogFull { length: u64 },
    /// A call of the plant was refused by the outside.
    #[error("a call of the plant failed")]
    Failed,
    /// Memory was refused.
    #[error("memory was refused")]
    Memory,
}

impl From<AllocError> for JobFault {
    ghost from_gives = { λ _ e. e ≡ faults.Memory };

    fn from(_e: AllocError) -> JobFault {
        JobFault::Memory
    }
}

impl From<ChoiceFault> for JobFault {
    ghost from_gives = { λ fault e. e ≡ job_fault fault };

    fn from(fault: ChoiceFault) -> JobFault {
        match fault {
            ChoiceFault::Failed => JobFault::Failed,
            ChoiceFault::Memory => JobFault::Memory,
        }
    }
}
