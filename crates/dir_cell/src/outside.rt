//! Calls of the system, and how those that it refuses are kept and counted.

ghost use Rattle.std.specs.Prelude.{◌≡◌, IfOk, Ok, Err};
ghost use Rattle.std.specs.declared.io.Error.{Error};
ghost use Rattle.crash_moments.specs.Moments.{HasCauseAt};
ghost use Rattle.cell_core.specs.Answers.{OnlyFromOutside};
ghost use Rattle.dir_cell.specs.Refused.{IsRefusalAt};

use cell_core::CellFault;
use crash_moments::raised;
use std::alloc::Global;
use std::io::{self, ErrorKind};

/// A call of the system that was refused.
#[derive(Debug, Drop)]
pub(crate) struct Refusal {
    /// The path that it was about; none where there was no memory for it.
    pub path: Option<String>,
    /// What the system says of it.
    pub cause: io::Error,
}

/// The answer of a call of the system on a path, of which a refusal is kept.
pub(crate) fn outside<T: Drop>(
    alloc: Global,
    last: &mut Option<Refusal>,
    path: &str,
    answer: io::Result<T>,
) -> Result<T, CellFault>
    ensures given { IfOk result (λ value. answer ≡ Ok value) }
    ensures errors { OnlyFromOutside result }
    ensures refused { result ≡ Err CellFault.Failed → (cause : Error) × (answer ≡ Err cause) × IsRefusalAt path.now cause last.new }
{
    match answer {
        Ok(value) => Ok(value),
        Err(cause) => {
            if cause.kind() == ErrorKind::OutOfMemory {
                return Err(CellFault::Memory);
            }
            let path = String::from_str(alloc, path).ok();
            *last = Some(Refusal { path, cause });
            Err(CellFault::Failed)
        }
    }
}

/// An answer, which is counted where it is that the system refused.
pub(crate) fn counted<T: Drop>(
    faults: &mut u64,
    answer: Result<T, CellFault>,
) -> Result<T, CellFault>
    ensures cause { HasCauseAt CellFault.Failed faults.old faults.new result }
    ensures same { result ≡ answer }
{
    match &answer {
        Err(CellFault::Failed) => *faults = raised(*faults),
        _ => {}
    }
    answer
}
