//! How a refused call is counted and kept.

ghost use Rattle.std.specs.Prelude.{IfOk, OnOk, OnErr, ◌≡◌, Ok, Err, Some};
ghost use Rattle.std.specs.declared.io.Error.{Error};
ghost use Rattle.crash_moments.specs.Moments.{HasCause};

use crate::refusal::Refusal;
use crash_moments::raised;
use media_core::Failed;
use std::io;

/// The answer of a call on a file, of which a refusal is counted and kept.
pub(crate) fn counted<T: Drop>(
    faults: &mut u64,
    last: &mut Option<Refusal>,
    file: u32,
    answer: io::Result<T>,
) -> Result<T, Failed>
    ensures cause { HasCause faults.old faults.new result }
    ensures given { IfOk result (λ value. answer ≡ Ok value) }
    ensures kept { OnErr result ((cause : Error) × (answer ≡ Err cause) × (last.new ≡ Some (record { file = file; cause = cause }))) }
    ensures same { OnOk result (last.new ≡ last.old) }
{
    match answer {
        Ok(value) => Ok(value),
        Err(cause) => {
            *faults = raised(*faults);
            *last = Some(Refusal { file, cause });
            Err(Failed)
        }
    }
}
