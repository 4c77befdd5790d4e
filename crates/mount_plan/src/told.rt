//! A fault that is told of one volume.

ghost use Rattle.std.specs.Prelude.{◌≡◌, ◌≢◌, Err, IfOk};
ghost use Rattle.restore_chain.specs.declared.fault.RestoreFault.TheVariants as faults;
ghost use Rattle.mount_plan.specs.Tellings.{IsTold};

use restore_chain::{LookFault, RestoreFault};
use std::marker::Model;

/// A fault that is told of one volume: none of the outside, and none of memory.
#[derive(Drop)]
pub(crate) struct Told {
    fault: RestoreFault,
}

impl Model for Told {
    ghost use Rattle.restore_chain.specs.declared.fault.RestoreFault.{RestoreFault};
    ghost use Rattle.mount_plan.specs.Tellings.{IsTold};

    ghost Value = { RestoreFault };

    ghost view = { λ t. t.fault };

    ghost invariant = { λ t. IsTold t.fault };
}

impl Told {
    /// The fault.
    pub(crate) fn into_fault(self) -> RestoreFault
        ensures is { result ≡ self }
        ensures told { IsTold result }
    {
        let Told { fault } = self;
        fault
    }
}

/// A fault of a play, as it is told.
///
/// # Errors
///
/// Memory, where it is that.
pub(crate) fn told_of(fault: RestoreFault) -> Result<Told, LookFault>
    requires { fault ≢ faults.Failed }
    ensures is { IfOk result (λ told. told ≡ fault) }
    ensures never { result ≢ Err LookFault.Failed }
{
    match fault {
        RestoreFault::Memory => Err(LookFault::Memory),
        RestoreFault::Failed => Err(LookFault::Memory),
        RestoreFault::NoDump => Ok(Told {
            fault: RestoreFault::NoDump,
        }),
        RestoreFault::MissingDump { id } => Ok(Told {
            fault: RestoreFault::MissingDump { id },
        }),
        RestoreFault::MissingTape { name, initial } => Ok(Told {
            fault: RestoreFault::MissingTape { name, initial },
        }),
        RestoreFault::BaseLacks { number } => Ok(Told {
            fault: RestoreFault::BaseLacks { number },
        }),
        RestoreFault::BadOnTape { tape, place } => Ok(Told {
            fault: RestoreFault::BadOnTape { tape, place },
        }),
        RestoreFault::TooLarge => Ok(Told {
            fault: RestoreFault::TooLarge,
        }),
    }
}
