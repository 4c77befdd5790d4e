//! An increment that was read from tapes, over the volume so far.

ghost use Rattle.vnode_model.specs.Increments.{applied};
ghost use Rattle.restore_chain.specs.Playing.{Makes};

use crate::fault::RestoreFault;
use std::alloc::Global;
use vnode_model::{ApplyFault, Increment, Volume, apply};

/// The volume that an increment makes of the one so far.
///
/// # Errors
///
/// BaseLacks and TooLarge exactly where the increment can't be applied so, and memory.
pub(crate) fn apply_next(
    alloc: Global,
    base: Option<Volume>,
    increment: Increment,
) -> Result<Volume, RestoreFault>
    ensures { Makes (applied base increment) result }
{
    match apply(alloc, base, increment) {
        Ok(volume) => Ok(volume),
        Err(fault) => match fault {
            ApplyFault::BaseLacks { number, .. } => Err(RestoreFault::BaseLacks { number }),
            ApplyFault::TooLarge => Err(RestoreFault::TooLarge),
            ApplyFault::Memory => Err(RestoreFault::Memory),
        },
    }
}
