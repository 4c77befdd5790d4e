//! Volumes made from a base and an increment.

ghost use Rattle.std.specs.Prelude.{◌≡◌, nat_le};
ghost use Rattle.vnode_model.specs.Limits.{all_data};
ghost use Rattle.vnode_model.specs.Increments.{data_of, applied, Answers};
ghost use Rattle.vnode_model.specs.declared.applying.ApplyFault.TheVariants.{Memory};

use crate::increments::{Increment, IncrementFields};
use crate::limits::ALL_DATA;
use crate::taking::{take_all, vnodes_in};
use crate::vnodes::Vnode;
use crate::volumes::{Volume, VolumeFields};
use std::alloc::{AllocError, Global};
use thiserror::Error;

/// Why an increment can't be applied to a base.
#[derive(Clone, Copy, Debug, PartialEq, Eq, Drop, Error)]
pub enum ApplyFault {
    /// The first kept entry that the base lacks has this number and uniquifier.
    #[error("the base lacks vnode {number} with uniquifier {uniq}")]
    BaseLacks { number: u32, uniq: u32 },
    /// The data would be more than 268,435,456 bytes.
    #[error("the volume's data would pass 268,435,456 bytes")]
    TooLarge,
    /// Memory was refused.
    #[error("memory was refused")]
    Memory,
}

impl From<AllocError> for ApplyFault {
    ghost from_gives = { λ _ fault. fault ≡ Memory };

    fn from(_e: AllocError) -> ApplyFault {
        ApplyFault::Memory
    }
}

/// Whether vnodes' data is at most 268,435,456 bytes.
pub fn is_small(vnodes: &[Vnode]) -> bool
    ensures { result ≡ nat_le (data_of vnodes.now) all_data }
{
    let mut room = ALL_DATA;
    for vnode in vnodes {
        if vnode.body.len() > room {
            return false;
        }
        room -= vnode.body.len();
    }
    true
}

/// The volume that an increment makes of a base: its header, and the vnodes that its entries stand for. A base vnode that
/// isn't listed goes. Nothing is copied; on a refusal both are dropped.
pub fn apply(
    alloc: Global,
    base: Option<Volume>,
    increment: Increment,
) -> Result<Volume, ApplyFault>
    ensures { Answers (applied base increment) result }
{
    let IncrementFields {
        header,
        entries,
        ..
    } = increment.into_fields();
    let rest = vnodes_in(alloc, base);
    match take_all(alloc, rest, entries) {
        Ok(vnodes) => {
            if is_small(vnodes.as_slice()) {
                Ok(Volume::from_fields(VolumeFields { header, vnodes }))
            } else {
                Err(ApplyFault::TooLarge)
            }
        }
        Err(fault) => Err(fault),
    }
}
