//! Why a volume wasn't restored.

use bk_text::TapeName;
use thiserror::Error;

/// Why a volume wasn't restored.
#[derive(Debug, Drop, Error)]
pub enum RestoreFault {
    /// No listed dump has the volume, with a clone time before the bound where there is one.
    #[error("no dump has the volume")]
    NoDump,
    /// The first dump of the chain, going upwards, that isn't listed or whose record doesn't hold the name.
    #[error("the dump {id} is missing")]
    MissingDump { id: u32 },
    /// The first tape, in playing order, that no slot here holds: its name, and the id of the first dump of its dump set.
    #[error("a tape of the dump set {initial} is missing")]
    MissingTape { name: TapeName, initial: u32 },
    /// A dump names a vnode, by its number, which the volume that was made of the dumps before lacks.
    #[error("the volume lacks the vnode {number}")]
    BaseLacks { number: u32 },
    /// A record of a tape isn't what the database calls for: the tape's name, and the record's number, from 0 on.
    #[error("the record {place} of a tape isn't what the database calls for")]
    BadOnTape { tape: TapeName, place: u32 },
    /// The volume would be larger than a volume may be.
    #[error("the volume is too large")]
    TooLarge,
    /// The call was refused by the outside.
    #[error("a call of the plant failed")]
    Failed,
    /// Memory was refused.
    #[error("memory was refused")]
    Memory,
}

/// Why tapes weren't looked at.
#[derive(Clone, Copy, Debug, PartialEq, Eq, Drop, Error)]
pub enum LookFault {
    /// The call was refused by the outside.
    #[error("a call of the plant failed")]
    Failed,
    /// Memory was refused.
    #[error("memory was refused")]
    Memory,
}
