//! What a restore of several volumes answers, for each of them and as a whole.

use restore_chain::RestoreFault;
use thiserror::Error;
use vnode_model::Volume;

/// Why volumes weren't played.
#[derive(Clone, Copy, Debug, PartialEq, Eq, Drop, Error)]
pub enum MountFault {
    /// The call was refused by the outside.
    #[error("a call of the plant failed")]
    Failed,
    /// Memory was refused.
    #[error("memory was refused")]
    Memory,
}

/// What one of the volumes is restored to.
#[derive(Drop)]
pub enum Played {
    /// The volume.
    Volume(Volume),
    /// Why it wasn't restored: what a restore of it alone is refused for, and so neither `Failed` nor `Memory`.
    Refused(RestoreFault),
}
