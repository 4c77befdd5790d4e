//! Why a pool stopped.

use thiserror::Error;

/// Why a turn was neither made nor refused. The turns before it stand.
#[derive(Clone, Copy, Debug, PartialEq, Eq, Drop, Error)]
pub enum PoolStop {
    /// A call of the plant was refused.
    #[error("a call of the plant failed")]
    Plant,
    /// A call of the cell was refused.
    #[error("a call of the cell failed")]
    Cell,
    /// Memory was refused.
    #[error("memory was refused")]
    Memory,
}
