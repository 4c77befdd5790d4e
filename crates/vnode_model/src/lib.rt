//! Volumes and what a dump stream says of them: vnodes, the volume's header and increments. A `Volume` always has its
//! vnodes, and an `Increment` its entries, in order, of the parity of their kinds and within the limits (`AreFit` in
//! `specs/Limits.antt`). Enter at `Volume::new`, then at `select` for the increment since a time, and at `apply` for
//! the volume that a base and an increment make. The increments of a chain, applied one behind another, give its last
//! volume: `chains_restore`. `dump_stream` writes and reads increments and stands above, as do `cell_core` and
//! `volume_sets`; `bk_text` stands below.
#![tactic(auto)]

mod applying;
mod bodies;
mod fitting;
mod following;
mod headers;
mod increments;
mod limits;
mod listed;
mod selecting;
mod taking;
mod vnodes;
mod volumes;

pub use applying::{ApplyFault, apply};
pub use bodies::Body;
pub use fitting::fault_in;
pub use following::{
    applied_is_a_volume, chains_restore, increments_restore, whole_increments_restore,
};
pub use headers::{HeaderFields, VolHeader, is_message};
pub use increments::{Entry, Increment, IncrementFields};
pub use limits::{ALL_DATA, MOST_DATA, MOST_MESSAGE, MOST_VNODES};
pub use listed::{EntryState, VolEntry};
pub use selecting::{EntryRef, Memory, SelectIter, is_whole_from, select, select_iter};
pub use vnodes::{Vnode, VnodeKind, comes_after, stands_before};
pub use volumes::{Volume, VolumeFault, VolumeFields};
