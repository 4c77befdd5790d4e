//! What a list of volumes says of each.

use bk_text::{Host, Name, Part};

/// A volume as a list of volumes has it.
#[derive(Debug, Drop)]
pub struct VolEntry {
    pub name: Name,
    pub server: Host,
    pub partition: Part,
    pub state: EntryState,
}

/// What stands there.
#[derive(Clone, Copy, Debug, PartialEq, Eq)]
pub enum EntryState {
    /// A volume.
    Good {
        id: u32,
        /// 0 read/write, 1 read-only, 2 backup.
        kind: u8,
        /// The volume's `latest`, in seconds since 1970.
        latest: u32,
    },
    /// Something that isn't one; `at` is the place of the first wrong byte.
    Bad {
        at: u64,
    },
}
