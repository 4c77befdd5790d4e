//! The limits of volumes.

/// The most vnodes of a volume.
pub const MOST_VNODES: usize = 65_536;

/// The most bytes of one vnode's data: 16 MiB.
pub const MOST_DATA: usize = 16_777_216;

/// The most bytes of the data of all vnodes of a volume: 256 MiB.
pub const ALL_DATA: usize = 268_435_456;

/// The most bytes of an offline message, and of a message of the day.
pub const MOST_MESSAGE: usize = 1024;
