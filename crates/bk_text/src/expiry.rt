//! When a dump expires.

/// When the dumps of a level expire. An absolute date stands as it is; a relative one is added to the date of a dump.
#[derive(Clone, Copy, Debug, PartialEq, Eq)]
pub enum Expiry {
    /// There is no expiration: a dump may be overwritten at once.
    Unset,
    /// A dump never expires.
    Never,
    /// At this moment, in seconds since 1970.
    At(u32),
    /// So long after the dump.
    In { years: u16, months: u16, days: u16 },
}
