//! The versions of a record's bytes.

/// A form of a dump's record in bytes.
#[derive(Clone, Copy, Debug, PartialEq, Eq)]
pub enum Version {
    /// Without a tape's uses and permanent name, and without a cell.
    One,
    /// With them.
    Two,
}
