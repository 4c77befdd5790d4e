//! Where a dump is appended.

use bk_text::{Bytes, TapeName};

/// The place behind the last listed dump of a dump set's last tape.
#[derive(Debug, Drop)]
pub struct Place {
    /// The slot.
    pub slot: u32,
    /// The initial id of the dump set.
    pub initial: u32,
    /// The number of the tape in its dump set.
    pub tape: u32,
    /// What the names of the dump set's tapes begin with.
    pub base: TapeName,
    /// How many records stand in front of the place.
    pub end: u32,
    /// How many of these are filemarks.
    pub marks: u32,
    /// How many of these are blocks.
    pub blocks: u32,
    /// How often the tape was used, by the first head of version 2 among these; 1 where there is none.
    pub uses: u32,
    /// The permanent name of the tape, empty where it has none.
    pub permanent: Bytes,
}

/// Where a dump of a volume set is appended.
#[derive(Debug, Drop)]
pub enum Appending {
    /// No listed dump has the set.
    NoSet,
    /// No slot has the last tape of its dump set as the database says. The tape is told by what its name begins with and by its
    /// number, 0 where no dump of the dump set names a tape.
    NotFound { base: TapeName, tape: u32 },
    /// The place behind the last listed dump of that tape.
    Found(Place),
}
