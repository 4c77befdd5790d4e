//! What a dump wants of its next tape.

use bk_text::{List, TapeName};

/// What a dump wants of its next tape.
#[derive(Debug, Drop)]
pub struct Wanting {
    /// The name of the tape: what the names of the dump set's tapes begin with, a period, and the tape's number.
    pub name: TapeName,
    /// Whether the names of tapes are checked at the port.
    pub checked: bool,
    /// The time of the command, in seconds since 1970.
    pub time: u32,
    /// The initial id of the dump set that the dump goes to.
    pub initial: u32,
    /// The initial ids of the dumps in the chain of the dump's parents, as `initials_above` gives them.
    pub parents: List<u32>,
    /// The slots that this dump has taken already.
    pub used: List<u32>,
}
