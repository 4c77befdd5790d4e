//! What a restore needs: the dumps of a chain, and the tapes that it is played from.

use bk_text::{List, Name, TapeName};

/// A tape that a chain is played from, and the slot that holds it.
#[derive(Debug, Drop)]
pub struct TapeNeed {
    /// The name of the tape: the base of its dump set, a period, and its number.
    pub name: TapeName,
    /// The id of the first dump of its dump set, which is on its label.
    pub initial: u32,
    /// The number of the tape in its dump set.
    pub tape: u32,
    /// The least slot here that holds the tape.
    pub slot: u32,
}

/// What a restore of a volume plays.
#[derive(Debug)]
pub struct ChainPlan {
    /// The name of the volume that was found; it may be that of the backup volume, which ends in `.backup`.
    pub name: Name,
    /// The ids of the dumps in playing order, the whole one first.
    pub dumps: List<u32>,
    /// The tapes in playing order; a tape may stand there more than once.
    pub tapes: List<TapeNeed>,
}

/// It is written out, so that each function that lets one go calls it.
impl Drop for ChainPlan {
    fn drop(self) {
        let ChainPlan { name, dumps, tapes } = self;
    }
}
