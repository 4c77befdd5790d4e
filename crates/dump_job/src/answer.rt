//! What a step of a dump answers.

use crate::fault::JobFault;

/// What a step of a dump answers.
#[derive(Debug, Drop)]
pub enum StepAnswer {
    /// A record or a change was put, or a volume was cloned, and the dump isn't done.
    More,
    /// The dump of this id is done: it stands whole on its tapes, and it is listed.
    Done(u32),
    /// The part in hand is ended, and the dump doesn't go on: `NoTape`, where no slot has a tape to go on, or `LogFull`.
    Refused(JobFault),
    /// A call of the plant was refused by the outside.
    PlantFailed,
    /// A call of the cell was refused by the outside.
    CellFailed,
    /// Memory was refused, before anything was put.
    Memory,
}
