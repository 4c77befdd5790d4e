//! Turns of dumps, and kills that a schedule makes of them.

/// A turn: a dump of a number, counted from 0, makes its next step, or is killed.
#[derive(Clone, Copy, Debug, PartialEq, Eq)]
pub enum Turn {
    /// The dump makes its next step.
    Step(u32),
    /// The dump is killed.
    Kill(u32),
}

/// A kill by a schedule: the dump of this number is killed at its first turn behind so many of its steps.
#[derive(Clone, Copy, Debug, PartialEq, Eq)]
pub struct Kill {
    /// The dump's number, counted from 0.
    pub job: u32,
    /// How many steps it has made by then.
    pub after: u32,
}
