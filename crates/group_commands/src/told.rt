//! What is told of the dumps of the last group.

use bk_text::{LevelPath, SetName};

/// How a dump of a group ended.
#[derive(Clone, Copy, Debug, PartialEq, Eq)]
pub enum JobState {
    /// It is done, and was listed.
    Done,
    /// It was refused behind its begin.
    Refused,
    /// It was killed.
    Killed,
}

/// A dump that the end of a group began.
#[derive(Drop)]
pub struct ToldJob {
    /// Its number among the held dumps, counted from 1.
    pub number: u32,
    /// Its id.
    pub id: u32,
    /// Its volume set.
    pub set: SetName,
    /// Its level.
    pub level: LevelPath,
    /// How it ended.
    pub state: JobState,
}
