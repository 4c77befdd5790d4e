//! How far a volume was played, one of several.

use crate::told::Told;
use bk_text::{List, Name, TapeName};
use restore_chain::Kept;
use vnode_model::Volume;

/// The first tape of a chain that no slot here holds.
#[derive(Drop)]
pub struct Missed {
    /// Its name.
    pub name: TapeName,
    /// The id of the first dump of its dump set.
    pub initial: u32,
}

/// A chain that is played.
#[derive(Drop)]
pub struct Going {
    /// The name of the volume that was found.
    pub(crate) name: Name,
    /// The dumps of the chain, the whole one first.
    pub(crate) dumps: List<u32>,
    /// How many of them were passed: no tape of theirs is missing.
    pub(crate) played: usize,
    /// What they made.
    pub(crate) volume: Option<Volume>,
    /// The fault of the first one that has one. Those behind it aren't read.
    pub(crate) fault: Option<Told>,
    /// The first tape that is missing. It is told before all faults.
    pub(crate) missing: Option<Missed>,
    /// What is kept of the fragments of the next dump; empty where nothing was begun.
    pub(crate) kept: Vec<Kept>,
}

/// How far a volume was played.
#[derive(Drop)]
pub enum Course {
    /// No dump has it.
    NoDump,
    /// This dump of its chain is missing.
    MissingDump(u32),
    /// Its chain is played.
    Going(Going),
}
