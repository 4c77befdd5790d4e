//! Commands that are given at one moment.

use backup_words::Command;
use bk_text::List;

/// Commands that are given one after the other, all at one moment of the clock, in seconds since 1970.
#[derive(Drop)]
pub struct Batch {
    pub now: u64,
    pub commands: List<Command>,
}
