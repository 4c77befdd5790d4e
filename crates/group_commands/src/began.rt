//! What became of a held dump when its group ended.

use bk_text::Bytes;

/// What became of a held dump.
#[derive(Drop)]
pub enum Began {
    /// It was refused before anything of it was written, and this is its line.
    Refused(Bytes),
    /// It was begun, and has this number in the pool, counted from 0.
    Runs(u32),
}
