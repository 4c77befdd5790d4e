//! The words that stand for small numbers. Some begin others.

use bk_text::Expiry;

/// Names of volume sets.
pub const SETS: [&str; 3] = ["a", "ab", "daily"];

/// Paths of levels.
pub const LEVELS: [&str; 7] = [
    "/full",
    "/full/i1",
    "/full/i1/d",
    "/full/i2",
    "/other",
    "/other/i1",
    "/fuller",
];

/// The places of the levels above them.
pub const UPPERS: [Option<u32>; 7] = [None, Some(0), Some(1), Some(0), None, Some(4), None];

/// Expirations.
pub const EXPIRIES: [Expiry; 4] = [
    Expiry::Unset,
    Expiry::Never,
    Expiry::At(1700000000),
    Expiry::In {
        years: 1,
        months: 2,
        days: 3,
    },
];

/// Names of hosts, which servers have too; the first stands for any server.
pub const HOSTS: [&str; 3] = ["", "fs1", "backup.example.org"];

/// Names of partitions; the first stands for any.
pub const PARTS: [&str; 3] = ["", "vicepa", "vicepbb"];

/// Bytes of patterns.
pub const PATTERNS: [&str; 4] = [".*", "user.[a-c]", "a", "*a"];

/// The place of the one that is no pattern.
pub const NO_PATTERN: u32 = 3;

/// The name of each dump's volumes, and that of its tapes.
pub const VOLUME: &str = "user.a";

pub const BASE: &str = "a.full";

/// The word at a place; the empty one where there is none.
pub fn word(words: &[&'static str], at: u32) -> &'static str {
    match words.get(at as usize) {
        Some(word) => *word,
        None => "",
    }
}
