//! Dump levels: the tree of their paths, and when the dumps of each expire. `Levels` lists them in the order of
//! adding: one is added once, and only where the level above it is there, and goes with all below it. Times are
//! seconds since 1970 in UTC, and years, months and days are added by the calendar. Enter at `Levels::add` and
//! `Levels::expiry_of`, and for words at `parse_expiry` and `parse_date`. `budb_fold` and `backup_words` stand above;
//! `bk_text` and `jiff` stand below.
#![tactic(auto)]

mod above;
mod calendar;
mod dates;
mod expiries;
mod levels;
mod spans;

pub use dates::{DateFault, parse_date};
pub use expiries::parse_expiry;
pub use levels::{Level, LevelFault, Levels};
