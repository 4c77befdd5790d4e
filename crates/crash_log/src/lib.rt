//! A log in one file of a media. A crash at any moment leaves the log from before a call or the one after it. Two
//! slots at the front of the file, of which one is current, name where its bytes stand: `log_of` in `specs/Log.antt`.
//! The state that is kept of a log fits its file: `Fits` in `specs/Fit.antt`; each call asks that and keeps it,
//! unless it answers `Failed`. No call takes memory. Enter at `CrashLog::open`, then at `put` and `commit`, `cut` or
//! `replace`. `plant_media` stands above; `media_core` stands below.
#![tactic(auto)]

mod apart;
mod format;
mod log;
mod mend;
mod open;
mod settle;
mod state;
mod turn;

pub use log::{CrashLog, PutFault};
