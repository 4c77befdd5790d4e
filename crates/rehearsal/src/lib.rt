//! The program's rehearsal of itself, in memory: volumes are made and dumped onto four tapes, the journal is lost and a tape is out,
//! and scans and restores get the volumes back. What it tells is one function of the number of volumes, `rehearsed` in
//! `specs/Rehearsed.antt`. It touches no file. Enter at `rehearse`. `backup_top` stands above; `backup_session` and `lost_journals`
//! stand below.
#![tactic(auto)]

mod batch;
mod commands;
mod copies;
mod finding;
mod lines;
mod names;
mod playing;
mod rehearsing;
mod sessions;
mod tapes;

pub use rehearsing::rehearse;
