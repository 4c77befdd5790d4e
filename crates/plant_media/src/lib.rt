//! A plant over the files of a media: the journal is the log of file 0, the tape of slot `k` that of file `k + 1`. Of
//! all this the journal's state and the loaded tape's are kept, and no call takes memory. What files stand for is in
//! `specs/Stock.antt`. At most one tape is loaded, and what was put on it is settled before another one is loaded.
//! Enter at `MediaPlant::open`; `MediaPlant::into_media` hands the media back. `backup_top` stands above;
//! `plant_core`, whose `Plant` it is, `crash_log` and `media_core` stand below.
#![tactic(auto)]

mod look;
mod open;
mod plant;
mod tape;

pub use open::{OpenFault, Unopened};
pub use plant::MediaPlant;
