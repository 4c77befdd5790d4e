//! The database on a tape of its own. `save` puts the changes of a checkpoint on the least of a coordinator's tapes
//! that carries no dump, `load_back` makes them one commit again where the journal was lost, and `verify` tells of
//! which volumes the chain of dumps is broken. A save tape is a label, a head and data blocks of 16 KiB, and neither
//! head nor data block is a frame of a dump; where one is bad, the record at which it stops being a save is told. A
//! record is taken only where a save goes on with it. Enter at these three calls; `backup_session` and the laws of
//! `save_laws` stand above; `tape_choice`, `archive_model`, `budb` and `log_readings` stand below. The format is this
//! project's own.
#![tactic(auto)]

mod blocks;
mod choosing;
mod fault;
mod firsts;
mod judging;
mod laws;
mod loading;
mod page;
mod reading;
mod saving;
mod verifying;
mod writing;

pub use choosing::{Picked, Wish};
pub use fault::{LoadFault, SaveFault};
pub use laws::{
    a_bad_save_has_one_place, a_save_is_read_in_one_way, a_saved_database_comes_back,
    an_unused_database_is_told, what_is_saved_is_read,
};
pub use loading::load_back;
pub use saving::{Saved, save};
pub use verifying::{Broken, Group, Verified, verify};
