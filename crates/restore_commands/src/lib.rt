//! Restores as commands: of one volume, of the volumes of a partition, and of those of a volume set. Each volume is one look-up in what
//! the tapes hold, and goes into the cell whole: `volume_answer` in `specs/Answers.antt`. Of several volumes one that is refused has
//! its line, and those after it are restored. They are taken sixteen at a time, and a batch loads each tape once for each dump on it:
//! `batch_loads` in `specs/Batches.antt`. A trial tells what would be restored, and leaves the cell. Enter at `restore_volume`,
//! `restore_disk` and `restore_set`. `backup_session` stands above; `mount_plan`, `restore_chain` and `restore_target` stand below.
#![tactic(auto)]

mod bases;
mod batches;
mod choosing;
mod commands;
mod lines;
mod manner;
mod places;
mod played;
mod restoring;
mod stops;
mod told;

pub use bases::names_stand_once_in_order;
pub use choosing::a_match_is_tested;
pub use commands::{restore_disk, restore_set, restore_volume};
pub use manner::Manner;
pub use stops::RestoreStop;
