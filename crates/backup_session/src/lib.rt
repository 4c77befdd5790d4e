//! The session of the backup service: what each command makes of the journal, the tapes and the cell, and what it replies. A command is
//! one function from the world that it finds to its turn, which has effects, a reply, changes, a time, lists of the cell and the groups:
//! `turn` in `specs/Machine.antt`. The reply is handed back, and the caller tells it. Enter at `Session::open`, then at `Session::exec` for each
//! command. `backup_script` and `rehearsal` stand above; `group_commands`, `dump_commands`, `restore_commands`, `budb_save` and `budb` stand
//! below.
#![tactic(auto)]

mod adding;
mod backing;
mod decide;
mod dumping;
mod dumps;
mod grouping;
mod groups;
mod hosts;
mod labeling;
mod labels;
mod laws;
mod levels;
mod opening;
mod reply;
mod restoring;
mod saving;
mod scanning;
mod session;
mod sets;
mod stops;
mod tapes;
mod verdict;
mod verifying;
mod vos;

pub use groups::Groups;
pub use laws::{
    a_scan_lists_what_is_whole, recorded_dumps_are_found_again, recorded_dumps_are_listed_again,
    what_is_found_has_a_form,
};
pub use reply::Reply;
pub use session::Session;
pub use stops::{OpenStop, Stop};
pub use verdict::Verdict;
