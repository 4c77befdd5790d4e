//! Where a restored volume goes: its name, its id, and how it comes to stand in a cell. It is put whole, in place of the volume that
//! has the name or as a new one, or the cell stays as it was: `after_restore` in `specs/Targets.antt`. Enter at `target_name`,
//! `target_id` and `put_restored`. `restore_commands` stands above; `cell_core` stands below.
#![tactic(auto)]

mod looking;
mod names;
mod putting;
mod targets;

pub use names::target_name;
pub use putting::put_restored;
pub use targets::target_id;
