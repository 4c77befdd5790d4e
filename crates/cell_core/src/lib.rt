//! Cells: volumes in the order of their names, clones of them, and file servers that stamp each change. An
//! implementation in memory stands beside the trait. A cell's list is in ascending byte order of the names, each name
//! once, at most 65,536 of them, and a good image has the name of its volume (`IsCell` in `specs/Cells.antt`). Enter
//! at the trait `Cell`, and at `CellMem` for a cell in memory; `specs/Calls.antt` says what each call makes of the
//! list. `dir_cell`, which keeps a cell in a folder, stands above, and so do `dump_job` and `restore_target`;
//! `dump_stream`, `vnode_model` and `media_core` stand below.
#![tactic(auto)]

mod answering;
mod backups;
mod calls;
mod cell;
mod changes;
mod fault;
mod forms;
mod laws;
mod listed;
mod lists;
mod looking;
mod mem;
mod places;
mod spoiling;
mod standing;
mod stored;
mod storing;
mod vnodes;
mod volumes;

pub use cell::Cell;
pub use changes::{Change, change_volume};
pub use fault::CellFault;
pub use laws::{
    a_backup_volume_keeps_a_cell_fair, a_call_leaves_its_list, a_clone_is_fair_to_its_dumps,
    a_dump_keeps_a_cell_fair, a_new_id_is_the_least_above_all, a_new_volume_keeps_a_cell_fair,
    a_put_volume_keeps_a_cell_fair, a_removed_vnode_keeps_a_cell_fair,
    a_removed_volume_keeps_a_cell_fair, fewer_dumps_keep_a_cell_fair, time_keeps_a_cell_fair,
    vnodes_are_looked_up_in_their_order, written_data_keeps_a_cell_fair,
};
pub use listed::{Listed, backup_id, free_id, is_full, new_id, place_of};
pub use mem::CellMem;
pub use standing::Standing;
pub use stored::{Image, Stored, Taken};
pub use volumes::{backup_copy, backup_name, new_volume, with_backup_date};
