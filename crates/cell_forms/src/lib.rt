//! Laws: a cell keeps its form at each call. The form is `IsCellForm` in `specs/Forms.antt`: names in order, no more volumes than a
//! cell takes, and each volume as its types allow it. No code here runs: each law is the contract of a function without a body. There
//! is one law for each call on a cell, as `written_data_keeps_the_form`. `script_journals` stands above; `cell_core` and
//! `restore_target` stand below.
#![tactic(auto)]

mod laws;

pub use laws::{
    a_backup_volume_keeps_the_form, a_new_volume_keeps_the_form, a_put_volume_keeps_the_form,
    a_removed_vnode_keeps_the_form, a_removed_volume_keeps_the_form,
    a_restored_volume_keeps_the_form, written_data_keeps_the_form,
};
