//! Laws: a session keeps the archive that its plant holds, after each command and each script, on the way of it, and in what a crash
//! leaves. No effect of a command takes a tape from a dump that is listed after it. What a dump asks of the world is `IsReady` in
//! `specs/Ready.antt`. No code here runs: each law is the contract of a function without a body. Enter at `commands_keep_the_archive`,
//! `scripts_keep_the_archive` and `images_hold_the_archive`. A saved database fits the tapes of later: `what_was_saved_fits_back`.
//! `lost_journals` and `backup_top` stand above; `dump_archives`, `save_laws`, `saved_archives` and `script_journals` stand below.
#![tactic(auto)]

mod laws;

pub use laws::{
    absent_tapes_stay, blank_worlds_are_ready, blank_worlds_hold_no_dump,
    commands_keep_the_archive, commands_keep_what_reads_give, commands_leave_a_ready_world_ready,
    images_hold_the_archive, images_open_to_their_archive, opened_worlds_have_their_forms,
    ready_worlds_have_forms, restores_look_up, scans_list_what_is_whole, scripts_keep_the_archive,
    scripts_leave_a_ready_world_ready, what_was_saved_fits_back, worlds_at_rest_hold,
};
