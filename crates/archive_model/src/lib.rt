//! What tapes and the Backup Database say together: which slots hold a dump, what playing it gives, the archive that
//! a plant holds, and what each effect and each crash makes of it. It has no call of the product: definitions in
//! `specs/`, and their laws as contracts of functions. A held archive keeps what `IsKept` says: each dump has an id
//! of its own, no tape of one is held twice, and a listed dump all of whose tapes are held is found whole on them.
//! Enter at `Archive`, `LooksUp` and `Holds` in `specs/Archives.antt`. `tape_choice`, `dump_job` and `restore_chain`
//! stand above, and so do the laws from `saved_archives` on; `tape_scan`, `tape_writer`, `budb_fold` and `cell_core`
//! stand below.
#![tactic(auto)]

mod holding;
mod images;
mod plays;
mod sources;
mod steps;
mod turns;

pub use holding::{
    a_cut_behind_keeps_what_lies, a_found_dump_is_here, a_log_with_the_same_dumps_holds,
    a_put_keeps_what_lies, a_record_calls_for_its_fragments, a_taken_tape_holds_nothing_listed,
    a_whole_dump_lies_on_its_tapes, blank_tapes_hold_no_dump, dumps_of_a_tape_end_in_order,
    holds_is_said_of_listed_dumps, other_dumps_stay_listed, own_heads_are_held_once,
    recorded_dumps_are_scanned_again, what_is_found_fits_a_record,
    what_is_found_on_some_slots_is_found, what_lies_is_played, what_was_dumped_is_recorded,
    without_its_head_nothing_is_held,
};
pub use images::{
    a_joint_image_holds_the_archive_of_its_count, a_torn_tape_reads, alike_states_hold_alike,
    an_image_holds_the_archive, held_archives_begin_and_end, held_archives_join,
    what_is_settled_holds, what_is_settled_lies_in_each_image,
};
pub use plays::{
    a_chain_plays_to_its_clone, a_dump_gives_its_clone_next, a_dumped_clone_is_given_next,
    a_from_time_is_fair, a_look_up_has_one_outcome, a_play_has_one_outcome,
    what_a_dump_gives_next_is_its_contents, what_is_held_is_the_clone, what_is_made_is_a_volume,
    what_is_played_is_looked_up, what_was_written_is_given, what_was_written_plays_to_its_clone,
};
pub use sources::{
    a_dump_keeps_its_cell_fair, a_fair_cell_gives_clones, a_filled_dump_gives_its_clones,
};
pub use steps::{
    a_cut_keeps_own_heads, a_filemark_closes_its_part_alone, a_label_is_held,
    a_put_begins_its_head_alone, a_put_keeps_own_heads, a_taken_tape_is_held,
    an_appended_tape_is_held, an_id_above_all_heads_is_new, an_id_above_all_is_new,
    frames_within_a_part_are_held, own_heads_are_not_anew, remaining_dumps_were_dumps,
    settled_parts_are_a_settled_dump, the_end_of_a_dump_is_held, the_end_of_a_part_is_held,
    the_end_of_a_volume_is_held, the_last_part_makes_a_dump_found,
    the_listed_dumps_behind_a_commit,
};
pub use turns::{
    a_commit_that_touches_no_dump_keeps_all, a_cut_keeps_what_is_listed,
    a_put_in_mid_dump_keeps_all, a_replaced_log_keeps_all, a_take_keeps_what_is_whole,
    a_whole_dump_is_listed, settling_keeps_all, several_forgets_keep_what_is_whole,
    the_end_of_a_dump_adds_it, the_end_of_a_part_keeps_all, told_text_keeps_all,
};
