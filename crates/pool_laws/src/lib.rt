//! What dumps that take turns make of the archive that a plant holds: each begin beside others, each turn, and each list of turns keeps it,
//! effect by effect, and so does what a crash leaves between and within them. The invariant is `AllUnderway` in `specs/Underway.antt`; once
//! no dump runs all is settled, and the next command finds what it asks. It has no call of the product: definitions in `specs/`, and their
//! laws as contracts of functions. It stands on the turns of `job_pool` and on the laws of one dump in `dump_laws` and `dump_archives`.
#![tactic(auto)]

mod laws;

pub use laws::{
    a_dump_begins_beside_others, a_dump_runs_beside_another, a_group_keeps_the_archive,
    a_turn_leaves_other_ports, all_is_so_before_and_behind, contents_of_all_are_those_of_each,
    each_turn_keeps_the_archive, images_of_turns_hold_the_archive, turns_keep_the_archive,
    what_came_comes_on_behind_turns,
};
