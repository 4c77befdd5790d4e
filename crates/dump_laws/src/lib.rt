//! Laws: what a dump makes of the archive that a plant holds, step by step. Each event of a dump that runs keeps the archive, and each
//! image of it holds the archive of before it, that of after it, or one between them. No code here runs: definitions stand in `specs/`,
//! and each law is the contract of a function without a body. Enter at `RunsIn` in `specs/Running.antt`, which says what is so between
//! two steps, and at `each_event_keeps` and `each_image_of_a_step_holds`. `dump_archives` stands above; `dump_job` and `archive_model`
//! stand below.
#![tactic(auto)]

mod begins;
mod events;
mod steps;
mod texts;

pub use begins::{
    a_begin_keeps_listed_dumps_whole, a_begun_dump_runs, a_first_tape_is_taken_or_appended_to,
    an_appending_dump_runs,
};
pub use events::{
    a_dump_joins_the_archive, each_event_keeps, each_image_holds, each_image_of_an_event_holds,
};
pub use steps::{
    a_dump_runs_behind_loads, a_dump_runs_in_states_alike, each_image_of_a_step_holds,
    each_step_keeps, listed_dumps_stay_whole, what_is_settled_is_not_read,
};
pub use texts::{an_ended_part_is_closed, records_are_read_off_again};
