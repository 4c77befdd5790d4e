//! Dumps that are made together: a group holds them, and its end begins them one after the other and lets them take turns by a schedule. A
//! group never holds two dumps to one port (`IsGroup` in `specs/Groups.antt`). Enter at `Group`, and at `end_group`, which does what
//! `group_answer` in `specs/Answers.antt` says, as one list of effects. The session stands above; `dump_commands` checks and begins each
//! dump, and `job_pool` takes the turns; they stand below.
#![tactic(auto)]

mod began;
mod beginning;
mod ending;
mod group;
mod killing;
mod laws;
mod lines;
mod telling;
mod told;

pub use began::Began;
pub use ending::{Ended, end_group};
pub use group::Group;
pub use laws::{a_group_begins_first, a_group_settles_all};
pub use telling::jobs_text;
pub use told::{JobState, ToldJob};
