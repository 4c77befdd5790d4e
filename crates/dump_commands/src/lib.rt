//! The command `dump`: which volumes its set has, what it is refused by, what it orders, what it tells of a trial, and the dump from
//! its begin to its end. All of this is one function of the scene that the command finds, `dump_answer` in `specs/Answers.antt`. Enter
//! at `dump`, or at `start_dump`, which begins a dump and goes no step of it; the other calls are laws, and parts that a group of dumps
//! shares. `backup_session` stands above; `dump_courses`, `backup_replies` and `dump_forms` stand
//! below.
#![tactic(auto)]

mod commands;
mod dumping;
mod entries;
mod laws;
mod made;
mod orders;
mod ports;
mod refusals;
mod starts;
mod told;
mod trials;

pub use commands::dump;
pub use entries::entries_of;
pub use laws::{
    a_dump_starts_or_is_refused, a_set_is_expanded, what_a_course_commits_has_bytes,
    what_a_dump_commits_has_bytes, what_a_dump_leaves_has_forms,
};
pub use refusals::fault_line;
pub use starts::start_dump;
pub use told::Dumped;
