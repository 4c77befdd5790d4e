//! The course of a dump: its events one after the other until it is done or refused, as a function (`course` in `specs/Courses.antt`),
//! and the loop over its steps that goes it. What a crash leaves of the loop is what the first so many effects of the course leave.
//! Enter at `run_steps`. `dump_commands` stands above; `dump_job` stands below.
#![tactic(auto)]

mod laws;
mod running;
mod stop;

pub use laws::{a_course_goes_by_its_events, a_course_settles_all};
pub use running::{End, run_steps};
pub use stop::DumpStop;
