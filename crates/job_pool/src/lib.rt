//! Dumps that take turns, on ports that have no slot in common, as up to sixteen coordinators do: each turn is the
//! next step of one of them, or its kill, which settles the tape that it cut last. `specs/Pools.antt` says what a
//! turn and a list of turns do, `specs/Schedules.antt` whose turn is next by a schedule, and `specs/PoolCourses.antt`
//! what comes of all turns. A pool is made by `Pool::new`, takes dumps that were begun by `Pool::add`, and runs by
//! `Pool::turn` or `Pool::run`; unless the plant fails, a turn leaves the tapes of other ports as they were.
//! `group_commands` stands above. The steps of one dump in `dump_job` and their course in `dump_courses` stand below.
#![tactic(auto)]

mod ends;
mod jobs;
mod laws;
mod pool;
mod running;
mod schedules;
mod stop;
mod turn;
mod turns;

pub use ends::JobEnd;
pub use jobs::PoolJob;
pub use laws::{a_dump_alone_goes_its_course, dumps_by_a_schedule_end};
pub use pool::Pool;
pub use stop::PoolStop;
pub use turn::{Kill, Turn};
