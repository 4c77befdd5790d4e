//! A dump in steps, so that several dumps may take turns, and a dump may be given up between two of its steps. Each step is one row of
//! the table of events, `event` in `specs/Events.antt`: a few effects on the plant, at most one commit, the dump after it, and an
//! answer. Enter at `Job::check` and `Job::begin`, then at `Job::step` while it answers `More`, and at `Job::settle` for a dump that is
//! given up. `dump_courses` makes all steps of a dump and stands above. `tape_choice`, `tape_writer` and `budb` choose tapes, put
//! frames and commit; they stand below.
//!
//! What holds at every step and in every crash, each with the clause that says it. `does` and `elsewhere` are clauses of `Job::step`;
//! `Steps` and `Does` stand in `specs/Stepping.antt`.
//!
//! 1. A tape is cut only after the journal has forgotten the dump set that it held. That commit is the one of the begin (`begun` of
//!    `Job::begin`), or the one at the end of the part before (`does`, by `part_end_by`). The cut is a later step (`tape_event`).
//! 2. A dump is listed only after its last filemark is put. Its record is the commit that ends the same step (`does`, by
//!    `dump_end_event` and `closing`).
//! 3. A frame is put only where all that must follow it still fits the tape (`does`, by `head_event` and `piece_event`; before each
//!    step `IsAt` in `specs/Jobs.antt`, by `fit` in `Steps`).
//! 4. A dump's id is above every id that was begun or recorded, and not below the time (`begun` of `Job::begin`, by `new_id`).
//! 5. A dump takes no slot twice, and no tape of its own dump set or of its parents' (`right` in `IsBegun`; `does`, by `next_wanting`
//!    and `slot_passes`).
//! 6. All memory of a commit is taken before anything is put or committed. Where memory is refused, dump, database and tapes are as
//!    before, though tapes may have been loaded (`same_job`, `same_budb` and `loads` in `Steps`).
//! 7. A crash leaves what the first so many effects of the step in progress leave (`leaves` in `Does`, and of `Job::begin`).
//! 8. The journal stays a list of changes, and the database is what they make (`form`, `keeps` and `database` in `Does`).
//! 9. A step leaves the tapes in all slots but the one in hand, unless the plant fails (`elsewhere`).
//! 10. A step after which the dump goes on leaves less of it, so that each dump comes to its end (`less` in `Steps`, by `left_of`).
//! 11. Settling a dump that is given up changes no record of any tape (`done` and `elsewhere` of `Job::settle`).
//!
//! Other orders are kept by other crates: what is put on a tape may be lost in a crash until a filemark, a cut or the load of another
//! tape settles it (`plant_core`); a reply is told only after its command's commit (`backup_script`); no effect takes a tape from a
//! dump that is listed after it (`a_dump_keeps_the_archive` in `dump_archives`).
//!
//! # Example
//!
//! ```
//! let mut job = Job::begin(alloc, &mut budb, &mut plant, order)?;
//! let answer = loop {
//!     match job.step(&mut budb, &mut plant, &mut cell) {
//!         StepAnswer::More => {}
//!         answer => break answer, // `Done` with the dump's id, `Refused`, or what failed
//!     }
//! };
//! ```
#![tactic(auto)]

mod answer;
mod beginning;
mod changes;
mod checking;
mod cloning;
mod closing;
mod dump_names;
mod ending;
mod fault;
mod fields;
mod first_tapes;
mod job;
mod naming;
mod next_tapes;
mod order;
mod part_ends;
mod puts;
mod settling;
mod stepping;
mod taping;
mod volumes;

pub use answer::StepAnswer;
pub use fault::JobFault;
pub use fields::{Filled, Hand, JobFields, Phase, Reel};
pub use first_tapes::FirstTape;
pub use job::Job;
pub use order::DumpOrder;
