//! What functions that are lent a plant do to it, as lists of effects, and how promises about crashes are joined over
//! them: definitions in `specs/`, lemmas in `proofs/`. Each kind of call on a plant stands here as a function that
//! says so. A call that went well has done all its effects, `Done`, and any call leaves no more than what a crash
//! leaves on their way, `Leaves`: both in `specs/Runs.antt`. Enter at `append_whole` for the log, `put_block` for a
//! tape and `tell_whole` for the output. `budb_journal`, `tape_writer` and `tape_scan` stand above; `plant_core`
//! stands below.
#![tactic(auto)]

mod log;
mod tape;
mod telling;
mod whole;

pub use log::{append_whole, read_log, replace_whole};
pub use tape::{cut_to, get_record, load_tape, peek_record, put_block, put_mark};
pub use telling::tell_whole;
pub use whole::{is_whole, takes_record};
