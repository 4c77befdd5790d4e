//! What tapes say, what a scan of one tells and what is found over several, each as one function of the records on
//! them. Definitions in `specs/`, their laws as contracts of functions; the crate is laws alone. Each function gives
//! the one answer that `tape_text` and `tape_scan` allow, as `a_tape_is_read`, `a_scan_tells` and
//! `the_tapes_are_assembled` say. Enter at `items_of` (`specs/Reading.antt`), `sections_of` (`specs/Scanning.antt`),
//! `found_in` (`specs/Assembling.antt`) and `slots_of` (`specs/Slots.antt`). `dump_courses` and `dump_forms` stand
//! above; `tape_scan`, `tape_text` and `tape_frames` stand below.
#![tactic(auto)]

mod laws;

pub use laws::{
    a_block_is_read, a_scan_tells, a_tape_is_read, the_slots_are_read, the_slots_are_scanned,
    the_tapes_are_assembled,
};
