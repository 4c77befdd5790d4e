//! What stands on the tapes of dumps, in `specs/`: what a record of a tape says, tape texts, the parts that stand on
//! a tape, dumps that are whole over several tapes, and the record of one. The functions here are laws about these
//! definitions, and no code runs.
//! No type here has an invariant; what a tape of dumps has to be is `IsTape` in `specs/Texts.antt`, and a tape may
//! end after any of its records (`IsText`, `a_front_of_a_text_is_one`).
//! Enter at `IsText`, and at `IsWhole` and `record_by` in `specs/Wholes.antt`. `tape_writer`, `tape_scan` and
//! `archive_model` stand above; `tape_frames`, `budb_changes` and `plant_core` stand below.
#![tactic(auto)]

mod laws;

pub use laws::{
    a_fit_item_is_read, a_front_of_a_text_is_one, no_part_begins_another, one_item, one_reading,
    reads_by_its_record, records_joined,
};
