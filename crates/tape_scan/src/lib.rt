//! What scans of tapes find: the parts of dumps that stand on each, and the dumps that are whole over all of them.
//! Definitions in `specs/`, their laws as contracts of functions. A scan takes the longest front of a tape that is a
//! tape text (`IsFront` in `specs/Scans.antt`), so that of one tape just one `Sections` is told
//! (`one_tape_is_told_once`). Enter at `scan_tape` for the tape in a slot, then at `assemble` for the scans of
//! several; `Scanned` in `specs/Scanned.antt` says what that gives. `backup_session` calls both and stands above;
//! `tape_text`, `tape_frames`, `budb_changes` and `plant_effects` stand below.
#![tactic(auto)]

mod assembling;
mod assembling_chains;
mod assembling_flags;
mod assembling_next;
mod assembling_records;
mod laws;
mod scanning;
mod scanning_item;
mod scanning_laws;
mod scanning_rules;
mod scanning_sections;
mod scanning_steps;
mod scanning_walk;
mod sections;

pub use assembling::{Found, PartId, assemble};
pub use laws::{
    a_dump_is_found_once, a_scanned_head_is_begun, a_scanned_part_is_closed,
    a_text_is_a_tape_opened, an_open_part_is_not_closed, one_answer, one_part_more_is_a_tape,
    one_scan,
};
pub use scanning::scan_tape;
pub use scanning_laws::{no_tape_is_unread, one_tape_is_told_once};
pub use sections::{FragFound, PartFound, ScanFault, Sections};
