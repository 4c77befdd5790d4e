//! Which tape a dump takes or is appended to, by the listed dumps and by the labels and heads on tapes. No tape is taken whose dump set
//! has an unexpired listed dump, is the dump's own, or has one of the dump's parents: `label_passes` in `specs/Choice.antt`. A search
//! changes no record. Enter at `choose_tape`, which finds the least slot whose tape may be taken, and at `find_append`, which finds the
//! place after the last dump of a volume set. `dump_job` stands above; `archive_model` and `tape_scan` stand below.
#![tactic(auto)]

mod appending;
mod choosing;
mod fault;
mod labels;
mod lasts;
mod laws;
mod parents;
mod places;
mod reading;
mod survey;
mod wanting;

pub use appending::find_append;
pub use choosing::{Chosen, choose_tape};
pub use fault::ChoiceFault;
pub use laws::parents_are_those_reached;
pub use parents::initials_above;
pub use places::{Appending, Place};
pub use wanting::Wanting;
