//! Laws: a whole dump keeps the archive that the plant holds, effect by effect, and after it the next dump finds all that a dump asks.
//! No effect takes a tape from a dump that is listed after it. No code here runs: definitions stand in `specs/`, and each law is the
//! contract of a function without a body. Enter at `a_dump_keeps_the_archive` and `what_a_dump_asks_is_so_behind_it`.
//! `session_archives` stands above; `dump_laws` and `dump_commands` stand below.
#![tactic(auto)]

mod laws;

pub use laws::{
    a_dump_keeps_the_archive, a_dump_leaves_known_contents, contents_of_no_dump_are_free,
    what_a_dump_asks_is_so_behind_it, what_has_forms_is_formed,
};
