//! Laws: what a dump commits can be written. The changes that begin a dump, and those of each of its events, have the forms in which
//! the journal writes them. No code here runs: definitions stand in `specs/`, and each law is the contract of a function without a
//! body. Enter at `a_begun_dump_has_forms` and `each_event_has_forms`. `dump_commands` and the laws of scripts stand above; `dump_job`
//! stands below.
#![tactic(auto)]

mod laws;

pub use laws::{
    a_begun_dump_has_forms, each_clone_is_allowed, each_event_has_forms, each_event_is_journaled,
    what_tapes_say_fits,
};
