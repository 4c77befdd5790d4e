//! Laws of tapes since a moment: what lay there of a dump that was listed then lies there wherever it is held,
//! whether the dump was forgotten or not. So an archive that lists again what was listed then is held, by the tapes
//! that there are now. What tapes are to what they were is `IsSince`, and an archive that came of another is
//! `ComesOf`, both in `specs/Since.antt`. No code here runs: each law is the contract of a function without a body.
//! Enter at `what_was_listed_is_held_again`. `dump_laws` to `session_archives` stand above; `archive_model` and
//! `tape_scan` stand below.
#![tactic(auto)]

mod laws;

pub use laws::{
    a_cut_at_an_end_takes_dumps_whole, a_cut_tape_is_since, a_put_is_since,
    a_text_that_goes_on_is_since, tapes_are_since_themselves, what_came_since_joins,
    what_comes_of_archives_joins, what_is_given_next_stays, what_was_listed_is_held_again,
};
