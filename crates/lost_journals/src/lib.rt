//! Laws: what tapes hold when their journal is lost. It is the archive of the dumps that are whole on them, which a scan lists again,
//! each with its own record. No code here runs: definitions stand in `specs/`, and each law is the contract of a function without a
//! body. Enter at `a_lost_journal_is_scanned_again` and `what_is_scanned_again_is_restored_again`. `rehearsal` stands above;
//! `session_archives` stands below.
#![tactic(auto)]

mod archives;
mod worlds;

pub use archives::{archives_that_list_the_same_restore_the_same, tapes_hold_what_they_held};
pub use worlds::{
    a_lost_journal_is_scanned_again, tapes_hold_without_their_journal,
    what_is_scanned_again_is_restored_again,
};
