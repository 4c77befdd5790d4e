//! Laws: the end of a group, which begins its dumps and lets them take turns, keeps the archive that the plant holds, effect by effect, and
//! after it the next command finds all that a dump asks; what it commits can be written. No code here runs: each law is the contract of a
//! function without a body. Enter at `an_end_keeps_the_archive`. `session_archives` stands above; `group_commands` has the definitions, and
//! `pool_laws` the laws of turns; they stand below.
#![tactic(auto)]

mod forms;
mod laws;

pub use forms::{what_an_end_commits_has_bytes, what_an_end_leaves_has_forms};
pub use laws::{
    an_end_keeps_the_archive, an_end_leaves_known_contents, what_a_dump_asks_is_so_behind_an_end,
};
