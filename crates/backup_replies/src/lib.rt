//! The texts that the program tells: the table of refusals, the lines of replies, and the reply to a line that is no command. Each text
//! is, byte by byte, the one that `specs/` defines. Enter at `Refusal` for the table, at `fault_line` for a line that is no command,
//! and else at the call that is named for what it tells, as `levels_lines` is. `dump_commands`, `restore_commands` and `backup_session`
//! stand above; `backup_words` stands below.
#![tactic(auto)]

mod dump_lists;
mod dumps;
mod faults;
mod groups;
mod hosts;
mod labels;
mod levels;
mod putting;
mod refusals;
mod refused;
mod restores;
mod saves;
mod scans;
mod sets;
mod told;
mod volumes;

pub use dump_lists::{deleted_lines, dumps_lines, put_history};
pub use dumps::whole_dump_lines;
pub use faults::fault_line;
pub use groups::{held_line, put_job, put_killed};
pub use hosts::hosts_lines;
pub use labels::{label_lines, labeled_lines};
pub use levels::levels_lines;
pub use putting::{ok_line, put_ok};
pub use refusals::Refusal;
pub use refused::{
    put_refused_number, put_refused_numbers, refused_alone, refused_at, refused_number,
    refused_numbers, refused_word,
};
pub use restores::{
    put_made, put_need, put_restored, put_would_dump, put_would_restore, put_would_volume,
};
pub use saves::{back_lines, put_broken, put_dumpset, put_lost, put_verified, saved_lines};
pub use scans::{put_added, put_found};
pub use sets::{set_reply, sets_lines};
pub use told::has_refusal;
pub use volumes::put_listed;
