//! Numbers and texts as they stand in bytes, one behind another: their formats, and reading and writing them. A value
//! that was read is of its form, and the bytes before those that are left are the ones that spell it. A refusal tells
//! how many bytes are left from the first one with which no value goes on. Enter at `Format` in `specs/Formats.antt`,
//! then at the calls `read_..` and `put_..`; those of `front_..` read without memory. `budb_changes` and
//! `tape_frames` stand above; `bk_text` stands below.
#![tactic(auto)]

mod empty;
mod fault;
mod fields;
mod fronts;
mod text;
mod writing;

pub use empty::{is_maybe_host, is_maybe_tape_name};
pub use fault::ReadFault;
pub use fields::{
    read_any_host, read_any_part, read_base, read_four, read_host, read_level, read_maybe_host,
    read_maybe_tape_name, read_name, read_one, read_part, read_set, read_two, read_word_of,
};
pub use fronts::{
    front_four, front_four_in, front_level, front_maybe, front_one, front_text1, front_two,
};
pub use text::Text;
pub use writing::{put_any_host, put_any_part, put_four, put_text1, put_text2, put_two};
