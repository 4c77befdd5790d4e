//! Texts and number fields of the backup service: names with their forms, words and numbers in texts, a reader and a
//! writer of big-endian fields, and a list that contracts see as a list. Each type of a name keeps its form: `Name`,
//! `Part`, `Host`, `SetName`, `TapeName` and `LevelPath` have only bytes of their alphabet, 1 to a stated most of
//! them. Enter at the `parse` of a name for what a user writes, where a fault tells its place, and at `from_bytes`
//! for bytes that were tested before. `Cursor` reads fields, and `Out` writes them. No crate of the service stands
//! below it; nearly all stand above, first of all `byte_formats` and `vnode_model`.
#![tactic(auto)]

mod blanks;
mod cursor;
mod digits;
mod expiry;
mod forms;
mod host;
mod level_path;
mod list;
mod name;
mod numbers;
mod out;
mod part;
mod set_name;
mod stated;
mod tape_name;
mod texts;
mod words;

pub use blanks::{place_of, split_word};
pub use cursor::{Cursor, Short};
pub use digits::{capped_number, digits_in, long_digits_in};
pub use expiry::Expiry;
pub use forms::form_tests;
pub use host::Host;
pub use level_path::LevelPath;
pub use list::{Bytes, List};
pub use name::Name;
pub use numbers::{bytes_of_u16, bytes_of_u32, bytes_of_u64, read_u16, read_u32, read_u64};
pub use out::Out;
pub use part::{Part, without_slash};
pub use set_name::SetName;
pub use stated::{fault_in_stated, fault_in_stated_path};
pub use tape_name::TapeName;
pub use texts::TextFault;
pub use words::{Alphabet, fault_in, is_word};
