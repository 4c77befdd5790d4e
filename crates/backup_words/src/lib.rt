//! The commands of a script and the program's own words: what each word says, and which line is refused by what. The table of options
//! stands in `specs/Table.antt`. A line gives exactly the command or the refusal that `command_of` in `specs/Commands.antt` says,
//! unless memory runs out. Enter at `Command::parse` for a line, and at `outer` for the program's words. `backup_replies` and the
//! crates of commands stand above; `dump_levels` and `volume_sets` stand below.
//!
//! # Example
//!
//! ```
//! // Ok(Command::Database(DatabaseCommand::Addvolset { .. }))
//! let read = Command::parse(alloc, b"addvolset -name users");
//! // Err(WordFault::MissingOption { option }), where `option` is -name
//! let refused = Command::parse(alloc, b"addvolset");
//! ```
#![tactic(auto)]

mod building;
mod checks;
mod command;
mod faults;
mod first_words;
mod forms;
mod kinds;
mod modes;
mod options;
mod parse;
mod reading;
mod table;
mod values;
mod words;

pub use command::{
    CellCommand, Command, DatabaseCommand, Disk, DumpCommand, GroupCommand, RestoreCommand,
    RestoredVolumes, TapeCommand, Wanted,
};
pub use faults::WordFault;
pub use modes::{Mode, OuterFault, outer};
