//! The program over what it opens, reads and prints to: a script is run in folders, all else as `backup_top` has it.
//! Replies are told to the media that were opened. What couldn't be opened is told with its path and its cause, and
//! no line of the script is read then. Enter at `program`. `backup_cli` stands above; `backup_top` and `host_edge`
//! stand below.
#![tactic(auto)]

mod folders;
mod refused_line;

pub use folders::program;
