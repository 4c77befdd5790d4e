//! The program as a library: its top call, and the program over whatever it reads and prints to. The clauses of `run` are what the
//! program promises, and `docs/PROMISES.md` goes through them. Each exit status has its cause in a clause. Enter at `run` for a mode
//! over media, a cell, a clock and a source; at `program` for all that needs no folder. `backup_program` stands above; `rehearsal`,
//! `backup_script` and the laws of sessions stand below.
#![tactic(auto)]

mod archives;
mod edge;
mod input;
mod lines;
mod refusals;
mod run_mode;
mod running;
mod status;
mod statuses;
mod telling;
mod top;
mod words;

pub use archives::{an_image_is_an_entry, an_image_is_not_refused};
pub use edge::{explain, program, words_of};
pub use status::Status;
pub use top::run;
pub use words::{Asked, asked_by};
