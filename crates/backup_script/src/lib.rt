//! Scripts: their lines, what each line says, and the loop that runs one line after the other. A line is run as soon as it is complete;
//! its command is done before its reply is told, and its whole reply is told before the next line. What comes of all lines is `script`
//! in `specs/Scripts.antt`. Enter at `run_on`, which opens a session, or at `run_script` with one that is open. `backup_top` stands
//! above; `backup_session` stands below.
#![tactic(auto)]

mod item;
mod laws;
mod lines;
mod next_line;
mod running;
mod serve;
mod serving;
mod watch;

pub use item::Item;
pub use laws::{fronts_of_scripts, scripts_that_ask_no_archive};
pub use lines::MOST;
pub use running::{RunStop, run_on};
pub use serve::run_script;
pub use serving::ServeStop;
