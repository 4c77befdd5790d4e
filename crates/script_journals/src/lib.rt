//! Laws: the journal of a script is a list of changes at each moment, whatever the script says; and a world that has its forms has them
//! after each command. No code here runs: definitions stand in `specs/`, and each law is the contract of a function without a body.
//! Enter at `journals_of_scripts` and `commands_keep_forms`. `session_archives` stands above; `backup_script`, `dump_forms`,
//! `cell_forms` and `command_forms` stand below.
#![tactic(auto)]

mod laws;

pub use laws::{commands_keep_forms, journals_of_scripts, scripts_keep_forms};
