//! Laws: the fields of every command have the forms in which the journal, tapes and the cell write them, `HasForms` in
//! `specs/Forms.antt`. So it is by their types, and so of the words of a line that spells a command. `vos create` makes no volume under
//! a name that ends in `.backup`. No code here runs in the program. Enter at `commands_have_forms` for any command, and at
//! `parsed_commands_have_forms` for one that a line says. `script_journals` stands above; `backup_words` stands below.
#![tactic(auto)]

mod laws;
mod typed;

pub use laws::{made_volumes_have_other_names, parsed_commands_have_forms};
pub use typed::commands_have_forms;
