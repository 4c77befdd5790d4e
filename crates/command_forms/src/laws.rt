//! What is so of every line that says a command.

ghost use Rattle.std.specs.Prelude.{◌≡◌, ℕ, List as AnyList, Ok};
ghost use Rattle.backup_words.specs.declared.command.Command.{Command as AnyCommand};
ghost use Rattle.backup_words.specs.Commands.{command_of};
ghost use Rattle.command_forms.specs.Forms.{HasForms};
ghost use Rattle.command_forms.specs.NewNames.{NamesApart};

/// The fields of a command that a line says have the forms in which the journal, tapes and the cell write them: names of sets, hosts, partitions and
/// volumes, patterns, paths of dump levels, expirations, names of tapes, data, and numbers of two and of four bytes.
pub fn parsed_commands_have_forms()
    ensures { (line : AnyList ℕ) (command : AnyCommand) → command_of line ≡ Ok command → HasForms command }
{}

/// No line makes a volume under a name that ends in `.backup`.
pub fn made_volumes_have_other_names()
    ensures { (line : AnyList ℕ) (command : AnyCommand) → command_of line ≡ Ok command → NamesApart command }
{}
