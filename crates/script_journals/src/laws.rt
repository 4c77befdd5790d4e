//! What is so of every command and of every script.

ghost use Rattle.std.specs.Prelude.{ℕ, List as AnyList};
ghost use Rattle.budb_changes.specs.Forms.{AreChanges};
ghost use Rattle.backup_words.specs.declared.command.Command.{Command as AnyCommand};
ghost use Rattle.backup_session.specs.Worlds.{World, after_turn};
ghost use Rattle.backup_session.specs.Bounded.{HasTapes};
ghost use Rattle.backup_session.specs.Machine.{turn};
ghost use Rattle.backup_script.specs.Scripts.{script};
ghost use Rattle.command_forms.specs.Forms.{HasForms};
ghost use Rattle.dump_forms.specs.Journals.{IsJournalAfter};
ghost use Rattle.script_journals.specs.Dumping.{IsFormedFor};
ghost use Rattle.script_journals.specs.Worlds.{IsWorldForm};

use bk_text::form_tests;
use group_laws::{what_an_end_commits_has_bytes, what_an_end_leaves_has_forms};

/// Each commit of a script is of changes, and so is the list of each checkpoint, where the journal is of changes that it begins with: whatever
/// its lines are, the journal is the list of changes that these make. Where a line dumps, the world has its forms; of lines without a dump no
/// more is asked than tapes as long as a plant's are.
pub fn journals_of_scripts()
    ensures { (w : World) (moments : AnyList ℕ) (lines : AnyList (AnyList ℕ)) → HasTapes w → AreChanges w.log → IsFormedFor w lines → IsJournalAfter w.log (script w moments lines).effects (script w moments lines).world.log }
{
    form_tests();
    what_an_end_commits_has_bytes();
    what_an_end_leaves_has_forms();
}

/// Where a world has its forms it has them behind each command whose fields have theirs, and its journal is that of the command's changes.
pub fn commands_keep_forms()
    ensures journal { (w : World) (now : ℕ) (command : AnyCommand) → IsWorldForm w → HasForms command → IsJournalAfter w.log (turn w now command).effects (turn w now command).log }
    ensures forms { (w : World) (now : ℕ) (command : AnyCommand) → IsWorldForm w → HasForms command → IsWorldForm (after_turn w (turn w now command)) }
{
    form_tests();
    what_an_end_commits_has_bytes();
    what_an_end_leaves_has_forms();
}

/// Where a world has its forms it has them behind each script.
pub fn scripts_keep_forms()
    ensures { (w : World) (moments : AnyList ℕ) (lines : AnyList (AnyList ℕ)) → IsWorldForm w → IsWorldForm (script w moments lines).world }
{
    form_tests();
    what_an_end_commits_has_bytes();
    what_an_end_leaves_has_forms();
}
