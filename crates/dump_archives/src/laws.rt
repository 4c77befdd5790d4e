//! Laws, each the contract of a function without a body of its own.

ghost use Rattle.std.specs.Prelude.{◌≡◌, ℕ, Result, List as AnyList, Contains};
ghost use Rattle.vnode_model.specs.declared.volumes.VolumeFields.{VolumeFields as AnyVolume};
ghost use Rattle.plant_core.specs.Crashes.{State};
ghost use Rattle.budb_changes.specs.declared.records.DumpRecordFields.{DumpRecordFields};
ghost use Rattle.archive_model.specs.Archives.{Archive, Refusal};
ghost use Rattle.archive_model.specs.Settled.{HoldsSettled};
ghost use Rattle.archive_model.specs.Turns.{with_contents};
ghost use Rattle.dump_job.specs.declared.fields.JobFields.{JobFields};
ghost use Rattle.dump_forms.specs.Forms.{HasForms};
ghost use Rattle.dump_laws.specs.Keeping.{IsFormed};
ghost use Rattle.dump_courses.specs.Scenes.{Scene, database_in};
ghost use Rattle.backup_words.specs.declared.command.DumpCommand.{DumpCommand as AnyCommand};
ghost use Rattle.dump_commands.specs.Forms.{IsCommandForm};
ghost use Rattle.dump_commands.specs.Answers.{Contents as AnyContents, dump_answer};
ghost use Rattle.dump_archives.specs.Asking.{AsksOfScene};
ghost use Rattle.dump_archives.specs.Keeping.{IsKnown, HoldsOnTheWay, EachKeepsListed, ComesSince, AsksBehind};

use tape_answers::a_tape_is_read;

/// A dump that has its forms, as a begun one has and each event leaves them, has those that its steps ask: its label fits, what is left of its stream is
/// bytes, and four bytes count those that stand in the fragment.
pub fn what_has_forms_is_formed()
    ensures { (j : JobFields) → HasForms j → IsFormed j }
{}

/// An archive says nothing of contents under an id that none of its dumps has: with others there it is held as it was.
pub fn contents_of_no_dump_are_free()
    ensures { (s : State) (a : Archive) (records : AnyList DumpRecordFields) (contents : ℕ → AnyList ℕ → Result AnyVolume Refusal) → HoldsSettled s a records
        → ((d : DumpRecordFields) (name : AnyList ℕ) → Contains records d → contents d.id name ≡ a.contents d.id name) → HoldsSettled s (with_contents a contents) records }
{}

/// A dump keeps the archive that the plant holds, where what it finds is in order. Behind each of its effects, however many, the archive is held
/// settled, already with the contents of the dump that is made; its dumps have ids that are known behind the dump. And
/// no effect takes a tape from a dump that is listed behind it. What the archive came of it comes of behind the dump,
/// as far as dumps are concerned whose ids were known.
pub fn a_dump_keeps_the_archive()
    ensures on_the_way { (s : Scene) (command : AnyCommand) (contents : AnyContents) (records : AnyList DumpRecordFields) → IsCommandForm command → AsksOfScene s contents records
        → HoldsOnTheWay s (dump_answer s command) contents }
    ensures listed { (s : Scene) (command : AnyCommand) (contents : AnyContents) (records : AnyList DumpRecordFields) → IsCommandForm command → AsksOfScene s contents records
        → EachKeepsListed s (dump_answer s command).effects }
    ensures since { (s : Scene) (command : AnyCommand) (contents : AnyContents) (records : AnyList DumpRecordFields) → IsCommandForm command → AsksOfScene s contents records
        → ComesSince s (dump_answer s command) contents }
{
    a_tape_is_read();
}

/// Behind a dump, be it made or refused, all that a dump asks is so again, of the archive with the dump's contents: the cell is fair to the dumps
/// that there are then, and each id on a tape is known or past.
pub fn what_a_dump_asks_is_so_behind_it()
    ensures { (s : Scene) (command : AnyCommand) (contents : AnyContents) (records : AnyList DumpRecordFields) → IsCommandForm command → AsksOfScene s contents records
        → AsksBehind s (dump_answer s command) ((dump_answer s command).contents contents) }
{
    a_tape_is_read();
}

/// A dump leaves all contents under ids that are known when it begins: those under its own new id alone join.
pub fn a_dump_leaves_known_contents()
    ensures { (s : Scene) (command : AnyCommand) (contents : AnyContents) (records : AnyList DumpRecordFields) → IsCommandForm command → AsksOfScene s contents records
        → (d : DumpRecordFields) (name : AnyList ℕ) → IsKnown s.time (database_in s).greatest d → (dump_answer s command).contents contents d.id name ≡ contents d.id name }
{
    a_tape_is_read();
}
