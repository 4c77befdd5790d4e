//! Laws on the end of a group and the archive, each the contract of a function without a body of its own.

ghost use Rattle.std.specs.Prelude.{◌≡◌, ℕ, List as AnyList};
ghost use Rattle.budb_changes.specs.declared.records.DumpRecordFields.{DumpRecordFields};
ghost use Rattle.dump_courses.specs.Scenes.{Scene, database_in};
ghost use Rattle.dump_commands.specs.Answers.{Contents as AnyContents};
ghost use Rattle.dump_archives.specs.Asking.{AsksOfScene};
ghost use Rattle.dump_archives.specs.Keeping.{IsKnown, HoldsOnTheWay, EachKeepsListed, ComesSince, AsksBehind};
ghost use Rattle.group_commands.specs.Groups.{GroupView};
ghost use Rattle.group_commands.specs.Answers.{group_answer};
ghost use Rattle.group_laws.specs.Forms.{IsGroupForm, ArePortsApart};

use tape_answers::a_tape_is_read;

/// The end of a group keeps the archive that the plant holds, where what it finds is in order. Behind each of its effects, however many, the
/// archive is held settled, already with the contents of the dumps that are made; and no effect takes a tape from a dump that is listed behind it.
/// What the archive came of it comes of behind the end, as far as dumps are concerned whose ids were known.
pub fn an_end_keeps_the_archive()
    ensures on_the_way { (s : Scene) (g : GroupView) (contents : AnyContents) (records : AnyList DumpRecordFields) → IsGroupForm g → ArePortsApart s.config.entries → AsksOfScene s contents records
        → HoldsOnTheWay s (group_answer s g).answer contents }
    ensures listed { (s : Scene) (g : GroupView) (contents : AnyContents) (records : AnyList DumpRecordFields) → IsGroupForm g → ArePortsApart s.config.entries → AsksOfScene s contents records
        → EachKeepsListed s (group_answer s g).answer.effects }
    ensures since { (s : Scene) (g : GroupView) (contents : AnyContents) (records : AnyList DumpRecordFields) → IsGroupForm g → ArePortsApart s.config.entries → AsksOfScene s contents records
        → ComesSince s (group_answer s g).answer contents }
{
    a_tape_is_read();
}

/// Behind the end of a group, however its dumps ended, all that a dump asks is so again, of the archive with the contents of these dumps: all is
/// settled, the cell is fair to the dumps that there are then, and each id on a tape is known or past.
pub fn what_a_dump_asks_is_so_behind_an_end()
    ensures { (s : Scene) (g : GroupView) (contents : AnyContents) (records : AnyList DumpRecordFields) → IsGroupForm g → ArePortsApart s.config.entries → AsksOfScene s contents records
        → AsksBehind s (group_answer s g).answer ((group_answer s g).answer.contents contents) }
{
    a_tape_is_read();
}

/// The end of a group leaves all contents under ids that are known when it begins: those under its own new ids alone join.
pub fn an_end_leaves_known_contents()
    ensures { (s : Scene) (g : GroupView) (contents : AnyContents) (records : AnyList DumpRecordFields) → IsGroupForm g → ArePortsApart s.config.entries → AsksOfScene s contents records
        → (d : DumpRecordFields) (name : AnyList ℕ) → IsKnown s.time (database_in s).greatest d → (group_answer s g).answer.contents contents d.id name ≡ contents d.id name }
{
    a_tape_is_read();
}
