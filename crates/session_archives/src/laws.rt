//! Laws of commands, of scripts and of what a crash leaves, each the contract of a function without a body of its own.

ghost use Rattle.std.specs.Prelude.{◌≡◌, ◌<◌, ◌≤◌, ℕ, List as AnyList, [], ◌∷◌, ◌++◌, take, Some, Ok, IsTrue};
ghost use Rattle.bk_text.specs.Alphabets.{IsHost};
ghost use Rattle.byte_formats.specs.Forms.{IsFour, IsMaybe};
ghost use Rattle.vnode_model.specs.declared.volumes.VolumeFields.{VolumeFields};
ghost use Rattle.cell_core.specs.Fairness.{Fair, NoneIsMadeAfter, NoSourceHasBackupName};
ghost use Rattle.cell_forms.specs.Forms.{IsCellForm};
ghost use Rattle.cell_core.specs.Forms.{IsVolumeForm};
ghost use Rattle.tape_config.specs.declared.port.PortFields.{PortFields};
ghost use Rattle.tape_config.specs.Configs.{config_of, port_in, name_or_nothing};
ghost use Rattle.plant_core.specs.Crashes.{seen_in, IsSettled, LeftIn};
ghost use Rattle.plant_core.specs.Effects.{Effect, commits, tells, come, Joint};
ghost use Rattle.plant_core.specs.Stock.{Stock, IsNothing};
ghost use Rattle.budb_changes.specs.declared.records.DumpRecordFields.{DumpRecordFields};
ghost use Rattle.budb_changes.specs.Forms.{AreChanges};
ghost use Rattle.archive_model.specs.Archives.{AreDumps, Holds};
ghost use Rattle.backup_words.specs.declared.command.Command.{Command};
ghost use Rattle.backup_session.specs.Worlds.{World, Contents, archive_of, after_turn, at_moment};
ghost use Rattle.backup_session.specs.Bounded.{HasTapes};
ghost use Rattle.backup_session.specs.Machine.{turn};
ghost use Rattle.backup_session.specs.Opening.{first_time};
ghost use Rattle.backup_script.specs.Scripts.{script};
ghost use Rattle.backup_script.specs.Held.{IsHeldThroughout};
ghost use Rattle.command_forms.specs.Forms.{HasForms};
ghost use Rattle.command_forms.specs.NewNames.{NamesApart};
ghost use Rattle.dump_archives.specs.Keeping.{KnowsIds};
ghost use Rattle.group_laws.specs.Forms.{ArePortsApart};
ghost use Rattle.script_journals.specs.Worlds.{HasGroupForm, IsWorldForm};
ghost use Rattle.script_journals.specs.Dumping.{IsFormedFor};
ghost use Rattle.session_archives.specs.Held.{HoldsWorld, HoldsAfter, HoldsOnTheWay, contents_on, EachKeepsListed, RepliesSettle, HoldsImage};
ghost use Rattle.session_archives.specs.Since.{CameSince, HasItsMedia, KnowsHeads, saved_of};
ghost use Rattle.archive_model.specs.Settled.{HoldsSettled};
ghost use Rattle.archive_model.specs.Sources.{dumped_by};
ghost use Rattle.budb_changes.specs.Bytes.{encoded};
ghost use Rattle.budb_fold.specs.Database.{after};
ghost use Rattle.backup_session.specs.Saves.{time_back};
ghost use Rattle.session_archives.specs.OnLines.{RestoresLookUp, ScansListWhole};
ghost use Rattle.session_archives.specs.Ready.{IsFitWorld, IsReady, at_first, RestoresApart, RestoresApartThroughout, FitsBack, FitsBackFor, FitsBackThroughout, IsReadyForCommand, IsReadyFor, AreVolumesFor};

use bk_text::form_tests;
use budb_fold::checkpoint_makes_the_same_database;
use dump_archives::{a_dump_keeps_the_archive, what_a_dump_asks_is_so_behind_it};
use dump_commands::{what_a_dump_commits_has_bytes, what_a_dump_leaves_has_forms};
use group_laws::{
    an_end_keeps_the_archive, what_a_dump_asks_is_so_behind_an_end, what_an_end_commits_has_bytes,
    what_an_end_leaves_has_forms,
};
use tape_answers::{
    a_block_is_read, a_tape_is_read, the_slots_are_scanned, the_tapes_are_assembled,
};
use tape_config::{a_configuration_has_its_forms, ports_of_a_configuration_are_apart};
use tape_frames::one_frame;
use tape_text::one_reading;

/// A command whose fields have their forms keeps the archive that the plant holds: behind it, with its reply told, and behind each of its
/// effects on the way, already with what the dumps have behind it. None of them takes a tape from a dump that is listed behind it. A dump finds
/// a world that is ready at its moment, and a saved database that is read back fits the media; of other commands nothing is asked.
/// What the archive came of it comes of behind the command, as far as dumps are concerned whose ids were known.
pub fn commands_keep_the_archive()
    ensures behind { (w : World) (now : ℕ) (command : Command) → HasForms command → HoldsWorld w → IsReadyForCommand (at_moment w now) command → HoldsWorld (after_turn w (turn w now command)) }
    ensures on_the_way { (w : World) (now : ℕ) (command : Command) → HasForms command → HoldsWorld w → IsReadyForCommand (at_moment w now) command → let t = turn w now command in HoldsOnTheWay w (λ count. t.contents) (t.effects ++ tells t.reply ∷ []) }
    ensures listed { (w : World) (now : ℕ) (command : Command) → HasForms command → HoldsWorld w → IsReadyForCommand (at_moment w now) command → let t = turn w now command in EachKeepsListed w (t.effects ++ tells t.reply ∷ []) }
    ensures since { (w : World) (now : ℕ) (command : Command) → HasForms command → HoldsWorld w → IsReadyForCommand (at_moment w now) command → CameSince w (after_turn w (turn w now command)) }
{
    form_tests();
    one_frame();
    a_block_is_read();
    a_tape_is_read();
    checkpoint_makes_the_same_database();
    the_slots_are_scanned();
    the_tapes_are_assembled();
    what_a_dump_commits_has_bytes();
    what_a_dump_leaves_has_forms();
    a_dump_keeps_the_archive();
    what_a_dump_asks_is_so_behind_it();
    what_an_end_commits_has_bytes();
    what_an_end_leaves_has_forms();
    an_end_keeps_the_archive();
    what_a_dump_asks_is_so_behind_an_end();
}

/// A script keeps the archive that the plant holds at its start: behind all of its lines, with what the dumps have then, and behind each effect
/// on the way, with what they have behind its line. None of them takes a tape from a dump that is listed behind it, and where a reply is told all
/// that was put before it is settled. So each of its commands that asks the archive finds it. A script with a dump finds a world that is ready at its first command, and restores no volume under a name that ends in `.backup`; where
/// a line reads a saved database back, this fits the media; of other scripts nothing is asked.
/// What the archive came of it comes of behind the script, as far as dumps are concerned whose ids were known.
pub fn scripts_keep_the_archive()
    ensures behind { (w : World) (moments : AnyList ℕ) (lines : AnyList (AnyList ℕ)) → HoldsWorld w → IsReadyFor w moments lines → HoldsWorld (script w moments lines).world }
    ensures on_the_way { (w : World) (moments : AnyList ℕ) (lines : AnyList (AnyList ℕ)) → HoldsWorld w → IsReadyFor w moments lines → HoldsOnTheWay w (contents_on w moments lines) (script w moments lines).effects }
    ensures whole { (w : World) (moments : AnyList ℕ) (lines : AnyList (AnyList ℕ)) → HoldsWorld w → IsReadyFor w moments lines → HoldsAfter w (script w moments lines).world.contents (script w moments lines).effects }
    ensures listed { (w : World) (moments : AnyList ℕ) (lines : AnyList (AnyList ℕ)) → HoldsWorld w → IsReadyFor w moments lines → EachKeepsListed w (script w moments lines).effects }
    ensures settled { (w : World) (moments : AnyList ℕ) (lines : AnyList (AnyList ℕ)) → HoldsWorld w → IsReadyFor w moments lines → RepliesSettle w (script w moments lines).effects }
    ensures throughout { (w : World) (moments : AnyList ℕ) (lines : AnyList (AnyList ℕ)) → HoldsWorld w → IsReadyFor w moments lines → IsHeldThroughout w moments lines }
    ensures since { (w : World) (moments : AnyList ℕ) (lines : AnyList (AnyList ℕ)) → HoldsWorld w → IsReadyFor w moments lines → CameSince w (script w moments lines).world }
{
    form_tests();
    one_frame();
    a_block_is_read();
    a_tape_is_read();
    checkpoint_makes_the_same_database();
    the_slots_are_scanned();
    the_tapes_are_assembled();
    what_a_dump_commits_has_bytes();
    what_a_dump_leaves_has_forms();
    a_dump_keeps_the_archive();
    what_a_dump_asks_is_so_behind_it();
    what_an_end_commits_has_bytes();
    what_an_end_leaves_has_forms();
    an_end_keeps_the_archive();
    what_a_dump_asks_is_so_behind_an_end();
}

/// What a crash leaves behind effects holds the archive of their changes and of the tapes that are left, with what the dumps have behind these
/// effects; each listed dump is held where it was. So it is behind the first of effects that keep the archive.
pub fn images_hold_the_archive()
    ensures behind { (w : World) (contents : Contents) (effects : AnyList Effect) (image : Stock) → HoldsAfter w contents effects → LeftIn (come effects w.state) image → HoldsImage w contents effects image }
    ensures on_the_way { (w : World) (contents : ℕ → Contents) (effects : AnyList Effect) (old image : Stock) → HoldsOnTheWay w contents effects → (joint : Joint w.state effects old image) → HoldsImage w (contents joint.count) (take joint.count effects) image }
{
    a_tape_is_read();
}

/// An image that holds the archive is opened to a world that holds it: one of the same slots and contents, of the changes of the image's
/// journal and of its tapes, in which the dumps of an open group have their forms; where a session begins no group is open. So a session goes
/// on from there as if it had never been stopped. And where the ids on tapes were known to the journal, they are known to that world's.
pub fn images_open_to_their_archive()
    ensures holds { (w : World) (contents : Contents) (effects : AnyList Effect) (image : Stock) → HoldsWorld w → (held : HoldsImage w contents effects image) → (v : World) → v.setting ≡ w.setting → v.contents ≡ contents → v.log ≡ held.changes
        → image.log ≡ Some v.state.log → ((k : ℕ) → v.state.tape k ≡ image.tape k) → IsSettled v.state → HasTapes v → HasGroupForm v.groups.open → HoldsWorld v }
    ensures ids { (w : World) (contents : Contents) (effects : AnyList Effect) (image : Stock) → (held : HoldsImage w contents effects image) → (v : World) → v.setting ≡ w.setting → v.contents ≡ contents → v.log ≡ held.changes
        → ((k : ℕ) → v.state.tape k ≡ image.tape k) → KnowsIds (archive_of w) → KnowsIds (archive_of v) }
{}

/// A plant on which all is settled and that holds the archive of a world holds it as a command finds it. Where a group is open its dumps have
/// their forms.
pub fn worlds_at_rest_hold()
    ensures { (w : World) (records : AnyList DumpRecordFields) → Holds (seen_in w.state) (archive_of w) records → IsSettled w.state → ((k : ℕ) → IsTrue (w.setting.present k) → k < w.setting.slots) → HasTapes w → HasGroupForm w.groups.open → HoldsWorld w }
{}

/// Also where records that another caller put wait to be settled a command keeps the archive that the plant holds, as reads give it, and leaves a
/// world ready that was: its turn doesn't ask what is settled. Where a group is open its dumps have their forms.
pub fn commands_keep_what_reads_give()
    ensures holds { (w : World) (now : ℕ) (command : Command) (records : AnyList DumpRecordFields) → HasForms command → Holds (seen_in w.state) (archive_of w) records → ((k : ℕ) → IsTrue (w.setting.present k) → k < w.setting.slots) → HasTapes w → HasGroupForm w.groups.open → IsReadyForCommand (at_moment w now) command
        → let v = after_turn w (turn w now command) in (behind : AnyList DumpRecordFields) × Holds (seen_in v.state) (archive_of v) behind }
    ensures ready { (w : World) (now : ℕ) (command : Command) (records : AnyList DumpRecordFields) → HasForms command → NamesApart command → RestoresApart w command → FitsBackFor (at_moment w now) command → Holds (seen_in w.state) (archive_of w) records → ((k : ℕ) → IsTrue (w.setting.present k) → k < w.setting.slots) → HasTapes w → HasGroupForm w.groups.open
        → IsReady (at_moment w now) → IsReady (after_turn w (turn w now command)) }
{
    commands_keep_the_archive();
    commands_leave_a_ready_world_ready();
}

/// Blank tapes under an empty journal hold the archive without dumps, whatever its contents are. Where a group is open its dumps have their
/// forms.
pub fn blank_worlds_hold_no_dump()
    ensures { (w : World) → w.log ≡ [] → IsNothing (seen_in w.state) → IsSettled w.state → ((k : ℕ) → IsTrue (w.setting.present k) → k < w.setting.slots) → HasTapes w → HasGroupForm w.groups.open → HoldsWorld w }
{}

/// Each command leaves a world ready that is ready for dumps at its moment, where its fields have their forms and it makes no read/write volume
/// whose name ends in `.backup`, and a saved database that it reads back fits the media.
pub fn commands_leave_a_ready_world_ready()
    ensures { (w : World) (now : ℕ) (command : Command) → HasForms command → NamesApart command → RestoresApart w command → FitsBackFor (at_moment w now) command → HoldsWorld w → IsReady (at_moment w now) → IsReady (after_turn w (turn w now command)) }
{
    form_tests();
    one_frame();
    a_block_is_read();
    a_tape_is_read();
    checkpoint_makes_the_same_database();
    the_slots_are_scanned();
    the_tapes_are_assembled();
    what_a_dump_commits_has_bytes();
    what_a_dump_leaves_has_forms();
    a_dump_keeps_the_archive();
    what_a_dump_asks_is_so_behind_it();
    what_an_end_commits_has_bytes();
    what_an_end_leaves_has_forms();
    an_end_keeps_the_archive();
    what_a_dump_asks_is_so_behind_an_end();
}

/// So does a script of one that is ready at its first command, none of whose lines restores a volume under such a name, and where what its lines
/// read back fits the media.
pub fn scripts_leave_a_ready_world_ready()
    ensures { (w : World) (moments : AnyList ℕ) (lines : AnyList (AnyList ℕ)) → RestoresApartThroughout w moments lines → FitsBackThroughout w moments lines → HoldsWorld w → IsReady (at_first w moments lines) → IsReady (script w moments lines).world }
{
    form_tests();
    one_frame();
    a_block_is_read();
    a_tape_is_read();
    checkpoint_makes_the_same_database();
    the_slots_are_scanned();
    the_tapes_are_assembled();
    what_a_dump_commits_has_bytes();
    what_a_dump_leaves_has_forms();
    a_dump_keeps_the_archive();
    what_a_dump_asks_is_so_behind_it();
    what_an_end_commits_has_bytes();
    what_an_end_leaves_has_forms();
    an_end_keeps_the_archive();
    what_a_dump_asks_is_so_behind_an_end();
}

/// A world that is held and ready for dumps has its forms. So the journal of each script that begins in it is one of changes.
pub fn ready_worlds_have_forms()
    ensures world { (w : World) → HoldsWorld w → IsReady w → IsWorldForm w }
    ensures lines { (w : World) (moments : AnyList ℕ) (lines : AnyList (AnyList ℕ)) → HoldsWorld w → IsReadyFor w moments lines → IsFormedFor w lines }
{}

/// A world in which a session begins has its forms, by those of its configuration, its journal and its cell, where what dumps have of volumes are
/// volumes, and where a group is open its dumps have theirs; and at the first command of a script it is ready where it is fit for dumps then. A
/// world that is ready is fit.
pub fn opened_worlds_have_their_forms()
    ensures lines { (w : World) (bytes : AnyList ℕ) (lines : AnyList (AnyList ℕ)) → config_of bytes ≡ Ok w.setting.config → HasTapes w → AreChanges w.log → IsCellForm w.cell → w.time ≡ first_time w.log w.cell → HasGroupForm w.groups.open → AreVolumesFor w lines → IsFormedFor w lines }
    ensures ready { (w : World) (bytes moments : AnyList ℕ) (lines : AnyList (AnyList ℕ)) → config_of bytes ≡ Ok w.setting.config → AreChanges w.log → IsCellForm w.cell → w.time ≡ first_time w.log w.cell → IsFitWorld (at_first w moments lines) → IsReady (at_first w moments lines) }
    ensures fit { (w : World) → IsReady w → IsFitWorld w }
{
    a_configuration_has_its_forms();
    ports_of_a_configuration_are_apart();
}

/// Beside blank tapes under an empty journal a world is ready whose cell has its form and is in order by itself, at a time of four bytes, in a
/// setting whose ports take no more than they may and have no slot in common.
pub fn blank_worlds_are_ready()
    ensures { (w : World) → w.log ≡ [] → IsNothing (seen_in w.state) → IsCellForm w.cell → Fair w.cell [] w.time → NoneIsMadeAfter w.time w.cell → NoSourceHasBackupName w.cell → IsFour w.time
        → ((id : ℕ) (name : AnyList ℕ) (volume : VolumeFields) → w.contents id name ≡ Ok volume → IsVolumeForm volume) → IsMaybe IsHost (name_or_nothing w.setting.config.cell)
        → ((offset : ℕ) (port : PortFields) → port_in offset w.setting.config.entries ≡ Some port → port.capacity ≤ 4000000000) → ArePortsApart w.setting.config.entries → IsReady w }
{}

/// On each line of a script that is run a restore answers each volume by one look-up in the archive that it finds there.
pub fn restores_look_up()
    ensures { (w : World) (moments : AnyList ℕ) (lines : AnyList (AnyList ℕ)) → RestoresLookUp w moments lines }
{}

/// And a scan that adds dumps lists there just what is whole on the tapes that it finds, recorded dumps among it.
pub fn scans_list_what_is_whole()
    ensures { (w : World) (moments : AnyList ℕ) (lines : AnyList (AnyList ℕ)) → ScansListWhole w moments lines }
{
    one_reading();
}

/// Whatever stands on the tapes, those in slots that aren't here are behind a script as they were at its start, and as much of them is settled:
/// the effects of its commands on tapes are on those in slots that are here.
pub fn absent_tapes_stay()
    ensures { (w : World) (moments : AnyList ℕ) (lines : AnyList (AnyList ℕ)) (k : ℕ) → (IsTrue (w.setting.present k) → ⊥) → let s = come (script w moments lines).effects w.state in (s.tape k ≡ w.state.tape k) × (s.settled k ≡ w.state.settled k) }
{}

/// A database that this program saved fits back on the media as they are behind any script, whatever that did with
/// dumps and tapes: its changes are made in a journal without volume sets, levels and dumps, and then the plant holds
/// the archive of the dumps that were listed at the save, and of those that are found whole now. Every dump id on a
/// tape was known at the save. Where the cell is fair to all these dumps the saved database may be read back.
pub fn what_was_saved_fits_back()
    ensures held { (w v : World) (moments : AnyList ℕ) (lines : AnyList (AnyList ℕ)) → HoldsWorld w → KnowsHeads w → IsReadyFor w moments lines → HasItsMedia (script w moments lines).world v
        → (records : AnyList DumpRecordFields) × HoldsSettled (come (commits (encoded (saved_of w)) ∷ []) v.state) (record (archive_of v) { log = v.log ++ saved_of w }) records }
    ensures fits { (w v : World) (moments : AnyList ℕ) (lines : AnyList (AnyList ℕ)) → HoldsWorld w → KnowsHeads w → IsReadyFor w moments lines → HasItsMedia (script w moments lines).world v
        → (dumps : AnyList DumpRecordFields) → AreDumps (after w.log).listed (archive_of v).slots dumps → Fair v.cell (dumped_by v.contents dumps) (time_back v (saved_of w)) → FitsBack v (saved_of w) }
{
    scripts_keep_the_archive();
}
