//! Laws of worlds, each the contract of a function without a body of its own.

ghost use Rattle.std.specs.Prelude.{◌≡◌, ◌≤◌, ℕ, true, List as AnyList, [], ◌∷◌, ◌++◌, Option, Ok, length, map, Contains};
ghost use Rattle.vnode_model.specs.declared.volumes.VolumeFields.{VolumeFields};
ghost use Rattle.budb_changes.specs.declared.records.DumpRecordFields.{DumpRecordFields};
ghost use Rattle.budb_changes.specs.declared.change.Change.TheVariants.{Found};
ghost use Rattle.budb_changes.specs.Bytes.{encoded};
ghost use Rattle.budb_changes.specs.Forms.{AreChanges};
ghost use Rattle.budb_fold.specs.Database.{after};
ghost use Rattle.tape_config.specs.declared.port.PortFields.{PortFields};
ghost use Rattle.tape_scan.specs.Slots.{Located, IsFound};
ghost use Rattle.tape_answers.specs.Slots.{slot_of};
ghost use Rattle.archive_model.specs.Archives.{listed_of, IsDump, LooksUp};
ghost use Rattle.backup_words.specs.declared.command.Command.TheVariants.{Tape};
ghost use Rattle.backup_words.specs.declared.command.TapeCommand.TheVariants.{Scantape};
ghost use Rattle.backup_session.specs.Worlds.{World, archive_of, after_turn};
ghost use Rattle.backup_session.specs.Scanning.{port_of, slots_here};
ghost use Rattle.backup_session.specs.Machine.{turn};
ghost use Rattle.backup_script.specs.Scripts.{script};
ghost use Rattle.backup_script.specs.Held.{IsHeldThroughout};
ghost use Rattle.backup_session.specs.Again.{IsHeldOn, IsListedBehind};
ghost use Rattle.session_archives.specs.Held.{HoldsWorld};
ghost use Rattle.session_archives.specs.Ready.{IsReadyFor};
ghost use Rattle.lost_journals.specs.Archives.{ListsDumpsOf};
ghost use Rattle.lost_journals.specs.Worlds.{HasTapesOf, HasTapesAnywhere, ListsNothing};

use backup_session::{a_scan_lists_what_is_whole, recorded_dumps_are_listed_again};
use session_archives::scripts_keep_the_archive;

/// Where a plant holds the archive of a world, one that stands on these tapes, whichever of them are here, blank or out, holds its own: under an
/// empty journal, under the same journal, and under any that lists dumps of the first archive alone. Tapes may also have changed their slots;
/// that they have not is a case of this.
pub fn tapes_hold_without_their_journal()
    ensures none { (w v : World) → HoldsWorld w → HasTapesOf w v → v.log ≡ [] → v.state.log ≡ [] → HoldsWorld v }
    ensures same { (w v : World) → HoldsWorld w → HasTapesOf w v → v.log ≡ w.log → v.state.log ≡ w.state.log → HoldsWorld v }
    ensures any { (w v : World) → HoldsWorld w → HasTapesAnywhere w v → AreChanges v.log → v.state.log ≡ encoded v.log → ListsDumpsOf (archive_of w) (archive_of v) → HoldsWorld v }
    ensures in_place { (w v : World) → HoldsWorld w → HasTapesOf w v → HasTapesAnywhere w v }
{}

/// A journal is lost, and a world stands on the tapes that are left, whose journal lists no dump. `scantape -dbadd` there lists each dump again
/// that was listed and whose tapes are all held in the coordinator's slots that are here, with its own record, unless the log has no room for
/// the record of one that is found; and it lists no dump but those of the archive that was. Each script there finds its archive at each
/// command that asks it, and holds it behind all of its lines; so it is where the journal was lost behind a script.
pub fn a_lost_journal_is_scanned_again()
    ensures listed { (w v : World) (now offset : ℕ) (port : PortFields) → HoldsWorld w → HasTapesAnywhere w v → ListsNothing v → port_of v.setting.config (after v.log).hosts offset ≡ Ok port
        → (d : DumpRecordFields) → Contains (listed_of (archive_of w)) d → IsHeldOn d (slots_here v.setting.present port) (archive_of v).slots → IsListedBehind v (slots_here v.setting.present port) (turn v now (Tape (Scantape true offset))) d }
    ensures own { (w v : World) (now offset : ℕ) (port : PortFields) → HoldsWorld w → HasTapesAnywhere w v → ListsNothing v → port_of v.setting.config (after v.log).hosts offset ≡ Ok port
        → ListsDumpsOf (archive_of w) (archive_of (after_turn v (turn v now (Tape (Scantape true offset))))) }
    ensures throughout { (w v : World) (moments : AnyList ℕ) (lines : AnyList (AnyList ℕ)) → HoldsWorld w → HasTapesAnywhere w v → ListsNothing v → IsReadyFor v moments lines → IsHeldThroughout v moments lines }
    ensures after_a_script { (w v : World) (moments later : AnyList ℕ) (lines more : AnyList (AnyList ℕ)) → HoldsWorld w → IsReadyFor w moments lines → HasTapesAnywhere (script w moments lines).world v → ListsNothing v → IsReadyFor v later more → IsHeldThroughout v later more }
    ensures behind { (w v : World) (moments : AnyList ℕ) (lines : AnyList (AnyList ℕ)) → HoldsWorld w → HasTapesAnywhere w v → ListsNothing v → IsReadyFor v moments lines → HoldsWorld (script v moments lines).world }
{
    a_scan_lists_what_is_whole();
    recorded_dumps_are_listed_again();
    scripts_keep_the_archive();
}

/// Where all dumps of the archive were listed, the scan finds the tapes of each of them here, and the log has room for one record more than it
/// has behind the scan, each restore that gave a volume before the journal was lost gives it behind the scan.
pub fn what_is_scanned_again_is_restored_again()
    ensures { (w v : World) (now offset : ℕ) (port : PortFields) → HoldsWorld w → HasTapesAnywhere w v → ListsNothing v → port_of v.setting.config (after v.log).hosts offset ≡ Ok port
        → ((d : DumpRecordFields) → IsDump (listed_of (archive_of w)) (archive_of w).slots d → Contains (listed_of (archive_of w)) d × IsHeldOn d (slots_here v.setting.present port) (archive_of v).slots)
        → ((d : DumpRecordFields) (parts : AnyList Located) → IsFound (map (slot_of v.setting.present v.state.tape) (slots_here v.setting.present port)) parts d → length (encoded ((turn v now (Tape (Scantape true offset))).log ++ Found d ∷ [])) ≤ 268435456)
        → (name : AnyList ℕ) (before : Option ℕ) (volume : VolumeFields) → LooksUp (archive_of w) name before (Ok volume) → LooksUp (archive_of (after_turn v (turn v now (Tape (Scantape true offset))))) name before (Ok volume) }
{
    a_scan_lists_what_is_whole();
    recorded_dumps_are_listed_again();
}
