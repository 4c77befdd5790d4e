//! Laws on what a scan finds and lists, each the contract of a function without a body of its own.

ghost use Rattle.std.specs.Prelude.{◌≡◌, ◌≤◌, [], ℕ, true, Some, None, Ok, List as AnyList, length, map, slice_get, Contains};
ghost use Rattle.plant_core.specs.Stock.{Stock};
ghost use Rattle.tape_config.specs.declared.port.PortFields.{PortFields};
ghost use Rattle.budb_changes.specs.declared.records.DumpRecordFields.{DumpRecordFields};
ghost use Rattle.budb_changes.specs.Forms.{IsDumpRecord};
ghost use Rattle.budb_fold.specs.Database.{after};
ghost use Rattle.tape_scan.specs.Slots.{Slot, Located, IsFound};
ghost use Rattle.tape_scan.specs.Scanned.{Scanned};
ghost use Rattle.tape_answers.specs.Slots.{slot_of};
ghost use Rattle.archive_model.specs.Archives.{Archive, listed_of, Holds};
ghost use Rattle.backup_words.specs.declared.command.Command.TheVariants.{Tape};
ghost use Rattle.backup_words.specs.declared.command.TapeCommand.TheVariants.{Scantape};
ghost use Rattle.backup_session.specs.Worlds.{World};
ghost use Rattle.backup_session.specs.Scanning.{port_of, slots_here};
ghost use Rattle.backup_session.specs.Machine.{turn};
ghost use Rattle.backup_session.specs.Listing.{ListsWhole};
ghost use Rattle.backup_session.specs.Again.{HasTheseTapes, IsHeldOn, IsListedBehind};

use tape_text::one_reading;

/// A dump that is found whole over at most 65,535 slots whose tapes have at most 4,294,967,295 records each has a record of the form that
/// the journal writes.
pub fn what_is_found_has_a_form()
    ensures { (slots : AnyList Slot) (parts : AnyList Located) (d : DumpRecordFields) → length slots ≤ 65535 → ((k : ℕ) (s : Slot) → slice_get slots k ≡ Some s → length s.items ≤ 4294967295) → IsFound slots parts d → IsDumpRecord d }
{}

/// Outside of a group `scantape -dbadd` on a port that has a tape host and a line in the configuration lists exactly the dumps that are
/// whole over the coordinator's tapes that are here: those that aren't listed and whose parent isn't wrong, so far as the log has room.
/// Over a database without listed dumps it passes by those with a wrong parent alone.
pub fn a_scan_lists_what_is_whole()
    ensures { (w : World) → w.groups.open ≡ None → (now offset : ℕ) (port : PortFields) → port_of w.setting.config (after w.log).hosts offset ≡ Ok port → ListsWhole w (slots_here w.setting.present port) (turn w now (Tape (Scantape true offset))) }
{}

/// Each dump that any archive with these tapes has listed, and whose tapes are all held in a coordinator's slots that are here, is among
/// the dumps that are whole there, by its own record; and what is whole there under the id of a listed dump is that dump.
pub fn recorded_dumps_are_found_again()
    ensures found { (w : World) (port : PortFields) (stock : Stock) (a : Archive) (records : AnyList DumpRecordFields) → Holds stock a records → HasTheseTapes w stock a
        → (whole : AnyList DumpRecordFields) (left : AnyList Located) → Scanned (map (slot_of w.setting.present w.state.tape) (slots_here w.setting.present port)) whole left
        → (d : DumpRecordFields) → Contains (listed_of a) d → IsHeldOn d (slots_here w.setting.present port) a.slots → Contains whole d }
    ensures equal { (w : World) (port : PortFields) (stock : Stock) (a : Archive) (records : AnyList DumpRecordFields) → Holds stock a records → HasTheseTapes w stock a
        → (whole : AnyList DumpRecordFields) (left : AnyList Located) → Scanned (map (slot_of w.setting.present w.state.tape) (slots_here w.setting.present port)) whole left
        → (d e : DumpRecordFields) → Contains (listed_of a) d → Contains whole e → e.id ≡ d.id → e ≡ d }
{
    one_reading();
}

/// Over a database without listed dumps `scantape -dbadd`, outside of a group, lists each of these dumps again with its own record, unless
/// the log has no room for the record of one that is found.
pub fn recorded_dumps_are_listed_again()
    ensures { (w : World) → w.groups.open ≡ None → (now offset : ℕ) (port : PortFields) → port_of w.setting.config (after w.log).hosts offset ≡ Ok port → (after w.log).listed ≡ []
        → (stock : Stock) (a : Archive) (records : AnyList DumpRecordFields) → Holds stock a records → HasTheseTapes w stock a
        → (d : DumpRecordFields) → Contains (listed_of a) d → IsHeldOn d (slots_here w.setting.present port) a.slots → IsListedBehind w (slots_here w.setting.present port) (turn w now (Tape (Scantape true offset))) d }
{
    one_reading();
}
