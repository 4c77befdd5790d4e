//! Laws of archives, each the contract of a function without a body of its own.

ghost use Rattle.std.specs.Prelude.{◌≡◌, ℕ, List as AnyList, [], Option, Some, None, Ok, slice_get};
ghost use Rattle.vnode_model.specs.declared.volumes.VolumeFields.{VolumeFields};
ghost use Rattle.budb_changes.specs.declared.records.DumpRecordFields.{DumpRecordFields};
ghost use Rattle.budb_changes.specs.Bytes.{encoded};
ghost use Rattle.budb_changes.specs.Forms.{AreChanges};
ghost use Rattle.plant_core.specs.Stock.{Stock};
ghost use Rattle.tape_text.specs.Items.{Read};
ghost use Rattle.tape_scan.specs.Slots.{Slot};
ghost use Rattle.archive_model.specs.Archives.{Archive, LooksUp, Holds};
ghost use Rattle.lost_journals.specs.Archives.{ListsDumpsOf, HasItsTapes, HasItsContents, ListSame, AreHereToo};

/// Tapes of a plant that holds an archive, those that are left of them in whichever slots, hold one under each journal that lists some of its
/// dumps: with what these had.
pub fn tapes_hold_what_they_held()
    ensures { (stock new : Stock) (a b : Archive) (records : AnyList DumpRecordFields) → Holds stock a records → ListsDumpsOf a b → HasItsTapes a b → HasItsContents a b
        → AreChanges b.log → new.log ≡ Some (encoded b.log) → ((k : ℕ) (s : Slot) → slice_get b.slots k ≡ Some s → Read (new.tape k) s.items) → ((k : ℕ) → slice_get b.slots k ≡ None → new.tape k ≡ [])
        → (others : AnyList DumpRecordFields) × Holds new b others }
{}

/// Of two archives that list the same dumps with the same contents, where no tape of these is here in the first one's slots alone, the second
/// gives each volume that the first gives.
pub fn archives_that_list_the_same_restore_the_same()
    ensures { (a b : Archive) → ListSame a b → HasItsContents a b → AreHereToo a b → (name : AnyList ℕ) (before : Option ℕ) (volume : VolumeFields) → LooksUp a name before (Ok volume) → LooksUp b name before (Ok volume) }
{}
