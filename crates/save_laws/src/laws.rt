//! Laws of a save, each the contract of a function without a body.

ghost use Rattle.std.specs.Prelude.{◌≡◌, ℕ, true, Some, List, [], ◌∷◌, ◌++◌, map, All, Contains, slice_get};
ghost use Rattle.tape_frames.specs.declared.label.LabelFields.{LabelFields};
ghost use Rattle.tape_frames.specs.declared.frame.Frame.TheVariants as frames;
ghost use Rattle.budb_changes.specs.declared.records.DumpRecordFields.{DumpRecordFields};
ghost use Rattle.plant_core.specs.Crashes.{State};
ghost use Rattle.plant_core.specs.Effects.{puts, comes};
ghost use Rattle.plant_core.specs.Records.{Record};
ghost use Rattle.tape_text.specs.Items.{Item, Says, Nothing, ReadsAs, Read, IsFitItem};
ghost use Rattle.tape_scan.specs.Slots.{Slot};
ghost use Rattle.archive_model.specs.Holding.{holds, HasNoHead};
ghost use Rattle.archive_model.specs.Archives.{Archive, listed_of};
ghost use Rattle.archive_model.specs.Settled.{HoldsSettled, AreHeld};
ghost use Rattle.archive_model.specs.Turns.{with_items, with_slot, IsFreshHead, EndsNoPart, StillHeld, remaining};
ghost use Rattle.bk_text.specs.Alphabets.{IsTapeName};
ghost use Rattle.byte_formats.specs.Forms.{IsMaybe};
ghost use Rattle.budb_save.specs.Saves.{save_label, piece_record, pieces_of};
ghost use Rattle.budb_save.specs.Writing.{putting_save};
ghost use Rattle.budb_save.specs.declared.choosing.Wish.TheVariants.{Saving};
ghost use Rattle.budb_save.specs.Choice.{slot_fits};
ghost use Rattle.save_laws.specs.Saving.{CarriesNone, IsForeign, putting_foreign, saved_archives};

/// A record that is put in mid-dump keeps all, whatever record reads so: also a block that is no frame.
pub fn a_foreign_block_keeps_all()
    ensures { (s : State) (a : Archive) (records : List DumpRecordFields) → HoldsSettled s a records → (k : ℕ) (t : Slot) → slice_get a.slots k ≡ Some t → (r : Record) (i : Item) → ReadsAs r i
        → ((d : DumpRecordFields) → Contains records d → HasNoHead d.id (i ∷ [])) → IsFreshHead a.slots i → EndsNoPart t.items i
        → HoldsSettled (comes (puts k r) s) (with_slot a k (t.items ++ i ∷ [])) records }
{}

/// No tape of any record is held by a tape that carries no dump.
pub fn a_tape_that_carries_none_holds_none()
    ensures { (tape : List Record) (items : List Item) → Read tape items → CarriesNone items → (d : DumpRecordFields) (number : ℕ) → holds d number items ≡ true → ⊥ }
{}

/// A save on a tape that carries no dump keeps the archive, effect by effect: the dumps are those that stay whole. No listed dump is taken a tape
/// from.
pub fn a_save_keeps_the_archive()
    ensures held { (s : State) (a : Archive) (records : List DumpRecordFields) → HoldsSettled s a records → (k : ℕ) (t : Slot) → slice_get a.slots k ≡ Some t → CarriesNone t.items
        → (label : LabelFields) → IsFitItem (Says (frames.Label label)) → (head : Record) (blocks : List Record) → IsForeign head → All IsForeign blocks
        → AreHeld s (putting_foreign k label head blocks) (saved_archives a records (remaining (listed_of a) (with_items k [] a.slots) records) k label blocks) }
    ensures listed { (s : State) (a : Archive) (records : List DumpRecordFields) → HoldsSettled s a records → (k : ℕ) (t : Slot) → slice_get a.slots k ≡ Some t → CarriesNone t.items
        → StillHeld (listed_of a) a.slots (with_items k [] a.slots) }
{}

/// A save of the database on a tape that carries no dump keeps the archive, effect by effect.
pub fn a_saved_database_keeps_the_archive()
    ensures { (s : State) (a : Archive) (records : List DumpRecordFields) → HoldsSettled s a records → (k : ℕ) (t : Slot) → slice_get a.slots k ≡ Some t → CarriesNone t.items
        → (permanent bytes : List ℕ) → IsMaybe IsTapeName permanent
        → AreHeld s (putting_save k (save_label permanent) bytes) (saved_archives a records (remaining (listed_of a) (with_items k [] a.slots) records) k (save_label permanent) (map piece_record (pieces_of bytes))) }
{}

/// A tape that fits to save on carries no dump.
pub fn a_tape_that_fits_carries_none()
    ensures { (s : Slot) → slot_fits Saving s ≡ true → CarriesNone s.items }
{}
