//! Laws of what a crash leaves, each the contract of a function without a body.

ghost use Rattle.std.specs.Prelude.{◌≡◌, ◌⊎◌, ◌≤◌, ℕ, Some, List, ◌∷◌, [], ◌++◌, map, take, slice_get};
ghost use Rattle.budb_changes.specs.declared.records.TapePart.{TapePart};
ghost use Rattle.budb_changes.specs.declared.records.DumpRecordFields.{DumpRecordFields};
ghost use Rattle.plant_core.specs.Records.{Record};
ghost use Rattle.plant_core.specs.Crashes.{State, LeftIn, IsTorn, seen_in, IsSettled, Alike};
ghost use Rattle.plant_core.specs.Stock.{Stock};
ghost use Rattle.plant_core.specs.Effects.{Effect, come, Joint};
ghost use Rattle.tape_text.specs.Items.{Item, Nothing, Read};
ghost use Rattle.tape_scan.specs.Slots.{Slot};
ghost use Rattle.archive_model.specs.Holding.{LiesOn};
ghost use Rattle.archive_model.specs.Archives.{Archive, listed_of, Holds};
ghost use Rattle.archive_model.specs.Settled.{HoldsSettled, Kept, AreHeld};
ghost use Rattle.archive_model.specs.Turns.{StillHeld, is_here, remaining};

/// What a crash may leave of a tape reads as a front of its items, perhaps with a record behind that says nothing.
pub fn a_torn_tape_reads()
    ensures { (settled : ℕ) (whole tape : List Record) (is : List Item) → IsTorn settled whole tape → Read whole is
        → (count : ℕ) × (rest : List Item) × (settled ≤ count) × ((rest ≡ []) ⊎ (rest ≡ Nothing ∷ [])) × Read tape (take count is ++ rest) }
{}

/// What lies settled on a tape lies in each image of it.
pub fn what_is_settled_lies_in_each_image()
    ensures { (d : DumpRecordFields) (p : TapePart) (items rest : List Item) (settled count : ℕ) → p.end ≤ settled → settled ≤ count → LiesOn d p items → LiesOn d p (take count items ++ rest) }
{}

/// A state all of which is settled holds settled what it holds.
pub fn what_is_settled_holds()
    ensures { (s : State) (a : Archive) (records : List DumpRecordFields) → Holds (seen_in s) a records → IsSettled s → HoldsSettled s a records }
{}

/// What a crash leaves of a state that holds an archive settled holds it, with the same slots and the tapes that are left; each
/// listed dump is held where it was. Its dumps are the listed ones, and those that were found whole and still are.
pub fn an_image_holds_the_archive()
    ensures { (s : State) (c : Stock) (a : Archive) (records : List DumpRecordFields) → HoldsSettled s a records → LeftIn s c
        → (slots : List Slot) × (map is_here slots ≡ map is_here a.slots) × StillHeld (listed_of a) a.slots slots × Holds c (record a { slots = slots }) (remaining (listed_of a) slots records) }
{}

/// An image that is left after the first effects, as every call on a plant promises it, holds the archive that was held after
/// them, and each listed dump of it where it was.
pub fn a_joint_image_holds_the_archive_of_its_count()
    ensures { (es : List Effect) (archives : List Kept) (s : State) (old c : Stock) → AreHeld s es archives → (joint : Joint s es old c)
        → (a : Kept) × (slice_get archives joint.count ≡ Some a) × (slots : List Slot) × (map is_here slots ≡ map is_here a.archive.slots)
        × StillHeld (listed_of a.archive) a.archive.slots slots × Holds c (record a.archive { slots = slots }) (remaining (listed_of a.archive) slots a.records) }
{}

/// Archives that are held while effects come, and then while others do, are held while all of them come.
pub fn held_archives_join()
    ensures { (s : State) (es fs : List Effect) (archives : List Kept) (a : Kept) (more : List Kept)
        → AreHeld s es (archives ++ a ∷ []) → AreHeld (come es s) fs (a ∷ more) → AreHeld s (es ++ fs) (archives ++ a ∷ more) }
{}

/// Of archives that are held while effects come the first is held before them, and the last after all of them.
pub fn held_archives_begin_and_end()
    ensures first { (s : State) (es : List Effect) (a : Kept) (more : List Kept) → AreHeld s es (a ∷ more) → HoldsSettled s a.archive a.records }
    ensures last { (s : State) (es : List Effect) (archives : List Kept) (a : Kept) → AreHeld s es (archives ++ a ∷ []) → HoldsSettled (come es s) a.archive a.records }
{}

/// States that are the same, part by part, hold the same archives.
pub fn alike_states_hold_alike()
    ensures { (s t : State) (a : Archive) (records : List DumpRecordFields) → Alike s t → HoldsSettled s a records → HoldsSettled t a records }
{}
