//! Laws, each the contract of a function without a body of its own.

ghost use Rattle.std.specs.Prelude.{◌≡◌, ℕ, Bool, Some, None, List, length, map, slice_get};
ghost use Rattle.plant_core.specs.Records.{Record};
ghost use Rattle.tape_frames.specs.declared.frame.Frame.{Frame};
ghost use Rattle.tape_frames.specs.Frames.{Fits, spelling, IsSpelled};
ghost use Rattle.tape_text.specs.Items.{Item, Read};
ghost use Rattle.tape_scan.specs.declared.sections.Sections.{Sections};
ghost use Rattle.tape_scan.specs.declared.assembling.Found.{Found};
ghost use Rattle.tape_scan.specs.Sections.{IsScanOf};
ghost use Rattle.tape_scan.specs.Telling.{sections_in};
ghost use Rattle.tape_scan.specs.Slots.{Slot, Located};
ghost use Rattle.tape_scan.specs.Scanned.{Scanned};
ghost use Rattle.tape_scan.specs.Assembled.{AreScans, part_id};
ghost use Rattle.tape_answers.specs.Reading.{frame_in, items_of};
ghost use Rattle.tape_answers.specs.Scanning.{sections_of};
ghost use Rattle.tape_answers.specs.Assembling.{found_in};
ghost use Rattle.tape_answers.specs.Slots.{slot_of, slots_of};

use bk_text::form_tests;
use tape_text::one_reading;

/// A block is read as the frame whose block it is, and as none where it is none's.
pub fn a_block_is_read()
    ensures frame { (bytes : List ℕ) (f : Frame) → frame_in bytes ≡ Some f → Fits f × (bytes ≡ spelling f) }
    ensures none { (bytes : List ℕ) → frame_in bytes ≡ None → IsSpelled bytes → ⊥ }
    ensures again { (f : Frame) → Fits f → frame_in (spelling f) ≡ Some f }
{
    form_tests();
}

/// The records of a tape say these items, and no others.
pub fn a_tape_is_read()
    ensures read { (tape : List Record) → Read tape (items_of tape) }
    ensures one { (tape : List Record) (items : List Item) → Read tape items → items ≡ items_of tape }
{
    form_tests();
    one_reading();
}

/// A scan of the tape in a slot tells these sections, and no others; `read` has it as a scan's contract gives it.
pub fn a_scan_tells()
    ensures told { (slot : ℕ) (tape : List Record) → IsScanOf slot (items_of tape) (sections_of slot tape) }
    ensures one { (slot : ℕ) (tape : List Record) (sections : Sections) → IsScanOf slot (items_of tape) sections → sections ≡ sections_of slot tape }
    ensures items { (slot : ℕ) (tape : List Record) (items : List Item) → Read tape items → IsScanOf slot items (sections_in slot items) }
    ensures read { (slot : ℕ) (tape : List Record) (sections : Sections) → ((items : List Item) → Read tape items → IsScanOf slot items sections) → sections ≡ sections_of slot tape }
{
    form_tests();
}

/// There are so many slots, each is here where it is told to be, and its items are what the records of its tape say.
pub fn the_slots_are_read()
    ensures count { (count : ℕ) (present : ℕ → Bool) (tape : ℕ → List Record) → length (slots_of count present tape) ≡ count }
    ensures here { (count : ℕ) (present : ℕ → Bool) (tape : ℕ → List Record) (k : ℕ) (s : Slot) → slice_get (slots_of count present tape) k ≡ Some s → s.here ≡ present k }
    ensures items { (count : ℕ) (present : ℕ → Bool) (tape : ℕ → List Record) (k : ℕ) (s : Slot) → slice_get (slots_of count present tape) k ≡ Some s → Read (tape k) s.items }
{
    form_tests();
}

/// The tapes in these slots are scanned one by one; each scan tells its slot.
pub fn the_slots_are_scanned()
    ensures scans { (present : ℕ → Bool) (tape : ℕ → List Record) (slots : List ℕ) → AreScans (map (slot_of present tape) slots) (map (λ k. sections_of k (tape k)) slots) }
    ensures slot { (slot : ℕ) (tape : List Record) → (sections_of slot tape).slot ≡ slot }
{
    form_tests();
}

/// This is found over the tapes of which scans tell these sections, and nothing else; `one` takes it as the contract of
/// `assemble` gives it.
pub fn the_tapes_are_assembled()
    ensures found { (slots : List Slot) (tapes : List Sections) → AreScans slots tapes → (left : List Located) × Scanned slots (found_in tapes).whole left × ((found_in tapes).parts ≡ map part_id left) }
    ensures one { (slots : List Slot) (tapes : List Sections) (found : Found) → AreScans slots tapes → (left : List Located) × Scanned slots found.whole left × (found.parts ≡ map part_id left) → found ≡ found_in tapes }
{}
