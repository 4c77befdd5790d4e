//! Laws, each the contract of a function without a body.

ghost use Rattle.std.specs.Prelude.{◌≡◌, ◌⊎◌, ◌↔◌, ℕ, ◌+◌, List, [], ◌∷◌, ◌++◌, length, map, All, Contains};
ghost use Rattle.budb_changes.specs.declared.records.DumpRecordFields.{DumpRecordFields};
ghost use Rattle.tape_frames.specs.declared.frame.Frame.TheVariants as frames;
ghost use Rattle.tape_frames.specs.declared.label.LabelFields.{LabelFields};
ghost use Rattle.tape_text.specs.Items.{Item, Says, IsFitItem};
ghost use Rattle.tape_text.specs.Texts.{Part, Tape, part_items, tape_items, NextPart, IsPart, AgreeInUses, IsTape, IsText};
ghost use Rattle.tape_text.specs.Parts.{FoundPart, parts_of};
ghost use Rattle.tape_scan.specs.Scans.{Scan, begun, closed, with_part, next_found, IsClosedIn, IsBegunIn, IsTapeOpened};
ghost use Rattle.tape_scan.specs.Scanned.{Scanned, place_of};
ghost use Rattle.tape_scan.specs.Slots.{Slot, Located, IsFound, AreHeadsOnce};

/// A scan of a tape finds just its closed parts.
pub fn a_scanned_part_is_closed()
    ensures { (items : List Item) (s : Scan items) (p : FoundPart) → Contains (closed s) p ↔ IsClosedIn items p }
{}

/// A scan of a tape finds a part begun wherever the tape has a begun part, with the same head; and each that it finds is one.
pub fn a_scanned_head_is_begun()
    ensures found { (items : List Item) (s : Scan items) (p : FoundPart) → Contains (begun s) p → IsBegunIn items p }
    ensures all { (items : List Item) (s : Scan items) (p : FoundPart) → IsBegunIn items p → (q : FoundPart) × Contains (begun s) q × (q.first ≡ p.first) × (q.part.head ≡ p.part.head) }
{}

/// Scans of a tape have one front, and find the same closed parts.
pub fn one_scan()
    ensures count { (items : List Item) (s r : Scan items) → s.count ≡ r.count }
    ensures closed { (items : List Item) (s r : Scan items) (p : FoundPart) → Contains (closed s) p → Contains (closed r) p }
{}

/// A part put behind all of a tape's makes a tape, whose last part it is, closed at the place where it was put.
pub fn one_part_more_is_a_tape()
    ensures { (t : Tape) (p : Part) → IsTape t → (t.label.initial ≡ 0 → ⊥) → IsPart t.label p → All IsFitItem (part_items p)
        → ((before : List Part) (q : Part) → t.parts ≡ before ++ q ∷ [] → NextPart q p) → AgreeInUses (t.parts ++ p ∷ [])
        → IsTape (with_part t p) × (tape_items t ++ part_items p ≡ tape_items (with_part t p)) × IsClosedIn (tape_items t ++ part_items p) (next_found t p) }
{}

/// Behind a tape stands a front of a part that isn't all of it: every closed part of a scan is a part of the tape.
pub fn an_open_part_is_not_closed()
    ensures { (items : List Item) (s : Scan items) (t : Tape) (opened : List Item) (p : Part) (next : Item) (more : List Item) (q : FoundPart)
        → items ≡ tape_items t ++ opened → part_items p ≡ opened ++ next ∷ more → Contains (closed s) q → Contains (parts_of t) q }
{}

/// A tape text is empty, a label alone, or a whole tape with what opens one more part of it; and each of these is a tape text.
pub fn a_text_is_a_tape_opened()
    ensures only { (items : List Item) → IsText items
        → (items ≡ []) ⊎ (((l : LabelFields) × IsFitItem (Says (frames.Label l)) × (items ≡ Says (frames.Label l) ∷ [])) ⊎ IsTapeOpened items) }
    ensures nothing { IsText [] }
    ensures label { (l : LabelFields) → IsFitItem (Says (frames.Label l)) → IsText (Says (frames.Label l) ∷ []) }
    ensures opened { (items : List Item) → IsTapeOpened items → IsText items }
{}

/// What is found whole of an id is one record, where no head stands twice.
pub fn a_dump_is_found_once()
    ensures { (slots : List Slot) → AreHeadsOnce slots → (ps qs : List Located) (d e : DumpRecordFields) → IsFound slots ps d → IsFound slots qs e → d.id ≡ e.id → d ≡ e }
{}

/// A scan of several tapes has one answer: the same whole dumps, and the same heads that are left over, each at its place.
pub fn one_answer()
    ensures whole { (slots : List Slot) (whole whole2 : List DumpRecordFields) (left left2 : List Located) → Scanned slots whole left → Scanned slots whole2 left2 → whole ≡ whole2 }
    ensures left { (slots : List Slot) (whole whole2 : List DumpRecordFields) (left left2 : List Located) → Scanned slots whole left → Scanned slots whole2 left2 → map place_of left ≡ map place_of left2 }
{}
