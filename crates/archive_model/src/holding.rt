//! Laws of what slots hold and what lies there, each the contract of a function without a body.

ghost use Rattle.std.specs.Prelude.{◌≡◌, ◌<◌, ◌≤◌, ℕ, true, Some, Result, List, ◌∷◌, [], ◌++◌, length, map, take, find, slice_get, All, Contains};
ghost use Rattle.std.specs.List.{flat_map};
ghost use Rattle.vnode_model.specs.declared.volumes.VolumeFields.{VolumeFields};
ghost use Rattle.bk_text.specs.Blanks.{is_same_text};
ghost use Rattle.budb_changes.specs.declared.records.TapePart.{TapePart};
ghost use Rattle.budb_changes.specs.declared.records.DumpRecordFields.{DumpRecordFields};
ghost use Rattle.budb_changes.specs.declared.records.VolRecordFields.{VolRecordFields};
ghost use Rattle.budb_changes.specs.declared.change.Change.{Change};
ghost use Rattle.budb_changes.specs.Bytes.{encoded};
ghost use Rattle.budb_changes.specs.Dumps.{KeepsDump};
ghost use Rattle.budb_changes.specs.Frags.{KeepsFrags};
ghost use Rattle.budb_changes.specs.Forms.{AreChanges};
ghost use Rattle.budb_fold.specs.Database.{is_initial, without, after};
ghost use Rattle.budb_fold.specs.Lookups.{volume_of};
ghost use Rattle.plant_core.specs.Stock.{Stock, IsNothing};
ghost use Rattle.tape_text.specs.Items.{Item};
ghost use Rattle.tape_text.specs.Texts.{Fragment, Tape, tape_items, IsTape};
ghost use Rattle.tape_text.specs.Parts.{FoundPart, parts_of};
ghost use Rattle.tape_text.specs.Wholes.{Lying, lying_in, tape_part, IsWhole, record_with};
ghost use Rattle.tape_scan.specs.Scanned.{Scanned};
ghost use Rattle.tape_scan.specs.Slots.{Slot, Located, IsFound, AreHeadsOnce};
ghost use Rattle.tape_writer.specs.Filling.{Dumping, IsDumped};
ghost use Rattle.archive_model.specs.Holding.{place_of, placed_from, called_by, holds, LiesOn, Lies, HasInitial, HasNoHead};
ghost use Rattle.archive_model.specs.Plays.{StandsAt};
ghost use Rattle.archive_model.specs.Archives.{Archive, Refusal, listed_of, all_here, AreHeldOnce, AreDumps, AreContents, IsHeld, AreHolders, IsKept, Holds, AreBlank, blank_archive};
ghost use Rattle.archive_model.specs.Turns.{with_log, HasOwnHeads};
ghost use Rattle.archive_model.specs.Clones.{IsHere, IsRecordOf, ArePlaced, part_in};

/// Each fragment that a record calls for stands where its tape lies: its play has no bad record.
pub fn what_lies_is_played()
    ensures { (d : DumpRecordFields) (p : TapePart) (items : List Item) (c : Lying) → LiesOn d p items → Contains (called_by d) c → c.tape ≡ p.tape → (f : Fragment) × StandsAt c items f }
{}

/// The record of a whole dump calls for just the fragments of its parts, in order.
pub fn a_record_calls_for_its_fragments()
    ensures { (q : FoundPart) (qs : List FoundPart) → ArePlaced (q ∷ qs) → IsWhole (map part_in (q ∷ qs)) → called_by (record_with q.part.head (q ∷ qs)) ≡ flat_map lying_in (q ∷ qs) }
{}

/// Each tape of a whole dump lies by the record that a scan gives it.
pub fn a_whole_dump_lies_on_its_tapes()
    ensures { (q : FoundPart) (qs : List FoundPart) (t : Tape) (r : FoundPart) (items : List Item)
        → ArePlaced (q ∷ qs) → IsWhole (map part_in (q ∷ qs)) → IsTape t → Contains (parts_of t) r → Contains (q ∷ qs) r → take r.end items ≡ tape_items t
        → LiesOn (record_with q.part.head (q ∷ qs)) (tape_part r) items }
{}

/// A dump that is found whole, and held once, stands on the slots that a play takes.
pub fn a_found_dump_is_here()
    ensures { (slots : List Slot) (parts : List Located) (d : DumpRecordFields) → IsFound slots parts d → AreHeldOnce (d ∷ []) slots → All (IsHere (all_here slots) d) (map (λ l. l.found) parts) }
{}

/// Of two dumps that lie on one tape the one of the greater id ends behind the other.
pub fn dumps_of_a_tape_end_in_order()
    ensures { (d e : DumpRecordFields) (p q : TapePart) (items : List Item) → LiesOn d p items → LiesOn e q items → d.id ≤ e.id → p.end ≤ q.end }
{}

/// When the dump set of a tape's label was forgotten, no listed dump is held there.
pub fn a_taken_tape_holds_nothing_listed()
    ensures { (initial tape : ℕ) (listed : List DumpRecordFields) (d : DumpRecordFields) (items : List Item) → HasInitial initial items → Contains (without (is_initial initial) listed) d → holds d tape items ≡ true → ⊥ }
{}

/// Each dump of another set stays listed.
pub fn other_dumps_stay_listed()
    ensures { (initial : ℕ) (listed : List DumpRecordFields) (d : DumpRecordFields) → Contains listed d → (d.initial ≡ initial → ⊥) → Contains (without (is_initial initial) listed) d }
{}

/// A tape without a head of a dump isn't held for it.
pub fn without_its_head_nothing_is_held()
    ensures { (d : DumpRecordFields) (tape : ℕ) (items : List Item) → HasNoHead d.id items → holds d tape items ≡ true → ⊥ }
{}

/// Records without a head of a dump that are put on a tape keep what lies there of it.
pub fn a_put_keeps_what_lies()
    ensures { (d : DumpRecordFields) (items more : List Item) → HasNoHead d.id more → Lies d items → Lies d (items ++ more) }
{}

/// A cut keeps what lies on a tape of a dump, where none of its places ends behind the cut.
pub fn a_cut_behind_keeps_what_lies()
    ensures { (d : DumpRecordFields) (items : List Item) (n : ℕ)
        → ((tape : ℕ) (p : TapePart) → place_of d tape ≡ Some p → holds d tape items ≡ true → p.end ≤ n) → Lies d items → Lies d (take n items) }
{}

/// Where each head of a found dump's id is that of one of its parts, no tape of it is held twice.
pub fn own_heads_are_held_once()
    ensures { (slots : List Slot) (parts : List Located) (d : DumpRecordFields) → IsFound slots parts d → HasOwnHeads slots parts d.id → AreHeldOnce (d ∷ []) slots }
{}

/// Dumps are kept where what is held lies, and what lies is found, of the listed ones alone.
pub fn holds_is_said_of_listed_dumps()
    ensures { (log : List Change) (records : List DumpRecordFields) (slots : List Slot) (contents : ℕ → List ℕ → Result VolumeFields Refusal)
        → AreDumps (after log).listed slots records → AreHeldOnce records slots → AreHeadsOnce slots
        → ((d : DumpRecordFields) (k : ℕ) (s : Slot) → Contains (after log).listed d → slice_get slots k ≡ Some s → Lies d s.items)
        → ((d : DumpRecordFields) → Contains (after log).listed d → IsHeld d slots → (parts : List Located) × IsFound slots parts d × AreHolders d parts slots)
        → ((d e : DumpRecordFields) (parts : List Located) → Contains (after log).listed d → IsFound slots parts e → e.id ≡ d.id → e ≡ d)
        → AreContents slots contents records → IsKept (after log).listed slots contents records }
{}

/// Blank tapes under an empty log hold the archive without dumps.
pub fn blank_tapes_hold_no_dump()
    ensures { (stock : Stock) (slots : List Slot) (contents : ℕ → List ℕ → Result VolumeFields Refusal) → IsNothing stock → AreBlank slots → Holds stock (blank_archive slots contents) [] }
{}

/// Another log that lists the same dumps, on a plant with the same tapes, holds the archive with that log.
pub fn a_log_with_the_same_dumps_holds()
    ensures { (stock new : Stock) (a : Archive) (log : List Change) (records : List DumpRecordFields)
        → Holds stock a records → AreChanges log → new.log ≡ Some (encoded log) → ((k : ℕ) → new.tape k ≡ stock.tape k) → (after log).listed ≡ listed_of a
        → Holds new (with_log a log) records }
{}

/// A scan of some slots over a database that knows nothing finds each listed dump whose tapes these slots hold, by its own
/// record; and what it finds under a listed id is the listed dump.
pub fn recorded_dumps_are_scanned_again()
    ensures found { (stock : Stock) (a : Archive) (records : List DumpRecordFields) → Holds stock a records
        → (few : List Slot) (place : ℕ → ℕ) → ((k : ℕ) (s : Slot) → slice_get few k ≡ Some s → slice_get a.slots (place k) ≡ Some s)
        → (whole : List DumpRecordFields) (left : List Located) → Scanned few whole left
        → (d : DumpRecordFields) → Contains (listed_of a) d → IsHeld d few → Contains whole d }
    ensures equal { (stock : Stock) (a : Archive) (records : List DumpRecordFields) → Holds stock a records
        → (few : List Slot) (place : ℕ → ℕ) → ((k : ℕ) (s : Slot) → slice_get few k ≡ Some s → slice_get a.slots (place k) ≡ Some s)
        → (whole : List DumpRecordFields) (left : List Located) → Scanned few whole left
        → (d e : DumpRecordFields) → Contains (listed_of a) d → Contains whole e → e.id ≡ d.id → e ≡ d }
{}

/// What is found whole over some of the slots is found whole over all of them.
pub fn what_is_found_on_some_slots_is_found()
    ensures { (slots few : List Slot) (place : ℕ → ℕ) → ((k : ℕ) (s : Slot) → slice_get few k ≡ Some s → slice_get slots (place k) ≡ Some s)
        → (parts : List Located) (d : DumpRecordFields) → IsFound few parts d → (others : List Located) × IsFound slots others d }
{}

/// A volume of a dump that is found has an index in its record, and what was dumped under it on the tapes has the fields that
/// the record says.
pub fn what_was_dumped_is_recorded()
    ensures { (slots : List Slot) (parts : List Located) (d : DumpRecordFields) → IsFound slots parts d → (name : List ℕ) (v : VolRecordFields) → volume_of d name ≡ Some v
        → (index : ℕ) × (index < length d.volumes) × (find (λ x. is_same_text x.1.name name) (placed_from 0 d.volumes) ≡ Some (index, v))
        × ((w : Dumping) → IsDumped d.id index (flat_map (λ l. l.found.part.fragments) parts) w → IsRecordOf v w) }
{}

/// A dump that is found whole over at most 65,535 slots has no more parts than a record holds, and each of its volumes no more
/// fragments: its record is one that the database takes.
pub fn what_is_found_fits_a_record()
    ensures dump { (slots : List Slot) (parts : List Located) (d : DumpRecordFields) → length slots ≤ 65535 → IsFound slots parts d → KeepsDump d }
    ensures volumes { (slots : List Slot) (parts : List Located) (d : DumpRecordFields) → length slots ≤ 65535 → IsFound slots parts d → (v : VolRecordFields) → Contains d.volumes v → KeepsFrags v }
{}
