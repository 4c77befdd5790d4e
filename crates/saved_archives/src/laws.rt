//! Laws of tapes since a moment, each the contract of a function without a body.

ghost use Rattle.std.specs.Prelude.{◌≡◌, ◌<◌, ◌≤◌, ℕ, ◌+◌, true, Some, Result, List, [], ◌∷◌, ◌++◌, length, take, slice_get, Contains};
ghost use Rattle.vnode_model.specs.declared.volumes.VolumeFields.{VolumeFields};
ghost use Rattle.budb_changes.specs.declared.change.Change.{Change};
ghost use Rattle.budb_changes.specs.declared.records.TapePart.{TapePart};
ghost use Rattle.budb_changes.specs.declared.records.DumpRecordFields.{DumpRecordFields};
ghost use Rattle.budb_changes.specs.declared.records.VolRecordFields.{VolRecordFields};
ghost use Rattle.budb_changes.specs.Bytes.{encoded};
ghost use Rattle.budb_changes.specs.Forms.{AreChanges};
ghost use Rattle.budb_fold.specs.Database.{after};
ghost use Rattle.budb_fold.specs.Lookups.{volume_of};
ghost use Rattle.plant_core.specs.Stock.{Stock};
ghost use Rattle.tape_text.specs.Items.{Item};
ghost use Rattle.tape_text.specs.Texts.{Tape, tape_items};
ghost use Rattle.tape_text.specs.Parts.{FoundPart};
ghost use Rattle.tape_scan.specs.Scans.{IsClosedIn};
ghost use Rattle.tape_scan.specs.Slots.{Slot, Located, IsFound};
ghost use Rattle.archive_model.specs.Holding.{place_of, holds, HasNoHead, LiesOn, Lies};
ghost use Rattle.archive_model.specs.Archives.{Archive, Refusal, listed_of, IsKept, Holds};
ghost use Rattle.archive_model.specs.Turns.{with_items, with_log, remaining, EndsNoPart, GivesNext};
ghost use Rattle.saved_archives.specs.Since.{Ids, IsIn, OtherThan, AreSince, with_listed, LiesOnce, IsHeldFor, ComesOf};

/// Tapes are since a moment what they were, where nothing came.
pub fn tapes_are_since_themselves()
    ensures { (which : Ids) (slots : List Slot) → AreSince which slots slots }
{}

/// What tapes are since a moment they are also where others came between, and for fewer ids.
pub fn what_came_since_joins()
    ensures fewer { (which few : Ids) (slots slots2 : List Slot) → ((id : ℕ) → IsIn few id → IsIn which id) → AreSince which slots slots2 → AreSince few slots slots2 }
    ensures both { (which : Ids) (slots between behind : List Slot) → AreSince which slots between → AreSince which between behind → AreSince which slots behind }
{}

/// Tapes are since a moment what they were for dumps of some ids where a record is put that is no head of such a dump; and it ends no part, or a part of another dump.
pub fn a_put_is_since()
    ensures newer { (which : Ids) (slots : List Slot) (k : ℕ) (s : Slot) → slice_get slots k ≡ Some s → (i : Item) → ((id : ℕ) → IsIn which id → HasNoHead id (i ∷ []))
        → ((q : FoundPart) → IsClosedIn (s.items ++ i ∷ []) q → q.end ≡ length s.items + 1 → IsIn which q.part.head.id → ⊥) → AreSince which slots (with_items k (s.items ++ i ∷ []) slots) }
    ensures within { (which : Ids) (slots : List Slot) (k : ℕ) (s : Slot) → slice_get slots k ≡ Some s → (i : Item) → ((id : ℕ) → IsIn which id → HasNoHead id (i ∷ []))
        → EndsNoPart s.items i → AreSince which slots (with_items k (s.items ++ i ∷ []) slots) }
{}

/// A cut where a dump ends that lies on the tape takes each other dump that lies there whole: what is held behind it of a dump ends in front of the cut,
/// listed or not.
pub fn a_cut_at_an_end_takes_dumps_whole()
    ensures { (d e : DumpRecordFields) (p q : TapePart) (items : List Item) (tape : ℕ) → Lies d items → LiesOn e q items → place_of d tape ≡ Some p → holds d tape (take q.end items) ≡ true → p.end ≤ q.end }
{}

/// So tapes are since a moment what they were where one is cut at the end of a dump that lies there, or of any text that it begins with, and more comes
/// behind that, without a head of such a dump; and where one is written anew.
pub fn a_cut_tape_is_since()
    ensures end { (which : Ids) (slots : List Slot) (k : ℕ) (s : Slot) → slice_get slots k ≡ Some s → (e : DumpRecordFields) (q : TapePart) → LiesOn e q s.items → AreSince which slots (with_items k (take q.end s.items) slots) }
    ensures text { (which : Ids) (slots : List Slot) (k : ℕ) (s : Slot) → slice_get slots k ≡ Some s → (n : ℕ) (t : Tape) (more : List Item) → take n s.items ≡ tape_items t → ((id : ℕ) → IsIn which id → HasNoHead id more)
        → AreSince which slots (with_items k (take n s.items ++ more) slots) }
    ensures anew { (which : Ids) (slots : List Slot) (k : ℕ) (s : Slot) → slice_get slots k ≡ Some s → (items : List Item) → ((id : ℕ) → IsIn which id → HasNoHead id items) → AreSince which slots (with_items k items slots) }
{}

/// And so they are where a tape has a text, and behind it no head of such a dump, and goes on without one.
pub fn a_text_that_goes_on_is_since()
    ensures { (which : Ids) (slots : List Slot) (k : ℕ) (s : Slot) → slice_get slots k ≡ Some s → (t : Tape) (opened more : List Item) → s.items ≡ tape_items t ++ opened → ((id : ℕ) → IsIn which id → HasNoHead id (opened ++ more))
        → AreSince which slots (with_items k (s.items ++ more) slots) }
{}

/// An archive comes of itself where no dump of it has an id above the greatest; and one comes of another where a third comes between. A step of a dump
/// that runs leaves what came of an archive so: on its tapes other dumps are what they were, and once it is found it gives what it has next.
pub fn what_comes_of_archives_joins()
    ensures same { (greatest : ℕ) (a : Archive) (listed records : List DumpRecordFields) → IsKept listed a.slots a.contents records → ((d : DumpRecordFields) → Contains records d → d.id ≤ greatest) → ComesOf greatest a a }
    ensures both { (greatest between : ℕ) (a b c : Archive) (listed records : List DumpRecordFields) → greatest ≤ between → IsKept listed b.slots b.contents records → ((d : DumpRecordFields) → Contains records d → d.id ≤ between)
        → ComesOf greatest a b → ComesOf between b c → ComesOf greatest a c }
    ensures step { (greatest own : ℕ) (a b c : Archive) (listed records : List DumpRecordFields) → greatest < own → IsKept listed b.slots b.contents records → ((d : DumpRecordFields) → Contains records d → d.parent ≡ own → ⊥)
        → ComesOf greatest a b → AreSince (OtherThan own) b.slots c.slots → ((id : ℕ) (name : List ℕ) → (id ≡ own → ⊥) → c.contents id name ≡ b.contents id name)
        → ((parts : List Located) (d : DumpRecordFields) (name : List ℕ) (v : VolRecordFields) → IsFound c.slots parts d → d.parent < d.id → d.id ≡ own → volume_of d name ≡ Some v → GivesNext c.slots c.contents d name v) → ComesOf greatest a c }
{}

/// Where an archive was held, and another one that came of it is held now, a journal that lists again what was listed then is held with the tapes that
/// there are now: its dumps are those that were listed then, and those that came since, or were listed no more then, and are found whole. So it is also
/// for dumps that were forgotten since, of which some tapes may be lost.
pub fn what_was_listed_is_held_again()
    ensures kept { (greatest : ℕ) (a b : Archive) (records others : List DumpRecordFields) → IsKept (listed_of a) a.slots a.contents records → ((d : DumpRecordFields) → Contains records d → d.id ≤ greatest) → ComesOf greatest a b
        → IsKept (listed_of b) b.slots b.contents others → IsKept (listed_of a) b.slots b.contents (with_listed (listed_of a) (remaining [] b.slots others)) }
    ensures held { (greatest : ℕ) (old later new : Stock) (a b : Archive) (records others : List DumpRecordFields) (log : List Change) → Holds old a records → ((d : DumpRecordFields) → Contains records d → d.id ≤ greatest) → ComesOf greatest a b
        → Holds later b others → AreChanges log → (after log).listed ≡ listed_of a → new.log ≡ Some (encoded log) → ((k : ℕ) → new.tape k ≡ later.tape k) → Holds new (with_log b log) (with_listed (listed_of a) (remaining [] b.slots others)) }
{}

/// What a dump gives next of a volume it gives by what tapes are since then, wherever those on which the volume lies are held: where it lay, and what it
/// and its parent have of the volume is the same.
pub fn what_is_given_next_stays()
    ensures { (which : Ids) (slots slots2 : List Slot) → AreSince which slots slots2 → (d : DumpRecordFields) → IsIn which d.id → LiesOnce d slots
        → (contents contents2 : ℕ → List ℕ → Result VolumeFields Refusal) (name : List ℕ) (v : VolRecordFields) → IsHeldFor d name slots2 → contents2 d.id name ≡ contents d.id name → contents2 d.parent name ≡ contents d.parent name
        → GivesNext slots contents d name v → GivesNext slots2 contents2 d name v }
{}
