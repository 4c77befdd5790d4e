//! Laws of the steps of a dump, put together from those of effects. Each is the contract of a function without a body.

ghost use Rattle.std.specs.Prelude.{◌≡◌, ◌⊎◌, ◌<◌, ◌≤◌, ℕ, ◌+◌, true, false, Some, Result, List, ◌∷◌, [], ◌++◌, length, map, take, slice_get, All, Contains};
ghost use Rattle.vnode_model.specs.declared.volumes.VolumeFields.{VolumeFields};
ghost use Rattle.budb_changes.specs.declared.records.TapePart.{TapePart};
ghost use Rattle.budb_changes.specs.declared.records.DumpRecordFields.{DumpRecordFields};
ghost use Rattle.budb_changes.specs.declared.records.VolRecordFields.{VolRecordFields};
ghost use Rattle.budb_changes.specs.declared.change.Change.{Change};
ghost use Rattle.budb_changes.specs.declared.change.Change.TheVariants.{Take, Done, Forget, Found};
ghost use Rattle.budb_changes.specs.Bytes.{encoded};
ghost use Rattle.budb_changes.specs.Forms.{AreChanges};
ghost use Rattle.budb_fold.specs.Database.{has_dump, is_initial, without, fits_record, after};
ghost use Rattle.budb_fold.specs.Lookups.{volume_of};
ghost use Rattle.plant_core.specs.Crashes.{State};
ghost use Rattle.plant_core.specs.Stock.{Stock};
ghost use Rattle.plant_core.specs.Effects.{commits, puts, settles, cuts};
ghost use Rattle.tape_frames.specs.declared.dump_head.DumpHeadFields.{DumpHeadFields};
ghost use Rattle.tape_frames.specs.declared.label.LabelFields.{LabelFields};
ghost use Rattle.tape_frames.specs.declared.dump_end.DumpEndFields.{DumpEndFields};
ghost use Rattle.tape_frames.specs.declared.vol_end.VolEndFields.{VolEndFields};
ghost use Rattle.tape_text.specs.Items.{Item, Says, Filemark, record_for, IsFitItem};
ghost use Rattle.tape_text.specs.Parts.{FoundPart};
ghost use Rattle.tape_text.specs.Wholes.{IsWhole, record_by};
ghost use Rattle.tape_scan.specs.Scans.{IsClosedIn};
ghost use Rattle.tape_scan.specs.Slots.{Slot, Located, IsClosedAt, IsBegunAt, IsFound};
ghost use Rattle.archive_model.specs.Holding.{place_of, holds, HasNoHead};
ghost use Rattle.archive_model.specs.Archives.{Archive, Refusal, listed_of, AreHeldOnce, IsKept, Holds};
ghost use Rattle.archive_model.specs.Settled.{HoldsSettled, IsSettledOn, AreHeld, growing};
ghost use Rattle.archive_model.specs.Turns.{with_items, with_log, with_slot, with_contents, HasOwnHeads, IsFreshHead, IsWithinPart, GivesNext, remaining, AllUntouched, is_one_of};
ghost use Rattle.tape_frames.specs.declared.frame.Frame.TheVariants as frames;

/// A put begins no part but the one whose head it is.
pub fn a_put_begins_its_head_alone()
    ensures { (listed records : List DumpRecordFields) (slots : List Slot) (contents : ℕ → List ℕ → Result VolumeFields Refusal) → IsKept listed slots contents records
        → (k : ℕ) (s : Slot) → slice_get slots k ≡ Some s → (i : Item) → ((d : DumpRecordFields) → Contains records d → HasNoHead d.id (i ∷ [])) → IsFreshHead slots i
        → (l : Located) → IsBegunAt (with_items k (s.items ++ i ∷ []) slots) l
        → IsBegunAt slots l ⊎ ((l.slot ≡ k) × (l.found.first ≡ length s.items) × (i ≡ Says (frames.DumpHead l.found.part.head))) }
{}

/// A filemark closes no part but the one that it ends.
pub fn a_filemark_closes_its_part_alone()
    ensures { (listed records : List DumpRecordFields) (slots : List Slot) (contents : ℕ → List ℕ → Result VolumeFields Refusal) → IsKept listed slots contents records
        → (k : ℕ) (s : Slot) → slice_get slots k ≡ Some s → (q : FoundPart) → IsClosedIn (s.items ++ Filemark ∷ []) q → q.end ≡ length s.items + 1
        → (l : Located) → IsClosedAt (with_items k (s.items ++ Filemark ∷ []) slots) l → IsClosedAt slots l ⊎ (l.found ≡ q) }
{}

/// A put that is no head of an id keeps the heads that there are of it, and one that is adds its own.
pub fn a_put_keeps_own_heads()
    ensures { (slots : List Slot) (parts more : List Located) (id k : ℕ) (s : Slot) (i : Item) → slice_get slots k ≡ Some s → HasOwnHeads slots parts id
        → ((l : Located) → Contains parts l → Contains more l)
        → ((h : DumpHeadFields) → i ≡ Says (frames.DumpHead h) → h.id ≡ id → (l : Located) × Contains more l × (l.slot ≡ k) × (l.found.first ≡ length s.items))
        → HasOwnHeads (with_items k (s.items ++ i ∷ []) slots) more id }
{}

/// A found dump each of whose parts is settled, and no tape of which is held twice, is settled wherever it is held.
pub fn settled_parts_are_a_settled_dump()
    ensures { (s : State) (slots : List Slot) (parts : List Located) (d : DumpRecordFields) → IsFound slots parts d → AreHeldOnce (d ∷ []) slots
        → ((l : Located) → Contains parts l → l.found.end ≤ s.settled l.slot) → IsSettledOn s slots d }
{}

/// A label, its filemark and the settling.
pub fn a_label_is_held()
    ensures { (s : State) (a : Archive) (records : List DumpRecordFields) → HoldsSettled s a records → (k : ℕ) (t : Slot) → slice_get a.slots k ≡ Some t → (l : LabelFields) → IsFitItem (Says (frames.Label l))
        → let labelled = with_slot a k (t.items ++ Says (frames.Label l) ∷ Filemark ∷ []) in
        AreHeld s (puts k (record_for (Says (frames.Label l))) ∷ puts k (record_for Filemark) ∷ settles k ∷ [])
        (record { archive = a; records = records } ∷ record { archive = with_slot a k (t.items ++ Says (frames.Label l) ∷ []); records = records }
        ∷ record { archive = labelled; records = records } ∷ record { archive = labelled; records = records } ∷ []) }
{}

/// The step of a volume's end: its frame, its filemark and the settling.
pub fn the_end_of_a_volume_is_held()
    ensures { (s : State) (a : Archive) (records : List DumpRecordFields) → HoldsSettled s a records → (k : ℕ) (t : Slot) → slice_get a.slots k ≡ Some t → (e : VolEndFields) → IsFitItem (Says (frames.VolEnd e))
        → let ended = with_slot a k (t.items ++ Says (frames.VolEnd e) ∷ Filemark ∷ []) in
        AreHeld s (puts k (record_for (Says (frames.VolEnd e))) ∷ puts k (record_for Filemark) ∷ settles k ∷ [])
        (record { archive = a; records = records } ∷ record { archive = with_slot a k (t.items ++ Says (frames.VolEnd e) ∷ []); records = records }
        ∷ record { archive = ended; records = records } ∷ record { archive = ended; records = records } ∷ []) }
{}

/// The step of a dump's end, behind its last frame: the filemark, the settling and the commit of its record.
pub fn the_end_of_a_dump_is_held()
    ensures { (s : State) (a : Archive) (records : List DumpRecordFields) → HoldsSettled s a records → (k : ℕ) (t : Slot) → slice_get a.slots k ≡ Some t
        → (q : FoundPart) (d : DumpRecordFields) (parts : List Located) (contents : ℕ → List ℕ → Result VolumeFields Refusal)
        → IsClosedIn (t.items ++ Filemark ∷ []) q → q.end ≡ length t.items + 1 → IsFound (with_items k (t.items ++ Filemark ∷ []) a.slots) parts d → q.part.head.id ≡ d.id
        → ((e : DumpRecordFields) → Contains records e → e.id ≡ d.id → ⊥) → ((e : DumpRecordFields) → Contains records e → e.parent ≡ d.id → ⊥) → HasOwnHeads (with_items k (t.items ++ Filemark ∷ []) a.slots) parts d.id
        → ((l : Located) → Contains parts l → (l.slot ≡ k → ⊥) → l.found.end ≤ s.settled l.slot)
        → fits_record d (listed_of a) ≡ true → has_dump (listed_of a) d.id ≡ false → d.parent < d.id → AreChanges (Done d ∷ [])
        → ((id : ℕ) (name : List ℕ) → (id ≡ d.id → ⊥) → contents id name ≡ a.contents id name)
        → ((name : List ℕ) (v : VolRecordFields) → volume_of d name ≡ Some v → GivesNext (with_items k (t.items ++ Filemark ∷ []) a.slots) contents d name v)
        → let ended = with_contents (with_slot a k (t.items ++ Filemark ∷ [])) contents in
        AreHeld s (puts k (record_for Filemark) ∷ settles k ∷ commits (encoded (Done d ∷ [])) ∷ [])
        (record { archive = a; records = records } ∷ record { archive = ended; records = records ++ d ∷ [] } ∷ record { archive = ended; records = records ++ d ∷ [] }
        ∷ record { archive = with_log ended (a.log ++ Done d ∷ []); records = records ++ d ∷ [] } ∷ []) }
{}

/// Where each head of an id is that of one of its own parts, which are closed, the head of another part is that of no part
/// that is begun.
pub fn own_heads_are_not_anew()
    ensures { (slots : List Slot) (own : List Located) (h : DumpHeadFields) → All (IsClosedAt slots) own → HasOwnHeads slots own h.id
        → ((l : Located) → Contains own l → l.found.part.head.part ≡ h.part → ⊥) → IsFreshHead slots (Says (frames.DumpHead h)) }
{}

/// A cut keeps the heads that there are of an id.
pub fn a_cut_keeps_own_heads()
    ensures { (slots : List Slot) (parts : List Located) (id k n : ℕ) (s : Slot) → slice_get slots k ≡ Some s → HasOwnHeads slots parts id → HasOwnHeads (with_items k (take n s.items) slots) parts id }
{}

/// The step of a tape that is appended to: its cut behind what is held there of listed dumps, and the head of a new dump's part.
pub fn an_appended_tape_is_held()
    ensures { (s : State) (a : Archive) (records : List DumpRecordFields) → HoldsSettled s a records → (k : ℕ) (t : Slot) → slice_get a.slots k ≡ Some t
        → (h : DumpHeadFields) → IsFitItem (Says (frames.DumpHead h)) → ((d : DumpRecordFields) → Contains records d → d.id ≡ h.id → ⊥) → IsFreshHead a.slots (Says (frames.DumpHead h))
        → (n : ℕ) → ((d : DumpRecordFields) (tape : ℕ) (p : TapePart) → Contains (listed_of a) d → place_of d tape ≡ Some p → holds d tape t.items ≡ true → p.end ≤ n)
        → let few = remaining (listed_of a) (with_items k (take n t.items) a.slots) records in
        AreHeld s (cuts k n ∷ puts k (record_for (Says (frames.DumpHead h))) ∷ [])
        (record { archive = a; records = records } ∷ record { archive = with_slot a k (take n t.items); records = few }
        ∷ record { archive = with_slot a k (take n t.items ++ Says (frames.DumpHead h) ∷ []); records = few } ∷ []) }
{}

/// The step of a tape that is taken, on which nothing listed is held any more: its cut to nothing, the label and its filemark,
/// the settling, and the head of a new dump's part.
pub fn a_taken_tape_is_held()
    ensures { (s : State) (a : Archive) (records : List DumpRecordFields) → HoldsSettled s a records → (k : ℕ) (t : Slot) → slice_get a.slots k ≡ Some t
        → (h : DumpHeadFields) → IsFitItem (Says (frames.DumpHead h)) → ((d : DumpRecordFields) → Contains records d → d.id ≡ h.id → ⊥) → IsFreshHead a.slots (Says (frames.DumpHead h))
        → (l : LabelFields) → IsFitItem (Says (frames.Label l)) → ((d : DumpRecordFields) (tape : ℕ) → Contains (listed_of a) d → holds d tape t.items ≡ true → ⊥)
        → let few = remaining (listed_of a) (with_items k [] a.slots) records in
        let labelled = with_slot a k (Says (frames.Label l) ∷ Filemark ∷ []) in
        AreHeld s (cuts k 0 ∷ puts k (record_for (Says (frames.Label l))) ∷ puts k (record_for Filemark) ∷ settles k ∷ puts k (record_for (Says (frames.DumpHead h))) ∷ [])
        (record { archive = a; records = records } ∷ record { archive = with_slot a k []; records = few } ∷ record { archive = with_slot a k (Says (frames.Label l) ∷ []); records = few }
        ∷ record { archive = labelled; records = few } ∷ record { archive = labelled; records = few }
        ∷ record { archive = with_slot a k (Says (frames.Label l) ∷ Filemark ∷ Says (frames.DumpHead h) ∷ []); records = few } ∷ []) }
{}

/// The step of a part's end where the dump goes on: its frame, its filemark and the settling.
pub fn the_end_of_a_part_is_held()
    ensures { (s : State) (a : Archive) (records : List DumpRecordFields) → HoldsSettled s a records → (k : ℕ) (t : Slot) → slice_get a.slots k ≡ Some t
        → (e : DumpEndFields) → IsFitItem (Says (frames.DumpEnd e)) → (q : FoundPart) → IsClosedIn (t.items ++ Says (frames.DumpEnd e) ∷ Filemark ∷ []) q → q.end ≡ length t.items + 2 → q.part.end.more ≡ 1
        → ((l : Located) → IsClosedAt a.slots l → l.found.part.head.id ≡ q.part.head.id → l.found.part.end.more ≡ 0 → ⊥)
        → let ended = with_slot a k (t.items ++ Says (frames.DumpEnd e) ∷ Filemark ∷ []) in
        AreHeld s (puts k (record_for (Says (frames.DumpEnd e))) ∷ puts k (record_for Filemark) ∷ settles k ∷ [])
        (record { archive = a; records = records } ∷ record { archive = with_slot a k (t.items ++ Says (frames.DumpEnd e) ∷ []); records = records }
        ∷ record { archive = ended; records = records } ∷ record { archive = ended; records = records } ∷ []) }
{}

/// A dump's closed parts, and one more that is closed by what is put behind a tape, are found there where they are a whole dump.
pub fn the_last_part_makes_a_dump_found()
    ensures { (slots : List Slot) (k : ℕ) (t : Slot) → slice_get slots k ≡ Some t → (more : List Item) (own : List Located) (q : FoundPart) (d : DumpRecordFields)
        → All (IsClosedAt slots) own → IsClosedIn (t.items ++ more) q
        → let parts = own ++ record { slot = k; found = q } ∷ [] in
        IsWhole (map (λ l. l.found.part) parts) → record_by (map (λ l. l.found) parts) ≡ Some d → IsFound (with_items k (t.items ++ more) slots) parts d }
{}

/// An id above those of all dumps is none's, and none's parent.
pub fn an_id_above_all_is_new()
    ensures { (stock : Stock) (a : Archive) (records : List DumpRecordFields) (id : ℕ) → Holds stock a records → ((e : DumpRecordFields) → Contains records e → e.id < id)
        → (e : DumpRecordFields) → Contains records e → (e.id ≡ id → ⊥) × (e.parent ≡ id → ⊥) }
{}

/// The dumps that remain were dumps.
pub fn remaining_dumps_were_dumps()
    ensures { (listed : List DumpRecordFields) (slots : List Slot) (records : List DumpRecordFields) (e : DumpRecordFields) → Contains (remaining listed slots records) e → Contains records e }
{}

/// The listed dumps behind changes that touch none, behind a take, behind forgets, and behind a record that fits.
pub fn the_listed_dumps_behind_a_commit()
    ensures untouched { (log cs : List Change) → AllUntouched cs → (after (log ++ cs)).listed ≡ (after log).listed }
    ensures taken { (log cs : List Change) (initial : ℕ) → AllUntouched cs → (after (log ++ (cs ++ Take initial ∷ []))).listed ≡ without (is_initial initial) (after log).listed }
    ensures forgotten { (log : List Change) (ids : List ℕ) → (after (log ++ map Forget ids)).listed ≡ without (is_one_of ids) (after log).listed }
    ensures recorded { (log : List Change) (c : Change) (d : DumpRecordFields) → (c ≡ Done d) ⊎ (c ≡ Found d) → fits_record d (after log).listed ≡ true → (after (log ++ c ∷ [])).listed ≡ (after log).listed ++ d ∷ [] }
{}

/// Frames within a part that are put one behind another keep all.
pub fn frames_within_a_part_are_held()
    ensures { (s : State) (a : Archive) (records : List DumpRecordFields) (k : ℕ) (t : Slot) → slice_get a.slots k ≡ Some t → (items more : List Item)
        → All IsWithinPart more → All IsFitItem more → HoldsSettled s (with_slot a k items) records
        → AreHeld s (map (λ i. puts k (record_for i)) more) (growing a records k items more) }
{}

/// Where all heads on tapes have ids below one, and the greatest id that was begun or recorded is below it too, it is above the
/// ids of all dumps, and no head has it.
pub fn an_id_above_all_heads_is_new()
    ensures above { (stock : Stock) (a : Archive) (records : List DumpRecordFields) (id : ℕ) → Holds stock a records
        → ((k : ℕ) (s : Slot) (n : ℕ) (h : DumpHeadFields) → slice_get a.slots k ≡ Some s → slice_get s.items n ≡ Some (Says (frames.DumpHead h)) → h.id < id)
        → (after a.log).greatest < id → (e : DumpRecordFields) → Contains records e → e.id < id }
    ensures none { (slots : List Slot) (id : ℕ)
        → ((k : ℕ) (s : Slot) (n : ℕ) (h : DumpHeadFields) → slice_get slots k ≡ Some s → slice_get s.items n ≡ Some (Says (frames.DumpHead h)) → h.id < id) → HasOwnHeads slots [] id }
{}
