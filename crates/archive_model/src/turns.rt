//! Laws of effects, one for each kind: what it makes of an archive that is held. Each is the contract of a function without a body.

ghost use Rattle.std.specs.Prelude.{◌≡◌, ◌⊎◌, ◌<◌, ◌≤◌, ℕ, ◌+◌, true, false, Some, Result, List, ◌∷◌, [], ◌++◌, length, map, take, slice_get, Contains};
ghost use Rattle.vnode_model.specs.declared.volumes.VolumeFields.{VolumeFields};
ghost use Rattle.budb_changes.specs.declared.records.TapePart.{TapePart};
ghost use Rattle.budb_changes.specs.declared.records.DumpRecordFields.{DumpRecordFields};
ghost use Rattle.budb_changes.specs.declared.records.VolRecordFields.{VolRecordFields};
ghost use Rattle.budb_changes.specs.declared.change.Change.{Change};
ghost use Rattle.budb_changes.specs.declared.change.Change.TheVariants.{Take, Done, Forget, Found};
ghost use Rattle.budb_changes.specs.Bytes.{encoded};
ghost use Rattle.budb_changes.specs.Forms.{AreChanges};
ghost use Rattle.budb_fold.specs.Database.{has_dump, is_initial, without, fits_record, after};
ghost use Rattle.budb_fold.specs.Lookups.{volume_of};
ghost use Rattle.plant_core.specs.Crashes.{State};
ghost use Rattle.plant_core.specs.Effects.{commits, replaces, tells, puts, settles, cuts, comes};
ghost use Rattle.tape_text.specs.Items.{Item, Filemark, record_for, IsFitItem};
ghost use Rattle.tape_text.specs.Parts.{FoundPart};
ghost use Rattle.tape_scan.specs.Scans.{IsClosedIn};
ghost use Rattle.tape_scan.specs.Slots.{Slot, Located, IsClosedAt, IsFound};
ghost use Rattle.archive_model.specs.Holding.{place_of, holds, HasNoHead};
ghost use Rattle.archive_model.specs.Archives.{Archive, Refusal, listed_of, IsUnlisted, AreHeldOnce};
ghost use Rattle.archive_model.specs.Settled.{HoldsSettled, IsSettledOn};
ghost use Rattle.archive_model.specs.Turns.{with_items, with_log, with_slot, with_contents, IsFreshHead, EndsNoPart, GivesNext, StillHeld, remaining, AllUntouched, is_one_of};

/// What is told keeps all.
pub fn told_text_keeps_all()
    ensures { (s : State) (a : Archive) (records : List DumpRecordFields) (text : List ℕ) → HoldsSettled s a records → HoldsSettled (comes (tells text) s) a records }
{}

/// A tape that is settled, by a mark, by a load of another one or by a cut at its own length, keeps all.
pub fn settling_keeps_all()
    ensures { (s : State) (a : Archive) (records : List DumpRecordFields) (k : ℕ) → HoldsSettled s a records → HoldsSettled (comes (settles k) s) a records }
{}

/// A commit of a begin, or of changes of sets, levels and hosts, keeps all.
pub fn a_commit_that_touches_no_dump_keeps_all()
    ensures { (s : State) (a : Archive) (records : List DumpRecordFields) (cs : List Change) → HoldsSettled s a records → AreChanges cs → AllUntouched cs
        → HoldsSettled (comes (commits (encoded cs)) s) (with_log a (a.log ++ cs)) records }
{}

/// A commit of a take, behind changes that touch no dump: of the dumps that it forgets those that are found whole stay dumps.
pub fn a_take_keeps_what_is_whole()
    ensures { (s : State) (a : Archive) (records : List DumpRecordFields) (cs : List Change) (initial : ℕ) → HoldsSettled s a records → AreChanges (cs ++ Take initial ∷ []) → AllUntouched cs
        → HoldsSettled (comes (commits (encoded (cs ++ Take initial ∷ []))) s) (with_log a (a.log ++ (cs ++ Take initial ∷ []))) (remaining (without (is_initial initial) (listed_of a)) a.slots records) }
{}

/// And so a commit that forgets dumps.
pub fn several_forgets_keep_what_is_whole()
    ensures { (s : State) (a : Archive) (records : List DumpRecordFields) (ids : List ℕ) → HoldsSettled s a records → AreChanges (map Forget ids)
        → HoldsSettled (comes (commits (encoded (map Forget ids))) s) (with_log a (a.log ++ map Forget ids)) (remaining (without (is_one_of ids) (listed_of a)) a.slots records) }
{}

/// A commit that lists a dump which is found whole, and settled wherever it is held, keeps all.
pub fn a_whole_dump_is_listed()
    ensures { (s : State) (a : Archive) (records : List DumpRecordFields) (c : Change) (d : DumpRecordFields)
        → HoldsSettled s a records → AreChanges (c ∷ []) → (c ≡ Done d) ⊎ (c ≡ Found d) → fits_record d (listed_of a) ≡ true → IsUnlisted (listed_of a) a.slots d → IsSettledOn s a.slots d
        → HoldsSettled (comes (commits (encoded (c ∷ []))) s) (with_log a (a.log ++ c ∷ [])) records }
{}

/// A log that is made another one with the same listed dumps keeps all.
pub fn a_replaced_log_keeps_all()
    ensures { (s : State) (a : Archive) (records : List DumpRecordFields) (log : List Change) → HoldsSettled s a records → AreChanges log → (after log).listed ≡ listed_of a
        → HoldsSettled (comes (replaces (encoded log)) s) (with_log a log) records }
{}

/// A record that is put in mid-dump keeps all: it is no head of a dump, no head that is begun on some slot, and no filemark
/// behind the end of a part.
pub fn a_put_in_mid_dump_keeps_all()
    ensures { (s : State) (a : Archive) (records : List DumpRecordFields) → HoldsSettled s a records → (k : ℕ) (t : Slot) → slice_get a.slots k ≡ Some t → (i : Item) → IsFitItem i
        → ((d : DumpRecordFields) → Contains records d → HasNoHead d.id (i ∷ [])) → IsFreshHead a.slots i → EndsNoPart t.items i
        → HoldsSettled (comes (puts k (record_for i)) s) (with_slot a k (t.items ++ i ∷ [])) records }
{}

/// The filemark that ends a part whose dump goes on keeps all, where no part on these slots ends that dump.
pub fn the_end_of_a_part_keeps_all()
    ensures { (s : State) (a : Archive) (records : List DumpRecordFields) → HoldsSettled s a records → (k : ℕ) (t : Slot) → slice_get a.slots k ≡ Some t → (q : FoundPart)
        → IsClosedIn (t.items ++ Filemark ∷ []) q → q.end ≡ length t.items + 1 → q.part.end.more ≡ 1
        → ((l : Located) → IsClosedAt a.slots l → l.found.part.head.id ≡ q.part.head.id → l.found.part.end.more ≡ 0 → ⊥)
        → HoldsSettled (comes (puts k (record_for Filemark)) s) (with_slot a k (t.items ++ Filemark ∷ [])) records }
{}

/// The filemark that ends a dump adds it to the dumps, with its contents, and keeps all others: its id is no dump's and no
/// dump's parent, and no other slot holds a tape of it.
pub fn the_end_of_a_dump_adds_it()
    ensures { (s : State) (a : Archive) (records : List DumpRecordFields) → HoldsSettled s a records → (k : ℕ) (t : Slot) → slice_get a.slots k ≡ Some t
        → (q : FoundPart) (d : DumpRecordFields) (parts : List Located) (contents : ℕ → List ℕ → Result VolumeFields Refusal)
        → IsClosedIn (t.items ++ Filemark ∷ []) q → q.end ≡ length t.items + 1 → IsFound (with_items k (t.items ++ Filemark ∷ []) a.slots) parts d → q.part.head.id ≡ d.id
        → ((e : DumpRecordFields) → Contains records e → e.id ≡ d.id → ⊥) → ((e : DumpRecordFields) → Contains records e → e.parent ≡ d.id → ⊥)
        → has_dump (listed_of a) d.id ≡ false → d.parent < d.id → AreHeldOnce (d ∷ []) (with_items k (t.items ++ Filemark ∷ []) a.slots)
        → ((id : ℕ) (name : List ℕ) → (id ≡ d.id → ⊥) → contents id name ≡ a.contents id name)
        → ((name : List ℕ) (v : VolRecordFields) → volume_of d name ≡ Some v → GivesNext (with_items k (t.items ++ Filemark ∷ []) a.slots) contents d name v)
        → HoldsSettled (comes (puts k (record_for Filemark)) s) (with_contents (with_slot a k (t.items ++ Filemark ∷ [])) contents) (records ++ d ∷ []) }
{}

/// A cut at or behind the end of all that is held of listed dumps on a tape keeps them held. A dump that isn't listed stays one
/// where it is whole yet.
pub fn a_cut_keeps_what_is_listed()
    ensures { (s : State) (a : Archive) (records : List DumpRecordFields) → HoldsSettled s a records → (k : ℕ) (t : Slot) → slice_get a.slots k ≡ Some t → (n : ℕ)
        → ((d : DumpRecordFields) (tape : ℕ) (p : TapePart) → Contains (listed_of a) d → place_of d tape ≡ Some p → holds d tape t.items ≡ true → p.end ≤ n)
        → HoldsSettled (comes (cuts k n) s) (with_slot a k (take n t.items)) (remaining (listed_of a) (with_items k (take n t.items) a.slots) records)
        × StillHeld (listed_of a) a.slots (with_items k (take n t.items) a.slots) }
{}
