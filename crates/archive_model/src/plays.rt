//! Laws of plays and contents, each the contract of a function without a body.

ghost use Rattle.std.specs.Prelude.{◌≡◌, ◌⊎◌, ◌≤◌, ℕ, Option, Some, None, Result, Ok, List, ◌∷◌, [], find, Contains};
ghost use Rattle.std.specs.List.{flat_map};
ghost use Rattle.vnode_model.specs.declared.volumes.VolumeFields.{VolumeFields};
ghost use Rattle.vnode_model.specs.declared.increments.IncrementFields.{IncrementFields};
ghost use Rattle.vnode_model.specs.Limits.{AreVolume};
ghost use Rattle.vnode_model.specs.Increments.{Follows, selected};
ghost use Rattle.dump_stream.specs.Stream.{Spells};
ghost use Rattle.dump_stream.specs.Written.{written};
ghost use Rattle.dump_stream.specs.Allowed.{Allowed};
ghost use Rattle.bk_text.specs.Blanks.{is_same_text};
ghost use Rattle.budb_changes.specs.declared.records.DumpRecordFields.{DumpRecordFields};
ghost use Rattle.budb_changes.specs.declared.records.VolRecordFields.{VolRecordFields};
ghost use Rattle.budb_fold.specs.Lookups.{VolumeDump, volume_of, from_volume, latest};
ghost use Rattle.budb_fold.specs.Chains.{IsChain};
ghost use Rattle.plant_core.specs.Stock.{Stock};
ghost use Rattle.tape_text.specs.Parts.{FoundPart};
ghost use Rattle.tape_text.specs.Wholes.{record_with};
ghost use Rattle.tape_scan.specs.Slots.{Slot, Located, IsFound};
ghost use Rattle.tape_writer.specs.Filling.{Dumping, IsDumped};
ghost use Rattle.archive_model.specs.Holding.{placed_from, called_for};
ghost use Rattle.archive_model.specs.Plays.{HasStream, PlayFault, records_of, PlaysOver, Plays};
ghost use Rattle.archive_model.specs.Archives.{Archive, Refusal, listed_of, is_unheld, is_missing, needs, all_here, refused_by, AreHeldOnce, Holds, LooksUp};
ghost use Rattle.archive_model.specs.Turns.{ContentsGrow, GivesNext, IsClone};
ghost use Rattle.archive_model.specs.Clones.{Cloned, HaveClones, AreWritten, IsWritten, last_of};

/// A play has one outcome.
pub fn a_play_has_one_outcome()
    ensures { (slots : List Slot) (name : List ℕ) (ds : List DumpRecordFields) (a b : Result VolumeFields PlayFault) → PlaysOver slots name None ds a → PlaysOver slots name None ds b → a ≡ b }
{}

/// A look-up has one outcome.
pub fn a_look_up_has_one_outcome()
    ensures some { (a : Archive) (name : List ℕ) (before : Option ℕ) → (outcome : Result VolumeFields Refusal) × LooksUp a name before outcome }
    ensures once { (a : Archive) (name : List ℕ) (before : Option ℕ) (x y : Result VolumeFields Refusal) → LooksUp a name before x → LooksUp a name before y → x ≡ y }
{}

/// From the slots that hold them the tapes of a whole dump give the very stream that was put there for a volume.
pub fn what_was_written_is_given()
    ensures { (slots : List Slot) (q : FoundPart) (qs : List FoundPart) (name : List ℕ) (w : Dumping) (i : IncrementFields)
        → IsWritten slots q qs name w → Spells w.stream i → HasStream slots (record_with q.part.head (q ∷ qs)) (called_for (record_with q.part.head (q ∷ qs)) name) i }
{}

/// Dumps whose tapes give the increments of clones, the first one whole and each other one of a clone that follows the one
/// before it, play to the last clone.
pub fn a_chain_plays_to_its_clone()
    ensures { (slots : List Slot) (name : List ℕ) (ds : List DumpRecordFields) (cs : List Cloned) (v : VolumeFields) → HaveClones slots name None ds cs → last_of None cs ≡ Some v → PlaysOver slots name None ds (Ok v) }
{}

/// And so do dumps that were written of these clones, by their records, on slots that are here.
pub fn what_was_written_plays_to_its_clone()
    ensures { (slots : List Slot) (name : List ℕ) (ds : List DumpRecordFields) (cs : List Cloned) (v : VolumeFields) → AreWritten slots name None ds cs → last_of None cs ≡ Some v → PlaysOver slots name None ds (Ok v) }
{}

/// In an archive that is held the contents of a dump whose chain was written of clones, and whose tapes are all held, are the
/// last clone.
pub fn what_is_held_is_the_clone()
    ensures { (stock : Stock) (a : Archive) (records : List DumpRecordFields) (d : DumpRecordFields) (name ids : List ℕ) (cs : List Cloned) (v : VolumeFields)
        → Holds stock a records → Contains records d → IsChain records d.id name (Ok ids) → find (is_unheld a.slots) (needs records ids name) ≡ None
        → AreWritten (all_here a.slots) name None (records_of records ids) cs → last_of None cs ≡ Some v → a.contents d.id name ≡ Ok v }
{}

/// Where a cell is fair to the clone of a volume in the parent dump, the volume's from time is 0, or it follows that clone
/// since then.
pub fn a_from_time_is_fair()
    ensures { (v : VolRecordFields) (born : ℕ) (old new : VolumeFields) → (v.clone ≤ born) ⊎ Follows old v.clone new → (from_volume (Some v) born ≡ 0) ⊎ Follows old (from_volume (Some v) born) new }
{}

/// A dump on whose tapes the increment of a clone stands gives the clone over the parent's contents, or the refusal that these
/// are.
pub fn a_dump_gives_its_clone_next()
    ensures { (slots : List Slot) (contents : ℕ → List ℕ → Result VolumeFields Refusal) (d : DumpRecordFields) (name : List ℕ) (v : VolRecordFields) (clone : VolumeFields) (time : ℕ)
        → HasStream (all_here slots) d (called_for d name) (selected clone v.from time) → AreVolume clone.vnodes → IsClone contents d name v clone → GivesNext slots contents d name v }
{}

/// And so its contents are what playing its chain gives.
pub fn what_a_dump_gives_next_is_its_contents()
    ensures { (records : List DumpRecordFields) (slots : List Slot) (contents : ℕ → List ℕ → Result VolumeFields Refusal) (d : DumpRecordFields)
        → ((x y : DumpRecordFields) → Contains records x → Contains records y → x.id ≡ y.id → x ≡ y) → Contains records d
        → ((p : DumpRecordFields) (name ids : List ℕ) → Contains records p → p.id ≡ d.parent → IsChain records p.id name (Ok ids) → find (is_unheld slots) (needs records ids name) ≡ None
        → (outcome : Result VolumeFields PlayFault) × Plays (all_here slots) records ids name outcome × (contents p.id name ≡ refused_by outcome))
        → ((name : List ℕ) (v : VolRecordFields) → volume_of d name ≡ Some v → GivesNext slots contents d name v) → ContentsGrow slots contents records d }
{}

/// What playing the chain of a look-up's dump gives, from the slots that are here, is what the look-up gives, in an archive
/// that is held.
pub fn what_is_played_is_looked_up()
    ensures { (stock : Stock) (a : Archive) (records : List DumpRecordFields) → Holds stock a records
        → (name : List ℕ) (before : Option ℕ) (one : VolumeDump) (ids : List ℕ) (outcome : Result VolumeFields PlayFault)
        → latest (listed_of a) name before ≡ Some one → IsChain (listed_of a) one.dump.id one.volume.name (Ok ids)
        → find (is_missing a.slots) (needs (listed_of a) ids one.volume.name) ≡ None
        → Plays a.slots (listed_of a) ids one.volume.name outcome → LooksUp a name before (refused_by outcome) }
{}

/// What a play makes is a volume.
pub fn what_is_made_is_a_volume()
    ensures { (slots : List Slot) (name : List ℕ) (ds : List DumpRecordFields) (v : VolumeFields) → PlaysOver slots name None ds (Ok v) → AreVolume v.vnodes }
{}

/// A dump that is found, and held once, on whose tapes a clone's increment was put as a volume's stream, gives that clone
/// over the parent's contents, or the refusal that these are.
pub fn a_dumped_clone_is_given_next()
    ensures { (slots : List Slot) (parts : List Located) (d : DumpRecordFields) → IsFound slots parts d → AreHeldOnce (d ∷ []) slots
        → (contents : ℕ → List ℕ → Result VolumeFields Refusal) (name : List ℕ) (volume : ℕ × VolRecordFields) → find (λ x. is_same_text x.1.name name) (placed_from 0 d.volumes) ≡ Some volume
        → (w : Dumping) → IsDumped d.id volume.0 (flat_map (λ l. l.found.part.fragments) parts) w
        → (clone : VolumeFields) (time : ℕ) → w.stream ≡ written (selected clone volume.1.from time) → Allowed (selected clone volume.1.from time) → AreVolume clone.vnodes
        → IsClone contents d name volume.1 clone → GivesNext slots contents d name volume.1 }
{}
