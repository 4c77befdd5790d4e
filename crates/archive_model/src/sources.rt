//! Laws of what dumps are to the cell that they are dumped from, each the contract of a function without a body.

ghost use Rattle.std.specs.Prelude.{◌≡◌, ℕ, Option, Some, Result, List, ◌∷◌, [], ◌++◌, map, All, Contains};
ghost use Rattle.vnode_model.specs.declared.volumes.VolumeFields.{VolumeFields};
ghost use Rattle.budb_changes.specs.declared.records.DumpRecordFields.{DumpRecordFields};
ghost use Rattle.budb_changes.specs.declared.records.VolRecordFields.{VolRecordFields};
ghost use Rattle.budb_fold.specs.Lookups.{volume_of, from_of};
ghost use Rattle.cell_core.specs.declared.stored.Stored.{Stored};
ghost use Rattle.cell_core.specs.declared.stored.Taken.{Taken};
ghost use Rattle.cell_core.specs.Cells.{IsCell};
ghost use Rattle.cell_core.specs.Calls.{clone_at};
ghost use Rattle.cell_core.specs.Fairness.{Fair, NoneIsMadeAfter, NoSourceHasBackupName};
ghost use Rattle.archive_model.specs.Sources.{firsts, dumped_by, clone_or_refusal, IsTakenFrom, IsCloneOf, IsFilled};
ghost use Rattle.tape_config.specs.declared.port.PortFields.{PortFields};
ghost use Rattle.tape_frames.specs.declared.dump_head.DumpHeadFields.{DumpHeadFields};
ghost use Rattle.tape_scan.specs.Slots.{Slot, Located, IsFound};
ghost use Rattle.tape_writer.specs.Filling.{Start, Dumping, TapeText};
ghost use Rattle.archive_model.specs.Archives.{Refusal, AreHeldOnce};
ghost use Rattle.archive_model.specs.Turns.{IsClone};

/// A clone of a cell that is fair to the dumps of an archive is what its dump has of it: the from time is that of the parent,
/// and the contents are the clone, or the parent's refusal.
pub fn a_fair_cell_gives_clones()
    ensures { (cell : List Stored) → IsCell cell → (contents : ℕ → List ℕ → Result VolumeFields Refusal) (records : List DumpRecordFields) (time i now : ℕ) (clone : Taken)
        → Fair cell (dumped_by contents records) time → clone_at cell i now ≡ Some clone
        → (d : DumpRecordFields) (v : VolRecordFields) (parent : Option DumpRecordFields) (grown : ℕ → List ℕ → Result VolumeFields Refusal)
        → ((p : DumpRecordFields) → parent ≡ Some p → Contains records p × (p.id ≡ d.parent))
        → let name = clone.volume.header.name in
        v.from ≡ from_of parent name clone.born → grown d.parent name ≡ contents d.parent name → grown d.id name ≡ clone_or_refusal (grown d.parent name) v.from clone.volume
        → IsClone grown d name v clone.volume }
{}

/// A dump of clones of a cell that is fair to an archive leaves it fair to the archive with the dump.
pub fn a_dump_keeps_its_cell_fair()
    ensures { (cell : List Stored) (contents grown : ℕ → List ℕ → Result VolumeFields Refusal) (records : List DumpRecordFields) (d : DumpRecordFields) (now : ℕ) (clones : List Taken)
        → ((e : DumpRecordFields) → Contains records e → e.id ≡ d.id → ⊥) → ((id : ℕ) (name : List ℕ) → (id ≡ d.id → ⊥) → grown id name ≡ contents id name)
        → ((v : VolRecordFields) → Contains (firsts d.volumes) v → IsCloneOf grown d now clones v)
        → IsCell cell → Fair cell (dumped_by contents records) now → NoneIsMadeAfter now cell → NoSourceHasBackupName cell → All (IsTakenFrom cell now) clones
        → Fair cell (dumped_by grown (records ++ d ∷ [])) now }
{}

/// A dump that is found, and held once, whose parts are what these volumes fill the tapes with: each volume of its record is
/// one of them, and gives the clone whose increment was its stream.
pub fn a_filled_dump_gives_its_clones()
    ensures { (slots : List Slot) (parts : List Located) (d : DumpRecordFields) → IsFound slots parts d → AreHeldOnce (d ∷ []) slots
        → (port : PortFields) (cell : List ℕ) (head : DumpHeadFields) (volumes : List Dumping) (starts : List Start) → TapeText port cell head volumes starts (map (λ l. l.found.part) parts)
        → (name : List ℕ) (v : VolRecordFields) → volume_of d name ≡ Some v → IsFilled slots d volumes name v }
{}
