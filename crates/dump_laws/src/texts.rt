//! Laws of what a dump has put on its tapes, each the contract of a function without a body.

ghost use Rattle.std.specs.Prelude.{◌≡◌, ◌+◌, ◌≤◌, ℕ, List, [], ◌∷◌, ◌++◌, if◌then◌else◌, length, All};
ghost use Rattle.plant_core.specs.Records.{Record};
ghost use Rattle.tape_frames.specs.declared.frame.Frame.TheVariants as frames;
ghost use Rattle.tape_frames.specs.declared.dump_head.DumpHeadFields.{DumpHeadFields};
ghost use Rattle.tape_frames.specs.declared.dump_end.DumpEndFields.{DumpEndFields};
ghost use Rattle.budb_changes.specs.declared.records.VolRecordFields.{VolRecordFields};
ghost use Rattle.tape_text.specs.Items.{Item, Says, Filemark, Read, IsFitItem};
ghost use Rattle.tape_text.specs.Texts.{Fragment, Tape, tape_items, ends_dump};
ghost use Rattle.tape_text.specs.Wholes.{volume_records};
ghost use Rattle.tape_scan.specs.Scans.{IsClosedIn, next_found};
ghost use Rattle.tape_scan.specs.Slots.{Located};
ghost use Rattle.dump_laws.specs.Made.{part_begun, done_lying};
ghost use Rattle.dump_laws.specs.Writing.{FrontFits, FragmentsFit};

/// A part in hand that is ended behind what stands on its tape is a closed part of that tape.
pub fn an_ended_part_is_closed()
    ensures { (rs : List Record) (t : Tape) (h : DumpHeadFields) (ended : List Located) (fs : List Fragment) (e : DumpEndFields) (items : List Item)
        → FrontFits t h → FragmentsFit h.id h.volumes ended fs → (fs ≡ [] → ⊥) → h.part ≡ length ended + 1
        → e.dump ≡ h.id → e.more ≡ (if ends_dump h.volumes fs then 0 else 1) → IsFitItem (Says (frames.DumpEnd e)) → Read rs items → items ≡ tape_items t ++ part_begun h fs []
        → IsClosedIn (items ++ Says (frames.DumpEnd e) ∷ Filemark ∷ []) (next_found t (record { head = h; fragments = fs; end = e })) }
{}

/// Where fragments lie as the records of volumes call for them, a scan reads these records off them again.
pub fn records_are_read_off_again()
    ensures { (id : ℕ) (vs : List VolRecordFields) → All (λ v. 1 ≤ length v.frags) vs → volume_records (done_lying id vs) ≡ vs }
{}
