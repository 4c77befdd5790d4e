//! Laws of the steps of a dump, each the contract of a function without a body.

ghost use Rattle.std.specs.Prelude.{◌≡◌, ℕ, Result, List as AnyList, [], ◌∷◌, ◌++◌};
ghost use Rattle.vnode_model.specs.declared.volumes.VolumeFields.{VolumeFields as AnyVolume};
ghost use Rattle.cell_core.specs.declared.stored.Taken.{Taken as AnyTaken};
ghost use Rattle.tape_frames.specs.declared.frame.Frame.TheVariants as frames;
ghost use Rattle.budb_changes.specs.declared.change.Change.{Change as AnyChange};
ghost use Rattle.budb_changes.specs.declared.change.Change.TheVariants.{Done};
ghost use Rattle.budb_changes.specs.declared.records.DumpRecordFields.{DumpRecordFields};
ghost use Rattle.budb_changes.specs.Bytes.{encoded};
ghost use Rattle.budb_changes.specs.Forms.{AreChanges};
ghost use Rattle.plant_core.specs.Crashes.{State};
ghost use Rattle.plant_core.specs.Effects.{Effect, puts, settles, commits, Joint};
ghost use Rattle.plant_core.specs.Stock.{Stock};
ghost use Rattle.tape_text.specs.Items.{Says, Filemark, record_for, IsFitItem};
ghost use Rattle.archive_model.specs.Archives.{Archive, Refusal, listed_of};
ghost use Rattle.archive_model.specs.Settled.{AreHeld};
ghost use Rattle.archive_model.specs.Turns.{with_log, with_slot, with_contents};
ghost use Rattle.dump_job.specs.declared.fields.Hand.{Hand as AnyHand};
ghost use Rattle.dump_job.specs.declared.fields.JobFields.{JobFields as AnyJob};
ghost use Rattle.dump_job.specs.Ending.{part_end};
ghost use Rattle.dump_job.specs.Cloning.{record_with};
ghost use Rattle.dump_job.specs.Events.{Around, event};
ghost use Rattle.dump_laws.specs.Made.{Made};
ghost use Rattle.dump_laws.specs.Running.{basis_of, Goes, BeforeDumpEnd, RunsIn};
ghost use Rattle.dump_laws.specs.Growing.{record_done, with_dump};
ghost use Rattle.dump_laws.specs.Keeping.{MayStep, contents_behind, clones_behind, dumps_behind, Keeps, ImageHolds};

/// Each event of a dump that runs keeps the archive: what it puts and commits is held settled, effect by effect, with the
/// contents that there were; at the dump's end those of the dump join them. The dump, as it is then, runs on.
pub fn each_event_keeps()
    ensures { (s : State) (a : Archive) (records : AnyList DumpRecordFields) (around : Around) (j : AnyJob) (m : Made) → RunsIn s a records j m → (known : AnyList DumpRecordFields) → MayStep a known around j
        → Keeps s a records (contents_behind a j m j.phase) (clones_behind around j m j.phase) (dumps_behind records j j.phase) (event around j).effects (event around j).changes (event around j).job }
{}

/// What a crash leaves of effects that keep an archive holds an archive on the way.
pub fn each_image_holds()
    ensures { (s : State) (a : Archive) (records : AnyList DumpRecordFields) (contents : ℕ → AnyList ℕ → Result AnyVolume Refusal) (clones : AnyList AnyTaken) (dumps : AnyList DumpRecordFields) (effects : AnyList Effect) (changes : AnyList AnyChange) (next : AnyJob)
        → Keeps s a records contents clones dumps effects changes next → (old c : Stock) → Joint s effects old c → ImageHolds a (a.log ++ changes) contents c }
{}

/// And so each image within an event of a dump holds the archive before it or behind it, or one between them.
pub fn each_image_of_an_event_holds()
    ensures { (s : State) (a : Archive) (records : AnyList DumpRecordFields) (around : Around) (j : AnyJob) (m : Made) → RunsIn s a records j m → (known : AnyList DumpRecordFields) → MayStep a known around j
        → (old c : Stock) → Joint s (event around j).effects old c → ImageHolds a (a.log ++ (event around j).changes) (contents_behind a j m j.phase) c }
{}

/// At its last filemark a dump joins the dumps of the archive, with the clones of its volumes as contents, or the refusals of its
/// parent; it isn't listed yet, and all other contents stay. By the commit behind it it is listed.
pub fn a_dump_joins_the_archive()
    ensures { (s : State) (a : Archive) (records : AnyList DumpRecordFields) (j : AnyJob) (m : Made) → Goes s a records j m → (h : AnyHand) → (b : BeforeDumpEnd a j h m)
        → IsFitItem (Says (frames.DumpEnd (part_end 0 j))) → let d = record_done j (j.volumes ++ record_with j.head.tape h ∷ []) in AreChanges (Done d ∷ [])
        → let k = j.reel.slot in let end = Says (frames.DumpEnd (part_end 0 j)) in let items = b.open_part.slot.items ++ end ∷ [] in
        let put = with_slot a k items in let ended = with_contents (with_slot put k (items ++ Filemark ∷ [])) (with_dump a.contents (basis_of j) m.clones) in
        AreHeld s (puts k (record_for end) ∷ puts k (record_for Filemark) ∷ settles k ∷ commits (encoded (Done d ∷ [])) ∷ [])
        (record { archive = a; records = records } ∷ record { archive = put; records = records } ∷ record { archive = ended; records = records ++ d ∷ [] } ∷ record { archive = ended; records = records ++ d ∷ [] }
        ∷ record { archive = with_log ended (a.log ++ Done d ∷ []); records = records ++ d ∷ [] } ∷ []) }
{}
