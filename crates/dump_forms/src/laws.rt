//! Laws, each the contract of a function without a body.

ghost use Rattle.std.specs.Prelude.{◌≡◌, ◌≤◌, ℕ, length, ◌++◌, Bool, Some, Ok, List as AnyList, All};
ghost use Rattle.vnode_model.specs.declared.listed.VolEntry.{VolEntry};
ghost use Rattle.vnode_model.specs.Increments.{selected};
ghost use Rattle.dump_stream.specs.Allowed.{Allowed};
ghost use Rattle.cell_core.specs.declared.stored.Stored.{Stored};
ghost use Rattle.cell_core.specs.declared.stored.Taken.{Taken};
ghost use Rattle.cell_core.specs.Calls.{entry_at, clone_at};
ghost use Rattle.cell_core.specs.Forms.{IsStoredForm};
ghost use Rattle.plant_core.specs.Records.{Record};
ghost use Rattle.budb_changes.specs.declared.change.Change.{Change as AnyChange};
ghost use Rattle.budb_changes.specs.Forms.{IsDumpRecord, AreChanges};
ghost use Rattle.budb_fold.specs.declared.database.Database.{Database};
ghost use Rattle.tape_scan.specs.Slots.{Slot};
ghost use Rattle.tape_answers.specs.Slots.{slots_of};
ghost use Rattle.dump_job.specs.declared.fields.JobFields.{JobFields};
ghost use Rattle.dump_job.specs.declared.order.DumpOrder.{DumpOrder as AnyOrder};
ghost use Rattle.dump_job.specs.declared.first_tapes.FirstTape.{FirstTape as AnyTape};
ghost use Rattle.dump_job.specs.Beginning.{id_of, begin_changes, first_tape, begun_job};
ghost use Rattle.dump_job.specs.Cloning.{from_time};
ghost use Rattle.dump_job.specs.Events.{Around, event};
ghost use Rattle.dump_forms.specs.Forms.{AroundHasForms, HasForms, EventHasForms};
ghost use Rattle.dump_forms.specs.Begins.{IsOrderForm, AllFit};
ghost use Rattle.dump_forms.specs.Journals.{IsJournalAfter};

/// Whatever stands on tapes, the fields of each frame that is read there fit.
pub fn what_tapes_say_fits()
    ensures { (count : ℕ) (present : ℕ → Bool) (tape : ℕ → AnyList Record) → AllFit (slots_of count present tape) }
{}

/// What begins a dump can be written, and the dump that is begun has its forms, the label of a tape that is taken among them, where its order of
/// some volumes has them, the listed dumps are records and what stands on tapes fits.
pub fn a_begun_dump_has_forms()
    ensures { (o : AnyOrder) (db : Database) (slots : AnyList Slot) (whole : ℕ → Bool) (size : ℕ) (t : AnyTape) → IsOrderForm o → 1 ≤ length o.volumes → All IsDumpRecord db.listed → AllFit slots → first_tape db slots whole o size ≡ Ok t
        → AreChanges (begin_changes (id_of o db) t.take) × HasForms (begun_job o db.listed (id_of o db) t) }
{}

/// Each event of a dump whose fields have their forms, over slots whose labels fit and a cell of volumes of the types, commits changes
/// that the journal can write, and leaves the dump with its forms: its label fits, and what is left of the stream in hand is bytes, few enough.
pub fn each_event_has_forms()
    ensures { (a : Around) (j : JobFields) → AroundHasForms a → HasForms j → EventHasForms (event a j) }
{}

/// What a dump whose fields have their forms may clone of a cell of volumes of the types is an increment that a stream's type allows.
pub fn each_clone_is_allowed()
    ensures { (cell : AnyList Stored) (place : ℕ) (j : JobFields) (e : VolEntry) (c : Taken) → All IsStoredForm cell → HasForms j → entry_at cell place ≡ Some e → clone_at cell place j.time ≡ Some c
        → Allowed (selected c.volume (from_time j e c) c.time) }
{}

/// Each event commits exactly its changes, where these can be written: they stand behind the journal's.
pub fn each_event_is_journaled()
    ensures { (log : AnyList AnyChange) (a : Around) (j : JobFields) → AreChanges (event a j).changes → IsJournalAfter log (event a j).effects (log ++ (event a j).changes) }
{}
