//! Laws of the begin of a dump, each the contract of a function without a body.

ghost use Rattle.std.specs.Prelude.{◌≡◌, ◌⊎◌, ◌<◌, ◌≤◌, ℕ, Bool, Option, None, Ok, List as AnyList, [], ◌∷◌};
ghost use Rattle.budb_changes.specs.declared.records.DumpRecordFields.{DumpRecordFields};
ghost use Rattle.budb_changes.specs.Bytes.{encoded};
ghost use Rattle.budb_changes.specs.Forms.{AreChanges};
ghost use Rattle.budb_fold.specs.Database.{after};
ghost use Rattle.plant_core.specs.Crashes.{State};
ghost use Rattle.plant_core.specs.Effects.{commits, come};
ghost use Rattle.tape_text.specs.Texts.{Tape};
ghost use Rattle.tape_scan.specs.Slots.{Slot};
ghost use Rattle.tape_choice.specs.declared.places.Place.{Place as AnyPlace};
ghost use Rattle.tape_choice.specs.declared.places.Appending.TheVariants.{Found};
ghost use Rattle.tape_choice.specs.Append.{appending};
ghost use Rattle.archive_model.specs.Archives.{Archive, listed_of};
ghost use Rattle.archive_model.specs.Settled.{HoldsSettled, AreHeld};
ghost use Rattle.dump_job.specs.declared.order.DumpOrder.{DumpOrder as AnyOrder};
ghost use Rattle.dump_job.specs.declared.first_tapes.FirstTape.{FirstTape as AnyTape};
ghost use Rattle.dump_job.specs.Beginning.{new_id, begin_changes, place_tape, first_tape, begun_job};
ghost use Rattle.dump_laws.specs.Running.{RunsIn};
ghost use Rattle.dump_laws.specs.Keeping.{AreAllHeld};
ghost use Rattle.dump_laws.specs.Beginning.{HeadsAreBelow, HasParent, TakenBy, begun_archive, begun_records, nothing_made};

/// The tape on which a dump begins is one that is taken by the choice of tapes, or the place behind the last dump of its volume
/// set; and an id is left for the dump.
pub fn a_first_tape_is_taken_or_appended_to()
    ensures { (a : Archive) (o : AnyOrder) (slots : AnyList Slot) (whole : ℕ → Bool) (size : ℕ) (tape : AnyTape) → first_tape (after a.log) slots whole o size ≡ Ok tape
        → (((p : AnyPlace) × (appending (listed_of a) o.set o.port whole slots ≡ Found p) × (tape ≡ place_tape p)) ⊎ TakenBy o (listed_of a) slots tape) × ((after a.log).greatest < 4294967295) }
{}

/// Behind its begin a dump runs that takes its first tape, where the archive is held and each id on a tape is at most the
/// greatest that was begun or recorded, or below the time: the commit of the begin, and with it of the take, keeps the archive.
pub fn a_begun_dump_runs()
    ensures kept { (s : State) (a : Archive) (records : AnyList DumpRecordFields) → HoldsSettled s a records → (o : AnyOrder) → o.time ≤ 4294967295 → (after a.log).greatest < 4294967295
        → HeadsAreBelow a.slots o.time (after a.log).greatest → HasParent (listed_of a) o.parent
        → (tape : AnyTape) → let id = new_id o.time (after a.log).greatest in AreChanges (begin_changes id tape.take)
        → AreHeld s (commits (encoded (begin_changes id tape.take)) ∷ []) (record { archive = a; records = records } ∷ record { archive = begun_archive id tape.take a; records = begun_records tape.take a records } ∷ []) }
    ensures runs { (s : State) (a : Archive) (records : AnyList DumpRecordFields) → HoldsSettled s a records → (o : AnyOrder) → o.time ≤ 4294967295 → (after a.log).greatest < 4294967295
        → HeadsAreBelow a.slots o.time (after a.log).greatest → HasParent (listed_of a) o.parent
        → (tape : AnyTape) → TakenBy o (listed_of a) a.slots tape → let id = new_id o.time (after a.log).greatest in AreChanges (begin_changes id tape.take)
        → (front : Tape) × RunsIn (come (commits (encoded (begin_changes id tape.take)) ∷ []) s) (begun_archive id tape.take a) (begun_records tape.take a records) (begun_job o (listed_of a) id tape) (nothing_made front) }
{}

/// And so does one that is appended, behind the last listed dump of the last tape of its dump set.
pub fn an_appending_dump_runs()
    ensures { (s : State) (a : Archive) (records : AnyList DumpRecordFields) → HoldsSettled s a records → (o : AnyOrder) → o.time ≤ 4294967295 → (after a.log).greatest < 4294967295
        → HeadsAreBelow a.slots o.time (after a.log).greatest → HasParent (listed_of a) o.parent
        → (whole : ℕ → Bool) (p : AnyPlace) → appending (listed_of a) o.set o.port whole a.slots ≡ Found p → let id = new_id o.time (after a.log).greatest in AreChanges (begin_changes id None)
        → (front : Tape) × RunsIn (come (commits (encoded (begin_changes id None)) ∷ []) s) (begun_archive id None a) records (begun_job o (listed_of a) id (place_tape p)) (nothing_made front) }
{}

/// A begin keeps all tapes of listed dumps held.
pub fn a_begin_keeps_listed_dumps_whole()
    ensures { (a : Archive) (id : ℕ) (take : Option ℕ) → AreAllHeld (listed_of a) a.slots → AreAllHeld (listed_of (begun_archive id take a)) a.slots }
{}
