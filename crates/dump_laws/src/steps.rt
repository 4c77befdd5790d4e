//! Laws of a dump's steps on a plant, each the contract of a function without a body.

ghost use Rattle.std.specs.Prelude.{◌≡◌, ℕ, Result, List as AnyList, map, ◌++◌};
ghost use Rattle.vnode_model.specs.declared.volumes.VolumeFields.{VolumeFields as AnyVolume};
ghost use Rattle.cell_core.specs.declared.stored.Taken.{Taken as AnyTaken};
ghost use Rattle.budb_changes.specs.declared.change.Change.{Change as AnyChange};
ghost use Rattle.budb_changes.specs.declared.records.DumpRecordFields.{DumpRecordFields};
ghost use Rattle.plant_core.specs.Crashes.{State, Alike, seen_in};
ghost use Rattle.plant_core.specs.Effects.{Effect, settles, come, Joint};
ghost use Rattle.plant_core.specs.Stock.{Stock};
ghost use Rattle.archive_model.specs.Archives.{Archive, Refusal, listed_of, Holds};
ghost use Rattle.archive_model.specs.Settled.{HoldsSettled};
ghost use Rattle.dump_job.specs.declared.fields.JobFields.{JobFields as AnyJob};
ghost use Rattle.dump_job.specs.Events.{Around, event};
ghost use Rattle.dump_laws.specs.Rest.{settled_whole};
ghost use Rattle.dump_laws.specs.Made.{Made};
ghost use Rattle.dump_laws.specs.Running.{RunsIn};
ghost use Rattle.dump_laws.specs.Keeping.{MayStep, contents_behind, clones_behind, dumps_behind, AreAllHeld, Keeps, ImageHolds};

/// A dump that runs on a plant in one state runs in each that is alike.
pub fn a_dump_runs_in_states_alike()
    ensures { (s t : State) (a : Archive) (records : AnyList DumpRecordFields) (j : AnyJob) (m : Made) → Alike s t → RunsIn s a records j m → RunsIn t a records j m }
{}

/// Behind loads, by which other tapes are settled, a dump runs on.
pub fn a_dump_runs_behind_loads()
    ensures { (away : AnyList ℕ) (s : State) (a : Archive) (records : AnyList DumpRecordFields) (j : AnyJob) (m : Made) → RunsIn s a records j m → RunsIn (come (map settles away) s) a records j m }
{}

/// A step of a dump that runs is an event behind loads, and keeps the archive as the event does.
pub fn each_step_keeps()
    ensures { (s : State) (a : Archive) (records : AnyList DumpRecordFields) (around : Around) (j : AnyJob) (m : Made) → RunsIn s a records j m → (known : AnyList DumpRecordFields) → MayStep a known around j → (away : AnyList ℕ)
        → Keeps s a records (contents_behind a j m j.phase) (clones_behind around j m j.phase) (dumps_behind records j j.phase) (map settles away ++ (event around j).effects) (event around j).changes (event around j).job }
{}

/// What a crash leaves of a step, whole or in part, holds the archive before it or behind it, or one between them.
pub fn each_image_of_a_step_holds()
    ensures { (s : State) (a : Archive) (records : AnyList DumpRecordFields) (around : Around) (j : AnyJob) (m : Made) → RunsIn s a records j m → (known : AnyList DumpRecordFields) → MayStep a known around j → (away : AnyList ℕ) (old c : Stock)
        → Joint s (map settles away ++ (event around j).effects) old c → ImageHolds a (a.log ++ (event around j).changes) (contents_behind a j m j.phase) c }
{}

/// What these laws say of a state that is settled whole is so of what reads give where records of another caller wait to be settled: such a state
/// and the same one settled whole read alike behind all effects, and the second holds settled what the first holds as reads give it.
pub fn what_is_settled_is_not_read()
    ensures holds { (s : State) (a : Archive) (records : AnyList DumpRecordFields) → Holds (seen_in s) a records → HoldsSettled (settled_whole s) a records }
    ensures reads { (s : State) (effects : AnyList Effect) → seen_in (come effects (settled_whole s)) ≡ seen_in (come effects s) }
{}

/// Where all tapes of listed dumps are held they are so behind what keeps the archive, and in each image of it.
pub fn listed_dumps_stay_whole()
    ensures kept { (s : State) (a : Archive) (records : AnyList DumpRecordFields) (contents : ℕ → AnyList ℕ → Result AnyVolume Refusal) (clones : AnyList AnyTaken) (dumps : AnyList DumpRecordFields) (effects : AnyList Effect) (changes : AnyList AnyChange) (next : AnyJob)
        → (k : Keeps s a records contents clones dumps effects changes next) → AreAllHeld (listed_of a) a.slots → AreAllHeld (listed_of k.last.archive) k.last.archive.slots }
    ensures left { (a : Archive) (log : AnyList AnyChange) (contents : ℕ → AnyList ℕ → Result AnyVolume Refusal) (c : Stock) → (i : ImageHolds a log contents c) → AreAllHeld (listed_of a) a.slots → AreAllHeld (listed_of i.moment.archive) i.slots }
{}
