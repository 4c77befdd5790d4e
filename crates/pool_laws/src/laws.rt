//! Laws, each the contract of a function without a body of its own.

ghost use Rattle.std.specs.Prelude.{◌≡◌, ◌<◌, ◌≤◌, ◌+◌, ℕ, None, Some, Ok, List as AnyList, [], ◌∷◌, ◌++◌, All, Contains, slice_get};
ghost use Rattle.cell_core.specs.Cells.{IsCell};
ghost use Rattle.cell_core.specs.Fairness.{NoneIsMadeAfter, NoSourceHasBackupName};
ghost use Rattle.cell_core.specs.Forms.{IsStoredForm};
ghost use Rattle.plant_core.specs.Crashes.{State};
ghost use Rattle.plant_core.specs.Effects.{come, commits, Joint};
ghost use Rattle.plant_core.specs.Stock.{Stock};
ghost use Rattle.budb_changes.specs.declared.records.DumpRecordFields.{DumpRecordFields};
ghost use Rattle.archive_model.specs.Archives.{Archive, listed_of};
ghost use Rattle.dump_job.specs.declared.fields.JobFields.{JobFields as AnyJob};
ghost use Rattle.dump_job.specs.Events.{Around, event};
ghost use Rattle.dump_job.specs.declared.order.DumpOrder.{DumpOrder as AnyOrder};
ghost use Rattle.dump_job.specs.declared.first_tapes.FirstTape.{FirstTape as AnyTape};
ghost use Rattle.dump_job.specs.Beginning.{new_id, begin_changes, begun_job};
ghost use Rattle.dump_forms.specs.Forms.{HasForms};
ghost use Rattle.dump_laws.specs.Made.{Made};
ghost use Rattle.dump_laws.specs.Beginning.{HeadsAreBelow, HasParent, TakenBy};
ghost use Rattle.dump_archives.proofs.Clones.{HasGoodPlaces};
ghost use Rattle.budb_changes.specs.Bytes.{encoded};
ghost use Rattle.budb_changes.specs.Forms.{AreChanges};
ghost use Rattle.budb_fold.specs.Database.{after};
ghost use Rattle.dump_laws.specs.Running.{RunsIn};
ghost use Rattle.dump_laws.specs.Keeping.{contents_behind, clones_behind, dumps_behind, Keeps};
ghost use Rattle.budb_fold.specs.Lookups.{record_of};
ghost use Rattle.dump_courses.specs.Scenes.{Scene, database_in};
ghost use Rattle.dump_commands.specs.Answers.{Contents};
ghost use Rattle.dump_archives.specs.Asking.{AsksOfScene};
ghost use Rattle.tape_config.specs.Ports.{IsAmong, AreApart};
ghost use Rattle.dump_job.specs.Elsewhere.{IsOnPort};
ghost use Rattle.pool_laws.specs.Beside.{IsBeside};
ghost use Rattle.job_pool.specs.declared.jobs.PoolJob.{PoolJob};
ghost use Rattle.job_pool.specs.declared.turn.Turn.{Turn};
ghost use Rattle.job_pool.specs.declared.turn.Turn.TheVariants.{Step, Kill};
ghost use Rattle.job_pool.specs.Pools.{PoolPoint, turn_event, behind, interleaved};
ghost use Rattle.pool_laws.specs.Underway.{IsGrown, AllUnderway, TurnKept, CourseKept};
ghost use Rattle.job_pool.specs.Schedules.{AllEnded};
ghost use Rattle.pool_laws.specs.Left.{ImageHolds, LeftBehind};
ghost use Rattle.pool_laws.specs.Grown.{HasGrown};
ghost use Rattle.pool_laws.specs.Since.{AllFrom};
ghost use Rattle.dump_archives.specs.Keeping.{ComesOn};
ghost use Rattle.dump_archives.proofs.Keeping.{archive_at};
ghost use Rattle.dump_commands.specs.Starts.{Start};
ghost use Rattle.group_commands.specs.Begins.{group_course};
ghost use Rattle.pool_laws.specs.Groups.{MayAllStart, last_id};
ghost use Rattle.job_pool.specs.declared.turn.Kill.{Kill as PoolKill};

use tape_answers::a_tape_is_read;

/// A dump that runs runs on beside each event of another one, whose tapes and ids are others.
pub fn a_dump_runs_beside_another()
    ensures { (s : State) (a : Archive) (records : AnyList DumpRecordFields) (around : Around) (i : AnyJob) (n : Made) → RunsIn s a records i n → IsOnPort i
        → (k : Keeps s a records (contents_behind a i n i.phase) (clones_behind around i n i.phase) (dumps_behind records i i.phase) (event around i).effects (event around i).changes (event around i).job)
        → (j : AnyJob) (m : Made) → RunsIn s a records j m → IsOnPort j → IsBeside i j → RunsIn (come (event around i).effects s) k.last.archive k.last.records j m }
{
    a_tape_is_read();
}

/// Each turn of dumps that run side by side, a step or a kill, keeps the archive, effect by effect, and leaves all of them running that ran.
pub fn each_turn_keeps_the_archive()
    ensures { (s : Scene) (time top : ℕ) (grown : Contents) → IsCell s.cell → All IsStoredForm s.cell → NoneIsMadeAfter time s.cell → NoSourceHasBackupName s.cell
        → (p : PoolPoint) → AllUnderway s time top grown p → (t : Turn) → TurnKept s time top grown p (turn_event s p t) }
{
    a_tape_is_read();
}

/// So does each list of turns.
pub fn turns_keep_the_archive()
    ensures { (s : Scene) (time top : ℕ) (grown : Contents) → IsCell s.cell → All IsStoredForm s.cell → NoneIsMadeAfter time s.cell → NoSourceHasBackupName s.cell
        → (turns : AnyList Turn) (p : PoolPoint) → AllUnderway s time top grown p → CourseKept s time top grown p (interleaved s p turns) }
{
    a_tape_is_read();
}

/// A dump that takes its first tape, by the choice of tapes, begins beside others that run: they run on, and it is one of them.
pub fn a_dump_begins_beside_others()
    ensures { (s : Scene) (time top : ℕ) (grown : Contents) → IsCell s.cell → All IsStoredForm s.cell → NoneIsMadeAfter time s.cell → NoSourceHasBackupName s.cell
        → (p : PoolPoint) (u : AllUnderway s time top grown p) (o : AnyOrder) → o.time ≤ 4294967295 → (after u.archive.log).greatest < 4294967295 → HeadsAreBelow u.archive.slots o.time (after u.archive.log).greatest → HasParent (listed_of u.archive) o.parent
        → let id = new_id o.time (after u.archive.log).greatest in top < id
        → (t : AnyTape) → TakenBy o (listed_of u.archive) u.archive.slots t → AreChanges (begin_changes id t.take) → let job = begun_job o (listed_of u.archive) id t in
        HasForms job → HasGoodPlaces s.cell o.volumes → o.time ≡ time → IsGrown s time grown job → ((n : ℕ) (q : PoolJob) → slice_get p.jobs n ≡ Some q → AreApart q.job.port o.port)
        → AllUnderway s time id grown (record { log = p.log ++ begin_changes id t.take; state = come (commits (encoded (begin_changes id t.take)) ∷ []) p.state; jobs = p.jobs ++ record { job = job; steps = 0; end = None } ∷ [] }) }
{
    a_tape_is_read();
}

/// What a crash leaves of turns, between and within them, holds the archive of the first of their effects, for one count.
pub fn images_of_turns_hold_the_archive()
    ensures { (s : Scene) (time top : ℕ) (grown : Contents) → IsCell s.cell → All IsStoredForm s.cell → NoneIsMadeAfter time s.cell → NoSourceHasBackupName s.cell
        → (turns : AnyList Turn) (p : PoolPoint) → AllUnderway s time top grown p → (old c : Stock) → (joint : Joint p.state (interleaved s p turns).effects old c)
        → ImageHolds s grown p.log p.state (interleaved s p turns).effects joint.count c }
{
    a_tape_is_read();
}

/// A scene that has all that a dump asks has it for several, none of which runs yet; behind the last turn all is settled, and the archive is held.
pub fn all_is_so_before_and_behind()
    ensures before { (s : Scene) (contents grown : Contents) (records : AnyList DumpRecordFields) → AsksOfScene s contents records → ((d : DumpRecordFields) (name : AnyList ℕ) → Contains records d → grown d.id name ≡ contents d.id name)
        → (top : ℕ) × AllUnderway s s.time top grown (record { log = s.log; state = s.state; jobs = [] }) }
    ensures behind { (s : Scene) (time top : ℕ) (grown : Contents) (p : PoolPoint) → AllUnderway s time top grown p → AllEnded p.jobs → LeftBehind s time top grown p }
{}

/// A group of dumps that begin one after the other, and then take turns by a schedule until none runs: one list of effects keeps the archive, and
/// what a crash leaves of it holds the archive of the first of them, for one count.
pub fn a_group_keeps_the_archive()
    ensures kept { (s : Scene) (time top : ℕ) (grown : Contents) → IsCell s.cell → All IsStoredForm s.cell → NoneIsMadeAfter time s.cell → NoSourceHasBackupName s.cell
        → (kills : AnyList PoolKill) (x : ℕ) (p : PoolPoint) (starts : AnyList Start) → AllUnderway s time top grown p → MayAllStart s time top grown p starts
        → CourseKept s time (last_id top p starts) grown p (group_course s kills x p starts) }
    ensures images { (s : Scene) (time top : ℕ) (grown : Contents) → IsCell s.cell → All IsStoredForm s.cell → NoneIsMadeAfter time s.cell → NoSourceHasBackupName s.cell
        → (kills : AnyList PoolKill) (x : ℕ) (p : PoolPoint) (starts : AnyList Start) → AllUnderway s time top grown p → MayAllStart s time top grown p starts
        → (old c : Stock) → (joint : Joint p.state (group_course s kills x p starts).effects old c) → ImageHolds s grown p.log p.state (group_course s kills x p starts).effects joint.count c }
    ensures ends { (s : Scene) (kills : AnyList PoolKill) (x : ℕ) (starts : AnyList Start) (p : PoolPoint) → AllEnded (group_course s kills x p starts).jobs }
{
    a_tape_is_read();
}

/// A step leaves each tape that isn't of its dump's port as it was, and as much of it settled; a kill leaves each tape.
pub fn a_turn_leaves_other_ports()
    ensures steps { (s : Scene) (p : PoolPoint) (n : ℕ) (q : PoolJob) → slice_get p.jobs n ≡ Some q → q.end ≡ None → IsOnPort q.job → (k : ℕ) → (IsAmong q.job.port k → ⊥)
        → ((behind p (turn_event s p (Step n))).state.tape k ≡ p.state.tape k) × ((behind p (turn_event s p (Step n))).state.settled k ≡ p.state.settled k) }
    ensures kills { (s : Scene) (p : PoolPoint) (n : ℕ) (q : PoolJob) → slice_get p.jobs n ≡ Some q → q.end ≡ None → (k : ℕ) → (behind p (turn_event s p (Kill n))).state.tape k ≡ p.state.tape k }
{}

/// Contents that have what a dump of an order gives, and of its parent what there was, are those that it has in the end.
pub fn contents_of_all_are_those_of_each()
    ensures { (s : Scene) (o : AnyOrder) (contents grown : Contents) → IsCell s.cell → (j : AnyJob) → HasGrown s o j.head.id contents grown → j.head.parent ≡ o.parent → j.parent ≡ record_of (database_in s).listed o.parent → j.places ≡ o.volumes → IsGrown s o.time grown j }
{}

/// What the archive came of it comes of behind turns and behind a group, as far as dumps are concerned whose ids are
/// below those of all dumps that run, be it then or later.
pub fn what_came_comes_on_behind_turns()
    ensures turns { (s : Scene) (time top : ℕ) (grown : Contents) → IsCell s.cell → All IsStoredForm s.cell → NoneIsMadeAfter time s.cell → NoSourceHasBackupName s.cell
        → (floor : ℕ) (turns : AnyList Turn) (p : PoolPoint) → AllUnderway s time top grown p → AllFrom floor p.jobs
        → let c = interleaved s p turns in ComesOn floor (archive_at s.slots s.present grown p.log p.state.tape) (archive_at s.slots s.present grown c.log (come c.effects p.state).tape) }
    ensures group { (s : Scene) (time top : ℕ) (grown : Contents) → IsCell s.cell → All IsStoredForm s.cell → NoneIsMadeAfter time s.cell → NoSourceHasBackupName s.cell
        → (floor : ℕ) (kills : AnyList PoolKill) (x : ℕ) (p : PoolPoint) (starts : AnyList Start) → AllUnderway s time top grown p → MayAllStart s time top grown p starts → AllFrom floor p.jobs → floor ≤ top + 1
        → let c = group_course s kills x p starts in ComesOn floor (archive_at s.slots s.present grown p.log p.state.tape) (archive_at s.slots s.present grown c.log (come c.effects p.state).tape) }
{
    a_tape_is_read();
}
