//! A turn of one dump, beside others.

ghost use Rattle.std.specs.Prelude.{◌≡◌, ◌≢◌, ◌<◌, suc, ℕ, None, Ok, Err, IfOk, OnOk, OnErr, IsOk, slice_get, Some};
ghost use Rattle.crash_moments.specs.Moments.{HasCauseAt};
ghost use Rattle.plant_effects.specs.Runs.{Leaves, StaysQuiet};
ghost use Rattle.tape_scan.specs.Looking.{Loads};
ghost use Rattle.dump_job.specs.declared.fields.JobFields.{JobFields as AnyJob};
ghost use Rattle.dump_job.specs.Jobs.{FitsJob, HasPlaces};
ghost use Rattle.dump_job.specs.Elsewhere.{LeavesOthers, LeavesTapes};
ghost use Rattle.dump_job.specs.Left.{left_of};
ghost use Rattle.dump_courses.specs.Scenes.{Scene};
ghost use Rattle.dump_courses.specs.Ahead.{DoneAhead};
ghost use Rattle.job_pool.specs.declared.ends.JobEnd.TheVariants.{Killed};
ghost use Rattle.job_pool.specs.declared.jobs.PoolJob.{PoolJob as AnyOne};
ghost use Rattle.job_pool.specs.declared.turn.Turn.TheVariants.{Step, Kill};
ghost use Rattle.job_pool.specs.Pools.{PoolPoint, counted, turn_event};
ghost use Rattle.job_pool.specs.Schedules.{number_of};
ghost use Rattle.job_pool.specs.PoolCourses.{turns_for};
ghost use Rattle.job_pool.specs.Pooled.{FitsOne, AreApartWhereTold, HasTurned, StandsThere, IsTurnOf, IsTurned};

use crate::ends::JobEnd;
use crate::jobs::PoolJob;
use crate::stop::PoolStop;
use crate::turn::Turn;
use budb::Budb;
use cell_core::Cell;
use dump_job::{Job, Phase, StepAnswer};
use plant_core::Plant;
use tape_answers::the_slots_are_read;

/// Makes a step of a dump, which is what its turn in any pool says; the others fit the plant as before. It tells how the dump ended, where
/// that was the last step.
fn take_step<P: Plant, C: Cell>(
    job: &mut Job,
    budb: &mut Budb,
    plant: &mut P,
    cell: &mut C,
) -> Result<Option<JobEnd>, PoolStop>
    requires going { job.old.phase ≢ Phase.Over }
    requires fit { FitsJob P.Plant job.old plant.old }
    requires nothing { budb.old.prepared ≡ None }
    requires places { HasPlaces C.Cell job.old.places cell.old }
    ensures going { result ≡ Ok None → job.new.phase ≢ Phase.Over }
    ensures less { result ≡ Ok None → left_of job.new < left_of job.old }
    ensures fit { result ≢ Err PoolStop.Plant → FitsJob P.Plant job.new plant.new }
    ensures places { result ≢ Err PoolStop.Plant → job.new.places ≡ job.old.places }
    ensures nothing { budb.new.prepared ≡ None }
    ensures elsewhere { P.tells → result ≢ Err PoolStop.Plant → LeavesOthers P.Plant plant.old plant.new job.old job.new }
    ensures others { result ≢ Err PoolStop.Plant → (other : AnyJob) → FitsJob P.Plant other plant.old → AreApartWhereTold P.Plant job.old other → FitsJob P.Plant other plant.new }
    ensures turned { P.tells → C.tells → (s : Scene) (p : PoolPoint) (n : ℕ) (q : AnyOne) → IsTurnOf P.Plant C.Cell s p n q budb.old plant.old cell.old job.old → IfOk result (λ end. IsTurned P.Plant C.Cell s p (turn_event s p (Step n)) n (record { job = job.new; steps = counted q.steps; end = end }) budb.new plant.new cell.new) }
    ensures done { P.tells → C.tells → (s : Scene) (p : PoolPoint) (n : ℕ) (q : AnyOne) → IsTurnOf P.Plant C.Cell s p n q budb.old plant.old cell.old job.old → OnOk result (DoneAhead P.Plant (turn_event s p (Step n)).effects plant.old plant.new) }
    ensures leaves { P.tells → C.tells → (s : Scene) (p : PoolPoint) (n : ℕ) (q : AnyOne) → IsTurnOf P.Plant C.Cell s p n q budb.old plant.old cell.old job.old → Leaves P.Plant (turn_event s p (Step n)).effects plant.old plant.new }
    ensures stopped { OnErr result (result ≢ Err PoolStop.Plant → (job.new ≡ job.old) × (budb.new ≡ budb.old) × Loads P.Plant plant.old plant.new) }
    ensures list { C.tells → C.list cell.new ≡ C.list cell.old }
    ensures size { C.size cell.new ≡ C.size cell.old }
    ensures stays { StaysQuiet P.Plant plant.old plant.new }
    ensures plant_cause { HasCauseAt PoolStop.Plant (P.view plant.old).faults (P.view plant.new).faults result }
    ensures cell_cause { HasCauseAt PoolStop.Cell (C.faults cell.old) (C.faults cell.new) result }
{
    the_slots_are_read();
    match job.step(budb, plant, cell) {
        StepAnswer::More => Ok(None),
        StepAnswer::Done(id) => Ok(Some(JobEnd::Done(id))),
        StepAnswer::Refused(fault) => Ok(Some(JobEnd::Refused(fault))),
        StepAnswer::PlantFailed => Err(PoolStop::Plant),
        StepAnswer::CellFailed => Err(PoolStop::Cell),
        StepAnswer::Memory => Err(PoolStop::Memory),
    }
}

/// Kills a dump, which is what its kill in any pool says; it makes no call where the dump has cut no tape. All fit the plant as before.
fn take_kill<P: Plant, C: Cell>(
    job: &Job,
    budb: &Budb,
    plant: &mut P,
    cell: &C,
) -> Result<JobEnd, PoolStop>
    requires fit { FitsJob P.Plant job.now plant.old }
    ensures others { OnOk result ((other : AnyJob) → FitsJob P.Plant other plant.old → FitsJob P.Plant other plant.new) }
    ensures elsewhere { P.tells → OnOk result (LeavesTapes P.Plant plant.old plant.new) }
    ensures turned { P.tells → C.tells → (s : Scene) (p : PoolPoint) (n : ℕ) (q : AnyOne) → IsTurnOf P.Plant C.Cell s p n q budb.now plant.old cell.now job.now → IfOk result (λ end. IsTurned P.Plant C.Cell s p (turn_event s p (Kill n)) n (record { job = job.now; steps = q.steps; end = Some end }) budb.now plant.new cell.now) }
    ensures done { P.tells → C.tells → (s : Scene) (p : PoolPoint) (n : ℕ) (q : AnyOne) → IsTurnOf P.Plant C.Cell s p n q budb.now plant.old cell.now job.now → OnOk result (DoneAhead P.Plant (turn_event s p (Kill n)).effects plant.old plant.new) }
    ensures leaves { P.tells → C.tells → (s : Scene) (p : PoolPoint) (n : ℕ) (q : AnyOne) → IsTurnOf P.Plant C.Cell s p n q budb.now plant.old cell.now job.now → Leaves P.Plant (turn_event s p (Kill n)).effects plant.old plant.new }
    ensures killed { IfOk result (λ end. end ≡ Killed job.now.head.id) }
    ensures stops { OnErr result (result ≡ Err PoolStop.Plant) }
    ensures stays { StaysQuiet P.Plant plant.old plant.new }
    ensures cause { HasCauseAt PoolStop.Plant (P.view plant.old).faults (P.view plant.new).faults result }
{
    let id = job.id();
    match job.settle(plant) {
        Ok(()) => Ok(JobEnd::Killed(id)),
        Err(_) => Err(PoolStop::Plant),
    }
}

/// Makes a step of a dump that runs, counts it, and notes how the dump ended, where it did.
fn step_one<P: Plant, C: Cell>(
    one: &mut PoolJob,
    budb: &mut Budb,
    plant: &mut P,
    cell: &mut C,
) -> Result<(), PoolStop>
    requires runs { one.old.end ≡ None }
    requires fit { FitsOne P.Plant one.old plant.old }
    requires nothing { budb.old.prepared ≡ None }
    requires places { HasPlaces C.Cell one.old.job.places cell.old }
    ensures fit { result ≢ Err PoolStop.Plant → one.new.end ≡ None → FitsOne P.Plant one.new plant.new }
    ensures sound { result ≢ Err PoolStop.Plant → P.sound plant.new }
    ensures less { OnOk result (turns_for one.new.end (left_of one.new.job) < suc (left_of one.old.job)) }
    ensures places { result ≢ Err PoolStop.Plant → one.new.job.places ≡ one.old.job.places }
    ensures nothing { budb.new.prepared ≡ None }
    ensures elsewhere { P.tells → result ≢ Err PoolStop.Plant → LeavesOthers P.Plant plant.old plant.new one.old.job one.new.job }
    ensures others { result ≢ Err PoolStop.Plant → (other : AnyJob) → FitsJob P.Plant other plant.old → AreApartWhereTold P.Plant one.old.job other → FitsJob P.Plant other plant.new }
    ensures turned { P.tells → C.tells → (s : Scene) (p : PoolPoint) (n : ℕ) → slice_get p.jobs n ≡ Some one.old → StandsThere P.Plant C.Cell s p budb.old plant.old cell.old → OnOk result (IsTurned P.Plant C.Cell s p (turn_event s p (Step n)) n one.new budb.new plant.new cell.new) }
    ensures done { P.tells → C.tells → (s : Scene) (p : PoolPoint) (n : ℕ) → slice_get p.jobs n ≡ Some one.old → StandsThere P.Plant C.Cell s p budb.old plant.old cell.old → OnOk result (DoneAhead P.Plant (turn_event s p (Step n)).effects plant.old plant.new) }
    ensures leaves { P.tells → C.tells → (s : Scene) (p : PoolPoint) (n : ℕ) → slice_get p.jobs n ≡ Some one.old → StandsThere P.Plant C.Cell s p budb.old plant.old cell.old → Leaves P.Plant (turn_event s p (Step n)).effects plant.old plant.new }
    ensures stopped { OnErr result (result ≢ Err PoolStop.Plant → (one.new ≡ one.old) × (budb.new ≡ budb.old) × Loads P.Plant plant.old plant.new) }
    ensures list { C.tells → C.list cell.new ≡ C.list cell.old }
    ensures size { C.size cell.new ≡ C.size cell.old }
    ensures stays { StaysQuiet P.Plant plant.old plant.new }
    ensures plant_cause { HasCauseAt PoolStop.Plant (P.view plant.old).faults (P.view plant.new).faults result }
    ensures cell_cause { HasCauseAt PoolStop.Cell (C.faults cell.old) (C.faults cell.new) result }
{
    match take_step(&mut one.job, budb, plant, cell) {
        Ok(end) => {
            one.steps = one.steps.saturating_add(1);
            one.end = end;
            Ok(())
        }
        Err(stop) => Err(stop),
    }
}

/// Kills a dump that runs, and notes it.
fn kill_one<P: Plant, C: Cell>(
    one: &mut PoolJob,
    budb: &Budb,
    plant: &mut P,
    cell: &C,
) -> Result<(), PoolStop>
    requires runs { one.old.end ≡ None }
    requires fit { FitsOne P.Plant one.old plant.old }
    ensures ended { OnOk result (one.new.end ≢ None) }
    ensures sound { OnOk result (P.sound plant.new) }
    ensures job { one.new.job ≡ one.old.job }
    ensures others { OnOk result ((other : AnyJob) → FitsJob P.Plant other plant.old → FitsJob P.Plant other plant.new) }
    ensures elsewhere { P.tells → OnOk result (LeavesTapes P.Plant plant.old plant.new) }
    ensures turned { P.tells → C.tells → (s : Scene) (p : PoolPoint) (n : ℕ) → slice_get p.jobs n ≡ Some one.old → StandsThere P.Plant C.Cell s p budb.now plant.old cell.now → OnOk result (IsTurned P.Plant C.Cell s p (turn_event s p (Kill n)) n one.new budb.now plant.new cell.now) }
    ensures done { P.tells → C.tells → (s : Scene) (p : PoolPoint) (n : ℕ) → slice_get p.jobs n ≡ Some one.old → StandsThere P.Plant C.Cell s p budb.now plant.old cell.now → OnOk result (DoneAhead P.Plant (turn_event s p (Kill n)).effects plant.old plant.new) }
    ensures leaves { P.tells → C.tells → (s : Scene) (p : PoolPoint) (n : ℕ) → slice_get p.jobs n ≡ Some one.old → StandsThere P.Plant C.Cell s p budb.now plant.old cell.now → Leaves P.Plant (turn_event s p (Kill n)).effects plant.old plant.new }
    ensures stops { OnErr result (result ≡ Err PoolStop.Plant) }
    ensures stays { StaysQuiet P.Plant plant.old plant.new }
    ensures cause { HasCauseAt PoolStop.Plant (P.view plant.old).faults (P.view plant.new).faults result }
{
    match take_kill(&one.job, budb, plant, cell) {
        Ok(end) => {
            one.end = Some(end);
            Ok(())
        }
        Err(stop) => Err(stop),
    }
}

/// A turn of a dump: it makes its next step or is killed, and nothing is done where it has ended.
pub(crate) fn turn_one<P: Plant, C: Cell>(
    one: &mut PoolJob,
    budb: &mut Budb,
    plant: &mut P,
    cell: &mut C,
    turn: Turn,
) -> Result<(), PoolStop>
    requires sound { P.sound plant.old }
    requires fit { one.old.end ≡ None → FitsOne P.Plant one.old plant.old }
    requires nothing { budb.old.prepared ≡ None }
    requires places { one.old.end ≡ None → HasPlaces C.Cell one.old.job.places cell.old }
    ensures whole { result ≢ Err PoolStop.Plant → HasTurned P.Plant plant.old plant.new one.old one.new }
    ensures same { one.old.end ≢ None → (one.new ≡ one.old) × IsOk result }
    ensures ended { one.old.end ≢ None → one.new.end ≢ None }
    ensures less { one.old.end ≡ None → OnOk result (turns_for one.new.end (left_of one.new.job) < suc (left_of one.old.job)) }
    ensures places { result ≢ Err PoolStop.Plant → one.new.job.places ≡ one.old.job.places }
    ensures nothing { budb.new.prepared ≡ None }
    ensures turned { P.tells → C.tells → (s : Scene) (p : PoolPoint) → slice_get p.jobs (number_of turn) ≡ Some one.old → StandsThere P.Plant C.Cell s p budb.old plant.old cell.old → OnOk result (IsTurned P.Plant C.Cell s p (turn_event s p turn) (number_of turn) one.new budb.new plant.new cell.new) }
    ensures done { P.tells → C.tells → (s : Scene) (p : PoolPoint) → slice_get p.jobs (number_of turn) ≡ Some one.old → StandsThere P.Plant C.Cell s p budb.old plant.old cell.old → OnOk result (DoneAhead P.Plant (turn_event s p turn).effects plant.old plant.new) }
    ensures leaves { P.tells → C.tells → (s : Scene) (p : PoolPoint) → slice_get p.jobs (number_of turn) ≡ Some one.old → StandsThere P.Plant C.Cell s p budb.old plant.old cell.old → Leaves P.Plant (turn_event s p turn).effects plant.old plant.new }
    ensures stopped { OnErr result (result ≢ Err PoolStop.Plant → (one.new ≡ one.old) × (budb.new ≡ budb.old) × Loads P.Plant plant.old plant.new) }
    ensures list { C.tells → C.list cell.new ≡ C.list cell.old }
    ensures size { C.size cell.new ≡ C.size cell.old }
    ensures stays { StaysQuiet P.Plant plant.old plant.new }
    ensures plant_cause { HasCauseAt PoolStop.Plant (P.view plant.old).faults (P.view plant.new).faults result }
    ensures cell_cause { HasCauseAt PoolStop.Cell (C.faults cell.old) (C.faults cell.new) result }
{
    if one.end.is_some() {
        return Ok(());
    }
    match turn {
        Turn::Step(_) => step_one(one, budb, plant, cell),
        Turn::Kill(_) => kill_one(one, budb, plant, cell),
    }
}
