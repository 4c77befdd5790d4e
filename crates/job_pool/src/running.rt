//! Turns of the dumps of a pool: one of them, and all by a schedule.

ghost use Rattle.std.specs.Prelude.{◌≡◌, ◌≢◌, ◌<◌, ◌≤◌, ℕ, None, Some, Err, OnOk, OnErr, length, slice_get};
ghost use Rattle.crash_moments.specs.Moments.{HasCauseAt};
ghost use Rattle.plant_effects.specs.Runs.{state_of, Leaves, StaysQuiet};
ghost use Rattle.tape_scan.specs.Looking.{Loads};
ghost use Rattle.tape_config.specs.Ports.{IsAmong};
ghost use Rattle.dump_courses.specs.Scenes.{Scene};
ghost use Rattle.dump_courses.specs.Ahead.{DoneAhead, LeftAhead};
ghost use Rattle.job_pool.specs.declared.jobs.PoolJob.{PoolJob as AnyOne};
ghost use Rattle.job_pool.specs.Pools.{PoolPoint, turn_event, behind};
ghost use Rattle.job_pool.specs.Schedules.{number_of, AllEnded};
ghost use Rattle.job_pool.specs.PoolCourses.{pool_course};
ghost use Rattle.job_pool.specs.Pooled.{FitsPool, HasAllPlaces, IsOfNone, IsAtPool, work_left, point_behind};

use crate::jobs::PoolJob;
use crate::schedules::{next_number, turn_told};
use crate::stop::PoolStop;
use crate::turn::{Kill, Turn};
use crate::turns::turn_one;
use budb::Budb;
use cell_core::Cell;
use plant_core::Plant;

/// The number of the dump whose turn it is.
fn number(turn: Turn) -> usize
    ensures { result ≡ number_of turn }
{
    match turn {
        Turn::Step(number) => number as usize,
        Turn::Kill(number) => number as usize,
    }
}

/// A turn of one of these dumps.
pub(crate) fn take_turn<P: Plant, C: Cell>(
    jobs: &mut [PoolJob],
    budb: &mut Budb,
    plant: &mut P,
    cell: &mut C,
    turn: Turn,
) -> Result<(), PoolStop>
    requires number { number_of turn < length jobs.old }
    requires fit { FitsPool P.Plant jobs.old plant.old }
    requires nothing { budb.old.prepared ≡ None }
    requires places { HasAllPlaces C.Cell jobs.old cell.old }
    ensures fit { result ≢ Err PoolStop.Plant → FitsPool P.Plant jobs.new plant.new }
    ensures places { result ≢ Err PoolStop.Plant → HasAllPlaces C.Cell jobs.new cell.new }
    ensures less { (q : AnyOne) → slice_get jobs.old (number_of turn) ≡ Some q → q.end ≡ None → OnOk result (work_left jobs.new < work_left jobs.old) }
    ensures nothing { budb.new.prepared ≡ None }
    ensures turned { P.tells → C.tells → (s : Scene) (p : PoolPoint) → IsAtPool P.Plant C.Cell s p budb.old plant.old cell.old jobs.old → OnOk result (IsAtPool P.Plant C.Cell s (behind p (turn_event s p turn)) budb.new plant.new cell.new jobs.new) }
    ensures done { P.tells → C.tells → (s : Scene) (p : PoolPoint) → IsAtPool P.Plant C.Cell s p budb.old plant.old cell.old jobs.old → OnOk result (DoneAhead P.Plant (turn_event s p turn).effects plant.old plant.new) }
    ensures leaves { P.tells → C.tells → (s : Scene) (p : PoolPoint) → IsAtPool P.Plant C.Cell s p budb.old plant.old cell.old jobs.old → Leaves P.Plant (turn_event s p turn).effects plant.old plant.new }
    ensures elsewhere { P.tells → result ≢ Err PoolStop.Plant → (q : AnyOne) → slice_get jobs.old (number_of turn) ≡ Some q → (k : ℕ) → (q.end ≡ None → IsAmong q.job.port k → ⊥) → (state_of P.Plant plant.new).tape k ≡ (state_of P.Plant plant.old).tape k }
    ensures none { P.tells → result ≢ Err PoolStop.Plant → (k : ℕ) → IsOfNone jobs.old k → IsOfNone jobs.new k }
    ensures others { (k : ℕ) → k ≢ number_of turn → slice_get jobs.new k ≡ slice_get jobs.old k }
    ensures ended { (q : AnyOne) → slice_get jobs.old (number_of turn) ≡ Some q → q.end ≢ None → jobs.new ≡ jobs.old }
    ensures count { length jobs.new ≡ length jobs.old }
    ensures stopped { OnErr result (result ≢ Err PoolStop.Plant → (jobs.new ≡ jobs.old) × (budb.new ≡ budb.old) × Loads P.Plant plant.old plant.new) }
    ensures list { C.tells → C.list cell.new ≡ C.list cell.old }
    ensures size { C.size cell.new ≡ C.size cell.old }
    ensures stays { StaysQuiet P.Plant plant.old plant.new }
    ensures plant_cause { HasCauseAt PoolStop.Plant (P.view plant.old).faults (P.view plant.new).faults result }
    ensures cell_cause { HasCauseAt PoolStop.Cell (C.faults cell.old) (C.faults cell.new) result }
{
    let at = number(turn);
    turn_one(&mut jobs[at], budb, plant, cell, turn)
}

/// Turns by a schedule, until no dump runs.
pub(crate) fn run_turns<P: Plant, C: Cell>(
    jobs: &mut [PoolJob],
    budb: &mut Budb,
    plant: &mut P,
    cell: &mut C,
    schedule: u32,
    kills: &[Kill],
) -> Result<(), PoolStop>
    requires few { length jobs.old ≤ 4294967295 }
    requires fit { FitsPool P.Plant jobs.old plant.old }
    requires nothing { budb.old.prepared ≡ None }
    requires places { HasAllPlaces C.Cell jobs.old cell.old }
    ensures runs { OnOk result (AllEnded jobs.new) }
    ensures fit { result ≢ Err PoolStop.Plant → FitsPool P.Plant jobs.new plant.new }
    ensures places { result ≢ Err PoolStop.Plant → HasAllPlaces C.Cell jobs.new cell.new }
    ensures nothing { budb.new.prepared ≡ None }
    ensures ended { P.tells → C.tells → (s : Scene) (p : PoolPoint) → IsAtPool P.Plant C.Cell s p budb.old plant.old cell.old jobs.old → OnOk result (IsAtPool P.Plant C.Cell s (point_behind p (pool_course s kills.now schedule p)) budb.new plant.new cell.new jobs.new) }
    ensures done { P.tells → C.tells → (s : Scene) (p : PoolPoint) → IsAtPool P.Plant C.Cell s p budb.old plant.old cell.old jobs.old → OnOk result (DoneAhead P.Plant (pool_course s kills.now schedule p).effects plant.old plant.new) }
    ensures leaves { P.tells → C.tells → (s : Scene) (p : PoolPoint) → IsAtPool P.Plant C.Cell s p budb.old plant.old cell.old jobs.old → Leaves P.Plant (pool_course s kills.now schedule p).effects plant.old plant.new }
    ensures elsewhere { P.tells → result ≢ Err PoolStop.Plant → (k : ℕ) → IsOfNone jobs.old k → (state_of P.Plant plant.new).tape k ≡ (state_of P.Plant plant.old).tape k }
    ensures others { (k : ℕ) (q : AnyOne) → slice_get jobs.old k ≡ Some q → q.end ≢ None → slice_get jobs.new k ≡ Some q }
    ensures count { length jobs.new ≡ length jobs.old }
    ensures stopped { P.tells → C.tells → (s : Scene) (p : PoolPoint) → IsAtPool P.Plant C.Cell s p budb.old plant.old cell.old jobs.old → OnErr result (result ≢ Err PoolStop.Plant → LeftAhead P.Plant (pool_course s kills.now schedule p).effects plant.old plant.new) }
    ensures list { C.tells → C.list cell.new ≡ C.list cell.old }
    ensures size { C.size cell.new ≡ C.size cell.old }
    ensures stays { StaysQuiet P.Plant plant.old plant.new }
    ensures plant_cause { HasCauseAt PoolStop.Plant (P.view plant.old).faults (P.view plant.new).faults result }
    ensures cell_cause { HasCauseAt PoolStop.Cell (C.faults cell.old) (C.faults cell.new) result }
{
    let mut x = schedule;
    'turns: loop {
        let next = next_number(x);
        match turn_told(jobs, kills, next) {
            None => return Ok(()),
            Some(turn) => match take_turn(jobs, budb, plant, cell, turn) {
                Ok(()) => x = next,
                Err(stop) => return Err(stop),
            },
        }
    }
}
