//! A pool of dumps that take turns.

ghost use Rattle.std.specs.Prelude.{◌≡◌, ◌≢◌, ◌<◌, ◌≤◌, ◌∷◌, ◌++◌, [], ℕ, None, Some, Err, IfOk, OnOk, OnErr, is_none, length, slice_get};
ghost use Rattle.std.specs.List.{list_any};
ghost use Rattle.std.specs.Option.{option_copied};
ghost use Rattle.crash_moments.specs.Moments.{HasCauseAt};
ghost use Rattle.plant_effects.specs.Runs.{state_of, Leaves, StaysQuiet};
ghost use Rattle.tape_scan.specs.Looking.{Loads};
ghost use Rattle.tape_config.specs.Ports.{IsAmong, AreApart};
ghost use Rattle.dump_courses.specs.Scenes.{Scene};
ghost use Rattle.dump_courses.specs.Ahead.{DoneAhead, LeftAhead};
ghost use Rattle.job_pool.specs.declared.jobs.PoolJob.{PoolJob as AnyOne};
ghost use Rattle.job_pool.specs.Pools.{PoolPoint, turn_event, behind};
ghost use Rattle.job_pool.specs.Schedules.{number_of, AllEnded};
ghost use Rattle.job_pool.specs.PoolCourses.{pool_course};
ghost use Rattle.job_pool.specs.Pooled.{FitsPool, HasAllPlaces, IsOfNone, IsAtPool, point_behind};

use crate::ends::JobEnd;
use crate::jobs::PoolJob;
use crate::running::{run_turns, take_turn};
use crate::stop::PoolStop;
use crate::turn::{Kill, Turn};
use budb::Budb;
use cell_core::Cell;
use dump_job::Job;
use plant_core::Plant;
use std::alloc::{AllocError, Global};
use std::marker::Model;
use tape_config::Port;

/// Dumps on ports that have no slot in common, in the order in which they were added. Contracts see the dumps, and how many there is room
/// for.
pub struct Pool {
    jobs: Vec<PoolJob>,
}

impl Model for Pool {
    ghost use Rattle.std.specs.Prelude.{◌≤◌, vec_capacity};
    ghost use Rattle.job_pool.specs.PoolViews.{PoolView};

    ghost Value = { PoolView };

    ghost view = { λ a. record { jobs = a.jobs.items; room = vec_capacity a.jobs } };

    ghost invariant = { λ a. vec_capacity a.jobs ≤ 16 };
}

/// It is written out, so that who lets a pool go calls it: derived, it would be proved once more at each such place.
impl Drop for Pool {
    fn drop(self) {
        let Pool { jobs } = self;
    }
}

/// Whether one of these dumps runs.
fn some_run(jobs: &[PoolJob]) -> bool
    ensures { result ≡ list_any (λ q. is_none q.end) jobs.now }
{
    jobs.iter().any(|one| one.end.is_none())
}

impl Pool {
    /// A pool without dumps, with room for 1 to 16. All the memory is taken here.
    pub fn new(alloc: Global, room: u32) -> Result<Pool, AllocError>
        requires some { 1 ≤ room }
        requires few { room ≤ 16 }
        ensures { IfOk result (λ pool. pool ≡ record { jobs = []; room = room }) }
    {
        Ok(Pool {
            jobs: Vec::with_capacity(alloc, room as usize)?,
        })
    }

    /// Adds a dump that was begun on this port, whose slots are apart from those of the dumps that run. It tells the dump's number,
    /// counted from 0, and takes no memory.
    pub fn add(&mut self, job: Job, port: &Port) -> u32
        requires room { length self.old.jobs < self.old.room }
        requires port { port.now ≡ job.port }
        requires apart { (n : ℕ) (q : AnyOne) → slice_get self.old.jobs n ≡ Some q → q.end ≡ None → AreApart q.job.port port.now }
        ensures number { result ≡ length self.old.jobs }
        ensures jobs { self.new.jobs ≡ self.old.jobs ++ record { job = job; steps = 0; end = None } ∷ [] }
        ensures room { self.new.room ≡ self.old.room }
    {
        let number = self.jobs.len() as u32;
        self.jobs.push_reserved(PoolJob {
            job,
            steps: 0,
            end: None,
        });
        number
    }

    /// How a dump ended: none exactly while it runs.
    pub fn end_of(&self, job: u32) -> Option<&JobEnd>
        requires { job < length self.now.jobs }
        ensures { (q : AnyOne) → slice_get self.now.jobs job ≡ Some q → option_copied result ≡ q.end }
    {
        let one = &self.jobs[job as usize];
        one.end.as_ref()
    }

    /// A dump as it stands: where it has ended, as its last step left it.
    pub fn job_of(&self, job: u32) -> &Job
        requires { job < length self.now.jobs }
        ensures { (q : AnyOne) → slice_get self.now.jobs job ≡ Some q → result.now ≡ q.job }
    {
        let one = &self.jobs[job as usize];
        &one.job
    }

    /// A turn of a dump: its next step, or its kill. It tells whether a dump runs still. A turn of one that has ended changes nothing.
    /// After a stop that isn't the plant's all dumps are as they were, and no record or log was changed.
    pub fn turn<P: Plant, C: Cell>(
        &mut self,
        budb: &mut Budb,
        plant: &mut P,
        cell: &mut C,
        turn: Turn,
    ) -> Result<bool, PoolStop>
        requires number { number_of turn < length self.old.jobs }
        requires fit { FitsPool P.Plant self.old.jobs plant.old }
        requires nothing { budb.old.prepared ≡ None }
        requires places { HasAllPlaces C.Cell self.old.jobs cell.old }
        ensures runs { IfOk result (λ more. more ≡ list_any (λ q. is_none q.end) self.new.jobs) }
        ensures fit { result ≢ Err PoolStop.Plant → FitsPool P.Plant self.new.jobs plant.new }
        ensures places { result ≢ Err PoolStop.Plant → HasAllPlaces C.Cell self.new.jobs cell.new }
        ensures nothing { budb.new.prepared ≡ None }
        ensures turned { P.tells → C.tells → (s : Scene) (p : PoolPoint) → IsAtPool P.Plant C.Cell s p budb.old plant.old cell.old self.old.jobs → OnOk result (IsAtPool P.Plant C.Cell s (behind p (turn_event s p turn)) budb.new plant.new cell.new self.new.jobs) }
        ensures done { P.tells → C.tells → (s : Scene) (p : PoolPoint) → IsAtPool P.Plant C.Cell s p budb.old plant.old cell.old self.old.jobs → OnOk result (DoneAhead P.Plant (turn_event s p turn).effects plant.old plant.new) }
        ensures leaves { P.tells → C.tells → (s : Scene) (p : PoolPoint) → IsAtPool P.Plant C.Cell s p budb.old plant.old cell.old self.old.jobs → Leaves P.Plant (turn_event s p turn).effects plant.old plant.new }
        ensures elsewhere { P.tells → result ≢ Err PoolStop.Plant → (q : AnyOne) → slice_get self.old.jobs (number_of turn) ≡ Some q → (k : ℕ) → (q.end ≡ None → IsAmong q.job.port k → ⊥) → (state_of P.Plant plant.new).tape k ≡ (state_of P.Plant plant.old).tape k }
        ensures others { (k : ℕ) → k ≢ number_of turn → slice_get self.new.jobs k ≡ slice_get self.old.jobs k }
        ensures ended { (q : AnyOne) → slice_get self.old.jobs (number_of turn) ≡ Some q → q.end ≢ None → self.new.jobs ≡ self.old.jobs }
        ensures count { length self.new.jobs ≡ length self.old.jobs }
        ensures room { self.new.room ≡ self.old.room }
        ensures stopped { OnErr result (result ≢ Err PoolStop.Plant → (self.new.jobs ≡ self.old.jobs) × (budb.new ≡ budb.old) × Loads P.Plant plant.old plant.new) }
        ensures list { C.tells → C.list cell.new ≡ C.list cell.old }
        ensures size { C.size cell.new ≡ C.size cell.old }
        ensures stays { StaysQuiet P.Plant plant.old plant.new }
        ensures plant_cause { HasCauseAt PoolStop.Plant (P.view plant.old).faults (P.view plant.new).faults result }
        ensures cell_cause { HasCauseAt PoolStop.Cell (C.faults cell.old) (C.faults cell.new) result }
    {
        match take_turn(self.jobs.as_mut_slice(), budb, plant, cell, turn) {
            Ok(()) => Ok(some_run(self.jobs.as_slice())),
            Err(stop) => Err(stop),
        }
    }

    /// Takes turns by a schedule until no dump runs. A stop that isn't the plant's leaves the first so many of their effects.
    pub fn run<P: Plant, C: Cell>(
        &mut self,
        budb: &mut Budb,
        plant: &mut P,
        cell: &mut C,
        schedule: u32,
        kills: &[Kill],
    ) -> Result<(), PoolStop>
        requires fit { FitsPool P.Plant self.old.jobs plant.old }
        requires nothing { budb.old.prepared ≡ None }
        requires places { HasAllPlaces C.Cell self.old.jobs cell.old }
        ensures runs { OnOk result (AllEnded self.new.jobs) }
        ensures fit { result ≢ Err PoolStop.Plant → FitsPool P.Plant self.new.jobs plant.new }
        ensures places { result ≢ Err PoolStop.Plant → HasAllPlaces C.Cell self.new.jobs cell.new }
        ensures nothing { budb.new.prepared ≡ None }
        ensures ended { P.tells → C.tells → (s : Scene) (p : PoolPoint) → IsAtPool P.Plant C.Cell s p budb.old plant.old cell.old self.old.jobs → OnOk result (IsAtPool P.Plant C.Cell s (point_behind p (pool_course s kills.now schedule p)) budb.new plant.new cell.new self.new.jobs) }
        ensures done { P.tells → C.tells → (s : Scene) (p : PoolPoint) → IsAtPool P.Plant C.Cell s p budb.old plant.old cell.old self.old.jobs → OnOk result (DoneAhead P.Plant (pool_course s kills.now schedule p).effects plant.old plant.new) }
        ensures leaves { P.tells → C.tells → (s : Scene) (p : PoolPoint) → IsAtPool P.Plant C.Cell s p budb.old plant.old cell.old self.old.jobs → Leaves P.Plant (pool_course s kills.now schedule p).effects plant.old plant.new }
        ensures elsewhere { P.tells → result ≢ Err PoolStop.Plant → (k : ℕ) → IsOfNone self.old.jobs k → (state_of P.Plant plant.new).tape k ≡ (state_of P.Plant plant.old).tape k }
        ensures others { (k : ℕ) (q : AnyOne) → slice_get self.old.jobs k ≡ Some q → q.end ≢ None → slice_get self.new.jobs k ≡ Some q }
        ensures count { length self.new.jobs ≡ length self.old.jobs }
        ensures room { self.new.room ≡ self.old.room }
        ensures stopped { P.tells → C.tells → (s : Scene) (p : PoolPoint) → IsAtPool P.Plant C.Cell s p budb.old plant.old cell.old self.old.jobs → OnErr result (result ≢ Err PoolStop.Plant → LeftAhead P.Plant (pool_course s kills.now schedule p).effects plant.old plant.new) }
        ensures list { C.tells → C.list cell.new ≡ C.list cell.old }
        ensures size { C.size cell.new ≡ C.size cell.old }
        ensures stays { StaysQuiet P.Plant plant.old plant.new }
        ensures plant_cause { HasCauseAt PoolStop.Plant (P.view plant.old).faults (P.view plant.new).faults result }
        ensures cell_cause { HasCauseAt PoolStop.Cell (C.faults cell.old) (C.faults cell.new) result }
    {
        run_turns(self.jobs.as_mut_slice(), budb, plant, cell, schedule, kills)
    }
}
