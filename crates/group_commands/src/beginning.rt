//! The begins of the held dumps of a group, one after the other, into a pool.

ghost use Rattle.std.specs.Prelude.{◌≡◌, ◌≢◌, ◌+◌, ◌<◌, ◌≤◌, ◌++◌, ◌∷◌, [], ℕ, None, Some, Err, length, map, slice_get, IfOk, OnOk, OnErr};
ghost use Rattle.crash_moments.specs.Moments.{HasCauseAt};
ghost use Rattle.plant_effects.specs.Runs.{Leaves, StaysQuiet};
ghost use Rattle.cell_core.specs.Calls.{entry_of_stored};
ghost use Rattle.tape_config.specs.Configs.{port_in};
ghost use Rattle.tape_config.specs.Ports.{AreApart};
ghost use Rattle.dump_courses.specs.Ahead.{LeftAhead};
ghost use Rattle.dump_courses.specs.Scenes.{Scene, Finds};
ghost use Rattle.backup_words.specs.declared.command.DumpCommand.{DumpCommand as AnyCommand};
ghost use Rattle.dump_commands.specs.Starts.{dump_start, start_effects};
ghost use Rattle.job_pool.specs.declared.jobs.PoolJob.{PoolJob as AnyOne};
ghost use Rattle.job_pool.specs.Pools.{PoolPoint};
ghost use Rattle.job_pool.specs.Pooled.{FitsPool, HasAllPlaces};
ghost use Rattle.group_commands.specs.declared.began.Began.TheVariants.{Runs};
ghost use Rattle.group_commands.specs.Begins.{first_point, scene_at};
ghost use Rattle.group_commands.specs.Lines.{AreOfPool};
ghost use Rattle.group_commands.specs.Beginning.{begin_effects};
ghost use Rattle.group_commands.specs.Begun.{FindsPool, HasBegun, HasMore, AreBegun, AreOfOthers, IsOldOrAt};

use crate::began::Began;
use backup_words::DumpCommand;
use bk_text::List;
use budb::Budb;
use cell_core::Cell;
use dump_commands::start_dump;
use dump_courses::DumpStop;
use dump_job::Job;
use job_pool::Pool;
use plant_core::Plant;
use std::alloc::{AllocError, Global};
use tape_config::Config;
use vnode_model::VolEntry;

/// Held dumps that have begun or are refused: the pool of those that run, what became of each, and the session's time behind their begins, in
/// seconds since 1970.
pub(crate) struct Begun {
    /// The dumps that were begun.
    pub pool: Pool,
    /// What became of each held dump, in order.
    pub began: List<Began>,
    /// The session's time.
    pub time: u32,
}

/// It is written out, so that who lets it go calls it: derived, it would be proved once more at each such place.
impl Drop for Begun {
    fn drop(self) {
        let Begun { pool, began, time } = self;
    }
}

/// No held dump has begun yet.
pub(crate) fn none_begun(alloc: Global, time: u32) -> Result<Begun, AllocError>
    ensures pool { IfOk result (λ begun. begun.pool ≡ record { jobs = []; room = 16 }) }
    ensures began { IfOk result (λ begun. begun.began ≡ []) }
    ensures time { IfOk result (λ begun. begun.time ≡ time) }
{
    let pool = Pool::new(alloc, 16)?;
    Ok(Begun {
        pool,
        began: List::new(alloc),
        time,
    })
}

/// Adds a dump that was begun to a pool of dumps on other ports. It tells its number.
fn add_job(config: &Config, offset: u16, pool: &mut Pool, job: Job) -> u32
    requires room { length pool.old.jobs < pool.old.room }
    requires port { port_in offset config.now.entries ≡ Some job.port }
    requires others { AreOfOthers config.now offset pool.old.jobs }
    ensures number { result ≡ length pool.old.jobs }
    ensures jobs { pool.new.jobs ≡ pool.old.jobs ++ record { job = job; steps = 0; end = None } ∷ [] }
    ensures room { pool.new.room ≡ pool.old.room }
    ensures apart { (n : ℕ) (q : AnyOne) → slice_get pool.old.jobs n ≡ Some q → AreApart q.job.port job.port }
{
    match config.port(offset) {
        Some(port) => pool.add(job, &port),
        None => 0,
    }
}

/// Begins a held dump into a pool of dumps on other ports, or tells what it is refused by. The session's time takes in its id.
fn begin_one<P: Plant, C: Cell>(
    alloc: Global,
    config: &Config,
    budb: &mut Budb,
    plant: &mut P,
    cell: &C,
    entries: &[VolEntry],
    now: u32,
    command: &DumpCommand,
    pool: &mut Pool,
    time: &mut u32,
) -> Result<Began, DumpStop>
    requires nothing { budb.old.prepared ≡ None }
    requires count { length entries.now ≡ C.size cell.now }
    requires few { length entries.now ≤ 65536 }
    requires entries { C.tells → entries.now ≡ map entry_of_stored (C.list cell.now) }
    requires room { length pool.old.jobs < pool.old.room }
    requires fit { FitsPool P.Plant pool.old.jobs plant.old }
    requires places { HasAllPlaces C.Cell pool.old.jobs cell.now }
    requires others { AreOfOthers config.now command.now.offset pool.old.jobs }
    ensures fit { OnOk result (FitsPool P.Plant pool.new.jobs plant.new) }
    ensures places { OnOk result (HasAllPlaces C.Cell pool.new.jobs cell.now) }
    ensures ports { OnOk result ((n : ℕ) (q : AnyOne) → slice_get pool.new.jobs n ≡ Some q → IsOldOrAt config.now command.now.offset pool.old.jobs n q) }
    ensures more { length pool.old.jobs ≤ length pool.new.jobs }
    ensures count { length pool.new.jobs ≤ length pool.old.jobs + 1 }
    ensures within { IfOk result (λ one. (n : ℕ) → one ≡ Runs n → n < length pool.new.jobs) }
    ensures room { pool.new.room ≡ pool.old.room }
    ensures begun { P.tells → C.tells → (s : Scene) (p : PoolPoint) → FindsPool P.Plant C.Cell s p config.now budb.old plant.old cell.now now pool.old.jobs → IfOk result (λ one. HasBegun P.Plant C.Cell s p (dump_start (scene_at s p) command.now) one time.old time.new budb.new plant.old plant.new cell.now pool.new.jobs) }
    ensures leaves { P.tells → C.tells → (s : Scene) (p : PoolPoint) → FindsPool P.Plant C.Cell s p config.now budb.old plant.old cell.now now pool.old.jobs → Leaves P.Plant (start_effects (scene_at s p) (dump_start (scene_at s p) command.now)) plant.old plant.new }
    ensures stopped { P.tells → C.tells → (s : Scene) (p : PoolPoint) → FindsPool P.Plant C.Cell s p config.now budb.old plant.old cell.now now pool.old.jobs → OnErr result (result ≢ Err DumpStop.Plant → LeftAhead P.Plant (start_effects (scene_at s p) (dump_start (scene_at s p) command.now)) plant.old plant.new) }
    ensures unfailed { result ≢ Err DumpStop.Plant → P.sound plant.new }
    ensures nothing { budb.new.prepared ≡ None }
    ensures stays { StaysQuiet P.Plant plant.old plant.new }
    ensures cause { HasCauseAt DumpStop.Plant (P.view plant.old).faults (P.view plant.new).faults result }
    ensures never_cell { result ≢ Err DumpStop.Cell }
{
    match start_dump(alloc, config, budb, plant, cell, entries, now, command)? {
        Ok(job) => {
            *time = (*time).max(job.id());
            Ok(Began::Runs(add_job(config, command.offset, pool, job)))
        }
        Err(text) => Ok(Began::Refused(text)),
    }
}

/// Begins the next held dump, and keeps what became of it.
fn begin_next<P: Plant, C: Cell>(
    alloc: Global,
    config: &Config,
    budb: &mut Budb,
    plant: &mut P,
    cell: &C,
    entries: &[VolEntry],
    now: u32,
    command: &DumpCommand,
    begun: &mut Begun,
) -> Result<(), DumpStop>
    requires nothing { budb.old.prepared ≡ None }
    requires count { length entries.now ≡ C.size cell.now }
    requires few { length entries.now ≤ 65536 }
    requires entries { C.tells → entries.now ≡ map entry_of_stored (C.list cell.now) }
    requires room { length begun.old.pool.jobs < begun.old.pool.room }
    requires fit { FitsPool P.Plant begun.old.pool.jobs plant.old }
    requires places { HasAllPlaces C.Cell begun.old.pool.jobs cell.now }
    requires others { AreOfOthers config.now command.now.offset begun.old.pool.jobs }
    requires within { AreOfPool begun.old.began begun.old.pool.jobs }
    ensures fit { OnOk result (FitsPool P.Plant begun.new.pool.jobs plant.new) }
    ensures places { OnOk result (HasAllPlaces C.Cell begun.new.pool.jobs cell.now) }
    ensures ports { OnOk result ((n : ℕ) (q : AnyOne) → slice_get begun.new.pool.jobs n ≡ Some q → IsOldOrAt config.now command.now.offset begun.old.pool.jobs n q) }
    ensures count { length begun.new.pool.jobs ≤ length begun.old.pool.jobs + 1 }
    ensures each { OnOk result (length begun.new.began ≡ length begun.old.began + 1) }
    ensures within { OnOk result (AreOfPool begun.new.began begun.new.pool.jobs) }
    ensures room { begun.new.pool.room ≡ begun.old.pool.room }
    ensures begun { P.tells → C.tells → (s : Scene) (p : PoolPoint) → FindsPool P.Plant C.Cell s p config.now budb.old plant.old cell.now now begun.old.pool.jobs → OnOk result (HasMore P.Plant C.Cell s p (dump_start (scene_at s p) command.now) begun.old.began begun.new.began begun.old.time begun.new.time budb.new plant.old plant.new cell.now begun.new.pool.jobs) }
    ensures leaves { P.tells → C.tells → (s : Scene) (p : PoolPoint) → FindsPool P.Plant C.Cell s p config.now budb.old plant.old cell.now now begun.old.pool.jobs → Leaves P.Plant (start_effects (scene_at s p) (dump_start (scene_at s p) command.now)) plant.old plant.new }
    ensures stopped { P.tells → C.tells → (s : Scene) (p : PoolPoint) → FindsPool P.Plant C.Cell s p config.now budb.old plant.old cell.now now begun.old.pool.jobs → OnErr result (result ≢ Err DumpStop.Plant → LeftAhead P.Plant (start_effects (scene_at s p) (dump_start (scene_at s p) command.now)) plant.old plant.new) }
    ensures unfailed { result ≢ Err DumpStop.Plant → P.sound plant.new }
    ensures nothing { budb.new.prepared ≡ None }
    ensures stays { StaysQuiet P.Plant plant.old plant.new }
    ensures cause { HasCauseAt DumpStop.Plant (P.view plant.old).faults (P.view plant.new).faults result }
    ensures never_cell { result ≢ Err DumpStop.Cell }
{
    let one = begin_one(
        alloc,
        config,
        budb,
        plant,
        cell,
        entries,
        now,
        command,
        &mut begun.pool,
        &mut begun.time,
    )?;
    begun.began.push(one)?;
    Ok(())
}

/// Begins held dumps, of which no two go to one port, in order.
pub(crate) fn begin_held<P: Plant, C: Cell>(
    alloc: Global,
    config: &Config,
    budb: &mut Budb,
    plant: &mut P,
    cell: &C,
    entries: &[VolEntry],
    now: u32,
    held: &[DumpCommand],
    begun: &mut Begun,
) -> Result<(), DumpStop>
    requires sound { P.sound plant.old }
    requires nothing { budb.old.prepared ≡ None }
    requires count { length entries.now ≡ C.size cell.now }
    requires few { length entries.now ≤ 65536 }
    requires entries { C.tells → entries.now ≡ map entry_of_stored (C.list cell.now) }
    requires sixteen { length held.now ≤ 16 }
    requires ports { (n k : ℕ) (a b : AnyCommand) → slice_get held.now n ≡ Some a → slice_get held.now k ≡ Some b → n ≢ k → a.offset ≢ b.offset }
    requires pool { begun.old.pool ≡ record { jobs = []; room = 16 } }
    requires began { begun.old.began ≡ [] }
    requires time { begun.old.time ≡ now }
    ensures fit { OnOk result (FitsPool P.Plant begun.new.pool.jobs plant.new) }
    ensures places { OnOk result (HasAllPlaces C.Cell begun.new.pool.jobs cell.now) }
    ensures each { OnOk result (length begun.new.began ≡ length held.now) }
    ensures within { OnOk result (AreOfPool begun.new.began begun.new.pool.jobs) }
    ensures begun { P.tells → C.tells → (s : Scene) → Finds P.Plant C.Cell s config.now budb.old plant.old cell.now now → OnOk result (AreBegun P.Plant C.Cell s held.now begun.new.began begun.new.time budb.new plant.old plant.new cell.now begun.new.pool.jobs) }
    ensures leaves { P.tells → C.tells → (s : Scene) → Finds P.Plant C.Cell s config.now budb.old plant.old cell.now now → Leaves P.Plant (begin_effects s (first_point s) held.now) plant.old plant.new }
    ensures stopped { P.tells → C.tells → (s : Scene) → Finds P.Plant C.Cell s config.now budb.old plant.old cell.now now → OnErr result (result ≢ Err DumpStop.Plant → LeftAhead P.Plant (begin_effects s (first_point s) held.now) plant.old plant.new) }
    ensures unfailed { result ≢ Err DumpStop.Plant → P.sound plant.new }
    ensures nothing { budb.new.prepared ≡ None }
    ensures stays { StaysQuiet P.Plant plant.old plant.new }
    ensures cause { HasCauseAt DumpStop.Plant (P.view plant.old).faults (P.view plant.new).faults result }
    ensures never_cell { result ≢ Err DumpStop.Cell }
{
    for i in 0..held.len() {
        begin_next(
            alloc, config, budb, plant, cell, entries, now, &held[i], begun,
        )?;
    }
    Ok(())
}
