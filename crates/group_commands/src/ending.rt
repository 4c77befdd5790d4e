//! The end of a group: its dumps begin, and take turns until none runs.

ghost use Rattle.std.specs.Prelude.{◌≡◌, ◌≢◌, ◌≤◌, ◌++◌, [], None, Err, length, map, IfOk, OnOk, OnErr};
ghost use Rattle.crash_moments.specs.Moments.{HasCauseAt};
ghost use Rattle.plant_effects.specs.Runs.{Leaves, StaysQuiet};
ghost use Rattle.cell_core.specs.Calls.{entry_of_stored};
ghost use Rattle.dump_courses.specs.Ahead.{DoneAhead, LeftAhead};
ghost use Rattle.dump_courses.specs.Scenes.{Scene, Finds};
ghost use Rattle.dump_commands.specs.Answers.{IsAnswered};
ghost use Rattle.backup_replies.specs.Texts.{ok_line};
ghost use Rattle.job_pool.specs.Pools.{PoolPoint};
ghost use Rattle.job_pool.specs.PoolCourses.{pool_course};
ghost use Rattle.job_pool.specs.Pooled.{FitsPool, HasAllPlaces, IsAtPool, point_behind};
ghost use Rattle.group_commands.specs.Begins.{kills_of};
ghost use Rattle.group_commands.specs.Lines.{held_texts, told_jobs, AreOfPool};
ghost use Rattle.group_commands.specs.Answers.{group_answer};
ghost use Rattle.group_commands.specs.Begun.{HasEnded};

use crate::beginning::{Begun, begin_held, none_begun};
use crate::group::Group;
use crate::killing::kills_of;
use crate::lines::held_texts;
use crate::telling::told_jobs;
use crate::told::ToldJob;
use bk_text::{Bytes, List};
use budb::Budb;
use cell_core::Cell;
use dump_commands::entries_of;
use dump_courses::DumpStop;
use job_pool::PoolStop;
use plant_core::Plant;
use std::alloc::{AllocError, Global};
use tape_config::Config;
use vnode_model::VolEntry;

/// What the end of a group is answered: a text that is still to be told, the session's time behind it, in seconds since 1970, and the
/// dumps that were begun.
#[derive(Drop)]
pub struct Ended {
    /// The text.
    pub text: Bytes,
    /// The session's time.
    pub time: u32,
    /// The dumps that were begun, in order.
    pub jobs: List<ToldJob>,
}

/// Lets the dumps that were begun take turns by the group's schedule, with its kills, until none runs.
fn run_begun<P: Plant, C: Cell>(
    alloc: Global,
    budb: &mut Budb,
    plant: &mut P,
    cell: &mut C,
    group: &Group,
    begun: &mut Begun,
) -> Result<(), DumpStop>
    requires nothing { budb.old.prepared ≡ None }
    requires fit { FitsPool P.Plant begun.old.pool.jobs plant.old }
    requires places { HasAllPlaces C.Cell begun.old.pool.jobs cell.old }
    ensures at { P.tells → C.tells → (s : Scene) (p : PoolPoint) → IsAtPool P.Plant C.Cell s p budb.old plant.old cell.old begun.old.pool.jobs → OnOk result (IsAtPool P.Plant C.Cell s (point_behind p (pool_course s (kills_of begun.old.began group.now.kills) group.now.schedule p)) budb.new plant.new cell.new begun.new.pool.jobs) }
    ensures done { P.tells → C.tells → (s : Scene) (p : PoolPoint) → IsAtPool P.Plant C.Cell s p budb.old plant.old cell.old begun.old.pool.jobs → OnOk result (DoneAhead P.Plant (pool_course s (kills_of begun.old.began group.now.kills) group.now.schedule p).effects plant.old plant.new) }
    ensures leaves { P.tells → C.tells → (s : Scene) (p : PoolPoint) → IsAtPool P.Plant C.Cell s p budb.old plant.old cell.old begun.old.pool.jobs → Leaves P.Plant (pool_course s (kills_of begun.old.began group.now.kills) group.now.schedule p).effects plant.old plant.new }
    ensures stopped { P.tells → C.tells → (s : Scene) (p : PoolPoint) → IsAtPool P.Plant C.Cell s p budb.old plant.old cell.old begun.old.pool.jobs → OnErr result (result ≢ Err DumpStop.Plant → LeftAhead P.Plant (pool_course s (kills_of begun.old.began group.now.kills) group.now.schedule p).effects plant.old plant.new) }
    ensures began { begun.new.began ≡ begun.old.began }
    ensures time { begun.new.time ≡ begun.old.time }
    ensures count { length begun.new.pool.jobs ≡ length begun.old.pool.jobs }
    ensures unfailed { result ≢ Err DumpStop.Plant → P.sound plant.new }
    ensures nothing { budb.new.prepared ≡ None }
    ensures list { C.tells → C.list cell.new ≡ C.list cell.old }
    ensures stays { StaysQuiet P.Plant plant.old plant.new }
    ensures plant_cause { HasCauseAt DumpStop.Plant (P.view plant.old).faults (P.view plant.new).faults result }
    ensures cell_cause { HasCauseAt DumpStop.Cell (C.faults cell.old) (C.faults cell.new) result }
{
    let kills = kills_of(alloc, begun.began.as_slice(), group.kills())?;
    match begun
        .pool
        .run(budb, plant, cell, group.schedule(), kills.as_slice())
    {
        Ok(()) => Ok(()),
        Err(PoolStop::Plant) => Err(DumpStop::Plant),
        Err(PoolStop::Cell) => Err(DumpStop::Cell),
        Err(PoolStop::Memory) => Err(DumpStop::Memory),
    }
}

/// Begins the held dumps, and lets them take turns until none runs.
fn carry_out<P: Plant, C: Cell>(
    alloc: Global,
    config: &Config,
    budb: &mut Budb,
    plant: &mut P,
    cell: &mut C,
    entries: &[VolEntry],
    time: u32,
    group: &Group,
    begun: &mut Begun,
) -> Result<(), DumpStop>
    requires sound { P.sound plant.old }
    requires nothing { budb.old.prepared ≡ None }
    requires count { length entries.now ≡ C.size cell.old }
    requires few { length entries.now ≤ 65536 }
    requires entries { C.tells → entries.now ≡ map entry_of_stored (C.list cell.old) }
    requires pool { begun.old.pool ≡ record { jobs = []; room = 16 } }
    requires began { begun.old.began ≡ [] }
    requires time { begun.old.time ≡ time }
    ensures each { OnOk result (length begun.new.began ≡ length group.now.held) }
    ensures within { OnOk result (AreOfPool begun.new.began begun.new.pool.jobs) }
    ensures ended { P.tells → C.tells → (s : Scene) → Finds P.Plant C.Cell s config.now budb.old plant.old cell.old time → OnOk result (HasEnded P.Plant s group.now begun.new.began begun.new.time budb.new plant.old plant.new begun.new.pool.jobs) }
    ensures leaves { P.tells → C.tells → (s : Scene) → Finds P.Plant C.Cell s config.now budb.old plant.old cell.old time → Leaves P.Plant (group_answer s group.now).answer.effects plant.old plant.new }
    ensures stopped { P.tells → C.tells → (s : Scene) → Finds P.Plant C.Cell s config.now budb.old plant.old cell.old time → OnErr result (result ≢ Err DumpStop.Plant → LeftAhead P.Plant (group_answer s group.now).answer.effects plant.old plant.new) }
    ensures unfailed { result ≢ Err DumpStop.Plant → P.sound plant.new }
    ensures nothing { budb.new.prepared ≡ None }
    ensures list { C.tells → C.list cell.new ≡ C.list cell.old }
    ensures stays { StaysQuiet P.Plant plant.old plant.new }
    ensures plant_cause { HasCauseAt DumpStop.Plant (P.view plant.old).faults (P.view plant.new).faults result }
    ensures cell_cause { HasCauseAt DumpStop.Cell (C.faults cell.old) (C.faults cell.new) result }
{
    begin_held(
        alloc,
        config,
        budb,
        plant,
        cell,
        entries,
        time,
        group.held(),
        begun,
    )?;
    run_begun(alloc, budb, plant, cell, group, begun)
}

/// Tells how each held dump ended.
fn tell(alloc: Global, group: &Group, begun: &Begun) -> Result<Ended, AllocError>
    requires each { length begun.now.began ≡ length group.now.held }
    requires within { AreOfPool begun.now.began begun.now.pool.jobs }
    ensures text { IfOk result (λ ended. ended.text ≡ held_texts 1 group.now.held begun.now.began begun.now.pool.jobs ++ ok_line) }
    ensures time { IfOk result (λ ended. ended.time ≡ begun.now.time) }
    ensures jobs { IfOk result (λ ended. ended.jobs ≡ told_jobs 1 begun.now.began begun.now.pool.jobs) }
{
    let began = begun.began.as_slice();
    let text = held_texts(alloc, group.held(), began, &begun.pool)?;
    let jobs = told_jobs(alloc, began, &begun.pool)?;
    Ok(Ended {
        text,
        time: begun.time,
        jobs,
    })
}

/// Ends a group over what the cell's list says of its volumes.
fn end_over<P: Plant, C: Cell>(
    alloc: Global,
    config: &Config,
    budb: &mut Budb,
    plant: &mut P,
    cell: &mut C,
    entries: &[VolEntry],
    time: u32,
    group: &Group,
) -> Result<Ended, DumpStop>
    requires sound { P.sound plant.old }
    requires nothing { budb.old.prepared ≡ None }
    requires count { length entries.now ≡ C.size cell.old }
    requires few { length entries.now ≤ 65536 }
    requires entries { C.tells → entries.now ≡ map entry_of_stored (C.list cell.old) }
    ensures unfailed { result ≢ Err DumpStop.Plant → P.sound plant.new }
    ensures nothing { budb.new.prepared ≡ None }
    ensures answered { P.tells → C.tells → (s : Scene) → Finds P.Plant C.Cell s config.now budb.old plant.old cell.old time → IfOk result (λ ended. IsAnswered P.Plant s (group_answer s group.now).answer budb.new plant.old plant.new (record { text = ended.text; time = ended.time })) }
    ensures jobs { P.tells → C.tells → (s : Scene) → Finds P.Plant C.Cell s config.now budb.old plant.old cell.old time → IfOk result (λ ended. ended.jobs ≡ (group_answer s group.now).jobs) }
    ensures leaves { P.tells → C.tells → (s : Scene) → Finds P.Plant C.Cell s config.now budb.old plant.old cell.old time → Leaves P.Plant (group_answer s group.now).answer.effects plant.old plant.new }
    ensures stopped { P.tells → C.tells → (s : Scene) → Finds P.Plant C.Cell s config.now budb.old plant.old cell.old time → OnErr result (result ≢ Err DumpStop.Plant → LeftAhead P.Plant (group_answer s group.now).answer.effects plant.old plant.new) }
    ensures list { C.tells → C.list cell.new ≡ C.list cell.old }
    ensures stays { StaysQuiet P.Plant plant.old plant.new }
    ensures plant_cause { HasCauseAt DumpStop.Plant (P.view plant.old).faults (P.view plant.new).faults result }
    ensures cell_cause { HasCauseAt DumpStop.Cell (C.faults cell.old) (C.faults cell.new) result }
{
    let mut begun = none_begun(alloc, time)?;
    carry_out(
        alloc, config, budb, plant, cell, entries, time, group, &mut begun,
    )?;
    let ended = tell(alloc, group, &begun)?;
    Ok(ended)
}

/// `end`: begins the held dumps in order, lets them take turns by the group's schedule until none runs, and tells how each ended. `time`
/// is the session's time, in seconds since 1970. Nothing is told to the plant: the text is handed back. All effects are one list; a stop
/// that isn't the plant's leaves a sound plant, with the first so many of them.
pub fn end_group<P: Plant, C: Cell>(
    alloc: Global,
    config: &Config,
    budb: &mut Budb,
    plant: &mut P,
    cell: &mut C,
    time: u32,
    group: &Group,
) -> Result<Ended, DumpStop>
    requires sound { P.sound plant.old }
    requires nothing { budb.old.prepared ≡ None }
    ensures sound { OnOk result (P.sound plant.new) }
    ensures unfailed { result ≢ Err DumpStop.Plant → P.sound plant.new }
    ensures nothing { budb.new.prepared ≡ None }
    ensures answered { P.tells → C.tells → (s : Scene) → Finds P.Plant C.Cell s config.now budb.old plant.old cell.old time → IfOk result (λ ended. IsAnswered P.Plant s (group_answer s group.now).answer budb.new plant.old plant.new (record { text = ended.text; time = ended.time })) }
    ensures jobs { P.tells → C.tells → (s : Scene) → Finds P.Plant C.Cell s config.now budb.old plant.old cell.old time → IfOk result (λ ended. ended.jobs ≡ (group_answer s group.now).jobs) }
    ensures leaves { P.tells → C.tells → (s : Scene) → Finds P.Plant C.Cell s config.now budb.old plant.old cell.old time → Leaves P.Plant (group_answer s group.now).answer.effects plant.old plant.new }
    ensures stopped { P.tells → C.tells → (s : Scene) → Finds P.Plant C.Cell s config.now budb.old plant.old cell.old time → OnErr result (result ≢ Err DumpStop.Plant → LeftAhead P.Plant (group_answer s group.now).answer.effects plant.old plant.new) }
    ensures list { C.tells → C.list cell.new ≡ C.list cell.old }
    ensures stays { StaysQuiet P.Plant plant.old plant.new }
    ensures plant_cause { HasCauseAt DumpStop.Plant (P.view plant.old).faults (P.view plant.new).faults result }
    ensures cell_cause { HasCauseAt DumpStop.Cell (C.faults cell.old) (C.faults cell.new) result }
{
    let entries = entries_of(alloc, cell)?;
    end_over(
        alloc,
        config,
        budb,
        plant,
        cell,
        entries.as_slice(),
        time,
        group,
    )
}
