//! What a session begins with.

ghost use Rattle.std.specs.Prelude.{◌≡◌, ◌≢◌, [], ℕ, None, Err, IfOk};
ghost use Rattle.std.specs.List.{fold};
ghost use Rattle.crash_moments.specs.Moments.{HasCauseAt};
ghost use Rattle.plant_effects.specs.Runs.{state_of, Done, Leaves, OnlyLooks, SameNumbers, StaysQuiet};
ghost use Rattle.cell_core.specs.Answers.{OnlyFromOutside};
ghost use Rattle.backup_session.specs.Opening.{with_clones, database_time, with_state, with_stored, OpensDatabase, UnlessFailed};

use crate::stops::OpenStop;
use budb::{Budb, BudbFault};
use budb_journal::{Database, DumpRecord};
use cell_core::{Cell, CellFault};
use plant_core::Plant;
use std::alloc::Global;
use vnode_model::EntryState;

/// Opens the database of a plant's journal.
pub(crate) fn open_database<P: Plant>(alloc: Global, plant: &mut P) -> Result<Budb, OpenStop>
    requires { P.sound plant.old }
    ensures opened { P.tells → OpensDatabase (state_of P.Plant plant.old).log result }
    ensures nothing { IfOk result (λ budb. budb.prepared ≡ None) }
    ensures done { UnlessFailed result (Done P.Plant [] plant.old plant.new) }
    ensures leaves { Leaves P.Plant [] plant.old plant.new }
    ensures looks { OnlyLooks P.Plant plant.old plant.new }
    ensures numbers { UnlessFailed result (SameNumbers P.Plant plant.old plant.new) }
    ensures stays { StaysQuiet P.Plant plant.old plant.new }
    ensures cause { HasCauseAt OpenStop.Plant (P.view plant.old).faults (P.view plant.new).faults result }
    ensures never { result ≢ Err OpenStop.Cell }
{
    match Budb::open(alloc, plant) {
        Ok(budb) => Ok(budb),
        Err(BudbFault::BadLog { at }) => Err(OpenStop::BadLog { at }),
        Err(BudbFault::Failed) => Err(OpenStop::Plant),
        Err(BudbFault::Memory) => Err(OpenStop::Memory),
    }
}

/// The greatest of a time and the clone times of a listed dump.
pub(crate) fn with_clones(time: u32, dump: &DumpRecord) -> u32
    ensures { result ≡ with_clones time dump.now }
{
    let mut greatest = time;
    for volume in dump.fields().volumes.as_slice() {
        greatest = greatest.max(volume.fields().clone);
    }
    greatest
}

/// The greatest of the greatest id and of all clone times of listed dumps.
pub(crate) fn database_time(database: &Database) -> u32
    ensures { result ≡ database_time database.now }
{
    let mut greatest = database.greatest;
    for dump in database.listed.as_slice() {
        greatest = with_clones(greatest, dump);
    }
    greatest
}

/// The greatest of a time and what a cell's entry tells as its latest change.
fn with_state(time: u32, state: EntryState) -> u32
    ensures { result ≡ with_state time state }
{
    match state {
        EntryState::Good { latest, .. } => time.max(latest),
        EntryState::Bad { .. } => time,
    }
}

/// The greatest of a time and what all entries of a cell tell. Its list stays.
fn cell_time<C: Cell>(cell: &mut C, time: u32) -> Result<u32, CellFault>
    ensures time { C.tells → IfOk result (λ greatest. greatest ≡ fold with_stored time (C.list cell.old)) }
    ensures errors { OnlyFromOutside result }
    ensures list { C.tells → C.list cell.new ≡ C.list cell.old }
    ensures cause { HasCauseAt CellFault.Failed (C.faults cell.old) (C.faults cell.new) result }
{
    let mut greatest = time;
    for i in 0..cell.count() {
        let entry = cell.entry(i)?;
        greatest = with_state(greatest, entry.state);
    }
    Ok(greatest)
}

/// The time at which a session begins, by its database and its cell. The cell's list stays.
pub(crate) fn first_time<C: Cell>(cell: &mut C, database: &Database) -> Result<u32, OpenStop>
    ensures time { C.tells → IfOk result (λ greatest. greatest ≡ fold with_stored (database_time database.now) (C.list cell.old)) }
    ensures list { C.tells → C.list cell.new ≡ C.list cell.old }
    ensures cause { HasCauseAt OpenStop.Cell (C.faults cell.old) (C.faults cell.new) result }
    ensures never { result ≢ Err OpenStop.Plant }
    ensures never_bad { (at : ℕ) → result ≢ Err (OpenStop.BadLog at) }
{
    match cell_time(cell, database_time(database)) {
        Ok(time) => Ok(time),
        Err(CellFault::Failed) => Err(OpenStop::Cell),
        Err(_) => Err(OpenStop::Memory),
    }
}
