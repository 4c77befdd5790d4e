//! Restores: each volume is looked up in what the tapes hold, and put into the cell.

ghost use Rattle.std.specs.Prelude.{◌≡◌, ◌≢◌, ◌≤◌, ◌+◌, [], List as AnyList, Err, IfSome, IfOk, OnOk, OnErr};
ghost use Rattle.crash_moments.specs.Moments.{HasCauseAt};
ghost use Rattle.plant_effects.specs.Runs.{Leaves, StaysQuiet};
ghost use Rattle.tape_scan.specs.Slots.{Slot};
ghost use Rattle.tape_scan.specs.Looking.{HasSlots, Loads, LeavesLoads};
ghost use Rattle.archive_model.specs.Archives.{Archive};
ghost use Rattle.dump_courses.specs.Ahead.{LeftAhead};
ghost use Rattle.restore_commands.specs.Leaving.{IsArchiveOf, IsAnswer, OnTheWay};
ghost use Rattle.backup_session.specs.Worlds.{World};
ghost use Rattle.backup_session.specs.Held.{HoldsArchive};
ghost use Rattle.budb_fold.specs.Database.{after};
ghost use Rattle.budb_fold.specs.Chains.{HaveParentsBelow};
ghost use Rattle.backup_session.specs.Restores.{manner_at, restore_answer, archive_turn, MayRestore};
ghost use Rattle.backup_session.specs.Loading.{command_loads, restore_loads};

use crate::reply::Reply;
use crate::session::Session;
use crate::stops::Stop;
use backup_words::{RestoreCommand, RestoredVolumes};
use bk_text::Bytes;
use budb::Budb;
use cell_core::Cell;
use plant_core::Plant;
use restore_commands::{Manner, RestoreStop, restore_disk, restore_set, restore_volume};
use std::alloc::Global;
use tape_answers::the_slots_are_read;

/// What a restore stops for, as a session says it.
fn stop_of(stop: RestoreStop) -> Stop
    ensures plant { result ≡ Stop.Plant → stop ≡ RestoreStop.Plant }
    ensures only_plant { stop ≡ RestoreStop.Plant → result ≡ Stop.Plant }
    ensures cell { result ≡ Stop.Cell → stop ≡ RestoreStop.Cell }
    ensures only_cell { stop ≡ RestoreStop.Cell → result ≡ Stop.Cell }
{
    match stop {
        RestoreStop::Plant => Stop::Plant,
        RestoreStop::Cell => Stop::Cell,
        RestoreStop::Memory => Stop::Memory,
    }
}

/// How a command restores its volumes, at a time.
fn manner_at(time: u32, command: &RestoreCommand) -> Manner<'_>
    ensures { result ≡ manner_at time command.now }
{
    Manner {
        extension: &command.extension,
        time,
        is_trial: command.trial,
    }
}

/// Restores what a command asks for, into a cell, at a time.
fn restored<P: Plant, C: Cell>(
    alloc: Global,
    budb: &Budb,
    plant: &mut P,
    cell: &mut C,
    time: u32,
    command: &RestoreCommand,
) -> Result<Bytes, RestoreStop>
    requires { P.sound plant.old }
    ensures answer { P.tells → C.tells → (a : Archive) → IsArchiveOf P.Plant budb.now.database.listed a plant.old → IfOk result (λ reply. IsAnswer (restore_answer a budb.now.database.sets (C.list cell.old) time command.now) reply (C.list cell.old) (C.list cell.new)) }
    ensures left { P.tells → C.tells → (a : Archive) → IsArchiveOf P.Plant budb.now.database.listed a plant.old → OnTheWay (C.list cell.old) (restore_answer a budb.now.database.sets (C.list cell.old) time command.now).cells (C.list cell.new) }
    ensures may { C.tells → MayRestore budb.now.database time command.now (C.list cell.old) (C.list cell.new) }
    ensures done { result ≢ Err RestoreStop.Plant → Loads P.Plant plant.old plant.new }
    ensures leaves { LeavesLoads P.Plant plant.old plant.new }
    ensures stays { StaysQuiet P.Plant plant.old plant.new }
    ensures loads { P.tells → HaveParentsBelow budb.now.database.listed → (slots : AnyList Slot) → HasSlots P.Plant slots plant.old → IfSome (command_loads slots budb.now.database command.now) (λ most. (P.view plant.new).loads ≤ (P.view plant.old).loads + most) }
    ensures cause { HasCauseAt RestoreStop.Plant (P.view plant.old).faults (P.view plant.new).faults result }
    ensures cell_cause { HasCauseAt RestoreStop.Cell (C.faults cell.old) (C.faults cell.new) result }
{
    let manner = manner_at(time, command);
    match &command.volumes {
        RestoredVolumes::One(wanted) => restore_volume(alloc, budb, plant, cell, wanted, &manner),
        RestoredVolumes::OfDisk(disk) => restore_disk(alloc, budb, plant, cell, disk, &manner),
        RestoredVolumes::OfSet(name) => restore_set(alloc, budb, plant, cell, name, &manner),
    }
}

impl Session {
    ghost use Rattle.backup_session.specs.Fitting.{Stands, TurnDone, SomeTurnDone, SomeRestore};

    /// A command that asks the archive, at the session's time.
    pub(crate) fn on_archive<P: Plant, C: Cell>(
        &self,
        alloc: Global,
        plant: &mut P,
        cell: &mut C,
        command: &RestoreCommand,
    ) -> Result<Reply, Stop>
        requires { P.sound plant.old }
        ensures sound { OnOk result (P.sound plant.new) }
        ensures unfailed { result ≢ Err Stop.Plant → P.sound plant.new }
        ensures turned { P.tells → C.tells → (w : World) → Stands P.Plant C.Cell w plant.old cell.old self.now → HoldsArchive w → IfOk result (λ reply. TurnDone P.Plant C.Cell w (archive_turn w command.now) plant.old plant.new cell.new self.now reply) }
        ensures some_turn { P.tells → C.tells → (w : World) → Stands P.Plant C.Cell w plant.old cell.old self.now → IfOk result (λ reply. SomeTurnDone P.Plant C.Cell w plant.old plant.new cell.new self.now reply) }
        ensures some_restore { P.tells → C.tells → (w : World) → Stands P.Plant C.Cell w plant.old cell.old self.now → IfOk result (λ reply. SomeRestore P.Plant C.Cell w plant.old plant.new cell.new self.now reply) }
        ensures may { P.tells → C.tells → (w : World) → Stands P.Plant C.Cell w plant.old cell.old self.now → MayRestore (after w.log) w.time command.now w.cell (C.list cell.new) }
        ensures leaves { P.tells → C.tells → (w : World) → Stands P.Plant C.Cell w plant.old cell.old self.now → Leaves P.Plant [] plant.old plant.new }
        ensures stopped { P.tells → C.tells → (w : World) → Stands P.Plant C.Cell w plant.old cell.old self.now → OnErr result (result ≢ Err Stop.Plant → LeftAhead P.Plant [] plant.old plant.new) }
        ensures cells { P.tells → C.tells → (w : World) → Stands P.Plant C.Cell w plant.old cell.old self.now → HoldsArchive w → OnTheWay w.cell (archive_turn w command.now).cells (C.list cell.new) }
        ensures loads { P.tells → (w : World) → Stands P.Plant C.Cell w plant.old cell.old self.now → IfSome (restore_loads w command.now) (λ most. (P.view plant.new).loads ≤ (P.view plant.old).loads + most) }
        ensures stays { StaysQuiet P.Plant plant.old plant.new }
        ensures plant_cause { HasCauseAt Stop.Plant (P.view plant.old).faults (P.view plant.new).faults result }
        ensures cell_cause { HasCauseAt Stop.Cell (C.faults cell.old) (C.faults cell.new) result }
    {
        the_slots_are_read();
        match restored(alloc, &self.budb, plant, cell, self.time, command) {
            Ok(text) => Ok(Reply::new(text)),
            Err(stop) => Err(stop_of(stop)),
        }
    }
}
