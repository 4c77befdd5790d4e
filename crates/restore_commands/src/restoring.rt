//! Volumes are looked up in what the tapes hold, and put.

ghost use Rattle.std.specs.Prelude.{◌≡◌, ◌≢◌, ◌≤◌, ◌+◌, ◌++◌, false, Ok, Err, List as AnyList, IfOk, OnOk, All};
ghost use Rattle.crash_moments.specs.Moments.{HasCauseAt};
ghost use Rattle.budb_fold.specs.Chains.{HaveParentsBelow};
ghost use Rattle.tape_scan.specs.Slots.{Slot};
ghost use Rattle.tape_scan.specs.Looking.{HasSlots, LooksAt};
ghost use Rattle.archive_model.specs.Archives.{Archive};
ghost use Rattle.restore_chain.specs.Planning.{Plans};
ghost use Rattle.restore_target.specs.Targets.{target_text, after_restore};
ghost use Rattle.restore_commands.specs.Answers.{put_answer, volume_answer, told_lines, last_cell, all_answer};
ghost use Rattle.restore_commands.specs.Leaving.{IsArchiveOf, IsAnswer, OnTheWay, MayPut, MayPutEach};
ghost use Rattle.restore_commands.specs.Steps.{planned_lines, IsToldSo, IsLatest};
ghost use Rattle.restore_commands.specs.Batches.{batch_loads};

use crate::batches::restore_batches;
use crate::lines::{planned_lines, refuse};
use crate::manner::Manner;
use crate::places::place_volume;
use crate::stops::RestoreStop;
use crate::told::Told;
use backup_words::Wanted;
use bk_text::{Bytes, Out};
use budb::Budb;
use cell_core::Cell;
use plant_core::Plant;
use restore_chain::{ChainPlan, plan, play};
use restore_target::target_name;
use std::alloc::Global;
use vnode_model::Volume;

/// Puts a volume that was played by a plan, or asks for its name alone, and tells it.
fn place_planned<C: Cell>(
    alloc: Global,
    cell: &mut C,
    wanted: &Wanted,
    manner: &Manner<'_>,
    target: &[u8],
    plan: &ChainPlan,
    volume: Volume,
) -> Result<Told, RestoreStop>
    requires { target.now ≡ target_text wanted.now.name manner.now.extension }
    ensures answer { C.tells → IfOk result (λ told. IsToldSo (put_answer manner.now.is_trial target.now (planned_lines manner.now.is_trial target.now plan.now) (after_restore (C.list cell.old) wanted.now.server wanted.now.partition target.now manner.now.time volume)) told (C.list cell.old) (C.list cell.new)) }
    ensures left { C.tells → OnTheWay (C.list cell.old) (put_answer manner.now.is_trial target.now (planned_lines manner.now.is_trial target.now plan.now) (after_restore (C.list cell.old) wanted.now.server wanted.now.partition target.now manner.now.time volume)).cells (C.list cell.new) }
    ensures may { C.tells → MayPut manner.now wanted.now (C.list cell.old) (C.list cell.new) }
    ensures cause { HasCauseAt RestoreStop.Cell (C.faults cell.old) (C.faults cell.new) result }
    ensures never { result ≢ Err RestoreStop.Plant }
{
    match planned_lines(alloc, plan, target, manner.is_trial) {
        Ok(lines) => place_volume(alloc, cell, wanted, manner, target, lines, volume),
        Err(_) => Err(RestoreStop::Memory),
    }
}

/// Plays a plan, and puts the volume or asks for its name alone.
fn restore_planned<P: Plant, C: Cell>(
    alloc: Global,
    budb: &Budb,
    plant: &mut P,
    cell: &mut C,
    wanted: &Wanted,
    manner: &Manner<'_>,
    target: &[u8],
    plan: &ChainPlan,
) -> Result<Told, RestoreStop>
    requires sound { P.sound plant.old }
    requires target { target.now ≡ target_text wanted.now.name manner.now.extension }
    ensures answer { P.tells → C.tells → (a : Archive) → IsArchiveOf P.Plant budb.now.database.listed a plant.old → Plans a.slots budb.now.database.listed wanted.now.name wanted.now.before (Ok plan.now) → IfOk result (λ told. IsToldSo (volume_answer a (C.list cell.old) manner.now wanted.now) told (C.list cell.old) (C.list cell.new)) }
    ensures left { P.tells → C.tells → (a : Archive) → IsArchiveOf P.Plant budb.now.database.listed a plant.old → Plans a.slots budb.now.database.listed wanted.now.name wanted.now.before (Ok plan.now) → OnTheWay (C.list cell.old) (volume_answer a (C.list cell.old) manner.now wanted.now).cells (C.list cell.new) }
    ensures may { C.tells → MayPut manner.now wanted.now (C.list cell.old) (C.list cell.new) }
    ensures looks { LooksAt P.Plant RestoreStop.Plant plant.old plant.new result }
    ensures cause { HasCauseAt RestoreStop.Cell (C.faults cell.old) (C.faults cell.new) result }
{
    match play(alloc, plan, budb, plant) {
        Ok(volume) => place_planned(alloc, cell, wanted, manner, target, plan, volume),
        Err(fault) => refuse(alloc, fault, &wanted.name, target),
    }
}

/// Looks a volume up that gets a name, and puts it or asks for its name alone.
fn restore_as<P: Plant, C: Cell>(
    alloc: Global,
    budb: &Budb,
    plant: &mut P,
    cell: &mut C,
    wanted: &Wanted,
    manner: &Manner<'_>,
    target: &[u8],
) -> Result<Told, RestoreStop>
    requires sound { P.sound plant.old }
    requires target { target.now ≡ target_text wanted.now.name manner.now.extension }
    ensures answer { P.tells → C.tells → (a : Archive) → IsArchiveOf P.Plant budb.now.database.listed a plant.old → IfOk result (λ told. IsToldSo (volume_answer a (C.list cell.old) manner.now wanted.now) told (C.list cell.old) (C.list cell.new)) }
    ensures left { P.tells → C.tells → (a : Archive) → IsArchiveOf P.Plant budb.now.database.listed a plant.old → OnTheWay (C.list cell.old) (volume_answer a (C.list cell.old) manner.now wanted.now).cells (C.list cell.new) }
    ensures may { C.tells → MayPut manner.now wanted.now (C.list cell.old) (C.list cell.new) }
    ensures looks { LooksAt P.Plant RestoreStop.Plant plant.old plant.new result }
    ensures cause { HasCauseAt RestoreStop.Cell (C.faults cell.old) (C.faults cell.new) result }
{
    match plan(alloc, budb, plant, &wanted.name, wanted.before) {
        Ok(plan) => restore_planned(alloc, budb, plant, cell, wanted, manner, target, &plan),
        Err(fault) => refuse(alloc, fault, &wanted.name, target),
    }
}

/// Looks a volume up, and puts it or asks for its name alone.
pub(crate) fn restore_one<P: Plant, C: Cell>(
    alloc: Global,
    budb: &Budb,
    plant: &mut P,
    cell: &mut C,
    wanted: &Wanted,
    manner: &Manner<'_>,
) -> Result<Told, RestoreStop>
    requires { P.sound plant.old }
    ensures answer { P.tells → C.tells → (a : Archive) → IsArchiveOf P.Plant budb.now.database.listed a plant.old → IfOk result (λ told. IsToldSo (volume_answer a (C.list cell.old) manner.now wanted.now) told (C.list cell.old) (C.list cell.new)) }
    ensures left { P.tells → C.tells → (a : Archive) → IsArchiveOf P.Plant budb.now.database.listed a plant.old → OnTheWay (C.list cell.old) (volume_answer a (C.list cell.old) manner.now wanted.now).cells (C.list cell.new) }
    ensures may { C.tells → MayPut manner.now wanted.now (C.list cell.old) (C.list cell.new) }
    ensures looks { LooksAt P.Plant RestoreStop.Plant plant.old plant.new result }
    ensures cause { HasCauseAt RestoreStop.Cell (C.faults cell.old) (C.faults cell.new) result }
{
    match target_name(alloc, &wanted.name, manner.extension) {
        Ok(target) => restore_as(alloc, budb, plant, cell, wanted, manner, target.as_slice()),
        Err(_) => Err(RestoreStop::Memory),
    }
}

/// Restores a volume that was chosen, and puts what is told of it behind a text.
fn restore_choice<P: Plant, C: Cell>(
    alloc: Global,
    budb: &Budb,
    plant: &mut P,
    cell: &mut C,
    choice: &Wanted,
    manner: &Manner<'_>,
    lines: &mut Out,
) -> Result<(), RestoreStop>
    requires { P.sound plant.old }
    ensures lines { P.tells → C.tells → (a : Archive) → IsArchiveOf P.Plant budb.now.database.listed a plant.old → OnOk result (lines.new ≡ lines.old ++ told_lines (volume_answer a (C.list cell.old) manner.now choice.now).told) }
    ensures list { P.tells → C.tells → (a : Archive) → IsArchiveOf P.Plant budb.now.database.listed a plant.old → OnOk result (C.list cell.new ≡ last_cell (C.list cell.old) (volume_answer a (C.list cell.old) manner.now choice.now).cells) }
    ensures left { P.tells → C.tells → (a : Archive) → IsArchiveOf P.Plant budb.now.database.listed a plant.old → OnTheWay (C.list cell.old) (volume_answer a (C.list cell.old) manner.now choice.now).cells (C.list cell.new) }
    ensures may { C.tells → MayPut manner.now choice.now (C.list cell.old) (C.list cell.new) }
    ensures looks { LooksAt P.Plant RestoreStop.Plant plant.old plant.new result }
    ensures cause { HasCauseAt RestoreStop.Cell (C.faults cell.old) (C.faults cell.new) result }
{
    match restore_one(alloc, budb, plant, cell, choice, manner) {
        Ok(told) => match lines.piece(told.lines()) {
            Ok(()) => Ok(()),
            Err(_) => Err(RestoreStop::Memory),
        },
        Err(stop) => Err(stop),
    }
}

/// Restores volumes that were chosen one after the other. Each refused one has its line, and those behind it are restored.
fn restore_each<P: Plant, C: Cell>(
    alloc: Global,
    budb: &Budb,
    plant: &mut P,
    cell: &mut C,
    choices: &[Wanted],
    manner: &Manner<'_>,
) -> Result<Bytes, RestoreStop>
    requires { P.sound plant.old }
    ensures answer { P.tells → C.tells → (a : Archive) → IsArchiveOf P.Plant budb.now.database.listed a plant.old → IfOk result (λ reply. IsAnswer (all_answer a (C.list cell.old) manner.now choices.now) reply (C.list cell.old) (C.list cell.new)) }
    ensures left { P.tells → C.tells → (a : Archive) → IsArchiveOf P.Plant budb.now.database.listed a plant.old → OnTheWay (C.list cell.old) (all_answer a (C.list cell.old) manner.now choices.now).cells (C.list cell.new) }
    ensures may { C.tells → MayPutEach manner.now choices.now (C.list cell.old) (C.list cell.new) }
    ensures looks { LooksAt P.Plant RestoreStop.Plant plant.old plant.new result }
    ensures cause { HasCauseAt RestoreStop.Cell (C.faults cell.old) (C.faults cell.new) result }
{
    let mut lines = Out::new(alloc);
    for choice in choices {
        match restore_choice(alloc, budb, plant, cell, choice, manner, &mut lines) {
            Ok(()) => {}
            Err(stop) => return Err(stop),
        }
    }
    match lines.piece(b"ok\n") {
        Ok(()) => Ok(lines.into_bytes()),
        Err(_) => Err(RestoreStop::Memory),
    }
}

/// Restores volumes that were chosen: in batches, or, where it is only told what would be restored, one after the other.
pub(crate) fn restore_all<P: Plant, C: Cell>(
    alloc: Global,
    budb: &Budb,
    plant: &mut P,
    cell: &mut C,
    choices: &[Wanted],
    manner: &Manner<'_>,
) -> Result<Bytes, RestoreStop>
    requires sound { P.sound plant.old }
    requires latest { All IsLatest choices.now }
    ensures answer { P.tells → C.tells → (a : Archive) → IsArchiveOf P.Plant budb.now.database.listed a plant.old → IfOk result (λ reply. IsAnswer (all_answer a (C.list cell.old) manner.now choices.now) reply (C.list cell.old) (C.list cell.new)) }
    ensures left { P.tells → C.tells → (a : Archive) → IsArchiveOf P.Plant budb.now.database.listed a plant.old → OnTheWay (C.list cell.old) (all_answer a (C.list cell.old) manner.now choices.now).cells (C.list cell.new) }
    ensures may { C.tells → MayPutEach manner.now choices.now (C.list cell.old) (C.list cell.new) }
    ensures looks { LooksAt P.Plant RestoreStop.Plant plant.old plant.new result }
    ensures loads { P.tells → manner.now.is_trial ≡ false → HaveParentsBelow budb.now.database.listed → (slots : AnyList Slot) → HasSlots P.Plant slots plant.old → (P.view plant.new).loads ≤ (P.view plant.old).loads + batch_loads slots budb.now.database.listed choices.now }
    ensures cause { HasCauseAt RestoreStop.Cell (C.faults cell.old) (C.faults cell.new) result }
{
    if manner.is_trial {
        restore_each(alloc, budb, plant, cell, choices, manner)
    } else {
        restore_batches(alloc, budb, plant, cell, choices, manner)
    }
}
