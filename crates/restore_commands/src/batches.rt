//! Volumes that were chosen are restored in batches, each of which loads its tapes once.

ghost use Rattle.std.specs.Prelude.{◌≡◌, ◌≢◌, ◌≤◌, ◌+◌, ◌++◌, [], false, Err, None, List as AnyList, IfOk, OnOk, All};
ghost use Rattle.crash_moments.specs.Moments.{HasCauseAt};
ghost use Rattle.budb_fold.specs.Chains.{HaveParentsBelow};
ghost use Rattle.tape_scan.specs.Slots.{Slot};
ghost use Rattle.tape_scan.specs.Looking.{HasSlots, LooksAt};
ghost use Rattle.archive_model.specs.Archives.{Archive};
ghost use Rattle.mount_plan.specs.Mounts.{mounts};
ghost use Rattle.mount_plan.specs.Outcomes.{IsPlayed};
ghost use Rattle.backup_words.specs.declared.command.Wanted.{Wanted as AnyWanted};
ghost use Rattle.restore_commands.specs.Answers.{all_answer};
ghost use Rattle.restore_commands.specs.Leaving.{IsArchiveOf, IsAnswer, OnTheWay, MayPutEach};
ghost use Rattle.restore_commands.specs.Steps.{IsLatest, AreFound, ArePut};
ghost use Rattle.restore_commands.specs.Batches.{names_in, loads_together, batch_loads};

use crate::manner::Manner;
use crate::played::put_each;
use crate::stops::RestoreStop;
use backup_words::Wanted;
use bk_text::{Bytes, List, Name, Out};
use budb::Budb;
use cell_core::Cell;
use mount_plan::{MountFault, MountPlan, Played, play_all};
use plant_core::Plant;
use std::alloc::{AllocError, Global};

/// The names of volumes that were chosen.
fn names_of(alloc: Global, choices: &[Wanted]) -> Result<Vec<Name>, AllocError>
    ensures { IfOk result (λ names. names.items ≡ names_in choices.now) }
{
    let mut names = Vec::new(alloc);
    for choice in choices {
        names.push(choice.name.clone()?)?;
    }
    Ok(names)
}

/// The plan of a batch.
fn plan_of(alloc: Global, budb: &Budb, batch: &[Wanted]) -> Result<MountPlan, AllocError>
    ensures names { IfOk result (λ plan. plan.names ≡ names_in batch.now) }
    ensures needs { HaveParentsBelow budb.now.database.listed → IfOk result (λ plan. plan.needs ≡ mounts budb.now.database.listed None (names_in batch.now)) }
{
    let names = names_of(alloc, batch)?;
    MountPlan::new(alloc, budb, names.as_slice(), None)
}

/// What a restore stops for where a batch wasn't played.
fn stop_of(fault: MountFault) -> RestoreStop
    ensures plant { fault ≡ MountFault.Failed → result ≡ RestoreStop.Plant }
    ensures only_plant { result ≡ RestoreStop.Plant → fault ≡ MountFault.Failed }
    ensures never { result ≢ RestoreStop.Cell }
{
    match fault {
        MountFault::Failed => RestoreStop::Plant,
        MountFault::Memory => RestoreStop::Memory,
    }
}

/// Plays the volumes of a plan.
fn play_plan<P: Plant>(
    alloc: Global,
    budb: &Budb,
    plant: &mut P,
    batch: &[Wanted],
    plan: &MountPlan,
) -> Result<List<Played>, RestoreStop>
    requires sound { P.sound plant.old }
    requires names { plan.now.names ≡ names_in batch.now }
    requires latest { All IsLatest batch.now }
    ensures found { P.tells → (a : Archive) → IsArchiveOf P.Plant budb.now.database.listed a plant.old → IfOk result (AreFound a batch.now) }
    ensures only { IfOk result (All IsPlayed) }
    ensures looks { LooksAt P.Plant RestoreStop.Plant plant.old plant.new result }
    ensures loads { P.tells → (slots : AnyList Slot) → HasSlots P.Plant slots plant.old → plan.now.needs ≡ mounts budb.now.database.listed None (names_in batch.now) → (P.view plant.new).loads ≤ (P.view plant.old).loads + loads_together slots budb.now.database.listed batch.now }
    ensures never { result ≢ Err RestoreStop.Cell }
{
    match play_all(alloc, plan, budb, None, plant) {
        Ok(played) => Ok(played),
        Err(fault) => Err(stop_of(fault)),
    }
}

/// Plays the volumes of a batch.
fn play_batch<P: Plant>(
    alloc: Global,
    budb: &Budb,
    plant: &mut P,
    batch: &[Wanted],
) -> Result<List<Played>, RestoreStop>
    requires sound { P.sound plant.old }
    requires latest { All IsLatest batch.now }
    ensures found { P.tells → (a : Archive) → IsArchiveOf P.Plant budb.now.database.listed a plant.old → IfOk result (AreFound a batch.now) }
    ensures only { IfOk result (All IsPlayed) }
    ensures looks { LooksAt P.Plant RestoreStop.Plant plant.old plant.new result }
    ensures loads { P.tells → HaveParentsBelow budb.now.database.listed → (slots : AnyList Slot) → HasSlots P.Plant slots plant.old → (P.view plant.new).loads ≤ (P.view plant.old).loads + loads_together slots budb.now.database.listed batch.now }
    ensures never { result ≢ Err RestoreStop.Cell }
{
    match plan_of(alloc, budb, batch) {
        Ok(plan) => play_plan(alloc, budb, plant, batch, &plan),
        Err(_) => Err(RestoreStop::Memory),
    }
}

/// Restores the volumes of a batch: all are played, and then each is put. Where the plant fails none is.
fn restore_batch<P: Plant, C: Cell>(
    alloc: Global,
    budb: &Budb,
    plant: &mut P,
    cell: &mut C,
    batch: &[Wanted],
    manner: &Manner<'_>,
    lines: &mut Out,
) -> Result<(), RestoreStop>
    requires sound { P.sound plant.old }
    requires real { manner.now.is_trial ≡ false }
    requires latest { All IsLatest batch.now }
    ensures put { P.tells → C.tells → (a : Archive) → IsArchiveOf P.Plant budb.now.database.listed a plant.old → OnOk result (ArePut a manner.now batch.now (C.list cell.old) [] lines.old lines.new (C.list cell.new)) }
    ensures left { P.tells → C.tells → (a : Archive) → IsArchiveOf P.Plant budb.now.database.listed a plant.old → (others : AnyList AnyWanted) → OnTheWay (C.list cell.old) (all_answer a (C.list cell.old) manner.now (batch.now ++ others)).cells (C.list cell.new) }
    ensures none { result ≡ Err RestoreStop.Plant → cell.new ≡ cell.old }
    ensures may { C.tells → MayPutEach manner.now batch.now (C.list cell.old) (C.list cell.new) }
    ensures looks { LooksAt P.Plant RestoreStop.Plant plant.old plant.new result }
    ensures loads { P.tells → HaveParentsBelow budb.now.database.listed → (slots : AnyList Slot) → HasSlots P.Plant slots plant.old → (P.view plant.new).loads ≤ (P.view plant.old).loads + loads_together slots budb.now.database.listed batch.now }
    ensures cause { HasCauseAt RestoreStop.Cell (C.faults cell.old) (C.faults cell.new) result }
{
    match play_batch(alloc, budb, plant, batch) {
        Ok(played) => put_each(alloc, budb, cell, batch, played, manner, lines),
        Err(stop) => Err(stop),
    }
}

/// Restores volumes that were chosen, sixteen at a time. Each refused one has its line, and those behind it are restored.
pub(crate) fn restore_batches<P: Plant, C: Cell>(
    alloc: Global,
    budb: &Budb,
    plant: &mut P,
    cell: &mut C,
    choices: &[Wanted],
    manner: &Manner<'_>,
) -> Result<Bytes, RestoreStop>
    requires sound { P.sound plant.old }
    requires real { manner.now.is_trial ≡ false }
    requires latest { All IsLatest choices.now }
    ensures answer { P.tells → C.tells → (a : Archive) → IsArchiveOf P.Plant budb.now.database.listed a plant.old → IfOk result (λ reply. IsAnswer (all_answer a (C.list cell.old) manner.now choices.now) reply (C.list cell.old) (C.list cell.new)) }
    ensures left { P.tells → C.tells → (a : Archive) → IsArchiveOf P.Plant budb.now.database.listed a plant.old → OnTheWay (C.list cell.old) (all_answer a (C.list cell.old) manner.now choices.now).cells (C.list cell.new) }
    ensures may { C.tells → MayPutEach manner.now choices.now (C.list cell.old) (C.list cell.new) }
    ensures looks { LooksAt P.Plant RestoreStop.Plant plant.old plant.new result }
    ensures loads { P.tells → HaveParentsBelow budb.now.database.listed → (slots : AnyList Slot) → HasSlots P.Plant slots plant.old → (P.view plant.new).loads ≤ (P.view plant.old).loads + batch_loads slots budb.now.database.listed choices.now }
    ensures cause { HasCauseAt RestoreStop.Cell (C.faults cell.old) (C.faults cell.new) result }
{
    let mut lines = Out::new(alloc);
    for batch in choices.chunks(16) {
        match restore_batch(alloc, budb, plant, cell, batch, manner, &mut lines) {
            Ok(()) => {}
            Err(stop) => return Err(stop),
        }
    }
    match lines.piece(b"ok\n") {
        Ok(()) => Ok(lines.into_bytes()),
        Err(_) => Err(RestoreStop::Memory),
    }
}
