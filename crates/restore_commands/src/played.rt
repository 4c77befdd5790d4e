//! Volumes that were played together are put, or their refusals told.

ghost use Rattle.std.specs.Prelude.{◌≡◌, ◌≢◌, ◌++◌, [], false, Err, Some, List as AnyList, IfOk, OnOk, All};
ghost use Rattle.crash_moments.specs.Moments.{HasCauseAt};
ghost use Rattle.budb_fold.specs.Lookups.{latest};
ghost use Rattle.budb_fold.specs.Chains.{HaveParentsBelow};
ghost use Rattle.archive_model.specs.Archives.{Archive, listed_of};
ghost use Rattle.mount_plan.specs.Outcomes.{IsPlayed};
ghost use Rattle.restore_target.specs.Targets.{target_text};
ghost use Rattle.backup_words.specs.declared.command.Wanted.{Wanted as AnyWanted};
ghost use Rattle.backup_replies.specs.Restores.{restored_line};
ghost use Rattle.restore_commands.specs.Answers.{lines_of, volume_answer, all_answer, told_lines, last_cell};
ghost use Rattle.restore_commands.specs.Leaving.{OnTheWay, MayPut, MayPutEach};
ghost use Rattle.restore_commands.specs.Steps.{IsToldSo, IsFound, AreFound, ArePut};

use crate::lines::{refuse, restored_line};
use crate::manner::Manner;
use crate::places::place_volume;
use crate::stops::RestoreStop;
use crate::told::Told;
use backup_words::Wanted;
use bk_text::{Bytes, List, Out};
use budb::Budb;
use budb_fold::{ChainFault, VolumeDump};
use cell_core::Cell;
use mount_plan::Played;
use restore_target::target_name;
use std::alloc::{AllocError, Global};
use vnode_model::Volume;

/// What is told of a volume that is restored from a dump; nothing where a dump of its chain is missing.
fn lines_of_one(
    alloc: Global,
    budb: &Budb,
    one: &VolumeDump<'_>,
    target: &[u8],
) -> Result<Bytes, AllocError>
    ensures { HaveParentsBelow budb.now.database.listed → IfOk result (λ lines. lines ≡ lines_of false target.now budb.now.database.listed (Some one.now)) }
{
    let id = one.dump.fields().id;
    match budb.chain_of(id, one.volume.fields().name.bytes()) {
        Ok(ids) => restored_line(alloc, target, id, ids.as_slice()),
        Err(ChainFault::Missing { .. }) => Ok(Bytes::new(alloc)),
        Err(ChainFault::Memory) => Err(AllocError),
    }
}

/// What is told of a volume that is restored from its latest dump; nothing where there is none.
fn lines_of(alloc: Global, budb: &Budb, wanted: &Wanted, target: &[u8]) -> Result<Bytes, AllocError>
    ensures { HaveParentsBelow budb.now.database.listed → IfOk result (λ lines. lines ≡ lines_of false target.now budb.now.database.listed (latest budb.now.database.listed wanted.now.name wanted.now.before)) }
{
    match budb.latest(wanted.name.bytes(), wanted.before)? {
        None => Ok(Bytes::new(alloc)),
        Some(one) => lines_of_one(alloc, budb, &one, target),
    }
}

/// Puts a volume that was played.
fn place_played<C: Cell>(
    alloc: Global,
    budb: &Budb,
    cell: &mut C,
    wanted: &Wanted,
    manner: &Manner<'_>,
    target: &[u8],
    volume: Volume,
) -> Result<Told, RestoreStop>
    requires target { target.now ≡ target_text wanted.now.name manner.now.extension }
    requires real { manner.now.is_trial ≡ false }
    ensures answer { C.tells → (a : Archive) → listed_of a ≡ budb.now.database.listed → IsFound a wanted.now (Played.Volume volume) → IfOk result (λ told. IsToldSo (volume_answer a (C.list cell.old) manner.now wanted.now) told (C.list cell.old) (C.list cell.new)) }
    ensures left { C.tells → (a : Archive) → listed_of a ≡ budb.now.database.listed → IsFound a wanted.now (Played.Volume volume) → OnTheWay (C.list cell.old) (volume_answer a (C.list cell.old) manner.now wanted.now).cells (C.list cell.new) }
    ensures may { C.tells → MayPut manner.now wanted.now (C.list cell.old) (C.list cell.new) }
    ensures cause { HasCauseAt RestoreStop.Cell (C.faults cell.old) (C.faults cell.new) result }
    ensures never { result ≢ Err RestoreStop.Plant }
{
    match lines_of(alloc, budb, wanted, target) {
        Ok(lines) => place_volume(alloc, cell, wanted, manner, target, lines, volume),
        Err(_) => Err(RestoreStop::Memory),
    }
}

/// Puts what was played of a volume under a name, or tells why it isn't restored.
fn put_as<C: Cell>(
    alloc: Global,
    budb: &Budb,
    cell: &mut C,
    wanted: &Wanted,
    manner: &Manner<'_>,
    target: &[u8],
    played: Played,
) -> Result<Told, RestoreStop>
    requires target { target.now ≡ target_text wanted.now.name manner.now.extension }
    requires real { manner.now.is_trial ≡ false }
    requires told { IsPlayed played }
    ensures answer { C.tells → (a : Archive) → listed_of a ≡ budb.now.database.listed → IsFound a wanted.now played → IfOk result (λ told. IsToldSo (volume_answer a (C.list cell.old) manner.now wanted.now) told (C.list cell.old) (C.list cell.new)) }
    ensures left { C.tells → (a : Archive) → listed_of a ≡ budb.now.database.listed → IsFound a wanted.now played → OnTheWay (C.list cell.old) (volume_answer a (C.list cell.old) manner.now wanted.now).cells (C.list cell.new) }
    ensures may { C.tells → MayPut manner.now wanted.now (C.list cell.old) (C.list cell.new) }
    ensures cause { HasCauseAt RestoreStop.Cell (C.faults cell.old) (C.faults cell.new) result }
    ensures never { result ≢ Err RestoreStop.Plant }
{
    match played {
        Played::Volume(volume) => place_played(alloc, budb, cell, wanted, manner, target, volume),
        Played::Refused(fault) => refuse(alloc, fault, &wanted.name, target),
    }
}

/// Puts what was played of a volume, or tells why it isn't restored.
fn put_one<C: Cell>(
    alloc: Global,
    budb: &Budb,
    cell: &mut C,
    wanted: &Wanted,
    manner: &Manner<'_>,
    played: Played,
) -> Result<Told, RestoreStop>
    requires real { manner.now.is_trial ≡ false }
    requires told { IsPlayed played }
    ensures answer { C.tells → (a : Archive) → listed_of a ≡ budb.now.database.listed → IsFound a wanted.now played → IfOk result (λ told. IsToldSo (volume_answer a (C.list cell.old) manner.now wanted.now) told (C.list cell.old) (C.list cell.new)) }
    ensures left { C.tells → (a : Archive) → listed_of a ≡ budb.now.database.listed → IsFound a wanted.now played → OnTheWay (C.list cell.old) (volume_answer a (C.list cell.old) manner.now wanted.now).cells (C.list cell.new) }
    ensures may { C.tells → MayPut manner.now wanted.now (C.list cell.old) (C.list cell.new) }
    ensures cause { HasCauseAt RestoreStop.Cell (C.faults cell.old) (C.faults cell.new) result }
    ensures never { result ≢ Err RestoreStop.Plant }
{
    match target_name(alloc, &wanted.name, manner.extension) {
        Ok(target) => put_as(alloc, budb, cell, wanted, manner, target.as_slice(), played),
        Err(_) => Err(RestoreStop::Memory),
    }
}

/// Puts what was played of a volume that was chosen, and what is told of it behind a text.
fn put_choice<C: Cell>(
    alloc: Global,
    budb: &Budb,
    cell: &mut C,
    choice: &Wanted,
    manner: &Manner<'_>,
    played: Played,
    lines: &mut Out,
) -> Result<(), RestoreStop>
    requires real { manner.now.is_trial ≡ false }
    requires told { IsPlayed played }
    ensures lines { C.tells → (a : Archive) → listed_of a ≡ budb.now.database.listed → IsFound a choice.now played → OnOk result (lines.new ≡ lines.old ++ told_lines (volume_answer a (C.list cell.old) manner.now choice.now).told) }
    ensures list { C.tells → (a : Archive) → listed_of a ≡ budb.now.database.listed → IsFound a choice.now played → OnOk result (C.list cell.new ≡ last_cell (C.list cell.old) (volume_answer a (C.list cell.old) manner.now choice.now).cells) }
    ensures left { C.tells → (a : Archive) → listed_of a ≡ budb.now.database.listed → IsFound a choice.now played → OnTheWay (C.list cell.old) (volume_answer a (C.list cell.old) manner.now choice.now).cells (C.list cell.new) }
    ensures may { C.tells → MayPut manner.now choice.now (C.list cell.old) (C.list cell.new) }
    ensures cause { HasCauseAt RestoreStop.Cell (C.faults cell.old) (C.faults cell.new) result }
    ensures never { result ≢ Err RestoreStop.Plant }
{
    match put_one(alloc, budb, cell, choice, manner, played) {
        Ok(told) => match lines.piece(told.lines()) {
            Ok(()) => Ok(()),
            Err(_) => Err(RestoreStop::Memory),
        },
        Err(stop) => Err(stop),
    }
}

/// Puts what was played of volumes that were chosen, one after the other. Each refused one has its line, and those behind it are put.
pub(crate) fn put_each<C: Cell>(
    alloc: Global,
    budb: &Budb,
    cell: &mut C,
    batch: &[Wanted],
    played: List<Played>,
    manner: &Manner<'_>,
    lines: &mut Out,
) -> Result<(), RestoreStop>
    requires real { manner.now.is_trial ≡ false }
    requires told { All IsPlayed played }
    ensures put { C.tells → (a : Archive) → listed_of a ≡ budb.now.database.listed → AreFound a batch.now played → OnOk result (ArePut a manner.now batch.now (C.list cell.old) [] lines.old lines.new (C.list cell.new)) }
    ensures left { C.tells → (a : Archive) → listed_of a ≡ budb.now.database.listed → AreFound a batch.now played → (others : AnyList AnyWanted) → OnTheWay (C.list cell.old) (all_answer a (C.list cell.old) manner.now (batch.now ++ others)).cells (C.list cell.new) }
    ensures may { C.tells → MayPutEach manner.now batch.now (C.list cell.old) (C.list cell.new) }
    ensures cause { HasCauseAt RestoreStop.Cell (C.faults cell.old) (C.faults cell.new) result }
    ensures never { result ≢ Err RestoreStop.Plant }
{
    let mut left = played.into_vec().into_iter();
    for choice in batch {
        // There is one for each.
        let Some(one) = left.next() else {
            return Err(RestoreStop::Memory);
        };
        match put_choice(alloc, budb, cell, choice, manner, one, lines) {
            Ok(()) => {}
            Err(stop) => return Err(stop),
        }
    }
    Ok(())
}
