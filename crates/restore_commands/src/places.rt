//! A volume is put into the cell, or only its name is asked.

ghost use Rattle.std.specs.Prelude.{◌≡◌, ◌≢◌, ℕ, List as AnyList, true, Err, IfOk};
ghost use Rattle.crash_moments.specs.Moments.{HasCauseAt};
ghost use Rattle.vnode_model.specs.declared.volumes.VolumeFields.{VolumeFields as AnyVolume};
ghost use Rattle.cell_core.specs.Answers.{Changes};
ghost use Rattle.restore_target.specs.Targets.{target_text, after_restore};
ghost use Rattle.restore_commands.specs.Answers.{put_answer};
ghost use Rattle.restore_commands.specs.Leaving.{OnTheWay, MayPut};
ghost use Rattle.restore_commands.specs.Steps.{tried, IsToldSo};

use crate::lines::told_of;
use crate::manner::Manner;
use crate::stops::RestoreStop;
use crate::told::Told;
use backup_words::Wanted;
use bk_text::Bytes;
use cell_core::{Cell, CellFault};
use restore_target::{put_restored, target_id};
use std::alloc::Global;
use vnode_model::Volume;

/// Whether a volume could be put under a name, whatever it is and wherever it goes. The cell's list stays.
fn try_volume<C: Cell>(alloc: Global, cell: &mut C, target: &[u8]) -> Result<(), CellFault>
    ensures answer { C.tells → (server partition : AnyList ℕ) (now : ℕ) (volume : AnyVolume) → Changes (tried true (C.list cell.old) (after_restore (C.list cell.old) server partition target.now now volume)) (C.list cell.old) result (C.list cell.new) }
    ensures cause { HasCauseAt CellFault.Failed (C.faults cell.old) (C.faults cell.new) result }
{
    match target_id(alloc, cell, target) {
        Ok(_) => Ok(()),
        Err(fault) => Err(fault),
    }
}

/// Puts a volume, or asks for its name alone.
fn take_volume<C: Cell>(
    alloc: Global,
    cell: &mut C,
    wanted: &Wanted,
    manner: &Manner<'_>,
    target: &[u8],
    volume: Volume,
) -> Result<(), CellFault>
    ensures answer { C.tells → Changes (tried manner.now.is_trial (C.list cell.old) (after_restore (C.list cell.old) wanted.now.server wanted.now.partition target.now manner.now.time volume)) (C.list cell.old) result (C.list cell.new) }
    ensures cause { HasCauseAt CellFault.Failed (C.faults cell.old) (C.faults cell.new) result }
{
    if manner.is_trial {
        try_volume(alloc, cell, target)
    } else {
        put_restored(
            alloc,
            cell,
            &wanted.server,
            &wanted.partition,
            target,
            manner.time,
            volume,
        )
    }
}

/// Puts a volume that was found, or asks for its name alone, and tells it. The lines are those of a volume that the cell takes.
pub(crate) fn place_volume<C: Cell>(
    alloc: Global,
    cell: &mut C,
    wanted: &Wanted,
    manner: &Manner<'_>,
    target: &[u8],
    lines: Bytes,
    volume: Volume,
) -> Result<Told, RestoreStop>
    requires { target.now ≡ target_text wanted.now.name manner.now.extension }
    ensures answer { C.tells → IfOk result (λ told. IsToldSo (put_answer manner.now.is_trial target.now lines (after_restore (C.list cell.old) wanted.now.server wanted.now.partition target.now manner.now.time volume)) told (C.list cell.old) (C.list cell.new)) }
    ensures left { C.tells → OnTheWay (C.list cell.old) (put_answer manner.now.is_trial target.now lines (after_restore (C.list cell.old) wanted.now.server wanted.now.partition target.now manner.now.time volume)).cells (C.list cell.new) }
    ensures may { C.tells → MayPut manner.now wanted.now (C.list cell.old) (C.list cell.new) }
    ensures cause { HasCauseAt RestoreStop.Cell (C.faults cell.old) (C.faults cell.new) result }
    ensures never { result ≢ Err RestoreStop.Plant }
{
    let answer = take_volume(alloc, cell, wanted, manner, target, volume);
    told_of(alloc, answer, lines, target)
}
