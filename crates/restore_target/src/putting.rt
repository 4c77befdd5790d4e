//! A restored volume is put.

ghost use Rattle.std.specs.Prelude.{◌≡◌};
ghost use Rattle.crash_moments.specs.Moments.{HasCauseAt};
ghost use Rattle.cell_core.specs.Answers.{Changes};
ghost use Rattle.restore_target.specs.Targets.{restored_as, after_restore};

use crate::targets::target_id;
use bk_text::{Host, Name, Part};
use cell_core::{Cell, CellFault};
use std::alloc::Global;
use vnode_model::{VolHeader, Volume, VolumeFields};

/// A volume as it is put: under this name and id, read/write, made now.
fn restored_as(volume: Volume, name: Name, id: u32, now: u32) -> Volume
    ensures { result ≡ restored_as name id now volume }
{
    let VolumeFields { header, vnodes } = volume.into_fields();
    let mut header = header.into_fields();
    header.id = id;
    header.name = name;
    header.kind = 0;
    header.created = now;
    Volume::from_fields(VolumeFields {
        header: VolHeader::new(header),
        vnodes,
    })
}

/// Puts a restored volume into a cell, under a name, at a server and a partition, as one that was made now, in seconds since
/// 1970: in place of the volume that has the name, with its id, or as a new one. It is all or nothing. It is refused as
/// `target_id` says. (The rules are this project's own.)
pub fn put_restored<C: Cell>(
    alloc: Global,
    cell: &mut C,
    server: &Host,
    partition: &Part,
    name: &[u8],
    now: u32,
    volume: Volume,
) -> Result<(), CellFault>
    ensures answer { C.tells → Changes (after_restore (C.list cell.old) server.now partition.now name.now now volume) (C.list cell.old) result (C.list cell.new) }
    ensures cause { HasCauseAt CellFault.Failed (C.faults cell.old) (C.faults cell.new) result }
{
    let id = target_id(alloc, cell, name)?;
    let name = Name::from_bytes(alloc, name)?;
    cell.put(server, partition, restored_as(volume, name, id, now))
}
