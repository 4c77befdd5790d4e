//! The calls on a list, which never fail.

ghost use Rattle.std.specs.Prelude.{◌≢◌, Err};
ghost use Rattle.cell_core.specs.Cells.{IsCell};
ghost use Rattle.cell_core.specs.Calls.{after_put, after_create, after_change, after_remove_vnode, after_backup, after_remove};
ghost use Rattle.cell_core.specs.Answers.{Changes, Creates};
ghost use Rattle.cell_core.specs.Changing.{outcome_of};

use crate::backups::{backup_in, remove_in};
use crate::calls::{change_in, create_in, put_in};
use crate::changes::Change;
use crate::fault::CellFault;
use crate::stored::Stored;
use bk_text::{Host, Name, Part};
use vnode_model::Volume;

/// Stores a volume under its name.
pub(crate) fn put(
    cell: &mut Vec<Stored>,
    server: &Host,
    partition: &Part,
    volume: Volume,
) -> Result<(), CellFault>
    requires { IsCell cell.old.items }
    ensures answer { Changes (after_put cell.old.items server.now partition.now volume) cell.old.items result cell.new.items }
    ensures cell { IsCell cell.new.items }
    ensures whole { result ≢ Err CellFault.Failed }
{
    put_in(cell, server, partition, volume)
}

/// Makes a read/write volume.
pub(crate) fn create(
    cell: &mut Vec<Stored>,
    server: &Host,
    partition: &Part,
    name: &Name,
    now: u32,
) -> Result<u32, CellFault>
    requires { IsCell cell.old.items }
    ensures answer { Creates (after_create cell.old.items server.now partition.now name.now now) cell.old.items result cell.new.items }
    ensures cell { IsCell cell.new.items }
    ensures whole { result ≢ Err CellFault.Failed }
{
    create_in(cell, server, partition, name, now)
}

/// Changes a read/write volume.
pub(crate) fn change(
    cell: &mut Vec<Stored>,
    name: &[u8],
    change: Change<'_>,
    now: u32,
) -> Result<(), CellFault>
    requires { IsCell cell.old.items }
    ensures answer { Changes (after_change cell.old.items name.now (outcome_of change.entry now)) cell.old.items result cell.new.items }
    ensures cell { IsCell cell.new.items }
    ensures whole { result ≢ Err CellFault.Failed }
{
    change_in(cell, name, change, now)
}

/// Takes a vnode of a read/write volume away.
pub(crate) fn remove_vnode(
    cell: &mut Vec<Stored>,
    name: &[u8],
    number: u32,
    now: u32,
) -> Result<(), CellFault>
    requires { IsCell cell.old.items }
    ensures answer { Changes (after_remove_vnode cell.old.items name.now number now) cell.old.items result cell.new.items }
    ensures cell { IsCell cell.new.items }
    ensures whole { result ≢ Err CellFault.Failed }
{
    change(cell, name, Change::Remove { number }, now)
}

/// Makes or replaces a backup volume.
pub(crate) fn backup(cell: &mut Vec<Stored>, name: &[u8], now: u32) -> Result<(), CellFault>
    requires { IsCell cell.old.items }
    ensures answer { Changes (after_backup cell.old.items name.now now) cell.old.items result cell.new.items }
    ensures cell { IsCell cell.new.items }
    ensures whole { result ≢ Err CellFault.Failed }
{
    backup_in(cell, name, now)
}

/// Removes what stands under a name.
pub(crate) fn remove(cell: &mut Vec<Stored>, name: &[u8]) -> Result<(), CellFault>
    requires { IsCell cell.old.items }
    ensures answer { Changes (after_remove cell.old.items name.now) cell.old.items result cell.new.items }
    ensures cell { IsCell cell.new.items }
    ensures whole { result ≢ Err CellFault.Failed }
{
    remove_in(cell, name)
}
