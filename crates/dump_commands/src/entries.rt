//! The entries of a cell, and which of them a volume set has.

ghost use Rattle.std.specs.Prelude.{◌≡◌, ◌≢◌, ◌<◌, ◌≤◌, map, length, All, Err, Some, IfOk};
ghost use Rattle.crash_moments.specs.Moments.{HasCauseAt};
ghost use Rattle.cell_core.specs.Calls.{entry_of_stored, entry_at};
ghost use Rattle.dump_commands.specs.Orders.{volumes_of};

use bk_text::{List, SetName};
use cell_core::{Cell, CellFault};
use dump_courses::DumpStop;
use std::alloc::{AllocError, Global};
use vnode_model::VolEntry;
use volume_sets::{Sets, one_expansion};

/// What the cell's list says of a volume.
fn entry_of<C: Cell>(cell: &mut C, i: u32) -> Result<VolEntry, DumpStop>
    requires { i < C.size cell.old }
    ensures entry { C.tells → IfOk result (λ entry. entry_at (C.list cell.old) i ≡ Some entry) }
    ensures list { C.tells → C.list cell.new ≡ C.list cell.old }
    ensures size { C.size cell.new ≡ C.size cell.old }
    ensures cause { HasCauseAt DumpStop.Cell (C.faults cell.old) (C.faults cell.new) result }
    ensures never { result ≢ Err DumpStop.Plant }
{
    match cell.entry(i) {
        Ok(entry) => Ok(entry),
        Err(CellFault::Failed) => Err(DumpStop::Cell),
        Err(_) => Err(DumpStop::Memory),
    }
}

/// What the cell's list says of all its volumes. The list stays.
pub fn entries_of<C: Cell>(alloc: Global, cell: &mut C) -> Result<List<VolEntry>, DumpStop>
    ensures entries { C.tells → IfOk result (λ entries. entries ≡ map entry_of_stored (C.list cell.old)) }
    ensures count { IfOk result (λ entries. length entries ≡ C.size cell.old) }
    ensures few { IfOk result (λ entries. length entries ≤ 65536) }
    ensures list { C.tells → C.list cell.new ≡ C.list cell.old }
    ensures size { C.size cell.new ≡ C.size cell.old }
    ensures cause { HasCauseAt DumpStop.Cell (C.faults cell.old) (C.faults cell.new) result }
    ensures never { result ≢ Err DumpStop.Plant }
{
    let mut entries = List::new(alloc);
    for i in 0..cell.count() {
        let entry = entry_of(cell, i)?;
        entries.push(entry)?;
    }
    Ok(entries)
}

/// The places in a cell's list of the volumes that a set has, in order.
pub(crate) fn volumes_of(
    sets: &Sets,
    set: &SetName,
    cell: &[VolEntry],
) -> Result<List<u32>, AllocError>
    requires { length cell.now ≤ 65536 }
    ensures is { IfOk result (λ places. places ≡ volumes_of sets.now set.now cell.now) }
    ensures few { IfOk result (λ places. length places ≤ length cell.now) }
    ensures within { IfOk result (All (λ place. place < length cell.now)) }
{
    one_expansion();
    match sets.expand(set, cell) {
        Ok(places) => Ok(places),
        Err(_) => Err(AllocError),
    }
}
