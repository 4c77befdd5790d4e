//! What would be dumped.

ghost use Rattle.std.specs.Prelude.{◌≡◌, ◌≢◌, ◌<◌, ◌++◌, length, map, slice_get, All, Err, Some, IfOk, OnOk, IsTrue};
ghost use Rattle.std.specs.Option.{option_copied};
ghost use Rattle.crash_moments.specs.Moments.{HasCauseAt};
ghost use Rattle.cell_core.specs.Calls.{entry_of_stored, clone_at, is_good};
ghost use Rattle.budb_fold.specs.Lookups.{record_of};
ghost use Rattle.dump_commands.specs.Trials.{line_at, volume_lines, trial_text};

use backup_replies::{put_would_dump, put_would_volume};
use bk_text::{Bytes, Out};
use budb_fold::{from_of, record_of};
use budb_journal::DumpRecord;
use cell_core::{Cell, CellFault, Taken};
use dump_courses::DumpStop;
use dump_job::DumpOrder;
use std::alloc::Global;
use vnode_model::VolEntry;

/// Clones a volume, whose entry isn't bad.
fn take<C: Cell>(cell: &mut C, place: u32, time: u32) -> Result<Taken, DumpStop>
    requires within { place < C.size cell.old }
    requires good { C.tells → IsTrue (is_good (slice_get (C.list cell.old) place)) }
    ensures clone { C.tells → IfOk result (λ clone. clone_at (C.list cell.old) place time ≡ Some clone) }
    ensures list { C.tells → C.list cell.new ≡ C.list cell.old }
    ensures size { C.size cell.new ≡ C.size cell.old }
    ensures cause { HasCauseAt DumpStop.Cell (C.faults cell.old) (C.faults cell.new) result }
    ensures never { result ≢ Err DumpStop.Plant }
{
    match cell.take(place, time) {
        Ok(clone) => Ok(clone),
        Err(CellFault::Failed) => Err(DumpStop::Cell),
        Err(_) => Err(DumpStop::Memory),
    }
}

/// Puts the line of a volume behind a text.
fn put_volume<C: Cell>(
    lines: &mut Out,
    cell: &mut C,
    parent: Option<&DumpRecord>,
    entry: &VolEntry,
    place: u32,
    time: u32,
) -> Result<(), DumpStop>
    requires within { place < C.size cell.old }
    requires good { C.tells → IsTrue (is_good (slice_get (C.list cell.old) place)) }
    requires entry { C.tells → slice_get (map entry_of_stored (C.list cell.old)) place ≡ Some entry.now }
    ensures lines { C.tells → OnOk result (lines.new ≡ lines.old ++ line_at (option_copied parent.entry) (C.list cell.old) time place) }
    ensures list { C.tells → C.list cell.new ≡ C.list cell.old }
    ensures size { C.size cell.new ≡ C.size cell.old }
    ensures cause { HasCauseAt DumpStop.Cell (C.faults cell.old) (C.faults cell.new) result }
    ensures never { result ≢ Err DumpStop.Plant }
{
    let clone = take(cell, place, time)?;
    let from = from_of(parent, entry.name.bytes(), clone.born);
    put_would_volume(lines, entry.name.bytes(), from)?;
    Ok(())
}

/// Puts the lines of the volumes at these places behind a text.
fn put_volumes<C: Cell>(
    lines: &mut Out,
    cell: &mut C,
    parent: Option<&DumpRecord>,
    entries: &[VolEntry],
    places: &[u32],
    time: u32,
) -> Result<(), DumpStop>
    requires count { length entries.now ≡ C.size cell.old }
    requires within { All (λ place. place < length entries.now) places.now }
    requires good { C.tells → All (λ place. IsTrue (is_good (slice_get (C.list cell.old) place))) places.now }
    requires entries { C.tells → entries.now ≡ map entry_of_stored (C.list cell.old) }
    ensures lines { C.tells → OnOk result (lines.new ≡ lines.old ++ volume_lines (option_copied parent.entry) (C.list cell.old) time places.now) }
    ensures list { C.tells → C.list cell.new ≡ C.list cell.old }
    ensures size { C.size cell.new ≡ C.size cell.old }
    ensures cause { HasCauseAt DumpStop.Cell (C.faults cell.old) (C.faults cell.new) result }
    ensures never { result ≢ Err DumpStop.Plant }
{
    for i in 0..places.len() {
        let place = places[i];
        put_volume(lines, cell, parent, &entries[place as usize], place, time)?;
    }
    Ok(())
}

/// What an order would dump: the dump, and from when on the changes of each volume are dumped. The cell's list stays.
pub(crate) fn trial_text<C: Cell>(
    alloc: Global,
    cell: &mut C,
    listed: &[DumpRecord],
    entries: &[VolEntry],
    order: &DumpOrder,
) -> Result<Bytes, DumpStop>
    requires count { length entries.now ≡ C.size cell.old }
    requires within { All (λ place. place < length entries.now) order.now.volumes }
    requires good { C.tells → All (λ place. IsTrue (is_good (slice_get (C.list cell.old) place))) order.now.volumes }
    requires entries { C.tells → entries.now ≡ map entry_of_stored (C.list cell.old) }
    ensures text { C.tells → IfOk result (λ text. text ≡ trial_text listed.now (C.list cell.old) order.now) }
    ensures list { C.tells → C.list cell.new ≡ C.list cell.old }
    ensures size { C.size cell.new ≡ C.size cell.old }
    ensures cause { HasCauseAt DumpStop.Cell (C.faults cell.old) (C.faults cell.new) result }
    ensures never { result ≢ Err DumpStop.Plant }
{
    let mut lines = Out::new(alloc);
    put_would_dump(&mut lines, &order.set, &order.level, order.parent)?;
    let parent = record_of(listed, order.parent);
    put_volumes(
        &mut lines,
        cell,
        parent,
        entries,
        order.volumes.as_slice(),
        order.time,
    )?;
    lines.piece(b"ok\n")?;
    Ok(lines.into_bytes())
}
