//! The lines of lists of dumps, by their ids.

ghost use Rattle.std.specs.Prelude.{◌≡◌, ◌++◌, Some, OnOk, IfOk};
ghost use Rattle.std.specs.Option.{option_copied};
ghost use Rattle.budb_fold.specs.Lookups.{record_of, volume_of};
ghost use Rattle.backup_replies.specs.Dumps.{listed_line, dumps_lines, on_line, history_line, deleted_line, deleted_lines};

use crate::dumps::put_dump;
use crate::putting::{put_number, put_ok};
use bk_text::{Bytes, Out};
use budb_changes::{DumpRecord, VolRecord};
use budb_fold::{record_of, volume_of};
use std::alloc::{AllocError, Global};

fn put_listed_dump(lines: &mut Out, listed: &[DumpRecord], id: u32) -> Result<(), AllocError>
    ensures { OnOk result (lines.new ≡ lines.old ++ listed_line (record_of listed.now id)) }
{
    match record_of(listed, id) {
        None => Ok(()),
        Some(dump) => put_dump(lines, dump),
    }
}

/// The lines of the dumps of these ids, as far as they are listed.
pub fn dumps_lines(alloc: Global, listed: &[DumpRecord], ids: &[u32]) -> Result<Bytes, AllocError>
    ensures { IfOk result (λ lines. lines ≡ dumps_lines listed.now ids.now) }
{
    let mut lines = Out::new(alloc);
    for id in ids {
        put_listed_dump(&mut lines, listed, *id)?;
    }
    put_ok(&mut lines)?;
    Ok(lines.into_bytes())
}

fn put_on(line: &mut Out, id: u32, volume: &VolRecord) -> Result<(), AllocError>
    ensures { OnOk result (line.new ≡ line.old ++ on_line id (Some volume.now)) }
{
    let fields = volume.fields();
    line.piece(b"on")?;
    put_number(line, id as u64)?;
    line.piece(b" clone")?;
    put_number(line, fields.clone as u64)?;
    line.piece(b" from")?;
    put_number(line, fields.from as u64)?;
    line.byte(b'\n')?;
    Ok(())
}

fn put_on_dump(line: &mut Out, dump: &DumpRecord, name: &[u8], id: u32) -> Result<(), AllocError>
    ensures { OnOk result (line.new ≡ line.old ++ on_line id (volume_of dump.now name.now)) }
{
    match volume_of(dump, name) {
        None => Ok(()),
        Some(volume) => put_on(line, id, volume),
    }
}

/// Puts the line of a volume in the dump of an id behind others, where there is such a dump and it has a volume of exactly this
/// name. Of one name in a dump the first volume alone counts.
pub fn put_history(
    lines: &mut Out,
    name: &[u8],
    id: u32,
    dump: Option<&DumpRecord>,
) -> Result<(), AllocError>
    ensures { OnOk result (lines.new ≡ lines.old ++ history_line name.now id (option_copied dump.entry)) }
{
    match dump {
        None => Ok(()),
        Some(dump) => put_on_dump(lines, dump, name, id),
    }
}

fn put_deleted(line: &mut Out, id: u32) -> Result<(), AllocError>
    ensures { OnOk result (line.new ≡ line.old ++ deleted_line id) }
{
    line.piece(b"deleted")?;
    put_number(line, id as u64)?;
    line.byte(b'\n')?;
    Ok(())
}

/// The lines of dumps that are forgotten.
pub fn deleted_lines(alloc: Global, ids: &[u32]) -> Result<Bytes, AllocError>
    ensures { IfOk result (λ lines. lines ≡ deleted_lines ids.now) }
{
    let mut lines = Out::new(alloc);
    for id in ids {
        put_deleted(&mut lines, *id)?;
    }
    put_ok(&mut lines)?;
    Ok(lines.into_bytes())
}
