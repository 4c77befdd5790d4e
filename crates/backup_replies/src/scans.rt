//! The lines of dumps that scans find.

ghost use Rattle.std.specs.Prelude.{◌≡◌, ◌++◌, OnOk};
ghost use Rattle.backup_replies.specs.Scans.{found_line, added_line};

use crate::dumps::put_dump_name;
use crate::putting::put_number;
use bk_text::Out;
use budb_changes::DumpRecord;
use std::alloc::AllocError;

/// Puts the line of a whole dump that a scan found behind a text.
pub fn put_found(line: &mut Out, dump: &DumpRecord) -> Result<(), AllocError>
    ensures { OnOk result (line.new ≡ line.old ++ found_line dump.now) }
{
    let fields = dump.fields();
    line.piece(b"found")?;
    put_number(line, fields.id as u64)?;
    put_dump_name(line, &fields.set, &fields.level)?;
    line.piece(b" tapes")?;
    put_number(line, fields.tapes.len() as u64)?;
    line.byte(b'\n')?;
    Ok(())
}

/// Puts the line of a found dump whose record was added behind a text.
pub fn put_added(line: &mut Out, id: u32) -> Result<(), AllocError>
    ensures { OnOk result (line.new ≡ line.old ++ added_line id) }
{
    line.piece(b"added")?;
    put_number(line, id as u64)?;
    line.byte(b'\n')?;
    Ok(())
}
