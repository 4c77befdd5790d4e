//! The lines of the volumes of a cell.

ghost use Rattle.std.specs.Prelude.{◌≡◌, ◌++◌, OnOk};
ghost use Rattle.backup_replies.specs.Volumes.{state_line, listed_line};

use crate::putting::{put_number, put_word};
use bk_text::Out;
use std::alloc::AllocError;
use vnode_model::{EntryState, VolEntry};

fn put_volume(
    line: &mut Out,
    entry: &VolEntry,
    id: u32,
    kind: u8,
    latest: u32,
) -> Result<(), AllocError>
    ensures { OnOk result (line.new ≡ line.old ++ state_line (EntryState.Good id kind latest) entry.now) }
{
    line.piece(b"volume")?;
    put_word(line, entry.name.bytes())?;
    put_number(line, id as u64)?;
    put_word(line, entry.server.bytes())?;
    put_word(line, b"/")?;
    line.piece(entry.partition.bytes())?;
    put_number(line, kind as u64)?;
    line.byte(b'\n')?;
    Ok(())
}

fn put_bad(line: &mut Out, entry: &VolEntry, at: u64) -> Result<(), AllocError>
    ensures { OnOk result (line.new ≡ line.old ++ state_line (EntryState.Bad at) entry.now) }
{
    line.piece(b"bad")?;
    put_word(line, entry.name.bytes())?;
    put_number(line, at)?;
    line.byte(b'\n')?;
    Ok(())
}

/// Puts the line of a volume, or of a bad image, behind a text.
pub fn put_listed(line: &mut Out, entry: &VolEntry) -> Result<(), AllocError>
    ensures { OnOk result (line.new ≡ line.old ++ listed_line entry.now) }
{
    match entry.state {
        EntryState::Good { id, kind, latest } => put_volume(line, entry, id, kind, latest),
        EntryState::Bad { at } => put_bad(line, entry, at),
    }
}
