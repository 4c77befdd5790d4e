//! The lines of dumps that are made and of restores. Each is put behind a text.

ghost use Rattle.std.specs.Prelude.{◌≡◌, ◌++◌, OnOk, codes};
ghost use Rattle.backup_replies.specs.Texts.{then_number};
ghost use Rattle.backup_replies.specs.Restores.{made_line, would_dump_line, would_volume_line, from_chain, restored_line, would_restore_line, need_line};

use crate::dumps::put_dump_name;
use crate::putting::{put_number, put_word};
use bk_text::{LevelPath, Out, SetName};
use std::alloc::AllocError;

/// How many volumes and tapes a dump has.
fn put_counts(line: &mut Out, volumes: u64, tapes: u64) -> Result<(), AllocError>
    ensures { OnOk result (line.new ≡ line.old ++ codes " volumes" ++ then_number volumes ++ codes " tapes" ++ then_number tapes) }
{
    line.piece(b" volumes")?;
    put_number(line, volumes)?;
    line.piece(b" tapes")?;
    put_number(line, tapes)?;
    Ok(())
}

/// The line of a dump that was made.
pub fn put_made(
    line: &mut Out,
    id: u32,
    set: &SetName,
    level: &LevelPath,
    parent: u32,
    volumes: u64,
    tapes: u64,
) -> Result<(), AllocError>
    ensures { OnOk result (line.new ≡ line.old ++ made_line id set.now level.now parent volumes tapes) }
{
    line.piece(b"dump")?;
    put_number(line, id as u64)?;
    put_dump_name(line, set, level)?;
    line.piece(b" parent")?;
    put_number(line, parent as u64)?;
    put_counts(line, volumes, tapes)?;
    line.byte(b'\n')?;
    Ok(())
}

/// The line of a dump that would be made.
pub fn put_would_dump(
    line: &mut Out,
    set: &SetName,
    level: &LevelPath,
    parent: u32,
) -> Result<(), AllocError>
    ensures { OnOk result (line.new ≡ line.old ++ would_dump_line set.now level.now parent) }
{
    line.piece(b"would dump")?;
    put_dump_name(line, set, level)?;
    line.piece(b" parent")?;
    put_number(line, parent as u64)?;
    line.byte(b'\n')?;
    Ok(())
}

/// The line of a volume that would be dumped, with the time in seconds since 1970 from which on its changes would be.
pub fn put_would_volume(line: &mut Out, name: &[u8], from: u32) -> Result<(), AllocError>
    ensures { OnOk result (line.new ≡ line.old ++ would_volume_line name.now from) }
{
    line.piece(b"volume")?;
    put_word(line, name)?;
    line.piece(b" from")?;
    put_number(line, from as u64)?;
    line.byte(b'\n')?;
    Ok(())
}

/// The name that a volume gets, the dump that it comes from, and how many dumps its chain has.
fn put_source(line: &mut Out, target: &[u8], id: u32, chain: u32) -> Result<(), AllocError>
    ensures { OnOk result (line.new ≡ line.old ++ from_chain target.now id chain) }
{
    put_word(line, target)?;
    line.piece(b" from")?;
    put_number(line, id as u64)?;
    line.piece(b" chain")?;
    put_number(line, chain as u64)?;
    line.byte(b'\n')?;
    Ok(())
}

/// The line of a volume that was restored under a name, from the dump of an id, by a chain of so many dumps.
pub fn put_restored(line: &mut Out, target: &[u8], id: u32, chain: u32) -> Result<(), AllocError>
    ensures { OnOk result (line.new ≡ line.old ++ restored_line target.now id chain) }
{
    line.piece(b"restored")?;
    put_source(line, target, id, chain)?;
    Ok(())
}

/// The line of a volume that would be restored so.
pub fn put_would_restore(
    line: &mut Out,
    target: &[u8],
    id: u32,
    chain: u32,
) -> Result<(), AllocError>
    ensures { OnOk result (line.new ≡ line.old ++ would_restore_line target.now id chain) }
{
    line.piece(b"would restore")?;
    put_source(line, target, id, chain)?;
    Ok(())
}

/// The line of a tape that a restore needs, with the first id of its dump set.
pub fn put_need(line: &mut Out, name: &[u8], initial: u32) -> Result<(), AllocError>
    ensures { OnOk result (line.new ≡ line.old ++ need_line name.now initial) }
{
    line.piece(b"tape")?;
    put_word(line, name)?;
    put_number(line, initial as u64)?;
    line.byte(b'\n')?;
    Ok(())
}
