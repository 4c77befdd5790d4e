//! The lines of one dump.

ghost use Rattle.std.specs.Prelude.{◌≡◌, ◌++◌, OnOk, IfOk, codes};
ghost use Rattle.std.specs.List.{flat_map};
ghost use Rattle.tape_frames.specs.TapeNames.{numbered};
ghost use Rattle.backup_replies.specs.Texts.{then_word, then_number};
ghost use Rattle.backup_replies.specs.Dumps.{last_element, dump_name, expires_words, dump_begins, dump_ends, dump_line, cell_line, tape_line, dumped_line, whole_dump_lines};

use crate::labels::put_name;
use crate::putting::{put_number, put_ok, put_word};
use bk_text::{Bytes, LevelPath, Out, SetName, TapeName};
use budb_changes::{DumpRecord, TapePart, VolRecord};
use itoa::Buffer;
use std::alloc::{AllocError, Global};

/// The last element of a level's path.
fn last_element(level: &LevelPath) -> &[u8]
    ensures { result.now ≡ last_element level.now }
{
    let _bytes = level.bytes();
    level.last()
}

/// The name of a dump, behind a space.
pub(crate) fn put_dump_name(
    line: &mut Out,
    set: &SetName,
    level: &LevelPath,
) -> Result<(), AllocError>
    ensures { OnOk result (line.new ≡ line.old ++ then_word (dump_name set.now level.now)) }
{
    put_word(line, set.bytes())?;
    line.byte(b'.')?;
    line.piece(last_element(level))?;
    Ok(())
}

fn put_expiring(line: &mut Out, second: u32) -> Result<(), AllocError>
    ensures { OnOk result (line.new ≡ line.old ++ then_word (codes "at") ++ then_number second) }
{
    put_word(line, b"at")?;
    put_number(line, second as u64)?;
    Ok(())
}

fn put_expires(line: &mut Out, expires: u32) -> Result<(), AllocError>
    ensures { OnOk result (line.new ≡ line.old ++ expires_words expires) }
{
    if expires == 0 {
        put_word(line, b"none")
    } else if expires == 4_294_967_295 {
        put_word(line, b"never")
    } else {
        put_expiring(line, expires)
    }
}

fn put_begin(line: &mut Out, dump: &DumpRecord) -> Result<(), AllocError>
    ensures { OnOk result (line.new ≡ line.old ++ dump_begins dump.now) }
{
    let fields = dump.fields();
    line.piece(b"dump")?;
    put_number(line, fields.id as u64)?;
    put_dump_name(line, &fields.set, &fields.level)?;
    line.piece(b" initial")?;
    put_number(line, fields.initial as u64)?;
    line.piece(b" parent")?;
    put_number(line, fields.parent as u64)?;
    Ok(())
}

fn put_end(line: &mut Out, dump: &DumpRecord) -> Result<(), AllocError>
    ensures { OnOk result (line.new ≡ line.old ++ dump_ends dump.now) }
{
    let fields = dump.fields();
    line.piece(b" level")?;
    put_word(line, fields.level.bytes())?;
    line.piece(b" expires")?;
    put_expires(line, fields.expires)?;
    line.piece(b" volumes")?;
    put_number(line, fields.volumes.len() as u64)?;
    line.piece(b" tapes")?;
    put_number(line, fields.tapes.len() as u64)?;
    line.byte(b'\n')?;
    Ok(())
}

/// Puts the line of a dump behind a text.
pub(crate) fn put_dump(line: &mut Out, dump: &DumpRecord) -> Result<(), AllocError>
    ensures { OnOk result (line.new ≡ line.old ++ dump_line dump.now) }
{
    put_begin(line, dump)?;
    put_end(line, dump)?;
    Ok(())
}

fn put_cell(line: &mut Out, cell: &[u8]) -> Result<(), AllocError>
    ensures { OnOk result (line.new ≡ line.old ++ cell_line cell.now) }
{
    if cell.is_empty() {
        return Ok(());
    }
    line.piece(b"cell")?;
    put_word(line, cell)?;
    line.byte(b'\n')?;
    Ok(())
}

fn put_tape_name(line: &mut Out, base: &TapeName, number: u32) -> Result<(), AllocError>
    ensures { OnOk result (line.new ≡ line.old ++ then_word (numbered base.now number)) }
{
    let mut buffer = Buffer::new();
    put_word(line, base.bytes())?;
    line.byte(b'.')?;
    line.piece(buffer.format(number as u64).as_bytes())?;
    Ok(())
}

fn put_tape(line: &mut Out, base: &TapeName, tape: &TapePart) -> Result<(), AllocError>
    ensures { OnOk result (line.new ≡ line.old ++ tape_line base.now tape.now) }
{
    line.piece(b"tape")?;
    put_tape_name(line, base, tape.tape)?;
    line.piece(b" uses")?;
    put_number(line, tape.uses as u64)?;
    line.piece(b" permanent")?;
    put_name(line, tape.permanent.as_slice())?;
    line.byte(b'\n')?;
    Ok(())
}

fn put_tapes(lines: &mut Out, base: &TapeName, tapes: &[TapePart]) -> Result<(), AllocError>
    ensures { OnOk result (lines.new ≡ lines.old ++ flat_map (tape_line base.now) tapes.now) }
{
    for tape in tapes {
        put_tape(lines, base, tape)?;
    }
    Ok(())
}

fn put_dumped(line: &mut Out, volume: &VolRecord) -> Result<(), AllocError>
    ensures { OnOk result (line.new ≡ line.old ++ dumped_line volume.now) }
{
    let fields = volume.fields();
    line.piece(b"volume")?;
    put_word(line, fields.name.bytes())?;
    line.piece(b" id")?;
    put_number(line, fields.id as u64)?;
    line.piece(b" clone")?;
    put_number(line, fields.clone as u64)?;
    line.piece(b" from")?;
    put_number(line, fields.from as u64)?;
    line.byte(b'\n')?;
    Ok(())
}

fn put_volumes(lines: &mut Out, volumes: &[VolRecord]) -> Result<(), AllocError>
    ensures { OnOk result (lines.new ≡ lines.old ++ flat_map dumped_line volumes.now) }
{
    for volume in volumes {
        put_dumped(lines, volume)?;
    }
    Ok(())
}

/// The lines of a dump with its cell, its tapes and its volumes.
pub fn whole_dump_lines(alloc: Global, dump: &DumpRecord) -> Result<Bytes, AllocError>
    ensures { IfOk result (λ lines. lines ≡ whole_dump_lines dump.now) }
{
    let fields = dump.fields();
    let mut lines = Out::new(alloc);
    put_dump(&mut lines, dump)?;
    put_cell(&mut lines, fields.cell.as_slice())?;
    put_tapes(&mut lines, &fields.base, fields.tapes.as_slice())?;
    put_volumes(&mut lines, fields.volumes.as_slice())?;
    put_ok(&mut lines)?;
    Ok(lines.into_bytes())
}
