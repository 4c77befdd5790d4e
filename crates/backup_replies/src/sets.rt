//! The lines of the volume sets.

ghost use Rattle.std.specs.Prelude.{◌≡◌, ◌++◌, ◌<◌, ◌+◌, ◌∷◌, length, List, OnOk, IfOk, slice_index_or};
ghost use Rattle.volume_sets.specs.declared.sets.VolumeSet.{VolumeSet};
ghost use Rattle.volume_sets.specs.Sets.{entries_at};
ghost use Rattle.backup_replies.specs.Texts.{then_word, ok_line};
ghost use Rattle.backup_replies.specs.Sets.{server_word, partition_word, set_entry_line, entries_lines, set_lines, sets_lines};

use crate::putting::{put_number, put_ok, put_word};
use bk_text::{Bytes, Host, Out, Part, SetName};
use std::alloc::{AllocError, Global};
use volume_sets::{SetEntry, Sets};

fn put_server(line: &mut Out, server: &Option<Host>) -> Result<(), AllocError>
    ensures { OnOk result (line.new ≡ line.old ++ then_word (server_word server.now)) }
{
    match server {
        None => put_word(line, b".*"),
        Some(server) => put_word(line, server.bytes()),
    }
}

fn put_partition(line: &mut Out, partition: &Option<Part>) -> Result<(), AllocError>
    ensures { OnOk result (line.new ≡ line.old ++ then_word (partition_word partition.now)) }
{
    match partition {
        None => put_word(line, b".*"),
        Some(partition) => {
            put_word(line, b"/")?;
            line.piece(partition.bytes())
        }
    }
}

fn put_entry(line: &mut Out, number: usize, entry: &SetEntry) -> Result<(), AllocError>
    ensures { OnOk result (line.new ≡ line.old ++ set_entry_line number entry.now) }
{
    line.piece(b"entry")?;
    put_number(line, number as u64)?;
    put_server(line, &entry.server)?;
    put_partition(line, &entry.partition)?;
    put_word(line, entry.pattern.bytes())?;
    line.byte(b'\n')?;
    Ok(())
}

fn put_entries(lines: &mut Out, entries: &[SetEntry]) -> Result<(), AllocError>
    ensures { OnOk result (lines.new ≡ lines.old ++ entries_lines 1 entries.now) }
{
    for (i, entry) in entries.iter().enumerate() {
        put_entry(lines, i + 1, entry)?;
    }
    Ok(())
}

fn put_set(lines: &mut Out, name: &SetName, entries: &[SetEntry]) -> Result<(), AllocError>
    ensures { OnOk result (lines.new ≡ lines.old ++ set_lines (record { name = name.now; entries = entries.now })) }
{
    lines.piece(b"set")?;
    put_word(lines, name.bytes())?;
    lines.byte(b'\n')?;
    put_entries(lines, entries)?;
    Ok(())
}

fn put_set_at(lines: &mut Out, sets: &Sets, at: usize) -> Result<(), AllocError>
    requires { at < length sets.now }
    ensures { (d : VolumeSet) → OnOk result (lines.new ≡ lines.old ++ set_lines (slice_index_or sets.now at d)) }
{
    put_set(lines, sets.name_at(at), sets.entries_at(at))
}

/// The lines of a volume set.
pub fn set_reply(alloc: Global, name: &SetName, entries: &[SetEntry]) -> Result<Bytes, AllocError>
    ensures { IfOk result (λ lines. lines ≡ set_lines (record { name = name.now; entries = entries.now }) ++ ok_line) }
{
    let mut lines = Out::new(alloc);
    put_set(&mut lines, name, entries)?;
    put_ok(&mut lines)?;
    Ok(lines.into_bytes())
}

/// The lines of all volume sets.
pub fn sets_lines(alloc: Global, sets: &Sets) -> Result<Bytes, AllocError>
    ensures { IfOk result (λ lines. lines ≡ sets_lines sets.now) }
{
    let mut lines = Out::new(alloc);
    for at in 0..sets.len() {
        put_set_at(&mut lines, sets, at)?;
    }
    put_ok(&mut lines)?;
    Ok(lines.into_bytes())
}
