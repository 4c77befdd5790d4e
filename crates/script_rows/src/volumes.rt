//! What the volumes of a cell hold.

use crate::lines::print_line;
use cell_core::{Cell, CellFault, CellMem, Taken};
use dump_stream::Writer;
use std::alloc::Global;
use vnode_model::{EntryState, Vnode, VnodeKind, Volume};

/// The most pieces of a stream that are taken.
const MOST_PIECES: u32 = 65_536;

/// The longest data that are shown.
const SHOWN: usize = 20;

/// The line of a vnode: its kind, number and uniquifier, the length of its data, and the data where they are short.
fn vnode_line(alloc: Global, vnode: &Vnode) -> anyhow::Result<String> {
    let kind = match vnode.kind {
        VnodeKind::Directory => "dir",
        VnodeKind::File => "file",
        VnodeKind::Symlink => "link",
    };
    let (number, uniq) = (vnode.number, vnode.uniq);
    let data = vnode.body.as_slice();
    let length = data.len();
    let mut line = format!(in alloc; "{kind} {number} {uniq} {length}")?;
    if length > 0 && length <= SHOWN {
        line.push(' ')?;
        for byte in data {
            line.push(char::from(*byte))?;
        }
    }
    Ok(line)
}

/// A clone of the volume at a place of the cell's list, if one of this name stands there.
fn taken_at(cell: &mut CellMem, i: u32, name: &str) -> Result<Option<Taken>, CellFault> {
    if i >= cell.count() {
        return Ok(None);
    }
    let entry = cell.entry(i)?;
    if entry.name.bytes() != name.as_bytes() {
        return Ok(None);
    }
    match entry.state {
        EntryState::Good { .. } => {
            let taken = cell.take(i, 0)?;
            Ok(Some(taken))
        }
        EntryState::Bad { .. } => Ok(None),
    }
}

/// Prints the vnodes of a volume.
fn print_vnodes(alloc: Global, vnodes: &[Vnode], printed: &mut Vec<u8>) -> anyhow::Result<()> {
    for vnode in vnodes {
        print_line(printed, vnode_line(alloc, vnode)?.as_str())?;
    }
    Ok(())
}

/// Prints the vnodes of the volume at a place of the cell's list, if one of this name stands there.
fn print_at(
    alloc: Global,
    cell: &mut CellMem,
    i: u32,
    name: &str,
    printed: &mut Vec<u8>,
) -> anyhow::Result<()> {
    let Ok(taken) = taken_at(cell, i, name) else {
        anyhow::bail!("the cell can't be read");
    };
    match &taken {
        None => Ok(()),
        Some(taken) => print_vnodes(alloc, taken.volume.vnodes(), printed),
    }
}

/// Prints the vnodes of the volume of this name, if there is one.
pub fn print_volume(
    alloc: Global,
    cell: &mut CellMem,
    name: &str,
    printed: &mut Vec<u8>,
) -> anyhow::Result<()> {
    let count = cell.count();
    for i in 0..count {
        print_at(alloc, cell, i, name, printed)?;
    }
    Ok(())
}

/// Adds the stream of a volume.
fn add_volume(volume: Volume, stream: &mut Vec<u8>) -> anyhow::Result<()> {
    let mut writer = Writer::new(volume, 0, 0);
    let mut piece = [0u8; 4096];
    for _ in 0..MOST_PIECES {
        let count = writer.next(&mut piece);
        if count == 0 {
            break;
        }
        stream.extend_from_slice(&piece[..count])?;
    }
    Ok(())
}

/// Adds the stream of the volume at a place of the cell's list, if one of this name stands there.
fn add_at(cell: &mut CellMem, i: u32, name: &str, stream: &mut Vec<u8>) -> anyhow::Result<()> {
    let Ok(taken) = taken_at(cell, i, name) else {
        anyhow::bail!("the cell can't be read");
    };
    let Some(taken) = taken else {
        return Ok(());
    };
    let Taken { volume, .. } = taken;
    add_volume(volume, stream)
}

/// The stream of the volume of this name, an empty one where there is none.
pub fn volume_stream(alloc: Global, cell: &mut CellMem, name: &str) -> anyhow::Result<Vec<u8>> {
    let mut stream = Vec::new(alloc);
    let count = cell.count();
    for i in 0..count {
        add_at(cell, i, name, &mut stream)?;
    }
    Ok(stream)
}
