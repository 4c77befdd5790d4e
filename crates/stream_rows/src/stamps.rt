//! What changes leave in a volume and its header, and what a clone tells of it.

use crate::cells::{A, Step, after, listed};
use bk_text::{Bytes, Host, Part};
use cell_core::{Cell, CellFault, CellMem, Taken};
use std::alloc::{AllocError, Global};
use vnode_model::{EntryState, Volume};

/// The vnodes: number, uniquifier, data version, modify time and data of each.
fn put_vnodes(alloc: Global, text: &mut Bytes, volume: &Volume) -> Result<(), AllocError> {
    for vnode in volume.vnodes() {
        let (number, uniq) = (vnode.number, vnode.uniq);
        let (version, modified) = (vnode.data_version, vnode.modified);
        let front = format!(in alloc; "{number} {uniq} {version} {modified} ")?;
        text.extend_from_slice(front.as_bytes())?;
        text.extend_from_slice(vnode.body.as_slice())?;
        text.extend_from_slice(b";")?;
    }
    Ok(())
}

/// What a clone has: its vnodes, then time, birth, uniquifier, update date, count of files, KiB and backup date.
fn shown(alloc: Global, taken: &Taken) -> Result<Bytes, AllocError> {
    let mut text = Bytes::new(alloc);
    put_vnodes(alloc, &mut text, &taken.volume)?;
    let header = taken.volume.header().fields();
    let (time, born) = (taken.time, taken.born);
    let (uniq, updated) = (header.uniq, header.updated);
    let (files, kib, backed_up) = (header.file_count, header.disk_used, header.backed_up);
    let rest = format!(in alloc; "{time} {born} {uniq} {updated} {files} {kib} {backed_up}")?;
    text.extend_from_slice(rest.as_bytes())?;
    Ok(text)
}

/// The volume at a place of a cell, cloned at 9000.
fn taken_at(cell: &mut CellMem, i: u32) -> Result<Taken, CellFault> {
    if i >= cell.count() {
        return Err(CellFault::Memory);
    }
    let entry = cell.entry(i)?;
    match entry.state {
        EntryState::Good { .. } => cell.take(i, 9000),
        EntryState::Bad { .. } => Err(CellFault::Memory),
    }
}

/// Whether the volume at a place is this after a script.
fn shows(alloc: Global, script: &[(&'static [u8], Step)], i: u32, what: &[u8]) -> bool {
    let mut cell = after(alloc, script);
    let Ok(taken) = taken_at(&mut cell, i) else {
        return false;
    };
    match shown(alloc, &taken) {
        Ok(text) => text.as_slice() == what,
        Err(_) => false,
    }
}

#[test]
fn changes_are_stamped(rt: HostRuntime) {
    let alloc = rt.alloc();
    let made = [(A, Step::Create(1000))];
    let written = [
        (A, Step::Create(1000)),
        (A, Step::Write(2, b"hi", 2000)),
        (A, Step::Write(3, b"", 2001)),
        (A, Step::Write(2, b"new", 2002)),
        (A, Step::Backup(2003)),
    ];
    let again = [
        (A, Step::Create(1000)),
        (A, Step::Write(2, b"hi", 2000)),
        (A, Step::RemoveVnode(2, 2500)),
        (A, Step::Write(2, b"new", 2600)),
        (A, Step::RemoveVnode(1, 2700)),
    ];
    let put = [
        (A, Step::Create(1000)),
        (A, Step::Write(2, b"hi", 2000)),
        (A, Step::Put(7, 0)),
    ];
    let first = b"1 1 0 1000 ;3 3 1 2001 ;2 2 2 2002 new;9000 1000 4 2002 3 1 2003";
    let second = b"1 1 0 1000 ;3 3 1 2001 ;2 2 2 2002 new;2003 1000 4 2002 3 1 1000";
    assert!(&rt; shows(alloc, &made, 0, b"1 1 0 1000 ;9000 1000 2 1000 0 0 1000"));
    assert!(&rt; shows(alloc, &written, 0, first));
    assert!(&rt; shows(alloc, &written, 1, second));
    assert!(&rt;
        shows(
            alloc,
            &again,
            0,
            b"2 3 1 2600 new;9000 1000 4 2700 1 1 1000"
        )
    );
    assert!(&rt; shows(alloc, &put, 0, b"1 1 0 5000 ;9000 5000 2 5000 0 0 5000"));
}

/// A server and a partition of another cell, or want of memory.
fn other_place(alloc: Global) -> Result<(Host, Part), CellFault> {
    match (Host::parse(alloc, b"fs2"), Part::parse(alloc, b"vicepb")) {
        (Ok(server), Ok(partition)) => Ok((server, partition)),
        _ => Err(CellFault::Memory),
    }
}

/// Another cell with a volume alone.
fn cell_with(alloc: Global, volume: Volume) -> CellMem {
    let mut cell = CellMem::new(alloc);
    if let Ok((server, partition)) = other_place(alloc) {
        let _answer = cell.put(&server, &partition, volume);
    }
    cell
}

/// A cell with a copy of what a backup volume has.
fn moved(alloc: Global) -> Result<CellMem, CellFault> {
    let mut cell = after(alloc, &[(A, Step::Create(1000)), (A, Step::Backup(2000))]);
    let taken = taken_at(&mut cell, 1)?;
    let Taken { volume, .. } = taken;
    Ok(cell_with(alloc, volume))
}

/// The list of a cell, and when its first volume's clone was made and its volume.
fn told_of(alloc: Global, cell: &mut CellMem) -> Result<(Bytes, u32, u32), CellFault> {
    let text = listed(alloc, cell)?;
    let taken = taken_at(cell, 0)?;
    Ok((text, taken.time, taken.born))
}

#[test]
fn a_backup_volume_that_stands_alone_has_no_birth(rt: HostRuntime) {
    let Ok(mut cell) = moved(rt.alloc()) else {
        assert!(&rt; false);
        return;
    };
    match told_of(rt.alloc(), &mut cell) {
        Ok((text, time, born)) => {
            assert!(&rt; (time, born) == (2000, u32::MAX));
            assert!(&rt; text.as_slice() == b"user.a.backup fs2 536870915 2 2000;".as_slice());
        }
        Err(_) => assert!(&rt; false),
    }
}
