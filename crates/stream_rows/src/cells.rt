//! Scripts of calls on a cell in memory, and the list after them. Here are calls that no line makes: volumes that are put under an
//! id and with a type.

use bk_text::{Bytes, Host, Name, Part};
use cell_core::{Cell, CellFault, CellMem, new_volume};
use std::alloc::{AllocError, Global};
use vnode_model::{EntryState, VolEntry, VolHeader, Volume, VolumeFields};

/// A call, with its time.
#[derive(Clone, Copy)]
pub enum Step {
    Create(u32),
    /// A new volume of this id, made of this type, is put to another server.
    Put(u32, u8),
    Write(u32, &'static [u8], u32),
    RemoveVnode(u32, u32),
    Backup(u32),
    Remove,
}

/// A volume's type.
const READ_WRITE: u8 = 0;

const READ_ONLY: u8 = 1;

pub const A: &[u8] = b"user.a";

const B: &[u8] = b"user.b";

/// The name of `user.a`'s backup volume.
const COPY: &[u8] = b"user.a.backup";

/// A server and the partition `vicepa`, or want of memory.
fn place(alloc: Global, server: &[u8]) -> Result<(Host, Part), CellFault> {
    match (Host::parse(alloc, server), Part::parse(alloc, b"vicepa")) {
        (Ok(server), Ok(partition)) => Ok((server, partition)),
        _ => Err(CellFault::Memory),
    }
}

/// A volume that is made at 5000.
fn made(alloc: Global, id: u32, name: &Name, kind: u8) -> Result<Volume, AllocError> {
    let volume = new_volume(alloc, id, name, 5000)?;
    Ok(with_kind(volume, kind))
}

/// A volume with this type.
fn with_kind(volume: Volume, kind: u8) -> Volume {
    let VolumeFields { header, vnodes } = volume.into_fields();
    let mut header = header.into_fields();
    header.kind = if kind == READ_ONLY { 1 } else { 0 };
    Volume::from_fields(VolumeFields {
        header: VolHeader::new(header),
        vnodes,
    })
}

/// Puts a volume to another server.
fn put_made(
    alloc: Global,
    cell: &mut CellMem,
    (server, partition): &(Host, Part),
    name: &Name,
    (id, kind): (u32, u8),
) -> Result<(), CellFault> {
    let volume = made(alloc, id, name, kind)?;
    cell.put(server, partition, volume)
}

fn put(alloc: Global, cell: &mut CellMem, name: &Name, id: u32, kind: u8) -> Result<(), CellFault> {
    let place = place(alloc, b"fs2")?;
    put_made(alloc, cell, &place, name, (id, kind))
}

fn create(alloc: Global, cell: &mut CellMem, name: &Name, now: u32) -> Result<(), CellFault> {
    let (server, partition) = place(alloc, b"fs1")?;
    match cell.create(&server, &partition, name, now) {
        Ok(_) => Ok(()),
        Err(fault) => Err(fault),
    }
}

/// Makes a call.
fn call(alloc: Global, cell: &mut CellMem, name: &Name, step: Step) -> Result<(), CellFault> {
    match step {
        Step::Create(now) => create(alloc, cell, name, now),
        Step::Put(id, kind) => put(alloc, cell, name, id, kind),
        Step::Write(number, body, now) => cell.write(name, number, body, now),
        Step::RemoveVnode(number, now) => cell.remove_vnode(name, number, now),
        Step::Backup(now) => cell.backup(name, now),
        Step::Remove => cell.remove(name),
    }
}

/// A cell after these calls, each on the volume of a name.
pub fn after(alloc: Global, script: &[(&'static [u8], Step)]) -> CellMem {
    let mut cell = CellMem::new(alloc);
    for (name, step) in script {
        if let Ok(name) = Name::parse(alloc, name) {
            let _answer = call(alloc, &mut cell, &name, *step);
        }
    }
    cell
}

/// Name, server, id, type and latest change of a volume.
fn put_entry(alloc: Global, text: &mut Bytes, entry: &VolEntry) -> Result<(), AllocError> {
    text.extend_from_slice(entry.name.bytes())?;
    text.extend_from_slice(b" ")?;
    text.extend_from_slice(entry.server.bytes())?;
    let rest = match entry.state {
        EntryState::Good { id, kind, latest } => format!(in alloc; " {id} {kind} {latest};")?,
        EntryState::Bad { at } => format!(in alloc; " bad {at};")?,
    };
    text.extend_from_slice(rest.as_bytes())
}

/// The entries.
pub fn listed(alloc: Global, cell: &mut CellMem) -> Result<Bytes, CellFault> {
    let mut text = Bytes::new(alloc);
    for i in 0..cell.count() {
        if i < cell.count() {
            let entry = cell.entry(i)?;
            put_entry(alloc, &mut text, &entry)?;
        }
    }
    Ok(text)
}

/// Whether a script leaves this list.
fn leaves(alloc: Global, script: &[(&'static [u8], Step)], list: &[u8]) -> bool {
    let mut cell = after(alloc, script);
    match listed(alloc, &mut cell) {
        Ok(text) => text.as_slice() == list,
        Err(_) => false,
    }
}

#[test]
fn put_stands_for_what_has_its_name(rt: HostRuntime) {
    let over = [
        (A, Step::Create(1000)),
        (A, Step::Write(2, b"hi", 2000)),
        (A, Step::Put(7, READ_WRITE)),
    ];
    let over_copy = [
        (A, Step::Create(1000)),
        (A, Step::Backup(2000)),
        (COPY, Step::Put(900_000_000, READ_ONLY)),
        (B, Step::Create(3000)),
    ];
    let left =
        b"user.a fs1 536870912 0 1000;user.a.backup fs2 900000000 1 5000;user.b fs1 900000002 0 3000;";
    assert!(&rt; leaves(rt.alloc(), &over, b"user.a fs2 7 0 5000;"));
    assert!(&rt; leaves(rt.alloc(), &over_copy, left));
}

#[test]
fn remove_leaves_what_is_no_backup_volume(rt: HostRuntime) {
    let read_only = [
        (A, Step::Put(7, READ_ONLY)),
        (COPY, Step::Put(8, READ_ONLY)),
        (A, Step::Remove),
    ];
    let no_backup = [
        (A, Step::Create(1000)),
        (COPY, Step::Put(8, READ_ONLY)),
        (A, Step::Remove),
    ];
    assert!(&rt; leaves(rt.alloc(), &read_only, b"user.a.backup fs2 8 1 5000;"));
    assert!(&rt; leaves(rt.alloc(), &no_backup, b"user.a.backup fs2 8 1 5000;"));
}

#[test]
fn the_latest_change_is_listed(rt: HostRuntime) {
    let copied = [
        (A, Step::Create(1000)),
        (A, Step::Backup(2000)),
        (A, Step::Write(2, b"hi", 3000)),
        (A, Step::Backup(4000)),
    ];
    let left = b"user.a fs1 536870912 0 3000;user.a.backup fs1 536870915 2 4000;";
    assert!(&rt; leaves(rt.alloc(), &copied, left));
}

#[test]
fn number_0_is_no_vnode_and_bad_images_are_told(rt: HostRuntime) {
    let alloc = rt.alloc();
    let mut cell = after(alloc, &[(A, Step::Create(1000))]);
    let Ok(name) = Name::parse(alloc, A) else {
        assert!(&rt; false);
        return;
    };
    let write = Step::Write(0, b"hi", 3000);
    let bad = Err(CellFault::BadImage { at: 59 });
    assert!(&rt; call(alloc, &mut cell, &name, write) == Err(CellFault::TooLarge));
    cell.spoil(&name, 59);
    assert!(&rt; call(alloc, &mut cell, &name, write) == bad);
    assert!(&rt; call(alloc, &mut cell, &name, Step::Put(7, READ_WRITE)) == bad);
}
