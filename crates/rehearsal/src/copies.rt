//! Restored volumes beside those that they were dumped from.

ghost use Rattle.std.specs.Prelude.{◌≡◌, ◌≤◌, ◌<◌, ◌*◌, length, IfOk, IfSome};
ghost use Rattle.rehearsal.specs.Names.{volume_name, copy_name};
ghost use Rattle.rehearsal.specs.Copies.{is_same_kind, is_same_vnode, are_same, volume_under, are_equal, bytes_in, data_of, data_beside, data_at, equal_copies, copied_data, with_data, StandsAt};

use crate::names;
use cell_core::{Cell, CellFault};
use std::alloc::{AllocError, Global};
use vnode_model::{EntryState, Vnode, VnodeKind, Volume};

/// How many restored volumes are equal to those that they were dumped from, and the bytes of their data.
#[derive(Clone, Copy, Debug, PartialEq, Eq, Drop)]
pub struct Copies {
    pub equal: u64,
    pub bytes: u64,
}

/// Whether two kinds are the same.
fn is_same_kind(a: VnodeKind, b: VnodeKind) -> bool
    ensures { result ≡ is_same_kind a b }
{
    match a {
        VnodeKind::File => matches!(b, VnodeKind::File),
        VnodeKind::Directory => matches!(b, VnodeKind::Directory),
        VnodeKind::Symlink => matches!(b, VnodeKind::Symlink),
    }
}

/// Whether two vnodes are the same, in all fields.
fn is_same_vnode(a: &Vnode, b: &Vnode) -> bool
    ensures { result ≡ is_same_vnode a.now b.now }
{
    a.number == b.number
        && a.uniq == b.uniq
        && is_same_kind(a.kind, b.kind)
        && a.links == b.links
        && a.data_version == b.data_version
        && a.modified == b.modified
        && a.author == b.author
        && a.owner == b.owner
        && a.group == b.group
        && a.mode == b.mode
        && a.parent == b.parent
        && a.server_modified == b.server_modified
        && a.access == b.access
        && a.body.as_slice() == b.body.as_slice()
}

/// Whether the vnodes of two volumes are the same.
fn are_same(a: &[Vnode], b: &[Vnode]) -> bool
    ensures { result ≡ are_same a.now b.now }
{
    if a.len() != b.len() {
        return false;
    }
    for i in 0..a.len() {
        if !is_same_vnode(&a[i], &b[i]) {
            return false;
        }
    }
    true
}

/// Whether two volumes are there, with the same vnodes.
fn are_equal(a: &Option<Volume>, b: &Option<Volume>) -> bool
    ensures { result ≡ are_equal a.now b.now }
{
    match (a, b) {
        (Some(a), Some(b)) => are_same(a.vnodes(), b.vnodes()),
        _ => false,
    }
}

/// The place of a volume in a cell's list, where one stands under a name.
fn place_of<C: Cell>(cell: &mut C, name: &[u8]) -> Result<Option<u32>, CellFault>
    ensures place { C.tells → IfOk result (λ place. StandsAt name.now (C.list cell.old) place) }
    ensures within { IfOk result (λ place. IfSome place (λ i. i < C.size cell.new)) }
    ensures list { C.tells → C.list cell.new ≡ C.list cell.old }
{
    for i in 0..cell.count() {
        let entry = cell.entry(i)?;
        if entry.name.bytes() == name {
            return match entry.state {
                EntryState::Good { .. } => Ok(Some(i)),
                EntryState::Bad { .. } => Ok(None),
            };
        }
    }
    Ok(None)
}

/// The volume under a name.
fn volume_under<C: Cell>(cell: &mut C, name: &[u8]) -> Result<Option<Volume>, CellFault>
    ensures volume { C.tells → IfOk result (λ volume. volume ≡ volume_under name.now (C.list cell.old)) }
    ensures list { C.tells → C.list cell.new ≡ C.list cell.old }
{
    match place_of(cell, name)? {
        Some(i) => {
            let taken = cell.take(i, 0)?;
            Ok(Some(taken.volume))
        }
        None => Ok(None),
    }
}

/// How many bytes of data vnodes have.
fn bytes_in(vnodes: &[Vnode]) -> u64
    requires { bytes_in vnodes.now ≤ 268435456 }
    ensures { result ≡ bytes_in vnodes.now }
{
    let mut bytes = 0;
    for vnode in vnodes {
        bytes += vnode.body.len() as u64;
    }
    bytes
}

/// How many bytes of data a volume has, at most 268,435,456.
fn data_of(volume: &Option<Volume>) -> u64
    ensures bytes { result ≡ data_of volume.now }
    ensures few { result ≤ 268435456 }
{
    match volume {
        Some(volume) => bytes_in(volume.vnodes()),
        None => 0,
    }
}

/// The data of a copy, where it is equal to its source.
fn data_beside(source: &Option<Volume>, copy: &Option<Volume>) -> Option<u64>
    ensures bytes { result ≡ data_beside source.now copy.now }
    ensures few { IfSome result (λ bytes. bytes ≤ 268435456) }
{
    if are_equal(source, copy) {
        Some(data_of(copy))
    } else {
        None
    }
}

/// The data of the copy under a name, where it is equal to the source under another.
fn data_named<C: Cell>(cell: &mut C, name: &[u8], copied: &[u8]) -> Result<Option<u64>, AllocError>
    ensures bytes { C.tells → IfOk result (λ found. found ≡ data_beside (volume_under name.now (C.list cell.old)) (volume_under copied.now (C.list cell.old))) }
    ensures few { IfOk result (λ found. IfSome found (λ bytes. bytes ≤ 268435456)) }
    ensures list { C.tells → C.list cell.new ≡ C.list cell.old }
{
    let Ok(source) = volume_under(cell, name) else {
        return Err(AllocError);
    };
    let Ok(copy) = volume_under(cell, copied) else {
        drop(source);
        return Err(AllocError);
    };
    let found = data_beside(&source, &copy);
    drop(source);
    drop(copy);
    Ok(found)
}

/// The data of a restored volume, where it is equal to the one that it was dumped from.
fn equal_data<C: Cell>(alloc: Global, cell: &mut C, volume: u32) -> Result<Option<u64>, AllocError>
    ensures bytes { C.tells → IfOk result (λ found. found ≡ data_at (C.list cell.old) volume) }
    ensures few { IfOk result (λ found. IfSome found (λ bytes. bytes ≤ 268435456)) }
    ensures list { C.tells → C.list cell.new ≡ C.list cell.old }
{
    let name = names::volume_name(alloc, volume)?;
    let copied = names::copy_name(alloc, volume)?;
    data_named(cell, name.bytes(), copied.as_slice())
}

impl Copies {
    /// With one more, where it is equal.
    fn with(self, found: Option<u64>) -> Copies
        requires equal { self.equal < 200 }
        requires bytes { self.bytes ≤ 200 * 268435456 }
        requires few { IfSome found (λ bytes. bytes ≤ 268435456) }
        ensures { result ≡ with_data self found }
    {
        match found {
            Some(bytes) => Copies {
                equal: self.equal + 1,
                bytes: self.bytes + bytes,
            },
            None => self,
        }
    }
}

/// Compares all volumes that were restored.
pub fn compare<C: Cell>(alloc: Global, cell: &mut C, volumes: u32) -> Result<Copies, AllocError>
    requires { volumes ≤ 200 }
    ensures equal { C.tells → IfOk result (λ copies. copies.equal ≡ length (equal_copies (C.list cell.old) volumes)) }
    ensures bytes { C.tells → IfOk result (λ copies. copies.bytes ≡ copied_data (C.list cell.old) volumes) }
{
    let mut copies = Copies { equal: 0, bytes: 0 };
    for volume in 1..volumes + 1 {
        copies = copies.with(equal_data(alloc, cell, volume)?);
    }
    Ok(copies)
}
