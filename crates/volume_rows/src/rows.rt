//! Help for the tests of volumes: headers and vnodes from short rows.

use bk_text::{Bytes, List, Name, TextFault};
use std::alloc::{AllocError, Global};
use vnode_model::{Body, HeaderFields, Vnode, VnodeKind, VolHeader, Volume};

/// A vnode's number, uniquifier, kind, the time at which the server last changed it, and its data.
pub type Row = (u32, u32, VnodeKind, u32, &'static [u8]);

/// The vnode of a row, with this byte at the end of its access list.
pub fn vnode_from(alloc: Global, row: &Row, byte: u8) -> Result<Vnode, AllocError> {
    let mut access = [0; 192];
    access[191] = byte;
    Ok(Vnode {
        number: row.0,
        uniq: row.1,
        kind: row.2,
        links: 1,
        data_version: 0,
        modified: 0,
        author: 0,
        owner: 0,
        group: 0,
        mode: 0,
        parent: 1,
        server_modified: row.3,
        access,
        body: Body::from_slice(alloc, row.4)?,
    })
}

/// The vnodes of rows.
pub fn vnodes_from(alloc: Global, rows: &[Row]) -> Result<List<Vnode>, AllocError> {
    let mut vnodes = List::new(alloc);
    for row in rows {
        vnodes.push(vnode_from(alloc, row, 0)?)?;
    }
    Ok(vnodes)
}

/// A volume's name.
pub fn name_from(alloc: Global) -> Result<Name, AllocError> {
    match Name::parse(alloc, b"user.a") {
        Ok(name) => Ok(name),
        Err(TextFault::BadText { .. }) | Err(TextFault::Memory) => Err(AllocError),
    }
}

/// The header of a volume of this id and this creation date.
pub fn header_from(alloc: Global, id: u32, created: u32) -> Result<VolHeader, AllocError> {
    let fields = HeaderFields {
        id,
        stamp: 0,
        name: name_from(alloc)?,
        in_service: 1,
        blessed: 1,
        uniq: 2,
        kind: 0,
        parent: id,
        clone_id: 0,
        max_quota: 0,
        min_quota: 0,
        disk_used: 0,
        file_count: 0,
        account: 0,
        owner: 0,
        created,
        accessed: 0,
        updated: 0,
        expires: 0,
        backed_up: 0,
        offline: Bytes::new(alloc),
        message: Bytes::new(alloc),
        week: [0; 7],
        day_date: 0,
        day_use: 0,
        updates: None,
    };
    if VolHeader::is_header(&fields) {
        Ok(VolHeader::new(fields))
    } else {
        Err(AllocError)
    }
}

/// The volume of this id and these rows, created at 1000.
pub fn volume_from(alloc: Global, id: u32, rows: &[Row]) -> Result<Volume, AllocError> {
    let header = header_from(alloc, id, 1000)?;
    let vnodes = vnodes_from(alloc, rows)?;
    match Volume::new(header, vnodes) {
        Ok(volume) => Ok(volume),
        Err(_) => Err(AllocError),
    }
}

/// Whether a vnode is that of a row.
pub fn is_of(vnode: &Vnode, row: &Row) -> bool {
    (vnode.number, vnode.uniq, vnode.server_modified) == (row.0, row.1, row.3)
        && vnode.kind == row.2
        && vnode.body.as_slice() == row.4
}

/// Whether a volume has this id and these vnodes.
pub fn has(volume: &Volume, id: u32, rows: &[Row]) -> bool {
    let mut same = volume.header().fields().id == id && volume.vnodes().len() == rows.len();
    for (vnode, row) in volume.vnodes().iter().zip(rows) {
        same = same && is_of(vnode, row);
    }
    same
}
