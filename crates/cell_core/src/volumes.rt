//! New volumes, and copies for backup volumes.

ghost use Rattle.std.specs.Prelude.{◌≡◌, IfOk};
ghost use Rattle.vnode_model.specs.Limits.{AreVolume};
ghost use Rattle.cell_core.specs.Volumes.{new_header, new_volume, backup_name, backup_copy, with_backup_date};

use crate::vnodes::first_directory;
use bk_text::{Bytes, List, Name};
use std::alloc::{AllocError, Global};
use vnode_model::{HeaderFields, VolHeader, Volume, VolumeFields};

/// The header of a new volume.
fn new_header(alloc: Global, id: u32, name: &Name, now: u32) -> Result<HeaderFields, AllocError>
    ensures { IfOk result (λ header. header ≡ new_header id name.now now) }
{
    Ok(HeaderFields {
        id,
        stamp: 0,
        name: name.clone()?,
        in_service: 0,
        blessed: 0,
        uniq: 2,
        kind: 0,
        parent: 0,
        clone_id: 0,
        max_quota: 0,
        min_quota: 0,
        disk_used: 0,
        file_count: 0,
        account: 0,
        owner: 0,
        created: now,
        accessed: now,
        updated: now,
        expires: now,
        backed_up: now,
        offline: Bytes::new(alloc),
        message: Bytes::new(alloc),
        week: [0; 7],
        day_date: now,
        day_use: 0,
        updates: None,
    })
}

/// A new read/write volume, with one empty directory.
pub fn new_volume(alloc: Global, id: u32, name: &Name, now: u32) -> Result<Volume, AllocError>
    ensures value { IfOk result (λ volume. volume ≡ new_volume id name.now now) }
    ensures form { IfOk result (λ volume. AreVolume volume.vnodes) }
{
    let header = new_header(alloc, id, name, now)?;
    let mut vnodes = List::new(alloc);
    vnodes.push(first_directory(alloc, now))?;
    Ok(Volume::from_fields(VolumeFields {
        header: VolHeader::new(header),
        vnodes,
    }))
}

/// The bytes of the name of a volume's backup volume; they may be too many.
pub fn backup_name(alloc: Global, name: &[u8]) -> Result<Bytes, AllocError>
    ensures { IfOk result (λ text. text ≡ backup_name name.now) }
{
    let mut text = Bytes::from_slice(alloc, name)?;
    text.extend_from_slice(b".backup")?;
    Ok(text)
}

/// The copy of a volume under its backup volume's name.
pub fn backup_copy(volume: &Volume, id: u32, name: Name, now: u32) -> Result<Volume, AllocError>
    requires { name ≡ backup_name volume.now.header.name }
    ensures value { IfOk result (λ copy. copy ≡ backup_copy id now volume.now) }
    ensures form { IfOk result (λ copy. AreVolume copy.vnodes) }
{
    let VolumeFields { header, vnodes } = volume.clone()?.into_fields();
    let mut header = header.into_fields();
    header.parent = header.id;
    header.id = id;
    header.name = name;
    header.kind = 2;
    header.created = now;
    Ok(Volume::from_fields(VolumeFields {
        header: VolHeader::new(header),
        vnodes,
    }))
}

/// A volume with its backup date.
pub fn with_backup_date(volume: Volume, now: u32) -> Volume
    ensures value { result ≡ with_backup_date now volume }
    ensures form { AreVolume result.vnodes }
{
    let VolumeFields { header, vnodes } = volume.into_fields();
    let mut header = header.into_fields();
    header.backed_up = now;
    Volume::from_fields(VolumeFields {
        header: VolHeader::new(header),
        vnodes,
    })
}
