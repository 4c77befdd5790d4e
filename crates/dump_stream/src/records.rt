//! What whole sections say.

ghost use Rattle.std.specs.Prelude.{◌≡◌, [], IfOk, drop, replicate, MatchOption};
ghost use Rattle.dump_stream.specs.Forms.{IsWhole};
ghost use Rattle.dump_stream.specs.Fields.{AreFields, payload_of, has, byte, string, bytes_or, body_of};
ghost use Rattle.dump_stream.specs.Stream.{header_table, dump_of, header_of, entry_of, vnode_of, kind_of};
ghost use Rattle.dump_stream.specs.Sound.{IsNameThere, IsAccessWhole};

use crate::fields::{
    byte_of, find, front_of, has_tag, number_if, number_of, short_of, string_of, taken, week_from,
};
use crate::sofar::{DumpHead, Field};
use bk_text::{Bytes, List, Name};
use std::alloc::{AllocError, Global};
use vnode_model::{Body, Entry, HeaderFields, Vnode, VnodeKind, VolHeader};

fn name_of(alloc: Global, fields: &[Field]) -> Result<Name, AllocError>
    requires { IsNameThere fields.now }
    ensures { IfOk result (λ name. name ≡ string (payload_of 110 fields.now)) }
{
    match find(fields, b'n') {
        None => unreachable!(),
        Some(payload) => {
            let text = front_of(payload);
            Name::from_bytes(alloc, text)
        }
    }
}

/// What a dump header says.
pub fn dump_from(alloc: Global, fields: &[Field]) -> Result<DumpHead, AllocError>
    requires { IsNameThere fields.now }
    ensures { IfOk result (λ dump. dump ≡ dump_of fields.now) }
{
    Ok(DumpHead {
        id: number_of(fields, b'v', 0),
        name: name_of(alloc, fields)?,
        from: number_of(fields, b't', 2),
        to: number_of(fields, b't', 6),
    })
}

fn header_fields_from(alloc: Global, fields: &[Field]) -> Result<HeaderFields, AllocError>
    requires { IsNameThere fields.now }
    ensures { IfOk result (λ header. header ≡ header_of fields.now) }
{
    Ok(HeaderFields {
        id: number_of(fields, b'i', 0),
        stamp: number_of(fields, b'v', 0),
        name: name_of(alloc, fields)?,
        in_service: byte_of(fields, b's'),
        blessed: byte_of(fields, b'b'),
        uniq: number_of(fields, b'u', 0),
        kind: byte_of(fields, b't'),
        parent: number_of(fields, b'p', 0),
        clone_id: number_of(fields, b'c', 0),
        max_quota: number_of(fields, b'q', 0),
        min_quota: number_of(fields, b'm', 0),
        disk_used: number_of(fields, b'd', 0),
        file_count: number_of(fields, b'f', 0),
        account: number_of(fields, b'a', 0),
        owner: number_of(fields, b'o', 0),
        created: number_of(fields, b'C', 0),
        accessed: number_of(fields, b'A', 0),
        updated: number_of(fields, b'U', 0),
        expires: number_of(fields, b'E', 0),
        backed_up: number_of(fields, b'B', 0),
        offline: string_of(alloc, fields, b'O')?,
        message: string_of(alloc, fields, b'M')?,
        week: week_from(fields),
        day_date: number_of(fields, b'D', 0),
        day_use: number_of(fields, b'Z', 0),
        updates: number_if(fields, b'V'),
    })
}

/// What a volume header says.
pub fn header_from(alloc: Global, fields: &[Field]) -> Result<VolHeader, AllocError>
    requires listed { AreFields header_table [] fields.now }
    requires named { IsNameThere fields.now }
    ensures { IfOk result (λ header. header ≡ header_of fields.now) }
{
    let header = header_fields_from(alloc, fields)?;
    Ok(VolHeader::new(header))
}

fn kind_from(fields: &[Field]) -> VnodeKind
    ensures { result ≡ kind_of (byte (payload_of 116 fields.now)) }
{
    match byte_of(fields, b't') {
        1 => VnodeKind::File,
        2 => VnodeKind::Directory,
        _ => VnodeKind::Symlink,
    }
}

fn access_from(fields: &[Field]) -> [u8; 192]
    requires { IsAccessWhole fields.now }
    ensures { result ≡ bytes_or (payload_of 65 fields.now) (replicate 192 0) }
{
    let mut access = [0; 192];
    if let Some(payload) = find(fields, b'A') {
        access.copy_from_slice(payload);
    }
    access
}

/// The bytes behind a length of so many bytes, where there are some.
fn behind_length(alloc: Global, payload: Option<Bytes>, length: usize) -> Body
    ensures { MatchOption payload (result ≡ []) (λ bytes. result ≡ drop length bytes) }
{
    match payload {
        None => Body::new(alloc),
        Some(bytes) => Body::behind(bytes, length),
    }
}

/// The data of a vnode, taken out of its fields.
fn body_from(alloc: Global, fields: List<Field>) -> Body
    ensures { result ≡ body_of fields }
{
    if has_tag(fields.as_slice(), b'f') {
        behind_length(alloc, taken(fields, b'f'), 4)
    } else {
        behind_length(alloc, taken(fields, b'h'), 8)
    }
}

/// What a vnode's section says, but for its data.
fn bare_vnode(alloc: Global, number: u32, uniq: u32, fields: &[Field]) -> Vnode
    requires { IsAccessWhole fields.now }
    ensures { result ≡ record (vnode_of number uniq fields.now) { body = [] } }
{
    Vnode {
        number,
        uniq,
        kind: kind_from(fields),
        links: short_of(fields, b'l'),
        data_version: number_of(fields, b'v', 0),
        modified: number_of(fields, b'm', 0),
        author: number_of(fields, b'a', 0),
        owner: number_of(fields, b'o', 0),
        group: number_of(fields, b'g', 0),
        mode: short_of(fields, b'b'),
        parent: number_of(fields, b'p', 0),
        server_modified: number_of(fields, b's', 0),
        access: access_from(fields),
        body: Body::new(alloc),
    }
}

fn vnode_from(alloc: Global, number: u32, uniq: u32, fields: List<Field>) -> Vnode
    requires { IsAccessWhole fields }
    ensures { result ≡ vnode_of number uniq fields }
{
    let mut vnode = bare_vnode(alloc, number, uniq, fields.as_slice());
    vnode.body = body_from(alloc, fields);
    vnode
}

/// What a vnode's section says. The data is taken out of its fields, so that no memory is taken.
pub fn entry_from(alloc: Global, number: u32, uniq: u32, fields: List<Field>) -> Entry
    requires { IsAccessWhole fields }
    ensures { result ≡ entry_of number uniq fields }
{
    if fields.is_empty() {
        Entry::Kept { number, uniq }
    } else {
        Entry::Whole(vnode_from(alloc, number, uniq, fields))
    }
}
