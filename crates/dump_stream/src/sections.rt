//! Putting the sections of a stream, up to a vnode's data.

ghost use Rattle.std.specs.Prelude.{◌≡◌, ◌+◌, ◌≤◌, ◌<◌, ◌^◌, ◌∷◌, ◌++◌, length};
ghost use Rattle.std.specs.List.{flat_map};
ghost use Rattle.bk_text.specs.Alphabets.{IsName};
ghost use Rattle.vnode_model.specs.Headers.{IsVolHeader};
ghost use Rattle.dump_stream.specs.Forms.{closing};
ghost use Rattle.dump_stream.specs.Fields.{spelled};
ghost use Rattle.dump_stream.specs.Written.{header_fields, kind_byte, group_fields, access_fields, updates_fields};
ghost use Rattle.dump_stream.specs.Parts.{most, dump_fields_of, first_fields, middle_fields, last_fields, headers, early_fields, late_fields, kept_head, whole_head};

use crate::form::{CLOSING, OPENING};
use crate::part::Part;
use bk_text::Name;
use vnode_model::{HeaderFields, Vnode, VnodeKind, VolHeader};

fn put_dump(part: &mut Part, id: u32, name: &Name, from: u32, to: u32)
    requires { length part.old + 49 ≤ most }
    ensures bytes { part.new ≡ part.old ++ flat_map spelled (dump_fields_of id name.now from to) }
    ensures len { length part.new ≤ length part.old + 49 }
{
    part.number(b'v', id);
    part.text(b'n', name.bytes());
    part.times(b't', from, to);
}

fn put_first(part: &mut Part, header: &HeaderFields)
    requires { length part.old + 54 ≤ most }
    ensures bytes { part.new ≡ part.old ++ flat_map spelled (first_fields header.now) }
    ensures len { length part.new ≤ length part.old + 54 }
{
    part.numbers(&[(b'i', header.id), (b'v', header.stamp)]);
    part.text(b'n', header.name.bytes());
    part.field(b's', &[header.in_service]);
    part.field(b'b', &[header.blessed]);
    part.number(b'u', header.uniq);
    part.field(b't', &[header.kind]);
}

fn put_middle(part: &mut Part, header: &HeaderFields)
    requires { length part.old + 65 ≤ most }
    ensures bytes { part.new ≡ part.old ++ flat_map spelled (middle_fields header.now) }
    ensures len { length part.new ≤ length part.old + 65 }
{
    part.numbers(&[
        (b'p', header.parent),
        (b'c', header.clone_id),
        (b'q', header.max_quota),
        (b'm', header.min_quota),
        (b'd', header.disk_used),
        (b'f', header.file_count),
        (b'a', header.account),
        (b'o', header.owner),
        (b'C', header.created),
        (b'A', header.accessed),
        (b'U', header.updated),
        (b'E', header.expires),
        (b'B', header.backed_up),
    ]);
}

fn put_updates(part: &mut Part, updates: Option<u32>)
    requires { length part.old + 5 ≤ most }
    ensures bytes { part.new ≡ part.old ++ flat_map spelled (updates_fields updates) }
    ensures len { length part.new ≤ length part.old + 5 }
{
    match updates {
        Some(count) => part.number(b'V', count),
        None => {}
    }
}

fn put_last(part: &mut Part, header: &HeaderFields)
    requires room { length part.old + 2098 ≤ most }
    requires limits { IsVolHeader header.now }
    ensures bytes { part.new ≡ part.old ++ flat_map spelled (last_fields header.now) }
    ensures len { length part.new ≤ length part.old + 2098 }
{
    part.text(b'O', header.offline.as_slice());
    part.text(b'M', header.message.as_slice());
    part.week(b'W', &header.week);
    part.numbers(&[(b'D', header.day_date), (b'Z', header.day_use)]);
    put_updates(part, header.updates);
}

fn put_header(part: &mut Part, header: &VolHeader)
    requires { length part.old + 2217 ≤ most }
    ensures { part.new ≡ part.old ++ flat_map spelled (header_fields header.now) }
{
    let header = header.fields();
    put_first(part, header);
    put_middle(part, header);
    put_last(part, header);
}

/// The bytes of a stream up to its first vnode.
pub fn put_headers(part: &mut Part, id: u32, name: &Name, from: u32, to: u32, header: &VolHeader)
    ensures { part.new ≡ headers id name.now from to header.now }
{
    part.clear();
    part.put(&[1]);
    part.put(&OPENING);
    put_dump(part, id, name, from, to);
    part.put(&[2]);
    put_header(part, header);
}

/// The end of a stream.
pub fn put_end(part: &mut Part)
    ensures { part.new ≡ 4 ∷ closing }
{
    part.clear();
    part.put(&[4]);
    part.put(&CLOSING);
}

/// The section of a vnode by number alone.
pub fn put_kept(part: &mut Part, number: u32, uniq: u32)
    ensures { part.new ≡ kept_head number uniq }
{
    part.clear();
    part.put(&[3]);
    part.put(&number.to_be_bytes());
    part.put(&uniq.to_be_bytes());
}

fn kind_code(kind: VnodeKind) -> u8
    ensures { result ≡ kind_byte kind }
{
    match kind {
        VnodeKind::File => 1,
        VnodeKind::Directory => 2,
        VnodeKind::Symlink => 3,
    }
}

fn put_group(part: &mut Part, group: u32)
    requires { length part.old + 5 ≤ most }
    ensures bytes { part.new ≡ part.old ++ flat_map spelled (group_fields group) }
    ensures len { length part.new ≤ length part.old + 5 }
{
    if group != 0 {
        part.number(b'g', group);
    }
}

fn put_early(part: &mut Part, vnode: &Vnode)
    requires { length part.old + 30 ≤ most }
    ensures bytes { part.new ≡ part.old ++ flat_map spelled (early_fields vnode.now) }
    ensures len { length part.new ≤ length part.old + 30 }
{
    part.field(b't', &[kind_code(vnode.kind)]);
    part.short(b'l', vnode.links);
    part.numbers(&[
        (b'v', vnode.data_version),
        (b'm', vnode.modified),
        (b'a', vnode.author),
        (b'o', vnode.owner),
    ]);
    put_group(part, vnode.group);
}

fn put_access(part: &mut Part, kind: VnodeKind, access: &[u8; 192])
    requires { length part.old + 193 ≤ most }
    ensures bytes { part.new ≡ part.old ++ flat_map spelled (access_fields kind access.now) }
    ensures len { length part.new ≤ length part.old + 193 }
{
    match kind {
        VnodeKind::Directory => part.field(b'A', access),
        VnodeKind::File | VnodeKind::Symlink => {}
    }
}

fn put_late(part: &mut Part, vnode: &Vnode)
    requires { length part.old + 206 ≤ most }
    ensures bytes { part.new ≡ part.old ++ flat_map spelled (late_fields vnode.now) }
    ensures len { length part.new ≤ length part.old + 206 }
{
    part.short(b'b', vnode.mode);
    part.numbers(&[(b'p', vnode.parent), (b's', vnode.server_modified)]);
    put_access(part, vnode.kind, &vnode.access);
}

/// The section of a whole vnode, up to the length of its data.
pub fn put_whole(part: &mut Part, vnode: &Vnode)
    requires { length vnode.now.body < 2 ^ 32 }
    ensures { part.new ≡ whole_head vnode.now }
{
    put_kept(part, vnode.number, vnode.uniq);
    put_early(part, vnode);
    put_late(part, vnode);
    part.number(b'f', vnode.body.len() as u32);
}
