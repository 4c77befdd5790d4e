//! Writing a stream.

ghost use Rattle.std.specs.Prelude.{◌≡◌, ◌<◌, ◌^◌, ◌++◌, length, map, All, OnOk, OnErr};
ghost use Rattle.std.specs.List.{flat_map};
ghost use Rattle.vnode_model.specs.Limits.{IsFit};
ghost use Rattle.dump_stream.specs.Stream.{section};
ghost use Rattle.dump_stream.specs.Written.{section_of, written};
ghost use Rattle.dump_stream.specs.Parts.{kept_head, whole_head, HoldsFront};

use crate::part::Part;
use crate::sections::{put_end, put_headers, put_kept, put_whole};
use bk_text::Out;
use vnode_model::{Entry, Increment, Memory, Vnode};

fn write_whole(part: &mut Part, vnode: &Vnode, out: &mut Out) -> Result<(), Memory>
    requires { length vnode.now.body < 2 ^ 32 }
    ensures ok { OnOk result (out.new ≡ out.old ++ (whole_head vnode.now ++ vnode.now.body)) }
    ensures err { OnErr result (HoldsFront out.old (whole_head vnode.now ++ vnode.now.body) out.new) }
{
    put_whole(part, vnode);
    out.piece(part.as_slice())?;
    out.piece(vnode.body.as_slice())?;
    Ok(())
}

fn write_kept(part: &mut Part, number: u32, uniq: u32, out: &mut Out) -> Result<(), Memory>
    ensures ok { OnOk result (out.new ≡ out.old ++ kept_head number uniq) }
    ensures err { OnErr result (out.new ≡ out.old) }
{
    put_kept(part, number, uniq);
    out.piece(part.as_slice())?;
    Ok(())
}

fn write_entry(part: &mut Part, entry: &Entry, out: &mut Out) -> Result<(), Memory>
    requires { IsFit entry.now }
    ensures ok { OnOk result (out.new ≡ out.old ++ section (section_of entry.now)) }
    ensures err { OnErr result (HoldsFront out.old (section (section_of entry.now)) out.new) }
{
    match entry {
        Entry::Whole(vnode) => {
            write_whole(part, vnode, out)?;
            Ok(())
        }
        Entry::Kept { number, uniq } => {
            write_kept(part, *number, *uniq, out)?;
            Ok(())
        }
    }
}

fn write_entries(part: &mut Part, entries: &[Entry], out: &mut Out) -> Result<(), Memory>
    requires { All IsFit entries.now }
    ensures ok { OnOk result (out.new ≡ out.old ++ flat_map section (map section_of entries.now)) }
    ensures err { OnErr result (HoldsFront out.old (flat_map section (map section_of entries.now)) out.new) }
{
    for entry in entries {
        write_entry(part, entry, out)?;
    }
    Ok(())
}

/// Writes the stream of an increment behind what `out` holds. The format is the AFS volume dump format, version 1: each
/// field in the table's order, also where it is 0 or empty, but a volume update counter only where there is one, a
/// group only where it isn't 0, an access list only for a directory.
///
/// # Errors
///
/// `Memory` where memory is refused; `out` then holds a front of the stream more than before.
pub fn write(increment: &Increment, out: &mut Out) -> Result<(), Memory>
    ensures ok { OnOk result (out.new ≡ out.old ++ written increment.now) }
    ensures err { OnErr result (HoldsFront out.old (written increment.now) out.new) }
{
    let fields = increment.fields();
    let mut part = Part::new();
    put_headers(
        &mut part,
        fields.dump_id,
        &fields.dump_name,
        fields.from,
        fields.to,
        &fields.header,
    );
    out.piece(part.as_slice())?;
    write_entries(&mut part, fields.entries.as_slice(), out)?;
    put_end(&mut part);
    out.piece(part.as_slice())?;
    Ok(())
}
