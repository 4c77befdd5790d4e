//! The lines that `examine` tells.

ghost use Rattle.std.specs.Prelude.{◌≡◌, ◌++◌, OnOk, OnErr, IfOk, codes};
ghost use Rattle.vnode_model.specs.declared.vnodes.VnodeKind.{VnodeKind};
ghost use Rattle.backup_top.specs.Replies.{then_word, then_number, kind_word, refused, entry_line, volume_line, cut_line, bad_line};

use crate::refusals::Refusal;
use bk_text::{Bytes, Out};
use itoa::Buffer;
use std::alloc::{AllocError, Global};
use vnode_model::{Entry, Increment, Vnode, VnodeKind};

fn put_word(line: &mut Out, word: &[u8]) -> Result<(), AllocError>
    ensures { OnOk result (line.new ≡ line.old ++ then_word word.now) }
{
    line.byte(b' ')?;
    line.piece(word)?;
    Ok(())
}

fn put_number(line: &mut Out, number: u64) -> Result<(), AllocError>
    ensures { OnOk result (line.new ≡ line.old ++ then_number number) }
{
    let mut buffer = Buffer::new();
    put_word(line, buffer.format(number).as_bytes())?;
    Ok(())
}

fn word_of(kind: VnodeKind) -> &'static [u8]
    ensures { result.now ≡ kind_word kind }
{
    match kind {
        VnodeKind::File => b"file",
        VnodeKind::Directory => b"dir",
        VnodeKind::Symlink => b"link",
    }
}

fn put_vnode(line: &mut Out, vnode: &Vnode) -> Result<(), AllocError>
    ensures { OnOk result (line.new ≡ line.old ++ entry_line (Entry.Whole vnode.now)) }
{
    line.piece(word_of(vnode.kind))?;
    put_number(line, vnode.number as u64)?;
    put_number(line, vnode.uniq as u64)?;
    put_number(line, vnode.body.len() as u64)?;
    put_number(line, vnode.server_modified as u64)?;
    line.byte(b'\n')?;
    Ok(())
}

fn put_kept(line: &mut Out, number: u32, uniq: u32) -> Result<(), AllocError>
    ensures { OnOk result (line.new ≡ line.old ++ entry_line (Entry.Kept number uniq)) }
{
    line.piece(b"kept")?;
    put_number(line, number as u64)?;
    put_number(line, uniq as u64)?;
    line.byte(b'\n')?;
    Ok(())
}

/// The line of an entry.
pub fn line_of_entry(alloc: Global, entry: &Entry) -> Result<Bytes, AllocError>
    ensures { IfOk result (λ line. line ≡ entry_line entry.now) }
{
    let mut line = Out::new(alloc);
    match entry {
        Entry::Whole(vnode) => put_vnode(&mut line, vnode)?,
        Entry::Kept { number, uniq } => put_kept(&mut line, *number, *uniq)?,
    }
    Ok(line.into_bytes())
}

/// Puts a number behind its name.
fn put_named(line: &mut Out, name: &[u8], number: u32) -> Result<(), AllocError>
    ensures { OnOk result (line.new ≡ line.old ++ name.now ++ then_number number) }
{
    line.piece(name)?;
    put_number(line, number as u64)?;
    Ok(())
}

/// Puts the line of a stream's volume.
fn put_volume(line: &mut Out, increment: &Increment) -> Result<(), AllocError>
    ensures { OnOk result (line.new ≡ line.old ++ volume_line increment.now) }
{
    let fields = increment.fields();
    line.piece(b"volume")?;
    put_word(line, fields.dump_name.bytes())?;
    put_number(line, fields.dump_id as u64)?;
    put_named(line, b" from", fields.from)?;
    put_named(line, b" to", fields.to)?;
    line.byte(b'\n')?;
    Ok(())
}

/// The line of a stream's volume.
pub fn line_of_volume(alloc: Global, increment: &Increment) -> Result<Bytes, AllocError>
    ensures { IfOk result (λ line. line ≡ volume_line increment.now) }
{
    let mut line = Out::new(alloc);
    put_volume(&mut line, increment)?;
    Ok(line.into_bytes())
}

fn put_refused(line: &mut Out, refusal: Refusal) -> Result<(), AllocError>
    ensures { OnOk result (line.new ≡ line.old ++ refused refusal) }
{
    line.piece(b"refused")?;
    put_number(line, refusal.number() as u64)?;
    put_word(line, refusal.name())?;
    Ok(())
}

/// The line of a proper prefix of a stream.
pub fn line_of_cut(alloc: Global, length: usize) -> Result<Bytes, AllocError>
    ensures { IfOk result (λ line. line ≡ cut_line length) }
{
    let mut line = Out::new(alloc);
    put_refused(&mut line, Refusal::CutStream)?;
    put_number(&mut line, length as u64)?;
    line.byte(b'\n')?;
    Ok(line.into_bytes())
}

/// The line of bytes that are no stream from a place on.
pub fn line_of_bad(alloc: Global, at: usize) -> Result<Bytes, AllocError>
    ensures { IfOk result (λ line. line ≡ bad_line at) }
{
    let mut line = Out::new(alloc);
    put_refused(&mut line, Refusal::BadImage)?;
    put_word(&mut line, b"stream")?;
    put_number(&mut line, at as u64)?;
    line.byte(b'\n')?;
    Ok(line.into_bytes())
}
