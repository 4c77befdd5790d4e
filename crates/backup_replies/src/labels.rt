//! The lines of the labels of tapes.

ghost use Rattle.std.specs.Prelude.{◌≡◌, ◌++◌, codes, OnOk, IfOk};
ghost use Rattle.backup_replies.specs.Texts.{then_word, then_number, line_feed, ok_line};
ghost use Rattle.backup_replies.specs.Labels.{name_or_dash, labeled_lines, label_lines};

use crate::putting::{put_number, put_ok, put_word};
use bk_text::{Bytes, Out};
use std::alloc::{AllocError, Global};

/// A name, or `-` where there is none, behind a space.
pub(crate) fn put_name(line: &mut Out, name: &[u8]) -> Result<(), AllocError>
    ensures { OnOk result (line.new ≡ line.old ++ then_word (name_or_dash name.now)) }
{
    if name.is_empty() {
        put_word(line, b"-")
    } else {
        put_word(line, name)
    }
}

/// The names of a label.
fn put_names(line: &mut Out, afs: &[u8], permanent: &[u8]) -> Result<(), AllocError>
    ensures { OnOk result (line.new ≡ line.old ++ (codes "label" ++ then_word (name_or_dash afs.now) ++ then_word (name_or_dash permanent.now))) }
{
    line.piece(b"label")?;
    put_name(line, afs)?;
    put_name(line, permanent)
}

/// The initial id and the tape of a label.
fn put_place(line: &mut Out, initial: u32, tape: u32) -> Result<(), AllocError>
    ensures { OnOk result (line.new ≡ line.old ++ (codes " initial" ++ then_number initial ++ codes " tape" ++ then_number tape)) }
{
    line.piece(b" initial")?;
    put_number(line, initial as u64)?;
    line.piece(b" tape")?;
    put_number(line, tape as u64)
}

/// The slot of a label, which ends its line, and the line of a command that is done.
fn put_end(line: &mut Out, slot: u32) -> Result<(), AllocError>
    ensures { OnOk result (line.new ≡ line.old ++ (codes " slot" ++ then_number slot ++ line_feed ++ ok_line)) }
{
    line.piece(b" slot")?;
    put_number(line, slot as u64)?;
    line.byte(b'\n')?;
    put_ok(line)
}

/// The reply of a tape that was labeled.
pub fn labeled_lines(
    alloc: Global,
    afs: &[u8],
    permanent: &[u8],
    slot: u32,
) -> Result<Bytes, AllocError>
    ensures { IfOk result (λ lines. lines ≡ labeled_lines afs.now permanent.now slot) }
{
    let mut lines = Out::new(alloc);
    put_names(&mut lines, afs, permanent)?;
    put_end(&mut lines, slot)?;
    Ok(lines.into_bytes())
}

/// The reply of a label that was read.
pub fn label_lines(
    alloc: Global,
    afs: &[u8],
    permanent: &[u8],
    initial: u32,
    tape: u32,
    slot: u32,
) -> Result<Bytes, AllocError>
    ensures { IfOk result (λ lines. lines ≡ label_lines afs.now permanent.now initial tape slot) }
{
    let mut lines = Out::new(alloc);
    put_names(&mut lines, afs, permanent)?;
    put_place(&mut lines, initial, tape)?;
    put_end(&mut lines, slot)?;
    Ok(lines.into_bytes())
}
