//! What a rehearsal tells.

ghost use Rattle.std.specs.Prelude.{◌≡◌, ◌++◌, OnOk, IfOk};
ghost use Rattle.backup_replies.specs.Texts.{then_number};
ghost use Rattle.rehearsal.specs.Counts.{lines_with};
ghost use Rattle.rehearsal.specs.Lines.{dump_lines, restore_lines, tally_lines};

use bk_text::{Bytes, Out};
use itoa::Buffer;
use std::alloc::{AllocError, Global};

/// What is counted of a rehearsal.
#[derive(Clone, Copy, Debug, PartialEq, Eq, Drop)]
pub struct Tally {
    /// How many volumes were made.
    pub volumes: u64,
    /// How many dumps were made.
    pub dumps: u64,
    /// How many blocks the tapes have behind the dumps.
    pub blocks: u64,
    /// How many filemarks they have.
    pub marks: u64,
    /// How many dumps a scan adds to an empty journal, with one tape out.
    pub found: u64,
    /// How many restores are refused then, since a dump is missing.
    pub missing: u64,
    /// How many dumps a scan adds with the tape put back.
    pub added: u64,
    /// How many volumes are restored then.
    pub restored: u64,
    /// How many restored volumes have the vnodes of those that they were dumped from.
    pub equal: u64,
    /// The bytes of their data.
    pub bytes: u64,
}

/// How many lines of a text begin so.
pub fn lines_with(front: &[u8], text: &[u8]) -> u64
    ensures { result ≡ lines_with front.now text.now }
{
    text.split(|byte| *byte == b'\n')
        .filter(|line| line.starts_with(front))
        .count() as u64
}

fn put_number(lines: &mut Out, number: u64) -> Result<(), AllocError>
    ensures { OnOk result (lines.new ≡ lines.old ++ then_number number) }
{
    let mut buffer = Buffer::new();
    lines.byte(b' ')?;
    lines.piece(buffer.format(number).as_bytes())?;
    Ok(())
}

/// Puts a text and a number.
fn put_told(lines: &mut Out, text: &[u8], number: u64) -> Result<(), AllocError>
    ensures { OnOk result (lines.new ≡ lines.old ++ text.now ++ then_number number) }
{
    lines.piece(text)?;
    put_number(lines, number)?;
    Ok(())
}

/// Puts the lines on the dumps.
fn put_dumps(lines: &mut Out, tally: &Tally) -> Result<(), AllocError>
    ensures { OnOk result (lines.new ≡ lines.old ++ dump_lines tally.now) }
{
    put_told(lines, b"rehearse", tally.volumes)?;
    put_told(lines, b"\ndumps", tally.dumps)?;
    put_told(lines, b" blocks", tally.blocks)?;
    put_told(lines, b" marks", tally.marks)?;
    lines.byte(b'\n')?;
    Ok(())
}

/// Puts the lines on the restores, and the last one.
fn put_restores(lines: &mut Out, tally: &Tally) -> Result<(), AllocError>
    ensures { OnOk result (lines.new ≡ lines.old ++ restore_lines tally.now) }
{
    put_told(lines, b"added", tally.found)?;
    put_told(lines, b" missing", tally.missing)?;
    put_told(lines, b"\nadded", tally.added)?;
    put_told(lines, b" restored", tally.restored)?;
    put_told(lines, b" equal", tally.equal)?;
    put_told(lines, b" bytes", tally.bytes)?;
    lines.piece(b"\nok\n")?;
    Ok(())
}

/// The five lines.
pub fn lines_of(alloc: Global, tally: &Tally) -> Result<Bytes, AllocError>
    ensures { IfOk result (λ lines. lines ≡ tally_lines tally.now) }
{
    let mut lines = Out::new(alloc);
    put_dumps(&mut lines, tally)?;
    put_restores(&mut lines, tally)?;
    Ok(lines.into_bytes())
}
