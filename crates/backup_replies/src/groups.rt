//! The lines of the dumps of a group.

ghost use Rattle.std.specs.Prelude.{◌≡◌, ◌++◌, IfOk, OnOk};
ghost use Rattle.backup_replies.specs.Groups.{held_line, killed_line, job_line};

use crate::dumps::put_dump_name;
use crate::putting::{put_number, put_word};
use bk_text::{Bytes, LevelPath, Out, SetName};
use std::alloc::{AllocError, Global};

/// The reply to a dump that a group holds, with its number there, which counts from 1.
pub fn held_line(alloc: Global, number: u64) -> Result<Bytes, AllocError>
    ensures { IfOk result (λ line. line ≡ held_line number) }
{
    let mut line = Out::new(alloc);
    line.piece(b"held")?;
    put_number(&mut line, number)?;
    line.byte(b'\n')?;
    Ok(line.into_bytes())
}

/// The line of a held dump that was killed, with its number in the group and its id.
pub fn put_killed(line: &mut Out, number: u64, id: u32) -> Result<(), AllocError>
    ensures { OnOk result (line.new ≡ line.old ++ killed_line number id) }
{
    line.piece(b"killed")?;
    put_number(line, number)?;
    put_number(line, id as u64)?;
    line.byte(b'\n')?;
    Ok(())
}

/// The line of a dump of the last group, with its number there, its id, its name and the word of its state.
pub fn put_job(
    line: &mut Out,
    number: u64,
    id: u32,
    set: &SetName,
    level: &LevelPath,
    state: &[u8],
) -> Result<(), AllocError>
    ensures { OnOk result (line.new ≡ line.old ++ job_line number id set.now level.now state.now) }
{
    line.piece(b"job")?;
    put_number(line, number)?;
    put_number(line, id as u64)?;
    put_dump_name(line, set, level)?;
    put_word(line, state)?;
    line.byte(b'\n')?;
    Ok(())
}
