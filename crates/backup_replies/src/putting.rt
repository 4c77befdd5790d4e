//! Words and numbers put behind a text.

ghost use Rattle.std.specs.Prelude.{◌≡◌, ◌++◌, OnOk, IfOk};
ghost use Rattle.backup_replies.specs.Texts.{then_word, then_number, ok_line, refused};

use crate::refusals::Refusal;
use bk_text::{Bytes, Out};
use itoa::Buffer;
use std::alloc::{AllocError, Global};

/// A word behind a space.
pub(crate) fn put_word(line: &mut Out, word: &[u8]) -> Result<(), AllocError>
    ensures { OnOk result (line.new ≡ line.old ++ then_word word.now) }
{
    line.byte(b' ')?;
    line.piece(word)?;
    Ok(())
}

/// A number behind a space.
pub(crate) fn put_number(line: &mut Out, number: u64) -> Result<(), AllocError>
    ensures { OnOk result (line.new ≡ line.old ++ then_number number) }
{
    let mut buffer = Buffer::new();
    put_word(line, buffer.format(number).as_bytes())?;
    Ok(())
}

/// A refusal, by its number and its name.
pub(crate) fn put_refused(line: &mut Out, refusal: Refusal) -> Result<(), AllocError>
    ensures { OnOk result (line.new ≡ line.old ++ refused refusal) }
{
    line.piece(b"refused")?;
    put_word(line, refusal.text())?;
    Ok(())
}

/// The line of a command that is done.
pub fn put_ok(line: &mut Out) -> Result<(), AllocError>
    ensures { OnOk result (line.new ≡ line.old ++ ok_line) }
{
    line.piece(b"ok\n")?;
    Ok(())
}

/// The reply of a command that is done and tells nothing.
pub fn ok_line(alloc: Global) -> Result<Bytes, AllocError>
    ensures { IfOk result (λ line. line ≡ ok_line) }
{
    let mut line = Out::new(alloc);
    line.piece(b"ok\n")?;
    Ok(line.into_bytes())
}
