//! The lines of refusals.

ghost use Rattle.std.specs.Prelude.{◌≡◌, ◌++◌, IfOk, OnOk};
ghost use Rattle.backup_replies.specs.Texts.{refused_alone, refused_word, refused_number, refused_at, refused_numbers};

use crate::putting::{put_number, put_refused, put_word};
use crate::refusals::Refusal;
use bk_text::{Bytes, Out};
use std::alloc::{AllocError, Global};

/// The line of a refusal with nothing behind it.
pub fn refused_alone(alloc: Global, refusal: Refusal) -> Result<Bytes, AllocError>
    ensures { IfOk result (λ line. line ≡ refused_alone refusal) }
{
    let mut line = Out::new(alloc);
    put_refused(&mut line, refusal)?;
    line.byte(b'\n')?;
    Ok(line.into_bytes())
}

/// The line of a refusal of a word.
pub fn refused_word(alloc: Global, refusal: Refusal, word: &[u8]) -> Result<Bytes, AllocError>
    ensures { IfOk result (λ line. line ≡ refused_word refusal word.now) }
{
    let mut line = Out::new(alloc);
    put_refused(&mut line, refusal)?;
    put_word(&mut line, word)?;
    line.byte(b'\n')?;
    Ok(line.into_bytes())
}

/// Puts the line of a refusal of a number behind a text.
pub fn put_refused_number(line: &mut Out, refusal: Refusal, number: u64) -> Result<(), AllocError>
    ensures { OnOk result (line.new ≡ line.old ++ refused_number refusal number) }
{
    put_refused(line, refusal)?;
    put_number(line, number)?;
    line.byte(b'\n')?;
    Ok(())
}

/// Puts the line of a refusal of two numbers behind a text.
pub fn put_refused_numbers(
    line: &mut Out,
    refusal: Refusal,
    first: u64,
    second: u64,
) -> Result<(), AllocError>
    ensures { OnOk result (line.new ≡ line.old ++ refused_numbers refusal first second) }
{
    put_refused(line, refusal)?;
    put_number(line, first)?;
    put_number(line, second)?;
    line.byte(b'\n')?;
    Ok(())
}

/// The line of a refusal of a number.
pub fn refused_number(alloc: Global, refusal: Refusal, number: u64) -> Result<Bytes, AllocError>
    ensures { IfOk result (λ line. line ≡ refused_number refusal number) }
{
    let mut line = Out::new(alloc);
    put_refused(&mut line, refusal)?;
    put_number(&mut line, number)?;
    line.byte(b'\n')?;
    Ok(line.into_bytes())
}

/// The line of a refusal of a word, with a number.
pub fn refused_at(
    alloc: Global,
    refusal: Refusal,
    word: &[u8],
    number: u64,
) -> Result<Bytes, AllocError>
    ensures { IfOk result (λ line. line ≡ refused_at refusal word.now number) }
{
    let mut line = Out::new(alloc);
    put_refused(&mut line, refusal)?;
    put_word(&mut line, word)?;
    put_number(&mut line, number)?;
    line.byte(b'\n')?;
    Ok(line.into_bytes())
}

/// The line of a refusal of two numbers.
pub fn refused_numbers(
    alloc: Global,
    refusal: Refusal,
    first: u64,
    second: u64,
) -> Result<Bytes, AllocError>
    ensures { IfOk result (λ line. line ≡ refused_numbers refusal first second) }
{
    let mut line = Out::new(alloc);
    put_refused(&mut line, refusal)?;
    put_number(&mut line, first)?;
    put_number(&mut line, second)?;
    line.byte(b'\n')?;
    Ok(line.into_bytes())
}
