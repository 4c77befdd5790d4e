//! The lines of a database that is saved or verified.

ghost use Rattle.std.specs.Prelude.{◌≡◌, ◌++◌, IfOk, OnOk};
ghost use Rattle.backup_replies.specs.Saves.{saved_lines, back_lines, dumpset_line, lost_line, broken_line, verified_line};

use crate::putting::{put_number, put_ok, put_word};
use bk_text::{Bytes, Name, Out};
use std::alloc::{AllocError, Global};

/// The reply of a database that was saved: how many bytes it has, and the slot of its tape.
pub fn saved_lines(alloc: Global, bytes: u64, slot: u32) -> Result<Bytes, AllocError>
    ensures { IfOk result (λ text. text ≡ saved_lines bytes slot) }
{
    let mut text = Out::new(alloc);
    text.piece(b"saved")?;
    put_number(&mut text, bytes)?;
    text.piece(b" bytes slot")?;
    put_number(&mut text, slot as u64)?;
    text.byte(b'\n')?;
    put_ok(&mut text)?;
    Ok(text.into_bytes())
}

/// The reply of a database that was read back: how many dumps are listed.
pub fn back_lines(alloc: Global, dumps: u64) -> Result<Bytes, AllocError>
    ensures { IfOk result (λ text. text ≡ back_lines dumps) }
{
    let mut text = Out::new(alloc);
    text.piece(b"database dumps")?;
    put_number(&mut text, dumps)?;
    text.byte(b'\n')?;
    put_ok(&mut text)?;
    Ok(text.into_bytes())
}

/// Puts the line of the listed dumps of an initial id behind a text.
pub fn put_dumpset(text: &mut Out, initial: u32, dumps: u32) -> Result<(), AllocError>
    ensures { OnOk result (text.new ≡ text.old ++ dumpset_line initial dumps) }
{
    text.piece(b"dumpset")?;
    put_number(text, initial as u64)?;
    text.piece(b" dumps")?;
    put_number(text, dumps as u64)?;
    text.byte(b'\n')?;
    Ok(())
}

/// Puts the line of an initial dump that isn't listed behind a text.
pub fn put_lost(text: &mut Out, initial: u32) -> Result<(), AllocError>
    ensures { OnOk result (text.new ≡ text.old ++ lost_line initial) }
{
    text.piece(b"lost")?;
    put_number(text, initial as u64)?;
    text.byte(b'\n')?;
    Ok(())
}

/// Puts the line of a volume whose chain of dumps stops at an id behind a text.
pub fn put_broken(text: &mut Out, id: u32, volume: &Name, at: u32) -> Result<(), AllocError>
    ensures { OnOk result (text.new ≡ text.old ++ broken_line id volume.now at) }
{
    text.piece(b"broken")?;
    put_number(text, id as u64)?;
    put_word(text, volume.bytes())?;
    text.piece(b" at")?;
    put_number(text, at as u64)?;
    text.byte(b'\n')?;
    Ok(())
}

/// Puts the line that counts the listed dumps, and the lines of lost dumps and broken chains, behind a text.
pub fn put_verified(text: &mut Out, dumps: u64, broken: u64) -> Result<(), AllocError>
    ensures { OnOk result (text.new ≡ text.old ++ verified_line dumps broken) }
{
    text.piece(b"verified")?;
    put_number(text, dumps)?;
    text.piece(b" broken")?;
    put_number(text, broken)?;
    text.byte(b'\n')?;
    Ok(())
}
