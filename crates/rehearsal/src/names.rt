//! The names of a rehearsal, as values of their types. Each text is of its form, so that only want of memory is an error.

ghost use Rattle.std.specs.Prelude.{◌≡◌, ◌++◌, OnOk, IfOk};
ghost use Rattle.rehearsal.specs.Names.{partition, extension, volume_name, copy_name};

use bk_text::{Bytes, Host, LevelPath, Name, Out, Part, SetName};
use itoa::Buffer;
use std::alloc::{AllocError, Global};
use volume_sets::Pattern;

/// The server of this name.
pub fn host(alloc: Global, text: &[u8]) -> Result<Host, AllocError>
    ensures { IfOk result (λ host. host ≡ text.now) }
{
    match Host::parse(alloc, text) {
        Ok(host) => Ok(host),
        Err(_) => Err(AllocError),
    }
}

/// The partition of all volumes.
pub fn partition(alloc: Global) -> Result<Part, AllocError>
    ensures { IfOk result (λ part. part ≡ partition) }
{
    match Name::parse(alloc, b"vicepa") {
        Ok(name) => Part::from_bytes(alloc, name.bytes()),
        Err(_) => Err(AllocError),
    }
}

/// The volume of this name.
fn name(alloc: Global, text: &[u8]) -> Result<Name, AllocError>
    ensures { IfOk result (λ name. name ≡ text.now) }
{
    match Name::parse(alloc, text) {
        Ok(name) => Ok(name),
        Err(_) => Err(AllocError),
    }
}

/// The volume set of this name.
pub fn set(alloc: Global, text: &[u8]) -> Result<SetName, AllocError>
    ensures { IfOk result (λ set. set ≡ text.now) }
{
    match SetName::parse(alloc, text) {
        Ok(set) => Ok(set),
        Err(_) => Err(AllocError),
    }
}

/// The pattern of this text.
pub fn pattern(alloc: Global, text: &[u8]) -> Result<Pattern, AllocError>
    ensures { IfOk result (λ pattern. pattern ≡ text.now) }
{
    match Pattern::parse(alloc, text) {
        Ok(pattern) => Ok(pattern),
        Err(_) => Err(AllocError),
    }
}

/// The dump level of this path.
pub fn level(alloc: Global, text: &[u8]) -> Result<LevelPath, AllocError>
    ensures { IfOk result (λ level. level ≡ text.now) }
{
    match LevelPath::parse(alloc, text) {
        Ok(level) => Ok(level),
        Err(_) => Err(AllocError),
    }
}

/// Puts the name of a volume behind a text.
fn put_name(text: &mut Out, volume: u32) -> Result<(), AllocError>
    ensures { OnOk result (text.new ≡ text.old ++ volume_name volume) }
{
    let mut buffer = Buffer::new();
    text.piece(b"reh.")?;
    text.piece(buffer.format(volume).as_bytes())?;
    Ok(())
}

/// The name of a volume, by its number.
pub fn volume_name(alloc: Global, volume: u32) -> Result<Name, AllocError>
    ensures { IfOk result (λ name. name ≡ volume_name volume) }
{
    let mut text = Out::new(alloc);
    put_name(&mut text, volume)?;
    name(alloc, text.as_slice())
}

/// The bytes of the name that a volume is restored under.
pub fn copy_name(alloc: Global, volume: u32) -> Result<Bytes, AllocError>
    ensures { IfOk result (λ name. name ≡ copy_name volume) }
{
    let mut text = Out::new(alloc);
    put_name(&mut text, volume)?;
    text.piece(b".r")?;
    Ok(text.into_bytes())
}

/// What is put behind the name of a volume that is restored.
pub fn extension(alloc: Global) -> Result<Bytes, AllocError>
    ensures { IfOk result (λ text. text ≡ extension) }
{
    Bytes::from_slice(alloc, b".r")
}
