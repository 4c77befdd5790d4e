//! Increments whose directories are whole, and those of older dumps, in which they stand by number alone.

use crate::writing::{applied, increment_of, written_of};
use bk_text::Bytes;
use std::alloc::{AllocError, Global};
use std::test::Fail;
use vnode_model::{Volume, select};

/// Number, uniquifier, type, server modify time and size of data.
type Row = (u32, u32, u8, u32, u32);

/// The headers of a stream of the volume `user.a`, id 536870912, with no fields but those that must be there.
const HEADERS: [u8; 47] = [
    0x01, 0xb3, 0xa1, 0x13, 0x22, 0x00, 0x00, 0x00, 0x01, 0x76, 0x20, 0x00, 0x00, 0x00, 0x6e, 0x75,
    0x73, 0x65, 0x72, 0x2e, 0x61, 0x00, 0x74, 0x00, 0x02, 0x00, 0x00, 0x00, 0x00, 0x00, 0x00, 0x00,
    0x09, 0x02, 0x69, 0x20, 0x00, 0x00, 0x00, 0x6e, 0x75, 0x73, 0x65, 0x72, 0x2e, 0x61, 0x00,
];

/// A directory and two files of two bytes; only the last one was written at 2000 or later.
const VNODES: [Row; 3] = [(1, 1, 2, 1000, 0), (2, 2, 1, 1999, 2), (4, 3, 1, 2000, 2)];

fn put_number(bytes: &mut Bytes, tag: u8, number: u32) -> Result<(), AllocError> {
    bytes.push(tag)?;
    bytes.extend_from_slice(&number.to_be_bytes())
}

fn put_vnode(bytes: &mut Bytes, row: Row) -> Result<(), AllocError> {
    put_number(bytes, 3, row.0)?;
    bytes.extend_from_slice(&row.1.to_be_bytes())?;
    bytes.extend_from_slice(&[b't', row.2])?;
    put_number(bytes, b's', row.3)?;
    put_number(bytes, b'f', row.4)?;
    if row.4 == 2 {
        bytes.extend_from_slice(b"xx")?;
    }
    Ok(())
}

/// The stream of the volume.
fn user_a(alloc: Global) -> Result<Bytes, AllocError> {
    let mut bytes = Bytes::from_slice(alloc, &HEADERS)?;
    for row in VNODES {
        put_vnode(&mut bytes, row)?;
    }
    bytes.extend_from_slice(&[4, 0x3a, 0x21, 0x4b, 0x6e])?;
    Ok(bytes)
}

/// What is written of a volume's increment from a time on.
fn stream_from(alloc: Global, volume: &Volume, from: u32) -> Result<Bytes, Fail> {
    let increment = select(alloc, volume, from, 9)?;
    Ok(written_of(alloc, &increment)?)
}

fn front(bytes: &[u8], count: usize) -> &[u8] {
    &bytes[..count.min(bytes.len())]
}

fn behind(bytes: &[u8], count: usize) -> &[u8] {
    &bytes[count.min(bytes.len())..]
}

/// The last sections and the end of the increment from 2000 on: file 2 by number alone, and the head of file 4.
const LISTED: [u8; 20] = [
    0x03, 0x00, 0x00, 0x00, 0x02, 0x00, 0x00, 0x00, 0x02, 0x03, 0x00, 0x00, 0x00, 0x04, 0x00, 0x00,
    0x00, 0x03, 0x74, 0x01,
];

/// The volume.
fn volume(alloc: Global) -> Result<Volume, Fail> {
    let bytes = user_a(alloc)?;
    applied(alloc, None, increment_of(alloc, bytes.as_slice())?)
}

/// Whether the increment has the whole directory, file 2 by number alone and file 4.
fn is_whole(stream: &[u8]) -> bool {
    stream.len() == 486
        && behind(stream, 173).starts_with(&[3, 0, 0, 0, 1, 0, 0, 0, 1, b't', 2])
        && behind(stream, 418).starts_with(&LISTED)
}

#[test]
fn a_directory_is_whole(rt: HostRuntime) -> Result<(), Fail> {
    let volume = volume(rt.alloc())?;
    let stream = stream_from(rt.alloc(), &volume, 2000)?;
    assert!(rt; is_whole(stream.as_slice()));
    Ok(())
}

/// The same increment with the directory by number alone, as it was written once.
fn kept_directory(alloc: Global, stream: &[u8]) -> Result<Bytes, AllocError> {
    let mut bytes = Bytes::from_slice(alloc, front(stream, 182))?;
    bytes.extend_from_slice(behind(stream, 418))?;
    Ok(bytes)
}

/// What an increment makes of a volume.
fn with_base(alloc: Global, base: Volume, stream: &[u8]) -> Result<Volume, Fail> {
    match increment_of(alloc, stream) {
        Ok(increment) => applied(alloc, Some(base), increment),
        Err(fail) => Err(fail),
    }
}

/// Whether all of a volume is written so.
fn is_whole_stream(alloc: Global, volume: &Volume, wanted: &[u8]) -> Result<bool, Fail> {
    let bytes = stream_from(alloc, volume, 0)?;
    Ok(bytes.as_slice() == wanted)
}

/// Whether an increment makes the volume itself of the volume.
fn is_restored(alloc: Global, stream: &[u8], wanted: &[u8]) -> Result<bool, Fail> {
    let base = volume(alloc)?;
    let restored = with_base(alloc, base, stream)?;
    is_whole_stream(alloc, &restored, wanted)
}

/// Whether its increment does, and the one with the directory by number alone.
fn are_restored(alloc: Global, stream: &[u8], wanted: &[u8]) -> Result<bool, Fail> {
    let old_form = kept_directory(alloc, stream)?;
    let is_old = is_restored(alloc, old_form.as_slice(), wanted)?;
    let is_new = is_restored(alloc, stream, wanted)?;
    Ok(old_form.as_slice().len() == 250 && is_old && is_new)
}

fn all_are_restored(alloc: Global, volume: &Volume) -> Result<bool, Fail> {
    let wanted = stream_from(alloc, volume, 0)?;
    let stream = stream_from(alloc, volume, 2000)?;
    are_restored(alloc, stream.as_slice(), wanted.as_slice())
}

#[test]
fn a_directory_by_number_alone_is_read_and_applied(rt: HostRuntime) -> Result<(), Fail> {
    let volume = volume(rt.alloc())?;
    assert!(rt; all_are_restored(rt.alloc(), &volume)?);
    Ok(())
}
