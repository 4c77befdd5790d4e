//! Fields of numbers, and lists.

use bk_text::{Bytes, Cursor, List, Out, Short, bytes_of_u32, read_u16, read_u64};
use std::alloc::{AllocError, Global};
use std::test::Fail;

fn written(alloc: Global) -> Result<Bytes, AllocError> {
    let mut out = Out::new(alloc);
    out.byte(1)?;
    out.two(0x0203)?;
    out.four(0x0405_0607)?;
    out.eight(0x0809_0a0b_0c0d_0e0f)?;
    out.piece(b"rest")?;
    Ok(out.into_bytes())
}

fn numbers(bytes: &[u8]) -> Result<(u8, u16, u32, u64), Short> {
    let mut cursor = Cursor::new(bytes);
    Ok((
        cursor.byte()?,
        cursor.two()?,
        cursor.four()?,
        cursor.eight()?,
    ))
}

fn is_big_endian(alloc: Global) -> bool {
    let want = (1, 0x0203, 0x0405_0607, 0x0809_0a0b_0c0d_0e0f);
    match written(alloc) {
        Ok(bytes) => {
            bytes.as_slice()
                == b"\x01\x02\x03\x04\x05\x06\x07\x08\x09\x0a\x0b\x0c\x0d\x0e\x0frest".as_slice()
                && numbers(bytes.as_slice()) == Ok(want)
        }
        Err(_) => false,
    }
}

#[test]
fn fields_are_big_endian(rt: HostRuntime) {
    assert!(rt; is_big_endian(rt.alloc()));
    assert!(rt; numbers(b"abc") == Err(Short { at: 3 }));
}

fn fronts_are_read() -> bool {
    read_u16(b"\x01\x02\x03") == 0x0102
        && read_u64(b"\x01\x02\x03\x04\x05\x06\x07\x08") == 0x0102_0304_0506_0708
        && bytes_of_u32(0x0a0b_0c0d) == [0x0a, 0x0b, 0x0c, 0x0d]
}

#[test]
fn numbers_stand_at_the_front(rt: HostRuntime) {
    assert!(rt; fronts_are_read());
}

/// A list that grew, was cut, lost an element by its place and others by what they are, and was copied twice.
fn changed(alloc: Global) -> Result<List<u8>, AllocError> {
    let mut list = List::from_slice(alloc, &[1, 2, 3, 4, 5, 6])?;
    list.truncate(5);
    list.push(9)?;
    let _third = list.remove(2);
    list.retain(|number| *number != 4);
    list.clone()?.copy()
}

fn loses_its_last(mut list: List<u8>) -> bool {
    list.as_slice() == [1, 2, 5, 9].as_slice() && list.pop() == Some(9)
}

#[test]
fn lists_grow_and_shrink(rt: HostRuntime) -> Result<(), Fail> {
    let list = changed(rt.alloc())?;
    assert!(rt; loses_its_last(list));
    Ok(())
}
