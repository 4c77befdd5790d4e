// The bytes of a log's file, written out by hand: of a slot the gate, the turn, six zeros, eight bytes with the start and eight
// with the size, the highest first; the second slot begins at 4,096, what was put at 8,192.

use crate::rows::{add, check, media_with};
use crash_log::CrashLog;
use media_core::Media;
use std::alloc::{AllocError, Global};
use std::test::Fail;

/// An empty log behind the slots, of turn 0.
const FORMATTED: [u8; 24] = [
    1, 0, 0, 0, 0, 0, 0, 0, 0, 0, 0, 0, 0, 0, 32, 0, 0, 0, 0, 0, 0, 0, 0, 0,
];

/// A slot that nothing was written to.
const CLOSED: [u8; 24] = [0; 24];

/// Three bytes behind the slots, of turn 1.
const THREE: [u8; 24] = [
    1, 1, 0, 0, 0, 0, 0, 0, 0, 0, 0, 0, 0, 0, 32, 0, 0, 0, 0, 0, 0, 0, 0, 3,
];

/// Four bytes behind the slots, of turn 2.
const FOUR: [u8; 24] = [
    1, 2, 0, 0, 0, 0, 0, 0, 0, 0, 0, 0, 0, 0, 32, 0, 0, 0, 0, 0, 0, 0, 0, 4,
];

/// Two bytes at 8,195, of turn 2.
const TWO_BEHIND: [u8; 24] = [
    1, 2, 0, 0, 0, 0, 0, 0, 0, 0, 0, 0, 0, 0, 32, 3, 0, 0, 0, 0, 0, 0, 0, 2,
];

/// One byte behind the slots, of turn 0.
const ONE: [u8; 24] = [
    1, 0, 0, 0, 0, 0, 0, 0, 0, 0, 0, 0, 0, 0, 32, 0, 0, 0, 0, 0, 0, 0, 0, 1,
];

/// All bytes of a file.
fn raw<M: Media>(alloc: Global, media: &mut M, f: u32) -> Result<Vec<u8>, Fail> {
    check(media.here(f))?;
    let length = media.len(f)?;
    let mut bytes = vec![in alloc; 0; length as usize]?;
    media.read(f, 0, &mut bytes)?;
    Ok(bytes)
}

/// A file with the first bytes of its slots, each filled up to 4,096 bytes with one byte, and what stands behind them.
fn file_of(
    alloc: Global,
    fill: u8,
    first: &[u8],
    second: &[u8],
    behind: &[u8],
) -> Result<Vec<u8>, AllocError> {
    let rest = [fill; 4072];
    let mut file = first.to_vec(alloc)?;
    file.extend_from_slice(&rest)?;
    file.extend_from_slice(second)?;
    file.extend_from_slice(&rest)?;
    file.extend_from_slice(behind)?;
    Ok(file)
}

#[test]
fn a_blank_file_is_formatted_and_committed(rt: HostRuntime) -> Result<(), Fail> {
    let mut media = media_with(rt.alloc(), &[255; 100])?;
    for (piece, commits, first, second, behind) in [
        ([].as_slice(), false, FORMATTED, CLOSED, [].as_slice()),
        (&[7, 8, 9], true, FORMATTED, THREE, &[7, 8, 9]),
        (&[5], true, FOUR, THREE, &[7, 8, 9, 5]),
    ] {
        add(&mut media, 1, piece, commits)?;
        let want = file_of(rt.alloc(), 0, &first, &second, behind)?;
        assert_eq!(rt; raw(rt.alloc(), &mut media, 1)?.as_slice(), want.as_slice());
    }
    Ok(())
}

#[test]
fn a_damaged_file_is_formatted_and_committed(rt: HostRuntime) -> Result<(), Fail> {
    let mut file = [255; 8192];
    file[4096] = 1;
    let mut closed = [255; 24];
    closed[0] = 0;
    let mut media = media_with(rt.alloc(), &file)?;
    for (piece, commits, second, behind) in [
        ([].as_slice(), false, closed, [].as_slice()),
        (&[7, 8, 9], true, THREE, &[7, 8, 9]),
    ] {
        add(&mut media, 1, piece, commits)?;
        let want = file_of(rt.alloc(), 255, &FORMATTED, &second, behind)?;
        assert_eq!(rt; raw(rt.alloc(), &mut media, 1)?.as_slice(), want.as_slice());
    }
    Ok(())
}

/// Replaces the log of a file.
fn replace<M: Media>(media: &mut M, f: u32, bytes: &[u8]) -> Result<(), Fail> {
    check(media.here(f))?;
    let mut log = CrashLog::open(media, f, 100)?;
    log.replace(media, bytes)?;
    Ok(())
}

#[test]
fn a_log_is_replaced_apart_from_itself(rt: HostRuntime) -> Result<(), Fail> {
    let mut media = media_with(rt.alloc(), &[])?;
    add(&mut media, 1, &[7, 8, 9], true)?;
    for (bytes, first, second, behind) in [
        ([6, 6].as_slice(), TWO_BEHIND, THREE, [7, 8, 9, 6, 6]),
        (&[4], TWO_BEHIND, ONE, [4, 8, 9, 6, 6]),
    ] {
        replace(&mut media, 1, bytes)?;
        let want = file_of(rt.alloc(), 0, &first, &second, &behind)?;
        assert_eq!(rt; raw(rt.alloc(), &mut media, 1)?.as_slice(), want.as_slice());
    }
    Ok(())
}
