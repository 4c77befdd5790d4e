//! Data at its limits, and one byte past them.

use crate::rows::{header_from, name_from, vnode_from};
use bk_text::{Bytes, List};
use std::alloc::{AllocError, Global};
use std::test::Fail;
use vnode_model::{
    ApplyFault, Body, Entry, Increment, IncrementFields, Vnode, VnodeKind, Volume, VolumeFault,
    apply, fault_in,
};

/// 16 MiB, the most that a vnode has; a volume has at most 16 times as much.
const MOST: usize = 16_777_216;

/// A file of this number whose data is so many zeros.
fn file_of(alloc: Global, number: u32, size: usize) -> Result<Vnode, AllocError> {
    let mut file = vnode_from(alloc, &(number, 1, VnodeKind::File, 0, b""), 0)?;
    file.body = Body::behind(Bytes::from_vec(vec![in alloc; 0; size]?), 0);
    Ok(file)
}

/// Files of 16 MiB, and behind them one of this size.
fn files(alloc: Global, count: u32, last: usize) -> Result<List<Vnode>, AllocError> {
    let mut files = List::new(alloc);
    for k in 0..count.min(20) {
        files.push(file_of(alloc, 2 + 2 * k, MOST)?)?;
    }
    files.push(file_of(alloc, 100, last)?)?;
    Ok(files)
}

/// Where files of 16 MiB and one more of this size are refused as a volume.
fn refusal(alloc: Global, count: u32, last: usize) -> Result<Option<usize>, AllocError> {
    match Volume::new(header_from(alloc, 1, 0)?, files(alloc, count, last)?) {
        Ok(_) => Ok(None),
        Err(VolumeFault::Order { index }) => Ok(Some(index)),
    }
}

#[test]
fn data_of_a_volume(rt: HostRuntime) -> Result<(), Fail> {
    for (count, last, wanted) in [
        (0, MOST, None),
        (0, MOST + 1, Some(0)),
        (16, 0, None),
        (16, 1, Some(16)),
    ] {
        assert_eq!(rt;
            refusal(rt.alloc(), count, last)?,
            wanted,
            "{count} and {last}"
        );
    }
    Ok(())
}

/// A base of eight files of 16 MiB, and behind them one without data.
fn base(alloc: Global) -> Result<Volume, AllocError> {
    match Volume::new(header_from(alloc, 1, 0)?, files(alloc, 8, 0)?) {
        Ok(volume) => Ok(volume),
        Err(_) => Err(AllocError),
    }
}

/// The increment that keeps the eight, and has eight others and one of this size; or it keeps one that isn't there first.
fn increment(alloc: Global, is_lacking: bool, last: usize) -> Result<Increment, AllocError> {
    let mut entries = List::new(alloc);
    for k in 0..8 {
        entries.push(Entry::Kept {
            number: 2 + 2 * k,
            uniq: if is_lacking { 2 } else { 1 },
        })?;
    }
    for k in 8..16 {
        entries.push(Entry::Whole(file_of(alloc, 2 + 2 * k, MOST)?))?;
    }
    entries.push(Entry::Whole(file_of(alloc, 100, last)?))?;
    if fault_in(entries.as_slice()).is_some() {
        return Err(AllocError);
    }
    Ok(Increment::new(IncrementFields {
        dump_id: 1,
        dump_name: name_from(alloc)?,
        from: 1,
        to: 2,
        header: header_from(alloc, 1, 0)?,
        entries,
    }))
}

/// The fault of applying it to the base, if there is one.
fn fault_of(
    alloc: Global,
    is_lacking: bool,
    last: usize,
) -> Result<Option<ApplyFault>, AllocError> {
    let increment = increment(alloc, is_lacking, last)?;
    Ok(apply(alloc, Some(base(alloc)?), increment).err())
}

#[test]
fn data_of_a_restored_volume(rt: HostRuntime) -> Result<(), Fail> {
    let lacks = ApplyFault::BaseLacks { number: 2, uniq: 2 };
    for (is_lacking, last, wanted) in [
        (false, 0, None),
        (false, 1, Some(ApplyFault::TooLarge)),
        (true, 1, Some(lacks)),
    ] {
        assert!(rt; fault_of(rt.alloc(), is_lacking, last)? == wanted, "{last}");
    }
    Ok(())
}
