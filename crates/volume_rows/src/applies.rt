//! What is made of a base and an increment.

use crate::rows::{Row, has, header_from, name_from, vnode_from, volume_from};
use bk_text::List;
use std::alloc::{AllocError, Global};
use std::test::Fail;
use vnode_model::{
    ApplyFault, Entry, Increment, IncrementFields, VnodeKind, Volume, apply, fault_in, select,
};

const FILE: VnodeKind = VnodeKind::File;

const DIRECTORY: VnodeKind = VnodeKind::Directory;

const ROOT: Row = (1, 1, DIRECTORY, 1000, b"");

/// A volume at 2000, and at 3000: file 4 is gone, and file 2 was removed and made anew.
const OLD: [Row; 3] = [ROOT, (2, 2, FILE, 1999, b"hi"), (4, 3, FILE, 2000, b"hi")];

const NEW: [Row; 2] = [ROOT, (2, 4, FILE, 2500, b"new")];

#[test]
fn a_number_is_used_again(rt: HostRuntime) -> Result<(), Fail> {
    let old = volume_from(rt.alloc(), 1, &OLD)?;
    let new = volume_from(rt.alloc(), 1, &NEW)?;
    let increment = select(rt.alloc(), &new, 2000, 3000)?;
    let restored = apply(rt.alloc(), Some(old), increment)?;
    assert!(rt; has(&restored, 1, &NEW));
    Ok(())
}

/// Entries, whole or kept.
type Listed = (bool, Row);

fn entry_of(alloc: Global, listed: &Listed) -> Result<Entry, AllocError> {
    let (whole, row) = listed;
    if *whole {
        Ok(Entry::Whole(vnode_from(alloc, row, 0)?))
    } else {
        Ok(Entry::Kept {
            number: row.0,
            uniq: row.1,
        })
    }
}

/// The increment of these entries, of a volume of id 9.
fn increment_of(alloc: Global, listed: &[Listed]) -> Result<Increment, AllocError> {
    let mut entries = List::new(alloc);
    for one in listed {
        entries.push(entry_of(alloc, one)?)?;
    }
    if fault_in(entries.as_slice()).is_some() {
        return Err(AllocError);
    }
    Ok(Increment::new(IncrementFields {
        dump_id: 9,
        dump_name: name_from(alloc)?,
        from: 1,
        to: 2,
        header: header_from(alloc, 9, 1000)?,
        entries,
    }))
}

/// The base of these rows; none for no rows.
fn base_of(alloc: Global, rows: &[Row]) -> Result<Option<Volume>, AllocError> {
    if rows.is_empty() {
        return Ok(None);
    }
    Ok(Some(volume_from(alloc, 8, rows)?))
}

/// Whether the entries make these vnodes of the base, or this fault, under the increment's header.
fn makes(
    alloc: Global,
    base: &[Row],
    listed: &[Listed],
    wanted: &Result<&'static [Row], ApplyFault>,
) -> Result<bool, AllocError> {
    let increment = increment_of(alloc, listed)?;
    match (apply(alloc, base_of(alloc, base)?, increment), wanted) {
        (Ok(volume), Ok(rows)) => Ok(has(&volume, 9, rows)),
        (Err(fault), Err(other)) => Ok(fault == *other),
        (Ok(_), Err(_)) | (Err(_), Ok(_)) => Ok(false),
    }
}

const LACKS: ApplyFault = ApplyFault::BaseLacks { number: 2, uniq: 4 };

const TABLE: [(
    &'static [Row],
    &'static [Listed],
    Result<&'static [Row], ApplyFault>,
); 7] = [
    // no base, nothing kept
    (&[], &[(true, ROOT)], Ok(&[ROOT])),
    (&[], &[], Ok(&[])),
    // no base, so that the first kept one is lacking
    (
        &[],
        &[
            (true, ROOT),
            (false, (2, 4, FILE, 0, b"")),
            (false, (4, 3, FILE, 0, b"")),
        ],
        Err(LACKS),
    ),
    // the base has the number with another uniquifier
    (
        &OLD,
        &[(false, ROOT), (false, (2, 4, FILE, 0, b""))],
        Err(LACKS),
    ),
    // the base has no such number
    (
        &NEW,
        &[(false, (4, 3, FILE, 0, b""))],
        Err(ApplyFault::BaseLacks { number: 4, uniq: 3 }),
    ),
    // what isn't listed goes
    (
        &OLD,
        &[(false, ROOT), (false, (4, 3, FILE, 0, b""))],
        Ok(&[ROOT, (4, 3, FILE, 2000, b"hi")]),
    ),
    // a whole one in place of the base's
    (
        &OLD,
        &[
            (true, (3, 7, DIRECTORY, 5, b"d")),
            (true, (2, 4, FILE, 2500, b"new")),
        ],
        Ok(&[(3, 7, DIRECTORY, 5, b"d"), (2, 4, FILE, 2500, b"new")]),
    ),
];

#[test]
fn entries_over_a_base(rt: HostRuntime) -> Result<(), Fail> {
    for (index, (base, listed, wanted)) in TABLE.iter().enumerate() {
        assert!(rt; makes(rt.alloc(), base, listed, wanted)?, "row {index}");
    }
    Ok(())
}
