//! Which vnodes stand whole in an increment.

use crate::rows::{Row, volume_from};
use bk_text::List;
use std::alloc::{AllocError, Global};
use std::test::Fail;
use vnode_model::{Entry, EntryRef, VnodeKind, select, select_iter};

/// Whether an entry is whole, its number and its uniquifier.
type Shown = (bool, u32, u32);

const ROWS: [Row; 3] = [
    (1, 1, VnodeKind::Directory, 1000, b""),
    (2, 2, VnodeKind::File, 1999, b"hi"),
    (4, 3, VnodeKind::File, 2000, b"hi"),
];

const TABLE: [(u32, [Shown; 3]); 5] = [
    (2000, [(true, 1, 1), (false, 2, 2), (true, 4, 3)]),
    (2001, [(true, 1, 1), (false, 2, 2), (false, 4, 3)]),
    (1999, [(true, 1, 1), (true, 2, 2), (true, 4, 3)]),
    (1, [(true, 1, 1), (true, 2, 2), (true, 4, 3)]),
    (0, [(true, 1, 1), (true, 2, 2), (true, 4, 3)]),
];

fn shown(entry: &Entry) -> Shown {
    match entry {
        Entry::Whole(vnode) => (true, vnode.number, vnode.uniq),
        Entry::Kept { number, uniq } => (false, *number, *uniq),
    }
}

fn shown_ref(entry: EntryRef<'_>) -> Shown {
    match entry {
        EntryRef::Whole(vnode) => (true, vnode.number, vnode.uniq),
        EntryRef::Kept { number, uniq } => (false, number, uniq),
    }
}

/// The entries of an increment that owns its vnodes.
fn selected(alloc: Global, from: u32) -> Result<List<Shown>, AllocError> {
    let volume = volume_from(alloc, 1, &ROWS)?;
    let increment = select(alloc, &volume, from, 3000)?;
    let mut all = List::new(alloc);
    for entry in increment.fields().entries.as_slice() {
        all.push(shown(entry))?;
    }
    Ok(all)
}

/// The entries by reference.
fn selected_refs(alloc: Global, from: u32) -> Result<List<Shown>, AllocError> {
    let volume = volume_from(alloc, 1, &ROWS)?;
    let mut all = List::new(alloc);
    for entry in select_iter(&volume, from) {
        all.push(shown_ref(entry))?;
    }
    Ok(all)
}

#[test]
fn directories_and_changed_vnodes_are_whole(rt: HostRuntime) -> Result<(), Fail> {
    for (from, entries) in TABLE {
        assert_eq!(rt;
            selected(rt.alloc(), from)?.as_slice(),
            entries.as_slice(),
            "from {from}"
        );
        assert_eq!(rt;
            selected_refs(rt.alloc(), from)?.as_slice(),
            entries.as_slice(),
            "from {from}"
        );
    }
    Ok(())
}

#[test]
fn headers_of_an_increment(rt: HostRuntime) -> Result<(), Fail> {
    let volume = volume_from(rt.alloc(), 5, &ROWS)?;
    let fields = select(rt.alloc(), &volume, 2000, 3000)?.into_fields();
    assert_eq!(rt; (fields.dump_id, fields.from, fields.to), (5, 2000, 3000));
    assert_eq!(rt; fields.dump_name.bytes(), b"user.a".as_slice());
    assert_eq!(rt; fields.header.fields().id, 5);
    Ok(())
}
