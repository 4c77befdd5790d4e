//! Records of dumps that are linked by index, and the chain of a dump that isn't recorded.

ghost use Rattle.std.specs.Prelude.{◌≡◌, ◌<◌};

use bk_text::List;
use budb_changes::{Change, DumpRecord, decode};
use budb_fold::{ChainFault, chain_of};
use budb_links::{FragPlace, Links, Steps, frag_count};
use std::alloc::Global;
use std::marker::Brand;
use std::sync::ledger::{Blank, Ledger};

/// A dump of the set `s` that has the volume `v` in two fragments, and one that has it in one fragment, as a log lists them.
const FIVE: &[u8] =
    b"\x10\0\0\0\x05\0\0\0\x05\0\0\0\0\0\0\0\0\x01s\0\x02/f\x01s\0\0\0\0\0\x01\x01v\0\0\0\x01\x01h\x01a\0\0\0\x01\0\0\0\0\0\x02\0\0\0\x01\0\0\0\x03\0\0\0\x02\0\0\0\x03\0";

const SIX: &[u8] =
    b"\x10\0\0\0\x06\0\0\0\x06\0\0\0\0\0\0\0\0\x01s\0\x02/f\x01s\0\0\0\0\0\x01\x01v\0\0\0\x01\x01h\x01a\0\0\0\x01\0\0\0\0\0\x01\0\0\0\x01\0\0\0\x03\0";

/// The record that a change lists.
fn listed_by(change: Change) -> Option<DumpRecord> {
    match change {
        Change::Found(dump) => Some(dump),
        _other => None,
    }
}

/// The record that the last change lists.
fn last_listed(changes: &mut List<Change>) -> Option<DumpRecord> {
    match changes.pop() {
        Some(change) => listed_by(change),
        None => None,
    }
}

/// The record that a log of one change lists.
fn record_of(alloc: Global, log: &[u8]) -> Option<DumpRecord> {
    match decode(alloc, log) {
        Ok(mut changes) => last_listed(&mut changes),
        Err(_) => None,
    }
}

/// Puts a record, and tells whether it did: where there is no room, or its id is there, it doesn't.
fn put<L: Ledger>(links: &mut Links, record: DumpRecord, steps: &mut Steps<L>) -> bool {
    if links.spare_records() == 0 || links.spare_frags() < frag_count(&record) {
        return false;
    }
    if links.find(record.fields().id, steps).is_some() {
        return false;
    }
    links.insert(record, steps);
    true
}

/// The fragment at the first place of the volume `v`, and the place behind it.
fn first_frag<L: Ledger>(
    links: &Links,
    steps: &mut Steps<L>,
) -> Option<(FragPlace, Option<usize>)> {
    let place = links.walk_volume(b"v", None, steps)?;
    let frag = links.frag_at(place, steps)?;
    Some((frag, links.walk_volume(b"v", Some(place), steps)))
}

/// Whether there is a dump of this initial id, and whether it has a fragment.
fn is_walked<L: Ledger>(links: &Links, id: u32, steps: &mut Steps<L>) -> (bool, bool) {
    let key = id.to_be_bytes();
    let initial = links.walk_initial(&key, None, steps);
    let frag = links.walk_dump(&key, None, steps);
    (initial.is_some(), frag.is_some())
}

/// The ids of the first record of all, and of the first one of the set `s`.
fn first_ids<L: Ledger>(links: &Links, steps: &mut Steps<L>) -> Option<(u32, u32)> {
    let all = links.walk_all(None, steps)?;
    let set = links.walk_set(b"s", None, steps)?;
    let first = links.record_at(all, steps)?.fields().id;
    Some((first, links.record_at(set, steps)?.fields().id))
}

/// Puts both dumps, and one of them again.
fn put_both<L: Ledger>(
    alloc: Global,
    links: &mut Links,
    steps: &mut Steps<L>,
) -> Option<(bool, bool, bool)> {
    let five = put(links, record_of(alloc, FIVE)?, steps);
    let six = put(links, record_of(alloc, SIX)?, steps);
    let again = put(links, record_of(alloc, SIX)?, steps);
    Some((five, six, again))
}

/// The first ids, the id and the number of the volume's first fragment, and whether there is one behind it.
fn told<L: Ledger>(links: &Links, steps: &mut Steps<L>) -> Option<(u32, u32, u32, u32, bool)> {
    let (first, in_set) = first_ids(links, steps)?;
    let (frag, behind) = first_frag(links, steps)?;
    Some((first, in_set, frag.id, frag.frag, behind.is_some()))
}

/// Whether 5 is taken out, and nothing is left of it.
fn takes_five<L: Ledger>(links: &mut Links, steps: &mut Steps<L>) -> bool {
    match links.unlink(5, steps) {
        Some(_) => is_walked(links, 5, steps) == (false, false),
        None => false,
    }
}

/// Whether the links hold both dumps, and once 5 is taken out 6 alone.
fn keep_the_other<L: Ledger>(
    alloc: Global,
    links: &mut Links,
    steps: &mut Steps<L>,
) -> Option<bool> {
    links.reserve(2, 3).ok()?;
    let puts = put_both(alloc, links, steps)? == (true, true, false);
    let both = told(links, steps)? == (5, 5, 5, 0, true);
    let gone = takes_five(links, steps);
    let left = told(links, steps)? == (6, 6, 6, 0, false);
    Some(puts && both && gone && left && is_walked(links, 6, steps) == (true, true))
}

/// The same over links of no dump.
fn holds<L: Ledger>(alloc: Global, blank: Blank) -> Option<bool>
    requires name { blank.name ≡ L.name }
    requires parts { blank.parts ≡ L.parts }
    requires one { 0 < blank.parts }
{
    let mut steps = Steps::<L>::new(blank);
    let mut links = Links::new(alloc);
    keep_the_other(alloc, &mut links, &mut steps)
}

#[test]
fn a_dump_is_taken_out(rt: HostRuntime) {
    assert!(rt; holds::<Brand>(rt.alloc(), Blank::new(1)) == Some(true));
}

/// Whether the chain of a dump that isn't recorded is told to miss it.
fn is_missed(alloc: Global, id: u32) -> bool {
    let none: List<DumpRecord> = List::new(alloc);
    match chain_of(alloc, none.as_slice(), id, b"v") {
        Ok(_) => false,
        Err(fault) => fault == ChainFault::Missing { id },
    }
}

#[test]
fn a_dump_that_is_not_recorded(rt: HostRuntime) {
    assert!(rt; is_missed(rt.alloc(), 4000));
}
