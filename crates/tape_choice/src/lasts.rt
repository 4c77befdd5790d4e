//! The dump set that a dump is appended to, and the last dump on its last tape.

ghost use Rattle.std.specs.Prelude.{◌≡◌, ◌&&◌, max, map, find, IfSome};
ghost use Rattle.std.specs.List.{filter};
ghost use Rattle.std.specs.Option.{option_copied, unwrap_or};
ghost use Rattle.budb_fold.specs.Database.{is_dump, is_initial};
ghost use Rattle.archive_model.specs.Holding.{place_of};
ghost use Rattle.budb_fold.specs.Lookups.{greatest_id};
ghost use Rattle.tape_choice.specs.Append.{greatest, tapes_in, latest_of, append_set, last_tape, lies_on, last_dump, last_part};
ghost use Rattle.tape_choice.specs.Surveys.{joined, IsPlace};

use bk_text::SetName;
use budb_changes::{DumpRecord, TapePart};
use std::marker::Model;

/// The last dump of a dump set's last tape, and what it has there.
#[derive(Drop)]
pub(crate) struct LastPart<'a> {
    /// The dump.
    pub dump: &'a DumpRecord,
    /// Its part on the tape.
    pub part: &'a TapePart,
}

impl<'a> Model for LastPart<'a> {
    ghost use Rattle.tape_choice.specs.Append.{LastPart};

    ghost Value = { LastPart };

    ghost view = { λ h. record { dump = h.dump.now; part = h.part.now } };
}

/// The greater one of a number and another, where there is another.
fn greater_of(number: u32, other: Option<u32>) -> u32
    ensures { result ≡ max number (unwrap_or other 0) }
{
    number.max(other.unwrap_or(0))
}

/// The dump set that a dump of a volume set is appended to: the greatest initial id among the set's listed dumps.
pub(crate) fn append_set(listed: &[DumpRecord], set: &SetName) -> Option<u32>
    ensures { result ≡ append_set listed.now set.now }
{
    let mut last = None;
    for dump in listed {
        if dump.fields().set.bytes() == set.bytes() {
            last = Some(greater_of(dump.fields().initial, last));
        }
    }
    last
}

/// The greatest of a number and those of tapes.
fn last_of(parts: &[TapePart], so_far: Option<u32>) -> Option<u32>
    ensures { result ≡ joined so_far (greatest (map (λ p. p.tape) parts.now)) }
{
    let mut last = so_far;
    for part in parts {
        last = Some(greater_of(part.tape, last));
    }
    last
}

/// The greatest of a number and those of the tapes that a dump lies on, where it is one of the dump set.
fn last_with(dump: &DumpRecord, initial: u32, so_far: Option<u32>) -> Option<u32>
    ensures { result ≡ joined so_far (greatest (tapes_in initial dump.now)) }
{
    if dump.fields().initial == initial {
        last_of(dump.fields().tapes.as_slice(), so_far)
    } else {
        so_far
    }
}

/// The last tape that the listed dumps of a dump set lie on.
fn last_tape(listed: &[DumpRecord], initial: u32) -> Option<u32>
    ensures { result ≡ last_tape listed.now initial }
{
    let mut last = None;
    for dump in listed {
        last = last_with(dump, initial, last);
    }
    last
}

/// What a dump has on a tape: of several places for one tape the first.
fn place_of(dump: &DumpRecord, tape: u32) -> Option<&TapePart>
    ensures { option_copied result ≡ place_of dump.now tape }
{
    dump.fields()
        .tapes
        .as_slice()
        .iter()
        .find(|part| part.tape == tape)
}

/// Whether a dump is one of a dump set and lies on a tape.
fn lies_on(dump: &DumpRecord, initial: u32, tape: u32) -> bool
    ensures { result ≡ lies_on initial tape dump.now }
{
    dump.fields().initial == initial && place_of(dump, tape).is_some()
}

/// The greatest id of the listed dumps of a dump set on a tape.
fn greatest_on(listed: &[DumpRecord], initial: u32, tape: u32) -> Option<u32>
    ensures { result ≡ greatest_id (filter (lies_on initial tape) listed.now) }
{
    let mut greatest = None;
    for dump in listed {
        if lies_on(dump, initial, tape) {
            greatest = Some(greater_of(dump.fields().id, greatest));
        }
    }
    greatest
}

/// The first listed dump of a dump set on a tape that has this id.
fn found_on(listed: &[DumpRecord], initial: u32, tape: u32, id: u32) -> Option<&DumpRecord>
    ensures { option_copied result ≡ find (λ d. lies_on initial tape d && is_dump id d) listed.now }
{
    listed.iter().find(|dump| lies_on(dump, initial, tape) && dump.fields().id == id)
}

/// The last listed dump of a dump set on a tape.
fn last_dump(listed: &[DumpRecord], initial: u32, tape: u32) -> Option<&DumpRecord>
    ensures { option_copied result ≡ last_dump listed.now initial tape }
{
    let Some(id) = greatest_on(listed, initial, tape) else {
        return None;
    };
    found_on(listed, initial, tape, id)
}

/// The greatest id of the listed dumps of a dump set.
fn greatest_in(listed: &[DumpRecord], initial: u32) -> Option<u32>
    ensures { result ≡ greatest_id (filter (is_initial initial) listed.now) }
{
    let mut greatest = None;
    for dump in listed {
        if dump.fields().initial == initial {
            greatest = Some(greater_of(dump.fields().id, greatest));
        }
    }
    greatest
}

/// The first listed dump of a dump set that has this id.
fn found_in(listed: &[DumpRecord], initial: u32, id: u32) -> Option<&DumpRecord>
    ensures { option_copied result ≡ find (λ d. is_initial initial d && is_dump id d) listed.now }
{
    listed.iter().find(|dump| dump.fields().initial == initial && dump.fields().id == id)
}

/// The latest listed dump of a dump set.
pub(crate) fn latest_of(listed: &[DumpRecord], initial: u32) -> Option<&DumpRecord>
    ensures { option_copied result ≡ latest_of (filter (is_initial initial) listed.now) }
{
    let Some(id) = greatest_in(listed, initial) else {
        return None;
    };
    found_in(listed, initial, id)
}

/// The last dump of a dump set's last tape, and what it has there.
pub(crate) fn last_part(listed: &[DumpRecord], initial: u32) -> Option<LastPart<'_>>
    ensures is { result ≡ last_part listed.now initial }
    ensures place { IfSome result IsPlace }
{
    let Some(tape) = last_tape(listed, initial) else {
        return None;
    };
    let Some(dump) = last_dump(listed, initial, tape) else {
        return None;
    };
    let Some(part) = place_of(dump, tape) else {
        return None;
    };
    Some(LastPart { dump, part })
}
