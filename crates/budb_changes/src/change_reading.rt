//! Reading changes.

ghost use Rattle.std.specs.Prelude.{◌≡◌, ◌≤◌, MatchResult};
ghost use Rattle.byte_formats.specs.Formats.{Took, Stops};
ghost use Rattle.budb_changes.specs.Formats.{expiry_form, expiry_of_kind, change_form, of_kind};

use crate::change::Change;
use crate::kinds::{
    ADD_ENTRY, ADD_HOST, ADD_LEVEL, ADD_SET, BEGIN, DEL_ENTRY, DEL_HOST, DEL_LEVEL, DEL_SET, DONE,
    DONE_1, FORGET, FOUND, FOUND_1, SET_EXPIRY, TAKE,
};
use crate::pattern_reading::read_pattern;
use crate::plain_record::PlainRecord;
use crate::record_reading::read_dump;
use crate::version::Version;
use bk_text::Expiry;
use byte_formats::{
    ReadFault, read_any_host, read_any_part, read_four, read_host, read_level, read_one, read_set,
    read_two,
};
use std::alloc::Global;

/// Years, months and days.
fn read_span<'a>(bytes: &'a [u8]) -> Result<(Expiry, &'a [u8]), ReadFault>
    ensures { MatchResult result (λ x. Took (expiry_of_kind 3) bytes.now x.0 x.1.now) (λ fault. Stops (expiry_of_kind 3) bytes.now fault) }
{
    let (years, after_years) = read_two(0, 65535, bytes)?;
    let (months, after_months) = read_two(0, 65535, after_years)?;
    let (days, after_days) = read_two(0, 65535, after_months)?;
    let span = Expiry::In {
        years,
        months,
        days,
    };
    Ok((span, after_days))
}

/// An expiration of a kind.
fn read_expiry_of<'a>(kind: u8, bytes: &'a [u8]) -> Result<(Expiry, &'a [u8]), ReadFault>
    requires { kind ≤ 3 }
    ensures { MatchResult result (λ x. Took (expiry_of_kind kind) bytes.now x.0 x.1.now) (λ fault. Stops (expiry_of_kind kind) bytes.now fault) }
{
    match kind {
        0 => Ok((Expiry::Unset, bytes)),
        1 => Ok((Expiry::Never, bytes)),
        2 => match read_four(bytes) {
            Err(fault) => Err(fault),
            Ok((moment, rest)) => Ok((Expiry::At(moment), rest)),
        },
        _ => match read_span(bytes) {
            Err(fault) => Err(fault),
            Ok((span, rest)) => Ok((span, rest)),
        },
    }
}

/// An expiration.
fn read_expiry<'a>(bytes: &'a [u8]) -> Result<(Expiry, &'a [u8]), ReadFault>
    ensures { MatchResult result (λ x. Took expiry_form bytes.now x.0 x.1.now) (λ fault. Stops expiry_form bytes.now fault) }
{
    match read_one(0, 3, bytes) {
        Err(fault) => Err(fault),
        Ok((kind, after_kind)) => match read_expiry_of(kind, after_kind) {
            Err(fault) => Err(fault),
            Ok((expiry, rest)) => Ok((expiry, rest)),
        },
    }
}

/// What a new entry of a set says.
fn read_add_entry<'a>(alloc: Global, bytes: &'a [u8]) -> Result<(Change, &'a [u8]), ReadFault>
    ensures { MatchResult result (λ x. Took (of_kind 3) bytes.now x.0 x.1.now) (λ fault. Stops (of_kind 3) bytes.now fault) }
{
    let (set, after_set) = read_set(alloc, bytes)?;
    let (server, after_server) = read_any_host(alloc, after_set)?;
    let (partition, after_partition) = read_any_part(alloc, after_server)?;
    let (pattern, after_pattern) = read_pattern(alloc, after_partition)?;
    Ok((
        Change::AddEntry {
            set,
            server,
            partition,
            pattern,
        },
        after_pattern,
    ))
}

/// Which entry of a set goes.
fn read_del_entry<'a>(alloc: Global, bytes: &'a [u8]) -> Result<(Change, &'a [u8]), ReadFault>
    ensures { MatchResult result (λ x. Took (of_kind 4) bytes.now x.0 x.1.now) (λ fault. Stops (of_kind 4) bytes.now fault) }
{
    let (set, after_set) = read_set(alloc, bytes)?;
    let (number, after_number) = read_four(after_set)?;
    Ok((Change::DelEntry { set, number }, after_number))
}

/// A new level.
fn read_add_level<'a>(alloc: Global, bytes: &'a [u8]) -> Result<(Change, &'a [u8]), ReadFault>
    ensures { MatchResult result (λ x. Took (of_kind 5) bytes.now x.0 x.1.now) (λ fault. Stops (of_kind 5) bytes.now fault) }
{
    let (level, after_level) = read_level(alloc, bytes)?;
    let (expiry, after_expiry) = read_expiry(after_level)?;
    Ok((Change::AddLevel { level, expiry }, after_expiry))
}

/// A level's other expiration.
fn read_set_expiry<'a>(alloc: Global, bytes: &'a [u8]) -> Result<(Change, &'a [u8]), ReadFault>
    ensures { MatchResult result (λ x. Took (of_kind 6) bytes.now x.0 x.1.now) (λ fault. Stops (of_kind 6) bytes.now fault) }
{
    let (level, after_level) = read_level(alloc, bytes)?;
    let (expiry, after_expiry) = read_expiry(after_level)?;
    Ok((Change::SetExpiry { level, expiry }, after_expiry))
}

/// A new tape host.
fn read_add_host<'a>(alloc: Global, bytes: &'a [u8]) -> Result<(Change, &'a [u8]), ReadFault>
    ensures { MatchResult result (λ x. Took (of_kind 8) bytes.now x.0 x.1.now) (λ fault. Stops (of_kind 8) bytes.now fault) }
{
    let (host, after_host) = read_host(alloc, bytes)?;
    let (port, after_port) = read_two(0, 65535, after_host)?;
    Ok((Change::AddHost { host, port }, after_port))
}

/// A new volume set.
fn read_add_set<'a>(alloc: Global, bytes: &'a [u8]) -> Result<(Change, &'a [u8]), ReadFault>
    ensures { MatchResult result (λ x. Took (of_kind 1) bytes.now x.0 x.1.now) (λ fault. Stops (of_kind 1) bytes.now fault) }
{
    match read_set(alloc, bytes) {
        Err(fault) => Err(fault),
        Ok((set, rest)) => Ok((Change::AddSet { set }, rest)),
    }
}

/// A volume set that goes.
fn read_del_set<'a>(alloc: Global, bytes: &'a [u8]) -> Result<(Change, &'a [u8]), ReadFault>
    ensures { MatchResult result (λ x. Took (of_kind 2) bytes.now x.0 x.1.now) (λ fault. Stops (of_kind 2) bytes.now fault) }
{
    match read_set(alloc, bytes) {
        Err(fault) => Err(fault),
        Ok((set, rest)) => Ok((Change::DelSet { set }, rest)),
    }
}

/// A level that goes.
fn read_del_level<'a>(alloc: Global, bytes: &'a [u8]) -> Result<(Change, &'a [u8]), ReadFault>
    ensures { MatchResult result (λ x. Took (of_kind 7) bytes.now x.0 x.1.now) (λ fault. Stops (of_kind 7) bytes.now fault) }
{
    match read_level(alloc, bytes) {
        Err(fault) => Err(fault),
        Ok((level, rest)) => Ok((Change::DelLevel { level }, rest)),
    }
}

/// A tape host that goes.
fn read_del_host<'a>(bytes: &'a [u8]) -> Result<(Change, &'a [u8]), ReadFault>
    ensures { MatchResult result (λ x. Took (of_kind 9) bytes.now x.0 x.1.now) (λ fault. Stops (of_kind 9) bytes.now fault) }
{
    match read_two(0, 65535, bytes) {
        Err(fault) => Err(fault),
        Ok((port, rest)) => Ok((Change::DelHost { port }, rest)),
    }
}

/// A dump that was begun.
fn read_begin<'a>(bytes: &'a [u8]) -> Result<(Change, &'a [u8]), ReadFault>
    ensures { MatchResult result (λ x. Took (of_kind 10) bytes.now x.0 x.1.now) (λ fault. Stops (of_kind 10) bytes.now fault) }
{
    match read_four(bytes) {
        Err(fault) => Err(fault),
        Ok((id, rest)) => Ok((Change::Begin { id }, rest)),
    }
}

/// A tape that was taken.
fn read_take<'a>(bytes: &'a [u8]) -> Result<(Change, &'a [u8]), ReadFault>
    ensures { MatchResult result (λ x. Took (of_kind 11) bytes.now x.0 x.1.now) (λ fault. Stops (of_kind 11) bytes.now fault) }
{
    match read_four(bytes) {
        Err(fault) => Err(fault),
        Ok((initial, rest)) => Ok((Change::Take { initial }, rest)),
    }
}

/// A dump that is done, in the form of version 1.
fn read_done_1<'a>(alloc: Global, bytes: &'a [u8]) -> Result<(Change, &'a [u8]), ReadFault>
    ensures { MatchResult result (λ x. Took (of_kind 12) bytes.now x.0 x.1.now) (λ fault. Stops (of_kind 12) bytes.now fault) }
{
    match read_dump(alloc, Version::One, bytes) {
        Err(fault) => Err(fault),
        Ok((dump, rest)) => Ok((Change::Done1(PlainRecord::new(dump)), rest)),
    }
}

/// A dump that is forgotten.
fn read_forget<'a>(bytes: &'a [u8]) -> Result<(Change, &'a [u8]), ReadFault>
    ensures { MatchResult result (λ x. Took (of_kind 13) bytes.now x.0 x.1.now) (λ fault. Stops (of_kind 13) bytes.now fault) }
{
    match read_four(bytes) {
        Err(fault) => Err(fault),
        Ok((id, rest)) => Ok((Change::Forget { id }, rest)),
    }
}

/// A dump that was found, in the form of version 1.
fn read_found_1<'a>(alloc: Global, bytes: &'a [u8]) -> Result<(Change, &'a [u8]), ReadFault>
    ensures { MatchResult result (λ x. Took (of_kind 14) bytes.now x.0 x.1.now) (λ fault. Stops (of_kind 14) bytes.now fault) }
{
    match read_dump(alloc, Version::One, bytes) {
        Err(fault) => Err(fault),
        Ok((dump, rest)) => Ok((Change::Found1(PlainRecord::new(dump)), rest)),
    }
}

/// A dump that is done.
fn read_done<'a>(alloc: Global, bytes: &'a [u8]) -> Result<(Change, &'a [u8]), ReadFault>
    ensures { MatchResult result (λ x. Took (of_kind 15) bytes.now x.0 x.1.now) (λ fault. Stops (of_kind 15) bytes.now fault) }
{
    match read_dump(alloc, Version::Two, bytes) {
        Err(fault) => Err(fault),
        Ok((dump, rest)) => Ok((Change::Done(dump), rest)),
    }
}

/// A dump that was found.
fn read_found<'a>(alloc: Global, bytes: &'a [u8]) -> Result<(Change, &'a [u8]), ReadFault>
    ensures { MatchResult result (λ x. Took (of_kind 16) bytes.now x.0 x.1.now) (λ fault. Stops (of_kind 16) bytes.now fault) }
{
    match read_dump(alloc, Version::Two, bytes) {
        Err(fault) => Err(fault),
        Ok((dump, rest)) => Ok((Change::Found(dump), rest)),
    }
}

/// A change of a volume set, by its kind.
fn read_set_change<'a>(
    alloc: Global,
    kind: u8,
    bytes: &'a [u8],
) -> Result<(Change, &'a [u8]), ReadFault>
    requires some { 1 ≤ kind }
    requires most { kind ≤ 4 }
    ensures { MatchResult result (λ x. Took (of_kind kind) bytes.now x.0 x.1.now) (λ fault. Stops (of_kind kind) bytes.now fault) }
{
    match kind {
        ADD_SET => read_add_set(alloc, bytes),
        DEL_SET => read_del_set(alloc, bytes),
        ADD_ENTRY => read_add_entry(alloc, bytes),
        _ => read_del_entry(alloc, bytes),
    }
}

/// A change of a level or a tape host, by its kind.
fn read_level_change<'a>(
    alloc: Global,
    kind: u8,
    bytes: &'a [u8],
) -> Result<(Change, &'a [u8]), ReadFault>
    requires some { 5 ≤ kind }
    requires most { kind ≤ 9 }
    ensures { MatchResult result (λ x. Took (of_kind kind) bytes.now x.0 x.1.now) (λ fault. Stops (of_kind kind) bytes.now fault) }
{
    match kind {
        ADD_LEVEL => read_add_level(alloc, bytes),
        SET_EXPIRY => read_set_expiry(alloc, bytes),
        DEL_LEVEL => read_del_level(alloc, bytes),
        ADD_HOST => read_add_host(alloc, bytes),
        _ => read_del_host(bytes),
    }
}

/// A change of the dumps, by its kind.
fn read_dump_change<'a>(
    alloc: Global,
    kind: u8,
    bytes: &'a [u8],
) -> Result<(Change, &'a [u8]), ReadFault>
    requires some { 10 ≤ kind }
    requires most { kind ≤ 16 }
    ensures { MatchResult result (λ x. Took (of_kind kind) bytes.now x.0 x.1.now) (λ fault. Stops (of_kind kind) bytes.now fault) }
{
    match kind {
        BEGIN => read_begin(bytes),
        TAKE => read_take(bytes),
        DONE_1 => read_done_1(alloc, bytes),
        FORGET => read_forget(bytes),
        FOUND_1 => read_found_1(alloc, bytes),
        DONE => read_done(alloc, bytes),
        _ => read_found(alloc, bytes),
    }
}

/// A change of a kind.
fn read_change_of<'a>(
    alloc: Global,
    kind: u8,
    bytes: &'a [u8],
) -> Result<(Change, &'a [u8]), ReadFault>
    requires some { 1 ≤ kind }
    requires most { kind ≤ 16 }
    ensures { MatchResult result (λ x. Took (of_kind kind) bytes.now x.0 x.1.now) (λ fault. Stops (of_kind kind) bytes.now fault) }
{
    if kind <= DEL_ENTRY {
        read_set_change(alloc, kind, bytes)
    } else if kind <= DEL_HOST {
        read_level_change(alloc, kind, bytes)
    } else {
        read_dump_change(alloc, kind, bytes)
    }
}

/// The change at the front.
pub fn read_change<'a>(alloc: Global, bytes: &'a [u8]) -> Result<(Change, &'a [u8]), ReadFault>
    ensures { MatchResult result (λ x. Took change_form bytes.now x.0 x.1.now) (λ fault. Stops change_form bytes.now fault) }
{
    match read_one(ADD_SET, FOUND, bytes) {
        Err(fault) => Err(fault),
        Ok((kind, after_kind)) => match read_change_of(alloc, kind, after_kind) {
            Err(fault) => Err(fault),
            Ok((change, rest)) => Ok((change, rest)),
        },
    }
}
