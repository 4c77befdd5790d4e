//! Reading the records of dumps, in either version.

ghost use Rattle.std.specs.Prelude.{◌≡◌, ◌≤◌, length, MatchResult};
ghost use Rattle.byte_formats.specs.Formats.{Took, Stops, times, pair, any_four, maybe};
ghost use Rattle.bk_text.specs.Alphabets.{IsTapeName};
ghost use Rattle.budb_changes.specs.Formats.{numbers, heading, use_form, cell_form, tape_form, tapes_form, frag_form, frags_form, volume_form, volumes_form, dump_form};

use crate::records::{DumpRecord, DumpRecordFields, Frag, TapePart, VolRecord, VolRecordFields};
use crate::version::Version;
use bk_text::{Bytes, LevelPath, List, SetName, TapeName};
use byte_formats::{
    ReadFault, read_base, read_four, read_host, read_level, read_maybe_host, read_maybe_tape_name,
    read_name, read_part, read_set, read_two,
};
use std::alloc::Global;

/// Four numbers one behind another.
type Numbers = (u32, (u32, (u32, u32)));

/// What a record begins with: id, initial id, parent and expiration, then set, level and base.
type Heading = (Numbers, (SetName, (LevelPath, TapeName)));

/// Four numbers one behind another.
fn read_numbers<'a>(bytes: &'a [u8]) -> Result<(Numbers, &'a [u8]), ReadFault>
    ensures { MatchResult result (λ x. Took numbers bytes.now x.0 x.1.now) (λ fault. Stops numbers bytes.now fault) }
{
    let (one, after_one) = read_four(bytes)?;
    let (two, after_two) = read_four(after_one)?;
    let (three, after_three) = read_four(after_two)?;
    let (four, after_four) = read_four(after_three)?;
    Ok(((one, (two, (three, four))), after_four))
}

/// The uses and the permanent name of a tape.
fn read_known_use<'a>(alloc: Global, bytes: &'a [u8]) -> Result<((u32, Bytes), &'a [u8]), ReadFault>
    ensures { MatchResult result (λ x. Took (pair any_four (maybe IsTapeName)) bytes.now x.0 x.1.now) (λ fault. Stops (pair any_four (maybe IsTapeName)) bytes.now fault) }
{
    let (uses, after_uses) = read_four(bytes)?;
    let (permanent, rest) = read_maybe_tape_name(alloc, after_uses)?;
    Ok(((uses, permanent), rest))
}

/// The uses and the permanent name of a tape, where the version tells them.
fn read_use<'a>(
    alloc: Global,
    version: Version,
    bytes: &'a [u8],
) -> Result<((u32, Bytes), &'a [u8]), ReadFault>
    ensures { MatchResult result (λ x. Took (use_form version) bytes.now x.0 x.1.now) (λ fault. Stops (use_form version) bytes.now fault) }
{
    match version {
        Version::One => Ok(((0, Bytes::new(alloc)), bytes)),
        Version::Two => match read_known_use(alloc, bytes) {
            Err(fault) => Err(fault),
            Ok((known, rest)) => Ok((known, rest)),
        },
    }
}

/// The part of a dump on a tape.
fn read_tape<'a>(
    alloc: Global,
    version: Version,
    bytes: &'a [u8],
) -> Result<(TapePart, &'a [u8]), ReadFault>
    ensures { MatchResult result (λ x. Took (tape_form version) bytes.now x.0 x.1.now) (λ fault. Stops (tape_form version) bytes.now fault) }
{
    let (numbers, after_numbers) = read_numbers(bytes)?;
    let ((uses, permanent), rest) = read_use(alloc, version, after_numbers)?;
    let (tape, (first, (end, marks))) = numbers;
    let part = TapePart {
        tape,
        first,
        end,
        marks,
        uses,
        permanent,
    };
    Ok((part, rest))
}

/// So many parts of a dump. Room is made as they are read, whatever their count says.
fn read_tape_items<'a>(
    alloc: Global,
    version: Version,
    count: usize,
    bytes: &'a [u8],
) -> Result<(List<TapePart>, &'a [u8]), ReadFault>
    ensures { MatchResult result (λ x. Took (times count (tape_form version)) bytes.now x.0 x.1.now) (λ fault. Stops (times count (tape_form version)) bytes.now fault) }
{
    let mut items = List::new(alloc);
    let mut rest = bytes;
    for _ in 0..count {
        match read_tape(alloc, version, rest) {
            Ok((item, after)) => {
                items.push(item)?;
                rest = after;
            }
            Err(fault) => return Err(fault),
        }
    }
    Ok((items, rest))
}

/// The parts of a dump behind their count.
fn read_tapes<'a>(
    alloc: Global,
    version: Version,
    bytes: &'a [u8],
) -> Result<(List<TapePart>, &'a [u8]), ReadFault>
    ensures { MatchResult result (λ x. Took (tapes_form version) bytes.now x.0 x.1.now) (λ fault. Stops (tapes_form version) bytes.now fault) }
{
    match read_two(0, 65535, bytes) {
        Err(fault) => Err(fault),
        Ok((count, after_count)) => {
            match read_tape_items(alloc, version, count as usize, after_count) {
                Err(fault) => Err(fault),
                Ok((list, rest)) => Ok((list, rest)),
            }
        }
    }
}

/// Where a fragment lies.
fn read_frag<'a>(bytes: &'a [u8]) -> Result<(Frag, &'a [u8]), ReadFault>
    ensures { MatchResult result (λ x. Took frag_form bytes.now x.0 x.1.now) (λ fault. Stops frag_form bytes.now fault) }
{
    let (tape, after_tape) = read_four(bytes)?;
    let (at, after_at) = read_four(after_tape)?;
    Ok((Frag { tape, at }, after_at))
}

/// So many fragments. Room is made as they are read, whatever their count says.
fn read_frag_items<'a>(
    alloc: Global,
    count: usize,
    bytes: &'a [u8],
) -> Result<(List<Frag>, &'a [u8]), ReadFault>
    ensures { MatchResult result (λ x. Took (times count frag_form) bytes.now x.0 x.1.now) (λ fault. Stops (times count frag_form) bytes.now fault) }
{
    let mut items = List::new(alloc);
    let mut rest = bytes;
    for _ in 0..count {
        match read_frag(rest) {
            Ok((item, after)) => {
                items.push(item)?;
                rest = after;
            }
            Err(fault) => return Err(fault),
        }
    }
    Ok((items, rest))
}

/// The fragments of a volume behind their count.
fn read_frags<'a>(alloc: Global, bytes: &'a [u8]) -> Result<(List<Frag>, &'a [u8]), ReadFault>
    ensures { MatchResult result (λ x. Took frags_form bytes.now x.0 x.1.now) (λ fault. Stops frags_form bytes.now fault) }
{
    match read_two(1, 65535, bytes) {
        Err(fault) => Err(fault),
        Ok((count, after_count)) => match read_frag_items(alloc, count as usize, after_count) {
            Err(fault) => Err(fault),
            Ok((list, rest)) => Ok((list, rest)),
        },
    }
}

/// A volume of a dump.
fn read_volume<'a>(alloc: Global, bytes: &'a [u8]) -> Result<(VolRecord, &'a [u8]), ReadFault>
    ensures { MatchResult result (λ x. Took volume_form bytes.now x.0 x.1.now) (λ fault. Stops volume_form bytes.now fault) }
{
    let (name, after_name) = read_name(alloc, bytes)?;
    let (id, after_id) = read_four(after_name)?;
    let (server, after_server) = read_host(alloc, after_id)?;
    let (partition, after_partition) = read_part(alloc, after_server)?;
    let (clone, after_clone) = read_four(after_partition)?;
    let (from, after_from) = read_four(after_clone)?;
    let (frags, after_frags) = read_frags(alloc, after_from)?;
    let volume = VolRecord::new(VolRecordFields {
        name,
        id,
        server,
        partition,
        clone,
        from,
        frags,
    });
    Ok((volume, after_frags))
}

/// So many volumes. Room is made as they are read, whatever their count says.
fn read_volume_items<'a>(
    alloc: Global,
    count: usize,
    bytes: &'a [u8],
) -> Result<(List<VolRecord>, &'a [u8]), ReadFault>
    ensures { MatchResult result (λ x. Took (times count volume_form) bytes.now x.0 x.1.now) (λ fault. Stops (times count volume_form) bytes.now fault) }
{
    let mut items = List::new(alloc);
    let mut rest = bytes;
    for _ in 0..count {
        match read_volume(alloc, rest) {
            Ok((item, after)) => {
                items.push(item)?;
                rest = after;
            }
            Err(fault) => return Err(fault),
        }
    }
    Ok((items, rest))
}

/// The volumes of a dump behind their count.
fn read_volumes<'a>(
    alloc: Global,
    bytes: &'a [u8],
) -> Result<(List<VolRecord>, &'a [u8]), ReadFault>
    ensures { MatchResult result (λ x. Took volumes_form bytes.now x.0 x.1.now) (λ fault. Stops volumes_form bytes.now fault) }
{
    match read_four(bytes) {
        Err(fault) => Err(fault),
        Ok((count, after_count)) => match read_volume_items(alloc, count as usize, after_count) {
            Err(fault) => Err(fault),
            Ok((list, rest)) => Ok((list, rest)),
        },
    }
}

/// What a record begins with.
fn read_heading<'a>(alloc: Global, bytes: &'a [u8]) -> Result<(Heading, &'a [u8]), ReadFault>
    ensures { MatchResult result (λ x. Took heading bytes.now x.0 x.1.now) (λ fault. Stops heading bytes.now fault) }
{
    let (numbers, after_numbers) = read_numbers(bytes)?;
    let (set, after_set) = read_set(alloc, after_numbers)?;
    let (level, after_level) = read_level(alloc, after_set)?;
    let (base, after_base) = read_base(alloc, after_level)?;
    Ok(((numbers, (set, (level, base))), after_base))
}

/// The cell, where the version tells it.
fn read_cell<'a>(
    alloc: Global,
    version: Version,
    bytes: &'a [u8],
) -> Result<(Bytes, &'a [u8]), ReadFault>
    ensures { MatchResult result (λ x. Took (cell_form version) bytes.now x.0 x.1.now) (λ fault. Stops (cell_form version) bytes.now fault) }
{
    match version {
        Version::One => Ok((Bytes::new(alloc), bytes)),
        Version::Two => match read_maybe_host(alloc, bytes) {
            Err(fault) => Err(fault),
            Ok((cell, rest)) => Ok((cell, rest)),
        },
    }
}

/// The record of a dump.
pub fn read_dump<'a>(
    alloc: Global,
    version: Version,
    bytes: &'a [u8],
) -> Result<(DumpRecord, &'a [u8]), ReadFault>
    ensures { MatchResult result (λ x. Took (dump_form version) bytes.now x.0 x.1.now) (λ fault. Stops (dump_form version) bytes.now fault) }
{
    let (heading, after_heading) = read_heading(alloc, bytes)?;
    let (tapes, after_tapes) = read_tapes(alloc, version, after_heading)?;
    let (volumes, after_volumes) = read_volumes(alloc, after_tapes)?;
    let (cell, rest) = read_cell(alloc, version, after_volumes)?;
    let ((id, (initial, (parent, expires))), (set, (level, base))) = heading;
    let dump = DumpRecord::new(DumpRecordFields {
        id,
        initial,
        parent,
        expires,
        set,
        level,
        base,
        tapes,
        volumes,
        cell,
    });
    Ok((dump, rest))
}
