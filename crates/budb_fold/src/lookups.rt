//! Look-ups in lists of dumps: a dump by its id, a volume of a dump by its name, the parent of a dump, and the time from
//! which on changes are dumped. Of one name in a record the first alone counts. They are plain and slow.

ghost use Rattle.std.specs.Prelude.{◌≡◌, ◌&&◌, max, Some, IfOk};
ghost use Rattle.std.specs.Option.{option_copied, unwrap_or};
ghost use Rattle.bk_text.specs.Blanks.{is_same_text};
ghost use Rattle.budb_fold.specs.Lookups.{record_of, volume_of, greatest_at, parent_of, from_volume, from_of};

use bk_text::{LevelPath, SetName};
use budb_changes::{DumpRecord, VolRecord};
use dump_levels::Levels;
use std::alloc::{AllocError, Global};

/// The first of these dumps that has this id.
pub fn record_of(records: &[DumpRecord], id: u32) -> Option<&DumpRecord>
    ensures { option_copied result ≡ record_of records.now id }
{
    records.iter().find(|dump| dump.fields().id == id)
}

/// The first volume of this name that a dump has.
pub fn volume_of<'a>(dump: &'a DumpRecord, name: &[u8]) -> Option<&'a VolRecord>
    ensures { option_copied result ≡ volume_of dump.now name.now }
{
    dump.fields()
        .volumes
        .as_slice()
        .iter()
        .find(|volume| volume.fields().name.bytes() == name)
}

/// Whether a dump is of this set and level.
fn is_of(dump: &DumpRecord, set: &SetName, level: &LevelPath) -> bool
    ensures { result ≡ (is_same_text dump.now.set set.now && is_same_text dump.now.level level.now) }
{
    dump.fields().set.bytes() == set.bytes() && dump.fields().level.bytes() == level.bytes()
}

/// The greater one of an id and another, where there is another.
fn greater_of(id: u32, other: Option<u32>) -> u32
    ensures { result ≡ max id (unwrap_or other 0) }
{
    id.max(other.unwrap_or(0))
}

/// The greatest id of the dumps of a set at a level; `None` where there is none. It takes no memory.
pub fn greatest_at(listed: &[DumpRecord], set: &SetName, level: &LevelPath) -> Option<u32>
    ensures { result ≡ greatest_at listed.now set.now level.now }
{
    let mut greatest = None;
    for dump in listed {
        if is_of(dump, set, level) {
            greatest = Some(greater_of(dump.fields().id, greatest));
        }
    }
    greatest
}

/// The parent of a dump of a set at a level: of the listed dumps of the same set the one with the greatest id at the
/// closest level above; where there is none, the next level above is asked. 0 where there is none at all.
pub fn parent_of(
    alloc: Global,
    listed: &[DumpRecord],
    set: &SetName,
    level: &LevelPath,
) -> Result<u32, AllocError>
    ensures { IfOk result (λ id. id ≡ parent_of listed.now set.now level.now) }
{
    let levels = Levels::new(alloc).ancestors(level)?;
    for upper in levels.as_slice() {
        if let Some(id) = greatest_at(listed, set, upper) {
            return Ok(id);
        }
    }
    Ok(0)
}

/// A volume's from time: its clone time in the parent. 0 where it was born at or after that, both in seconds since 1970.
fn from_volume(volume: &VolRecord, born: u32) -> u32
    ensures { result ≡ from_volume (Some volume.now) born }
{
    if born < volume.fields().clone {
        volume.fields().clone
    } else {
        0
    }
}

/// The time, in seconds since 1970, from which on changes of a volume are dumped: its clone time in the parent. 0, for the
/// whole volume, where there is no parent, where the parent doesn't hold the name, and where the volume was born at or
/// after that clone time.
pub fn from_of(parent: Option<&DumpRecord>, name: &[u8], born: u32) -> u32
    ensures { result ≡ from_of (option_copied parent.entry) name.now born }
{
    let Some(parent) = parent else {
        return 0;
    };
    let Some(volume) = volume_of(parent, name) else {
        return 0;
    };
    from_volume(volume, born)
}
