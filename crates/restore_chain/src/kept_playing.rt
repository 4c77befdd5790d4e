//! Playing a volume of one dump from fragments that were kept.

ghost use Rattle.std.specs.Prelude.{◌≡◌, ◌≢◌, ◌<◌, ◌∷◌, [], List as AnyList, Some, Err, IfOk, OnOk, length, slice_get};
ghost use Rattle.dump_stream.specs.Inputs.{IsOpen};
ghost use Rattle.budb_changes.specs.declared.records.VolRecordFields.{VolRecordFields as AnyVolume};
ghost use Rattle.budb_changes.specs.declared.records.DumpRecordFields.{DumpRecordFields as AnyDump};
ghost use Rattle.budb_fold.specs.Lookups.{volume_of};
ghost use Rattle.tape_text.specs.Wholes.{Lying};
ghost use Rattle.tape_scan.specs.Slots.{Slot};
ghost use Rattle.archive_model.specs.Holding.{called_frags, called_of, called_for};
ghost use Rattle.archive_model.specs.Plays.{PlaysOver};
ghost use Rattle.restore_chain.specs.Playing.{Joins, Turns, TurnsAll, GivesSo};
ghost use Rattle.restore_chain.specs.Restoring.{Tells, IsPlayAnswer, PlaysFrags};
ghost use Rattle.restore_chain.specs.Keeping.{IsRead, AllRead};

use crate::fault::RestoreFault;
use crate::keeping::{Kept, KeptPiece};
use crate::play_dump::{answer_given, index_of, volume_at, volume_place};
use crate::play_joined::{Joined, Site};
use crate::play_volume::{Given, Turn, frag_count};
use budb_changes::{DumpRecord, VolRecord};
use std::alloc::{AllocError, Global};
use vnode_model::Volume;

/// Joins the Data of a fragment to those before.
fn join_pieces(pieces: &[KeptPiece], joined: &mut Joined) -> Result<(), AllocError>
    requires is_open { IsOpen joined.old.input }
    ensures joins { OnOk result (Joins pieces.now joined.old joined.new) }
    ensures is_open { OnOk result (IsOpen joined.new.input) }
{
    for kept in pieces {
        joined.take(kept.site(), kept.fields())?;
    }
    Ok(())
}

/// Plays a fragment that was kept.
fn join_one(kept: &Kept, joined: &mut Joined) -> Result<Turn, AllocError>
    requires is_open { IsOpen joined.old.input }
    ensures turns { (slots : AnyList Slot) (d : AnyDump) (c : Lying) → IsRead slots d c kept.now → IfOk result (Turns slots d c joined.old joined.new) }
    ensures is_open { OnOk result (IsOpen joined.new.input) }
{
    match kept {
        Kept::Whole { pieces, end } => {
            join_pieces(pieces.as_slice(), joined)?;
            Ok(Turn::Whole(*end))
        }
        Kept::Bad(site) => Ok(Turn::Bad(*site)),
        Kept::Unread => Ok(Turn::Bad(Site { tape: 0, place: 0 })),
        Kept::Missing(tape) => Ok(Turn::Bad(Site {
            tape: *tape,
            place: 0,
        })),
        Kept::Held => Ok(Turn::Bad(Site { tape: 0, place: 0 })),
    }
}

/// Plays fragments that were kept.
fn join_each(all: &[Kept], joined: &mut Joined) -> Result<Turn, AllocError>
    requires is_open { IsOpen joined.old.input }
    ensures turns { (slots : AnyList Slot) (d : AnyDump) (cs : AnyList Lying) → AllRead slots d cs all.now → IfOk result (TurnsAll slots d cs joined.old joined.new) }
    ensures is_open { OnOk result (IsOpen joined.new.input) }
{
    let mut last = Site { tape: 0, place: 0 };
    for kept in all {
        match join_one(kept, joined) {
            Err(fault) => return Err(fault),
            Ok(turn) => match turn {
                Turn::Whole(site) => {
                    last = site;
                }
                Turn::Bad(site) => return Ok(Turn::Bad(site)),
            },
        }
    }
    Ok(Turn::Whole(last))
}

/// What the fragments of a volume give that were kept.
fn join_all(
    alloc: Global,
    id: u32,
    index: u32,
    volume: &VolRecord,
    all: &[Kept],
) -> Result<Given, AllocError>
    ensures { (slots : AnyList Slot) (d : AnyDump) → AllRead slots d (called_frags id index 1 volume.now volume.now.frags) all.now → IfOk result (GivesSo slots d (called_frags id index 1 volume.now volume.now.frags)) }
{
    // A record has 1 to 65,535 fragments, so their data has few bytes.
    let _count = frag_count(volume);
    let mut joined = Joined::new(alloc);
    match join_each(all, &mut joined) {
        Err(fault) => Err(fault),
        Ok(turn) => match turn {
            Turn::Bad(site) => Ok(Given::Bad(site)),
            Turn::Whole(end) => match joined.finish(end) {
                Ok(increment) => Ok(Given::Stream(increment)),
                Err(site) => Ok(Given::Bad(site)),
            },
        },
    }
}

/// Plays the volume at a place of a dump's record over the volume so far.
fn play_at(
    alloc: Global,
    dump: &DumpRecord,
    place: usize,
    all: &[Kept],
    base: Option<Volume>,
) -> Result<Volume, RestoreFault>
    requires within { place < length dump.now.volumes }
    ensures plays { (slots : AnyList Slot) (v : AnyVolume) → slice_get dump.now.volumes place ≡ Some v → AllRead slots dump.now (called_of dump.now.id (place, v)) all.now → Tells (PlaysFrags slots dump.now (called_of dump.now.id (place, v)) base) result }
    ensures only { IsPlayAnswer result }
    ensures never { result ≢ Err RestoreFault.Failed }
{
    let index = index_of(dump, place);
    let volume = volume_at(dump, place);
    match join_all(alloc, dump.fields().id, index, volume, all) {
        Err(_) => Err(RestoreFault::Memory),
        Ok(given) => answer_given(alloc, dump, given, base),
    }
}

/// Plays the first volume of a name in a dump's record over the volume so far, from its fragments, which were all read. The faults are
/// those of `play`; no tape is asked.
pub fn play_kept(
    alloc: Global,
    dump: &DumpRecord,
    name: &[u8],
    all: &[Kept],
    base: Option<Volume>,
) -> Result<Volume, RestoreFault>
    ensures plays { (slots : AnyList Slot) (v : AnyVolume) → volume_of dump.now name.now ≡ Some v → AllRead slots dump.now (called_for dump.now name.now) all.now → Tells (PlaysOver slots name.now base (dump.now ∷ [])) result }
    ensures only { (v : AnyVolume) → volume_of dump.now name.now ≡ Some v → IsPlayAnswer result }
    ensures never { result ≢ Err RestoreFault.Failed }
{
    match volume_place(dump, name) {
        None => Err(RestoreFault::MissingDump {
            id: dump.fields().id,
        }),
        Some(place) => play_at(alloc, dump, place, all, base),
    }
}
