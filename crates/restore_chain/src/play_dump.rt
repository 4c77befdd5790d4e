//! Playing one dump of a chain over the volume so far.

ghost use Rattle.std.specs.Prelude.{◌≡◌, ◌≢◌, ◌<◌, [], ◌∷◌, List as AnyList, Some, Err, length, drop, slice_get};
ghost use Rattle.std.specs.List.{position};
ghost use Rattle.bk_text.specs.Blanks.{is_same_text};
ghost use Rattle.budb_changes.specs.declared.records.VolRecordFields.{VolRecordFields as AnyVolume};
ghost use Rattle.budb_changes.specs.declared.records.DumpRecordFields.{DumpRecordFields as AnyDump};
ghost use Rattle.budb_fold.specs.Lookups.{record_of, volume_of};
ghost use Rattle.tape_text.specs.Wholes.{Lying};
ghost use Rattle.tape_scan.specs.Slots.{Slot};
ghost use Rattle.archive_model.specs.Holding.{called_of, called_for};
ghost use Rattle.archive_model.specs.Plays.{PlaysOver};
ghost use Rattle.tape_scan.specs.Looking.{HasSlots, LooksAt};
ghost use Rattle.restore_chain.specs.Planning.{needs_in};
ghost use Rattle.restore_chain.specs.Playing.{AreHeld, GivesSo};
ghost use Rattle.restore_chain.specs.Restoring.{Tells, IsPlayAnswer, IsBadAt, PlaysFrags};

use crate::chain_plan::TapeNeed;
use crate::fault::{LookFault, RestoreFault};
use crate::planning::fault_of;
use crate::play_apply::apply_next;
use crate::play_joined::Site;
use crate::play_volume::{Given, play_volume};
use budb::Budb;
use budb_changes::{DumpRecord, VolRecord};
use budb_fold::volume_of;
use plant_core::Plant;
use std::alloc::Global;
use tape_frames::tape_name;
use vnode_model::Volume;

/// That a record of a tape isn't what a dump's record calls for.
fn bad_on_tape(alloc: Global, dump: &DumpRecord, site: Site) -> RestoreFault
    ensures { IsBadAt dump.now site result }
{
    match tape_name(alloc, &dump.fields().base, site.tape) {
        Ok(tape) => RestoreFault::BadOnTape {
            tape,
            place: site.place,
        },
        Err(_) => RestoreFault::Memory,
    }
}

/// What a dump makes of the volume so far, where this is what its tapes give.
pub(crate) fn answer_given(
    alloc: Global,
    dump: &DumpRecord,
    given: Given,
    base: Option<Volume>,
) -> Result<Volume, RestoreFault>
    ensures plays { (slots : AnyList Slot) (cs : AnyList Lying) → GivesSo slots dump.now cs given → Tells (PlaysFrags slots dump.now cs base) result }
    ensures only { IsPlayAnswer result }
    ensures never { result ≢ Err RestoreFault.Failed }
{
    match given {
        Given::Stream(increment) => apply_next(alloc, base, increment),
        Given::Bad(site) => Err(bad_on_tape(alloc, dump, site)),
    }
}

/// The place of the first volume of a name in a dump's record.
pub(crate) fn volume_place(dump: &DumpRecord, name: &[u8]) -> Option<usize>
    ensures { result ≡ position (λ v. is_same_text v.name name.now) dump.now.volumes }
{
    dump.fields()
        .volumes
        .as_slice()
        .iter()
        .position(|volume| volume.fields().name.bytes() == name)
}

/// The volume at a place of a dump's record.
pub(crate) fn volume_at(dump: &DumpRecord, place: usize) -> &VolRecord
    requires { place < length dump.now.volumes }
    ensures { slice_get dump.now.volumes place ≡ Some result.now }
{
    &dump.fields().volumes.as_slice()[place]
}

/// The place of a volume as the tapes tell it.
pub(crate) fn index_of(dump: &DumpRecord, place: usize) -> u32
    requires { place < length dump.now.volumes }
    ensures { result ≡ place }
{
    let _fields = dump.fields();
    place as u32
}

/// Plays the volume at a place of a dump's record over the volume so far.
fn play_placed<P: Plant>(
    alloc: Global,
    plant: &mut P,
    dump: &DumpRecord,
    place: usize,
    needs: &[TapeNeed],
    base: Option<Volume>,
) -> Result<Volume, RestoreFault>
    requires sound { P.sound plant.old }
    requires within { place < length dump.now.volumes }
    ensures plays { P.tells → (slots : AnyList Slot) (v : AnyVolume) → HasSlots P.Plant slots plant.old → slice_get dump.now.volumes place ≡ Some v → AreHeld slots dump.now (called_of dump.now.id (place, v)) needs.now → Tells (PlaysFrags slots dump.now (called_of dump.now.id (place, v)) base) result }
    ensures only { IsPlayAnswer result }
    ensures looks { LooksAt P.Plant RestoreFault.Failed plant.old plant.new result }
{
    let index = index_of(dump, place);
    let volume = volume_at(dump, place);
    match play_volume(alloc, plant, dump.fields().id, index, volume, needs) {
        Err(fault) => Err(fault_of(fault)),
        Ok(given) => answer_given(alloc, dump, given, base),
    }
}

/// Plays the first volume of a name in a dump's record over the volume so far.
fn play_dump<P: Plant>(
    alloc: Global,
    plant: &mut P,
    dump: &DumpRecord,
    name: &[u8],
    needs: &[TapeNeed],
    base: Option<Volume>,
) -> Result<Volume, RestoreFault>
    requires { P.sound plant.old }
    ensures plays { P.tells → (slots : AnyList Slot) (v : AnyVolume) → HasSlots P.Plant slots plant.old → volume_of dump.now name.now ≡ Some v → AreHeld slots dump.now (called_for dump.now name.now) needs.now → Tells (PlaysOver slots name.now base (dump.now ∷ [])) result }
    ensures only { (v : AnyVolume) → volume_of dump.now name.now ≡ Some v → IsPlayAnswer result }
    ensures looks { LooksAt P.Plant RestoreFault.Failed plant.old plant.new result }
{
    match volume_place(dump, name) {
        None => Err(RestoreFault::MissingDump {
            id: dump.fields().id,
        }),
        Some(place) => play_placed(alloc, plant, dump, place, needs, base),
    }
}

/// Plays the listed dump of an id over the volume so far, from the tapes that the needs name: one for each fragment, and maybe
/// more behind. A dump that isn't listed or lacks the volume is told missing.
pub(crate) fn play_listed<P: Plant>(
    alloc: Global,
    plant: &mut P,
    budb: &Budb,
    id: u32,
    name: &[u8],
    needs: &[TapeNeed],
    base: Option<Volume>,
) -> Result<Volume, RestoreFault>
    requires { P.sound plant.old }
    ensures plays { P.tells → (slots : AnyList Slot) (d : AnyDump) (v : AnyVolume) → HasSlots P.Plant slots plant.old → record_of budb.now.database.listed id ≡ Some d → volume_of d name.now ≡ Some v → AreHeld slots d (called_for d name.now) needs.now → Tells (PlaysOver slots name.now base (d ∷ [])) result }
    ensures only { (d : AnyDump) (v : AnyVolume) → record_of budb.now.database.listed id ≡ Some d → volume_of d name.now ≡ Some v → IsPlayAnswer result }
    ensures looks { LooksAt P.Plant RestoreFault.Failed plant.old plant.new result }
{
    match budb.record(id) {
        None => Err(RestoreFault::MissingDump { id }),
        Some(dump) => play_dump(alloc, plant, dump, name, needs, base),
    }
}

/// How many tapes the listed dump of an id is played from, one for each fragment of the volume.
fn need_count(budb: &Budb, id: u32, name: &[u8]) -> usize
    ensures { result ≡ length (needs_in budb.now.database.listed name.now id) }
{
    match budb.record(id) {
        None => 0,
        Some(dump) => match volume_of(dump, name) {
            None => 0,
            Some(volume) => volume.fields().frags.len(),
        },
    }
}

/// What is left of tapes behind the first so many.
fn behind(needs: &[TapeNeed], count: usize) -> &[TapeNeed]
    ensures { result.now ≡ drop count needs.now }
{
    if count < needs.len() {
        &needs[count..]
    } else {
        &[]
    }
}

/// The tapes behind those that the listed dump of an id is played from.
pub(crate) fn needs_behind<'a>(
    budb: &Budb,
    id: u32,
    name: &[u8],
    needs: &'a [TapeNeed],
) -> &'a [TapeNeed]
    ensures { result.now ≡ drop (length (needs_in budb.now.database.listed name.now id)) needs.now }
{
    behind(needs, need_count(budb, id, name))
}
