//! Keeping the fragments that a volume of a dump has on one tape.

ghost use Rattle.std.specs.Prelude.{◌≡◌, ◌≢◌, ◌<◌, ℕ, Bool, Err, List as AnyList, Some, IfOk, OnOk, IsSome, IsTrue, length, vec_len, slice_get, slice_set, All};
ghost use Rattle.plant_effects.specs.Runs.{loaded_of};
ghost use Rattle.budb_changes.specs.declared.records.Frag.{Frag as AnyFrag};
ghost use Rattle.budb_changes.specs.declared.records.VolRecordFields.{VolRecordFields as AnyVolume};
ghost use Rattle.budb_changes.specs.declared.records.DumpRecordFields.{DumpRecordFields as AnyDump};
ghost use Rattle.budb_fold.specs.Lookups.{volume_of};
ghost use Rattle.tape_text.specs.Wholes.{Lying};
ghost use Rattle.tape_scan.specs.Slots.{Slot};
ghost use Rattle.tape_scan.specs.Looking.{HasSlots};
ghost use Rattle.archive_model.specs.Holding.{called_frags, called_of, called_for};
ghost use Rattle.restore_chain.specs.declared.keeping.Kept.TheVariants as kept_forms;
ghost use Rattle.restore_chain.specs.declared.keeping.Reading.TheVariants as readings;
ghost use Rattle.restore_chain.specs.Keeping.{OnlyReads, IsKept, AllKept, IsBegun, MayKeep};

use crate::fault::LookFault;
use crate::keep_fragment::keep_fragment;
use crate::keeping::{Kept, Reading};
use crate::play_dump::{index_of, volume_at, volume_place};
use crate::play_volume::{called_frag, frag_at, frag_count};
use budb_changes::{DumpRecord, VolRecord};
use plant_core::Plant;
use std::alloc::{AllocError, Global};

/// What is kept of the fragment of a volume that has a place in its record.
fn keep_one<P: Plant>(
    alloc: Global,
    plant: &mut P,
    id: u32,
    index: u32,
    volume: &VolRecord,
    place: u32,
    reading: Reading,
) -> Result<Kept, LookFault>
    requires sound { P.sound plant.old }
    requires loaded { reading ≡ readings.Loaded → IsSome (loaded_of P.Plant plant.old) }
    requires within { place < length volume.now.frags }
    requires few { place < 65535 }
    ensures keeps { P.tells → (slots : AnyList Slot) (d : AnyDump) (may : Bool) (c : Lying) → HasSlots P.Plant slots plant.old → slice_get (called_frags id index 1 volume.now volume.now.frags) place ≡ Some c → MayKeep P.Plant slots d may c.tape plant.old reading → IfOk result (IsKept slots d may c) }
    ensures reads { OnlyReads P.Plant LookFault.Failed plant.old plant.new result }
{
    match reading {
        Reading::Missing => Ok(Kept::Missing(frag_at(volume, place as usize).tape)),
        Reading::Held => Ok(Kept::Held),
        Reading::Loaded => match called_frag(alloc, id, index, volume, place) {
            Err(_) => Err(LookFault::Memory),
            Ok(called) => keep_fragment(alloc, plant, &called),
        },
    }
}

/// Puts what is kept of a fragment at its place.
fn put_at(kept: &mut Vec<Kept>, at: usize, found: Kept)
    requires { at < vec_len kept.old }
    ensures { kept.new.items ≡ slice_set kept.old.items at found }
{
    kept[at] = found;
}

/// Whether the fragment of a volume that has a place in its record lies on a tape.
fn lies_on(volume: &VolRecord, place: u32, tape: u32) -> bool
    requires { place < length volume.now.frags }
    ensures { IsTrue result → (f : AnyFrag) → slice_get volume.now.frags place ≡ Some f → f.tape ≡ tape }
{
    frag_at(volume, place as usize).tape == tape
}

/// Keeps the fragment of a volume that has a place in its record, where it lies on a tape.
fn keep_at<P: Plant>(
    alloc: Global,
    plant: &mut P,
    id: u32,
    index: u32,
    volume: &VolRecord,
    place: u32,
    tape: u32,
    reading: Reading,
    kept: &mut Vec<Kept>,
) -> Result<(), LookFault>
    requires sound { P.sound plant.old }
    requires loaded { reading ≡ readings.Loaded → IsSome (loaded_of P.Plant plant.old) }
    requires within { place < length volume.now.frags }
    requires few { place < 65535 }
    requires all { vec_len kept.old ≡ length volume.now.frags }
    ensures keeps { P.tells → (slots : AnyList Slot) (d : AnyDump) (may : Bool) → HasSlots P.Plant slots plant.old → MayKeep P.Plant slots d may tape plant.old reading → AllKept slots d may (called_frags id index 1 volume.now volume.now.frags) kept.old.items → OnOk result (AllKept slots d may (called_frags id index 1 volume.now volume.now.frags) kept.new.items) }
    ensures all { vec_len kept.new ≡ vec_len kept.old }
    ensures reads { OnlyReads P.Plant LookFault.Failed plant.old plant.new result }
{
    if !lies_on(volume, place, tape) {
        return Ok(());
    }
    match keep_one(alloc, plant, id, index, volume, place, reading) {
        Err(fault) => Err(fault),
        Ok(found) => {
            put_at(kept, place as usize, found);
            Ok(())
        }
    }
}

/// Keeps the fragments of a volume that lie on a tape.
fn keep_each<P: Plant>(
    alloc: Global,
    plant: &mut P,
    id: u32,
    index: u32,
    volume: &VolRecord,
    tape: u32,
    reading: Reading,
    kept: &mut Vec<Kept>,
) -> Result<(), LookFault>
    requires sound { P.sound plant.old }
    requires loaded { reading ≡ readings.Loaded → IsSome (loaded_of P.Plant plant.old) }
    requires all { vec_len kept.old ≡ length volume.now.frags }
    ensures keeps { P.tells → (slots : AnyList Slot) (d : AnyDump) (may : Bool) → HasSlots P.Plant slots plant.old → MayKeep P.Plant slots d may tape plant.old reading → AllKept slots d may (called_frags id index 1 volume.now volume.now.frags) kept.old.items → OnOk result (AllKept slots d may (called_frags id index 1 volume.now volume.now.frags) kept.new.items) }
    ensures reads { OnlyReads P.Plant LookFault.Failed plant.old plant.new result }
{
    let count = frag_count(volume) as u32;
    for place in 0..count {
        match keep_at(alloc, plant, id, index, volume, place, tape, reading, kept) {
            Ok(()) => {}
            Err(fault) => return Err(fault),
        }
    }
    Ok(())
}

/// Nothing kept, of so many fragments.
fn unread(alloc: Global, count: usize) -> Result<Vec<Kept>, AllocError>
    ensures none { IfOk result (λ kept. All (λ k. k ≡ kept_forms.Unread) kept.items) }
    ensures count { IfOk result (λ kept. length kept.items ≡ count) }
{
    let mut kept = Vec::new(alloc);
    for place in 0..count {
        kept.push(Kept::Unread)?;
    }
    Ok(kept)
}

/// Whether something is kept of each of so many fragments.
fn is_begun(kept: &Vec<Kept>, count: usize) -> bool
    ensures { IsTrue result → vec_len kept.now ≡ count }
{
    kept.len() == count
}

/// Begins to keep the fragments of a volume, where this wasn't done.
fn begin(alloc: Global, volume: &VolRecord, kept: &mut Vec<Kept>) -> Result<(), LookFault>
    ensures begun { (slots : AnyList Slot) (d : AnyDump) (may : Bool) (id : ℕ) (index : ℕ) → IsBegun slots d may (called_frags id index 1 volume.now volume.now.frags) kept.old.items → OnOk result (AllKept slots d may (called_frags id index 1 volume.now volume.now.frags) kept.new.items) }
    ensures all { OnOk result (vec_len kept.new ≡ length volume.now.frags) }
    ensures never { result ≢ Err LookFault.Failed }
{
    let count = frag_count(volume);
    if is_begun(kept, count) {
        return Ok(());
    }
    match unread(alloc, count) {
        Err(_) => Err(LookFault::Memory),
        Ok(begun) => {
            *kept = begun;
            Ok(())
        }
    }
}

/// Keeps the fragments of the volume at a place of a dump's record that lie on a tape.
fn keep_placed<P: Plant>(
    alloc: Global,
    plant: &mut P,
    dump: &DumpRecord,
    place: usize,
    tape: u32,
    reading: Reading,
    kept: &mut Vec<Kept>,
) -> Result<(), LookFault>
    requires sound { P.sound plant.old }
    requires loaded { reading ≡ readings.Loaded → IsSome (loaded_of P.Plant plant.old) }
    requires within { place < length dump.now.volumes }
    ensures keeps { P.tells → (slots : AnyList Slot) (may : Bool) (v : AnyVolume) → HasSlots P.Plant slots plant.old → MayKeep P.Plant slots dump.now may tape plant.old reading → slice_get dump.now.volumes place ≡ Some v → IsBegun slots dump.now may (called_of dump.now.id (place, v)) kept.old.items → OnOk result (AllKept slots dump.now may (called_of dump.now.id (place, v)) kept.new.items) }
    ensures reads { OnlyReads P.Plant LookFault.Failed plant.old plant.new result }
{
    let id = dump.fields().id;
    let index = index_of(dump, place);
    let volume = volume_at(dump, place);
    match begin(alloc, volume, kept) {
        Err(fault) => Err(fault),
        Ok(()) => keep_each(alloc, plant, id, index, volume, tape, reading, kept),
    }
}

/// Keeps the fragments on a tape of the first volume of a name in a dump's record, beside those that are kept. Nothing but the loaded
/// tape is read.
///
/// # Errors
///
/// `Failed` where a call of the plant was refused, and `Memory`.
pub fn keep_tape<P: Plant>(
    alloc: Global,
    plant: &mut P,
    dump: &DumpRecord,
    name: &[u8],
    tape: u32,
    reading: Reading,
    kept: &mut Vec<Kept>,
) -> Result<(), LookFault>
    requires sound { P.sound plant.old }
    requires loaded { reading ≡ readings.Loaded → IsSome (loaded_of P.Plant plant.old) }
    ensures keeps { P.tells → (slots : AnyList Slot) (may : Bool) (v : AnyVolume) → HasSlots P.Plant slots plant.old → MayKeep P.Plant slots dump.now may tape plant.old reading → volume_of dump.now name.now ≡ Some v → IsBegun slots dump.now may (called_for dump.now name.now) kept.old.items → OnOk result (AllKept slots dump.now may (called_for dump.now name.now) kept.new.items) }
    ensures reads { OnlyReads P.Plant LookFault.Failed plant.old plant.new result }
{
    match volume_place(dump, name) {
        None => Ok(()),
        Some(place) => keep_placed(alloc, plant, dump, place, tape, reading, kept),
    }
}
