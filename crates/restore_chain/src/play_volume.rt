//! Playing one volume of one dump, from the slots that hold its tapes.

ghost use Rattle.std.specs.Prelude.{◌≡◌, ◌<◌, ◌≤◌, ℕ, List as AnyList, Some, IfOk, OnOk, IsTrue, length, slice_get};
ghost use Rattle.std.specs.Option.{option_copied};
ghost use Rattle.dump_stream.specs.Inputs.{IsOpen};
ghost use Rattle.budb_changes.specs.declared.records.DumpRecordFields.{DumpRecordFields as AnyDump};
ghost use Rattle.tape_text.specs.Wholes.{Lying};
ghost use Rattle.tape_scan.specs.Slots.{Slot};
ghost use Rattle.archive_model.specs.Holding.{called_head, called_frags, holder_here};
ghost use Rattle.tape_scan.specs.Looking.{HasSlots, LooksAt};
ghost use Rattle.restore_chain.specs.Playing.{lying_of, AreHeld, EndsSo, Turns, TurnsAll, GivesSo};

use crate::chain_plan::TapeNeed;
use crate::fault::LookFault;
use crate::play_called::Called;
use crate::play_fragment::{Ended, play_fragment};
use crate::play_joined::{Joined, Site};
use bk_text::{Host, Name, Part};
use budb_changes::{Frag, VolRecord};
use plant_core::Plant;
use plant_effects::load_tape;
use std::alloc::{AllocError, Global};
use tape_frames::{VolHead, VolHeadFields};
use vnode_model::Increment;

/// How fragments of a volume were played.
#[derive(Clone, Copy, Debug, PartialEq, Eq)]
pub enum Turn {
    /// They stand, and this record is the last one's end.
    Whole(Site),
    /// This is the first record that isn't what is called for.
    Bad(Site),
}

/// What a volume of a dump gives.
#[derive(Drop)]
pub enum Given {
    /// An increment.
    Stream(Increment),
    /// A record that isn't what is called for.
    Bad(Site),
}

/// How many fragments a volume has.
pub(crate) fn frag_count(volume: &VolRecord) -> usize
    ensures count { result ≡ length volume.now.frags }
    ensures some { 1 ≤ result }
    ensures few { result ≤ 65535 }
{
    volume.fields().frags.len()
}

/// Where the fragment of a volume lies that has a place in its record.
pub(crate) fn frag_at(volume: &VolRecord, place: usize) -> Frag
    requires { place < length volume.now.frags }
    ensures { slice_get volume.now.frags place ≡ Some result }
{
    volume.fields().frags.as_slice()[place]
}

/// The head of a volume's fragment of this number, from 1 on.
fn head_at(
    alloc: Global,
    id: u32,
    index: u32,
    fragment: u32,
    volume: &VolRecord,
) -> Result<VolHead, AllocError>
    requires { 1 ≤ fragment }
    ensures { IfOk result (λ head. head ≡ called_head id index fragment volume.now) }
{
    let fields = volume.fields();
    Ok(VolHead::new(VolHeadFields {
        dump: id,
        index,
        fragment,
        volume: fields.id,
        clone: fields.clone,
        from: fields.from,
        name: Name::from_bytes(alloc, fields.name.bytes())?,
        server: Host::from_bytes(alloc, fields.server.bytes())?,
        partition: Part::from_bytes(alloc, fields.partition.bytes())?,
    }))
}

/// The fragment of a volume that has a place in its record, from 0 on.
pub(crate) fn called_frag(
    alloc: Global,
    id: u32,
    index: u32,
    volume: &VolRecord,
    place: u32,
) -> Result<Called, AllocError>
    requires within { place < length volume.now.frags }
    requires few { place < 65535 }
    ensures { IfOk result (λ called. slice_get (called_frags id index 1 volume.now volume.now.frags) place ≡ Some (lying_of called)) }
{
    let frag = frag_at(volume, place as usize);
    let count = frag_count(volume);
    match head_at(alloc, id, index, place + 1, volume) {
        Err(fault) => Err(fault),
        Ok(head) => Ok(Called {
            tape: frag.tape,
            at: frag.at,
            head,
            ends: place as usize + 1 == count,
        }),
    }
}

/// Plays a fragment of the tape in a slot that is here.
fn play_on<P: Plant>(
    alloc: Global,
    plant: &mut P,
    slot: u32,
    called: &Called,
    joined: &mut Joined,
) -> Result<Ended, LookFault>
    requires sound { P.sound plant.old }
    requires here { IsTrue ((P.view plant.old).present slot) }
    requires is_open { IsOpen joined.old.input }
    ensures ends { P.tells → (slots : AnyList Slot) (s : Slot) → HasSlots P.Plant slots plant.old → slice_get slots slot ≡ Some s → IfOk result (EndsSo (lying_of called.now) s.items joined.old joined.new) }
    ensures is_open { OnOk result (IsOpen joined.new.input) }
    ensures looks { LooksAt P.Plant LookFault.Failed plant.old plant.new result }
{
    match load_tape(plant, slot) {
        Err(_) => Err(LookFault::Failed),
        Ok(()) => play_fragment(alloc, plant, called, joined),
    }
}

/// Plays the fragment of a volume that has a place in its record. Where the slot that is planned for its tape isn't here, its first
/// record isn't what is called for.
fn play_frag<P: Plant>(
    alloc: Global,
    plant: &mut P,
    id: u32,
    index: u32,
    volume: &VolRecord,
    place: u32,
    need: &TapeNeed,
    joined: &mut Joined,
) -> Result<Turn, LookFault>
    requires sound { P.sound plant.old }
    requires within { place < length volume.now.frags }
    requires few { place < 65535 }
    requires is_open { IsOpen joined.old.input }
    ensures turns { P.tells → (slots : AnyList Slot) (d : AnyDump) (c : Lying) (s : Slot) → HasSlots P.Plant slots plant.old → slice_get (called_frags id index 1 volume.now volume.now.frags) place ≡ Some c → holder_here d c.tape slots ≡ Some (need.now.slot, s) → IfOk result (Turns slots d c joined.old joined.new) }
    ensures is_open { OnOk result (IsOpen joined.new.input) }
    ensures looks { LooksAt P.Plant LookFault.Failed plant.old plant.new result }
{
    match called_frag(alloc, id, index, volume, place) {
        Err(_) => Err(LookFault::Memory),
        Ok(called) => {
            let tape = called.tape;
            if !plant.here(need.slot) {
                let place = called.at;
                return Ok(Turn::Bad(Site { tape, place }));
            }
            match play_on(alloc, plant, need.slot, &called, joined) {
                Err(fault) => Err(fault),
                Ok(ended) => match ended {
                    Ended::Whole(place) => Ok(Turn::Whole(Site { tape, place })),
                    Ended::Bad(place) => Ok(Turn::Bad(Site { tape, place })),
                },
            }
        }
    }
}

/// The need that has a place among these.
fn need_at(needs: &[TapeNeed], place: usize) -> Option<&TapeNeed>
    ensures { option_copied result ≡ slice_get needs.now place }
{
    needs.get(place)
}

/// Plays all fragments of a volume. Where no slot is planned for a tape, its first record isn't what is called for.
fn play_frags<P: Plant>(
    alloc: Global,
    plant: &mut P,
    id: u32,
    index: u32,
    volume: &VolRecord,
    needs: &[TapeNeed],
    joined: &mut Joined,
) -> Result<Turn, LookFault>
    requires sound { P.sound plant.old }
    requires is_open { IsOpen joined.old.input }
    ensures turns { P.tells → (slots : AnyList Slot) (d : AnyDump) → HasSlots P.Plant slots plant.old → AreHeld slots d (called_frags id index 1 volume.now volume.now.frags) needs.now → IfOk result (TurnsAll slots d (called_frags id index 1 volume.now volume.now.frags) joined.old joined.new) }
    ensures is_open { OnOk result (IsOpen joined.new.input) }
    ensures looks { LooksAt P.Plant LookFault.Failed plant.old plant.new result }
{
    let mut last = Site { tape: 0, place: 0 };
    let count = frag_count(volume) as u32;
    for place in 0..count {
        match need_at(needs, place as usize) {
            None => {
                let frag = frag_at(volume, place as usize);
                return Ok(Turn::Bad(Site {
                    tape: frag.tape,
                    place: frag.at,
                }));
            }
            Some(need) => match play_frag(alloc, plant, id, index, volume, place, need, joined) {
                Err(fault) => return Err(fault),
                Ok(turn) => match turn {
                    Turn::Whole(site) => {
                        last = site;
                    }
                    Turn::Bad(site) => return Ok(Turn::Bad(site)),
                },
            },
        }
    }
    Ok(Turn::Whole(last))
}

/// What a volume of a dump gives: the increment that its fragments spell on the tapes that the needs name, one need for each
/// fragment, or the first record that isn't what the database calls for; where all are, the one at which the data stops being a
/// stream. Tapes are loaded, and nothing is written.
pub(crate) fn play_volume<P: Plant>(
    alloc: Global,
    plant: &mut P,
    id: u32,
    index: u32,
    volume: &VolRecord,
    needs: &[TapeNeed],
) -> Result<Given, LookFault>
    requires { P.sound plant.old }
    ensures gives { P.tells → (slots : AnyList Slot) (d : AnyDump) → HasSlots P.Plant slots plant.old → AreHeld slots d (called_frags id index 1 volume.now volume.now.frags) needs.now → IfOk result (GivesSo slots d (called_frags id index 1 volume.now volume.now.frags)) }
    ensures looks { LooksAt P.Plant LookFault.Failed plant.old plant.new result }
{
    // A record has 1 to 65,535 fragments, so their data has few bytes.
    let _count = frag_count(volume);
    let mut joined = Joined::new(alloc);
    match play_frags(alloc, plant, id, index, volume, needs, &mut joined) {
        Err(fault) => Err(fault),
        Ok(turn) => match turn {
            Turn::Bad(site) => Ok(Given::Bad(site)),
            Turn::Whole(end) => match joined.finish(end) {
                Ok(increment) => Ok(Given::Stream(increment)),
                Err(site) => Ok(Given::Bad(site)),
            },
        },
    }
}
