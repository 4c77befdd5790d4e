//! The slots that hold the tapes of recorded dumps.

ghost use Rattle.std.specs.Prelude.{◌≡◌, ◌≤◌, ◌+◌, ◌&&◌, List as AnyList, Some, slice_get, IfOk, OnOk, IfSome, IsTrue};
ghost use Rattle.std.specs.Option.{option_copied};
ghost use Rattle.plant_effects.specs.Runs.{state_of, loaded_of};
ghost use Rattle.tape_text.specs.Items.{Item, Read};
ghost use Rattle.tape_scan.specs.Slots.{Slot};
ghost use Rattle.archive_model.specs.Holding.{place_of, is_label_frame, is_head_frame, is_so, holds, holder_here};
ghost use Rattle.tape_scan.specs.Looking.{IsSlot, HasSlots, LooksAt};
ghost use Rattle.restore_chain.specs.Planning.{is_frame, number_of};
ghost use Rattle.restore_chain.specs.Strays.{load_if, is_labelled, loads_for};

use crate::fault::LookFault;
use crate::play_read::read_frame;
use crate::reading::first_frame;
use budb_changes::{DumpRecord, TapePart};
use plant_core::Plant;
use plant_effects::load_tape;
use std::alloc::Global;
use tape_frames::Frame;

/// What a record names for a tape; of several places for one tape the first counts.
fn place_of(dump: &DumpRecord, tape: u32) -> Option<&TapePart>
    ensures { option_copied result ≡ place_of dump.now tape }
{
    dump.fields()
        .tapes
        .as_slice()
        .iter()
        .find(|part| part.tape == tape)
}

/// Whether a frame is the label of a dump set's tape.
fn is_label(frame: &Option<Frame>, initial: u32, tape: u32) -> bool
    ensures { result ≡ is_frame (is_label_frame initial tape) frame.now }
{
    match frame {
        Some(Frame::Label(label)) => {
            label.fields().initial == initial && label.fields().tape == tape
        }
        _ => false,
    }
}

/// Whether a frame is the head of a dump on a tape.
fn is_head(frame: &Option<Frame>, id: u32, tape: u32) -> bool
    ensures { result ≡ is_frame (is_head_frame id tape) frame.now }
{
    match frame {
        Some(Frame::DumpHead(head)) => head.fields().id == id && head.fields().tape == tape,
        _ => false,
    }
}

/// Whether the tape in a slot that is here has the head of a dump at a record. The tape is loaded.
fn has_head<P: Plant>(
    alloc: Global,
    plant: &mut P,
    slot: u32,
    place: u32,
    id: u32,
    tape: u32,
) -> Result<bool, LookFault>
    requires sound { P.sound plant.old }
    requires here { IsTrue ((P.view plant.old).present slot) }
    ensures is { P.tells → (items : AnyList Item) → Read ((state_of P.Plant plant.old).tape slot) items → IfOk result (λ is. is ≡ is_so (is_head_frame id tape) (slice_get items place)) }
    ensures looks { LooksAt P.Plant LookFault.Failed plant.old plant.new result }
    ensures loads { (P.view plant.new).loads ≤ (P.view plant.old).loads + 1 }
    ensures loaded { OnOk result (loaded_of P.Plant plant.new ≡ Some slot) }
{
    match load_tape(plant, slot) {
        Ok(()) => {}
        Err(_) => return Err(LookFault::Failed),
    }
    match read_frame(alloc, plant, place) {
        Ok(frame) => {
            let is = is_head(&frame, id, tape);
            drop(frame);
            Ok(is)
        }
        Err(fault) => Err(fault),
    }
}

/// Whether the tape in a slot that is here has the label of a dump set's tape. The loaded tape stays.
fn has_label<P: Plant>(
    alloc: Global,
    plant: &mut P,
    slot: u32,
    initial: u32,
    tape: u32,
) -> Result<bool, LookFault>
    requires sound { P.sound plant.old }
    requires here { IsTrue ((P.view plant.old).present slot) }
    ensures is { P.tells → (items : AnyList Item) → Read ((state_of P.Plant plant.old).tape slot) items → IfOk result (λ is. is ≡ is_so (is_label_frame initial tape) (slice_get items 0)) }
    ensures looks { LooksAt P.Plant LookFault.Failed plant.old plant.new result }
    ensures loads { (P.view plant.new).loads ≡ (P.view plant.old).loads }
{
    match first_frame(alloc, plant, slot) {
        Ok(frame) => {
            let is = is_label(&frame, initial, tape);
            drop(frame);
            Ok(is)
        }
        Err(fault) => Err(fault),
    }
}

/// Whether a slot that is here holds a tape of a record: its label is that of the tape, and at the record that the database
/// names it has the head of the dump. Only a tape with that label is loaded.
fn holds_here<P: Plant>(
    alloc: Global,
    plant: &mut P,
    dump: &DumpRecord,
    tape: u32,
    slot: u32,
) -> Result<bool, LookFault>
    requires sound { P.sound plant.old }
    requires here { IsTrue ((P.view plant.old).present slot) }
    ensures is { P.tells → (items : AnyList Item) → Read ((state_of P.Plant plant.old).tape slot) items → IfOk result (λ is. is ≡ holds dump.now tape items) }
    ensures looks { LooksAt P.Plant LookFault.Failed plant.old plant.new result }
    ensures loads { P.tells → (items : AnyList Item) → Read ((state_of P.Plant plant.old).tape slot) items → (P.view plant.new).loads ≤ (P.view plant.old).loads + load_if (is_so (is_label_frame dump.now.initial tape) (slice_get items 0)) }
    ensures loaded { IfOk result (λ is. IsTrue is → loaded_of P.Plant plant.new ≡ Some slot) }
{
    let Some(part) = place_of(dump, tape) else {
        return Ok(false);
    };
    match has_label(alloc, plant, slot, dump.fields().initial, tape) {
        Ok(true) => has_head(alloc, plant, slot, part.first, dump.fields().id, tape),
        Ok(false) => Ok(false),
        Err(fault) => Err(fault),
    }
}

/// Whether a slot is here and holds a tape of a record.
fn is_holder<P: Plant>(
    alloc: Global,
    plant: &mut P,
    dump: &DumpRecord,
    tape: u32,
    slot: u32,
) -> Result<bool, LookFault>
    requires sound { P.sound plant.old }
    ensures is { P.tells → (s : Slot) → IsSlot P.Plant plant.old slot s → IfOk result (λ is. is ≡ (s.here && holds dump.now tape s.items)) }
    ensures looks { LooksAt P.Plant LookFault.Failed plant.old plant.new result }
    ensures loads { P.tells → (s : Slot) → IsSlot P.Plant plant.old slot s → (P.view plant.new).loads ≤ (P.view plant.old).loads + load_if (is_labelled dump.now tape s) }
    ensures loaded { IfOk result (λ is. IsTrue is → loaded_of P.Plant plant.new ≡ Some slot) }
{
    if !plant.here(slot) {
        return Ok(false);
    }
    holds_here(alloc, plant, dump, tape, slot)
}

/// The least slot here that holds a tape of a record; its tape is left loaded. The slots are asked in ascending order, and of those up to
/// it the ones that have the tape's label are loaded, and none else.
///
/// # Errors
///
/// `Failed` where a call of the plant was refused, and `Memory`.
pub fn holder_of<P: Plant>(
    alloc: Global,
    plant: &mut P,
    dump: &DumpRecord,
    tape: u32,
) -> Result<Option<u32>, LookFault>
    requires { P.sound plant.old }
    ensures holder { P.tells → (slots : AnyList Slot) → HasSlots P.Plant slots plant.old → IfOk result (λ slot. slot ≡ number_of (holder_here dump.now tape slots)) }
    ensures looks { LooksAt P.Plant LookFault.Failed plant.old plant.new result }
    ensures loads { P.tells → (slots : AnyList Slot) → HasSlots P.Plant slots plant.old → (P.view plant.new).loads ≤ (P.view plant.old).loads + loads_for slots (record { dump = dump.now; tape = tape }) }
    ensures loaded { IfOk result (λ found. IfSome found (λ slot. loaded_of P.Plant plant.new ≡ Some slot)) }
{
    for slot in 0..plant.slots() {
        match is_holder(alloc, plant, dump, tape, slot) {
            Ok(true) => return Ok(Some(slot)),
            Ok(false) => {}
            Err(fault) => return Err(fault),
        }
    }
    Ok(None)
}
