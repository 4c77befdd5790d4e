//! The choice of a tape that is taken.

ghost use Rattle.std.specs.Prelude.{◌≡◌, ◌≤◌, false, [], List as AnyList, IfOk, IfSome, IsTrue};
ghost use Rattle.crash_moments.specs.Moments.{HasCauseAt};
ghost use Rattle.plant_effects.specs.Runs.{state_of, Done, Leaves, SameNumbers, StaysQuiet};
ghost use Rattle.tape_text.specs.Items.{Item, Read};
ghost use Rattle.tape_scan.specs.Slots.{Slot};
ghost use Rattle.tape_scan.specs.Looking.{HasSlots};
ghost use Rattle.tape_choice.specs.Scene.{UnlessFailed};
ghost use Rattle.tape_choice.specs.Firsts.{first_passes, label_first};
ghost use Rattle.tape_choice.specs.Choice.{chosen, forgotten, is_used, choice_of, choice_at, tape_choice};

use crate::fault::ChoiceFault;
use crate::labels::{forgotten, is_used, label_passes};
use crate::reading::{First, read_first};
use crate::wanting::Wanting;
use budb_changes::DumpRecord;
use plant_core::Plant;
use std::alloc::Global;
use tape_config::Port;
use tape_frames::Label;

/// A tape that was chosen.
#[derive(Debug, Drop)]
pub struct Chosen {
    /// Its slot.
    pub slot: u32,
    /// Its label, which it has but where it has no records.
    pub label: Option<Label>,
    /// The dump set that is forgotten when it is taken, by its initial id.
    pub take: Option<u32>,
}

/// A tape that is taken, by its label.
fn taking(listed: &[DumpRecord], slot: u32, label: Option<Label>) -> Chosen
    ensures { result ≡ record { slot = slot; label = label; take = forgotten listed.now label } }
{
    let take = forgotten(listed, &label);
    Chosen { slot, label, take }
}

/// Whether a tape may be taken on which this stands first.
fn first_passes(listed: &[DumpRecord], wanting: &Wanting, first: &First) -> bool
    ensures { result ≡ first_passes listed.now wanting.now first.now }
{
    match first {
        First::Blank => true,
        First::Label(label) => label_passes(listed, wanting, label),
        First::Other => false,
    }
}

/// The label that stands first.
fn label_first(first: First) -> Option<Label>
    ensures { result ≡ label_first first }
{
    match first {
        First::Blank => None,
        First::Label(label) => Some(label),
        First::Other => None,
    }
}

/// What is known of the tape in a slot that is here, where it may be taken.
fn try_tape<P: Plant>(
    alloc: Global,
    plant: &mut P,
    listed: &[DumpRecord],
    wanting: &Wanting,
    slot: u32,
) -> Result<Option<Chosen>, ChoiceFault>
    requires sound { P.sound plant.old }
    requires here { IsTrue ((P.view plant.old).present slot) }
    ensures tried { P.tells → (items : AnyList Item) → Read ((state_of P.Plant plant.old).tape slot) items → IfOk result (λ c. c ≡ tape_choice listed.now wanting.now slot items) }
    ensures slot { IfOk result (λ c. IfSome c (λ c. c.slot ≡ slot)) }
    ensures done { UnlessFailed result (Done P.Plant [] plant.old plant.new) }
    ensures leaves { Leaves P.Plant [] plant.old plant.new }
    ensures numbers { UnlessFailed result (SameNumbers P.Plant plant.old plant.new) }
    ensures stays { StaysQuiet P.Plant plant.old plant.new }
    ensures cause { HasCauseAt ChoiceFault.Failed (P.view plant.old).faults (P.view plant.new).faults result }
{
    let first = read_first(alloc, plant, slot)?;
    if !first_passes(listed, wanting, &first) {
        return Ok(None);
    }
    Ok(Some(taking(listed, slot, label_first(first))))
}

/// What is known of the tape in a slot, where the slot passes.
fn try_slot<P: Plant>(
    alloc: Global,
    plant: &mut P,
    listed: &[DumpRecord],
    wanting: &Wanting,
    slot: u32,
) -> Result<Option<Chosen>, ChoiceFault>
    requires { P.sound plant.old }
    ensures tried { P.tells → (s : Slot) → s.here ≡ (P.view plant.old).present slot → Read ((state_of P.Plant plant.old).tape slot) s.items → IfOk result (λ c. c ≡ choice_at listed.now wanting.now slot s) }
    ensures slot { IfOk result (λ c. IfSome c (λ c. c.slot ≡ slot)) }
    ensures here { IfOk result (λ c. IfSome c (λ c. IsTrue ((P.view plant.old).present slot))) }
    ensures unused { IfOk result (λ c. IfSome c (λ c. is_used wanting.now slot ≡ false)) }
    ensures done { UnlessFailed result (Done P.Plant [] plant.old plant.new) }
    ensures leaves { Leaves P.Plant [] plant.old plant.new }
    ensures numbers { UnlessFailed result (SameNumbers P.Plant plant.old plant.new) }
    ensures stays { StaysQuiet P.Plant plant.old plant.new }
    ensures cause { HasCauseAt ChoiceFault.Failed (P.view plant.old).faults (P.view plant.new).faults result }
{
    if !plant.here(slot) {
        return Ok(None);
    }
    if is_used(wanting, slot) {
        return Ok(None);
    }
    try_tape(alloc, plant, listed, wanting, slot)
}

/// Chooses the tape that a dump takes: the least of the coordinator's slots that is here, that the dump hasn't taken, and
/// whose tape has no records or a label that passes. `None` exactly where no slot passes. First records are looked at
/// alone; the loaded tape stays, and nothing is changed. (The rules of the choice are this project's own.)
pub fn choose_tape<P: Plant>(
    alloc: Global,
    plant: &mut P,
    listed: &[DumpRecord],
    wanting: &Wanting,
    port: &Port,
) -> Result<Option<Chosen>, ChoiceFault>
    requires { P.sound plant.old }
    ensures chosen { P.tells → (slots : AnyList Slot) → HasSlots P.Plant slots plant.old → IfOk result (λ c. c ≡ choice_of listed.now (chosen listed.now wanting.now port.now slots)) }
    ensures here { IfOk result (λ c. IfSome c (λ c. IsTrue ((P.view plant.old).present c.slot))) }
    ensures first { IfOk result (λ c. IfSome c (λ c. port.now.first ≤ c.slot)) }
    ensures last { IfOk result (λ c. IfSome c (λ c. c.slot ≤ port.now.last)) }
    ensures unused { IfOk result (λ c. IfSome c (λ c. is_used wanting.now c.slot ≡ false)) }
    ensures done { UnlessFailed result (Done P.Plant [] plant.old plant.new) }
    ensures leaves { Leaves P.Plant [] plant.old plant.new }
    ensures numbers { UnlessFailed result (SameNumbers P.Plant plant.old plant.new) }
    ensures stays { StaysQuiet P.Plant plant.old plant.new }
    ensures cause { HasCauseAt ChoiceFault.Failed (P.view plant.old).faults (P.view plant.new).faults result }
{
    let fields = port.fields();
    for slot in fields.first..fields.last + 1 {
        if let Some(chosen) = try_slot(alloc, plant, listed, wanting, slot)? {
            return Ok(Some(chosen));
        }
    }
    Ok(None)
}
