//! Scanning the tape in a slot.

ghost use Rattle.std.specs.Prelude.{◌≡◌, ◌+◌, ◌≤◌, ℕ, List as AnyList, [], Some, Err, IfOk, OnOk, IsSome, IsTrue};
ghost use Rattle.crash_moments.specs.Moments.{HasCauseAt};
ghost use Rattle.plant_core.specs.Effects.{putting_away};
ghost use Rattle.plant_effects.specs.Runs.{state_of, loaded_of, Done, Leaves, SameNumbers, StaysQuiet};
ghost use Rattle.tape_text.specs.Items.{Item, Read};
ghost use Rattle.tape_scan.specs.Sections.{IsScanOf};
ghost use Rattle.tape_scan.specs.Steps.{Walked};

use crate::scanning_item::read_item;
use crate::scanning_sections::sections_in;
use crate::scanning_steps::step;
use crate::scanning_walk::{Step, Walk};
use crate::sections::{ScanFault, Sections};
use plant_core::Plant;
use plant_effects::load_tape;
use std::alloc::Global;
use tape_text::one_item;

/// Where a scan of the loaded tape ends: behind the longest front that is a text, and the number of its records.
fn walk_tape<P: Plant>(alloc: Global, plant: &mut P) -> Result<(Walk, u32), ScanFault>
    requires sound { P.sound plant.old }
    requires loaded { IsSome (loaded_of P.Plant plant.old) }
    ensures walked { P.tells → (k : ℕ) (items : AnyList Item) → loaded_of P.Plant plant.old ≡ Some k → Read ((state_of P.Plant plant.old).tape k) items → IfOk result (λ end. Walked items end.1 end.0) }
    ensures done { OnOk result (Done P.Plant [] plant.old plant.new) }
    ensures leaves { Leaves P.Plant [] plant.old plant.new }
    ensures numbers { OnOk result (SameNumbers P.Plant plant.old plant.new) }
    ensures memory { result ≡ Err ScanFault.Memory → Done P.Plant [] plant.old plant.new }
    ensures memory_numbers { result ≡ Err ScanFault.Memory → SameNumbers P.Plant plant.old plant.new }
    ensures stays { StaysQuiet P.Plant plant.old plant.new }
    ensures cause { HasCauseAt ScanFault.Failed (P.view plant.old).faults (P.view plant.new).faults result }
    ensures loads { (P.view plant.new).loads ≡ (P.view plant.old).loads }
{
    one_item();
    let mut walk = Walk::Nothing;
    let count = plant.tape_len();
    for place in 0..count {
        let item = read_item(alloc, plant, place)?;
        match step(alloc, walk, place, item)? {
            Step::Taken(longer) => walk = longer,
            Step::Stopped(same) => return Ok((same, place)),
        }
    }
    Ok((walk, count))
}

/// Scans the tape in a slot that is here: what stands in its longest front that is a tape text, and the record that doesn't
/// continue that. The tape is loaded, and what was put on the one before is settled; nothing else is changed, also where
/// memory was refused. Each record up to the one where the scan stops is read once.
pub fn scan_tape<P: Plant>(alloc: Global, plant: &mut P, slot: u32) -> Result<Sections, ScanFault>
    requires sound { P.sound plant.old }
    requires here { IsTrue ((P.view plant.old).present slot) }
    ensures scanned { P.tells → (items : AnyList Item) → Read ((state_of P.Plant plant.old).tape slot) items → IfOk result (λ sections. IsScanOf slot items sections) }
    ensures done { OnOk result (Done P.Plant (putting_away (loaded_of P.Plant plant.old) slot) plant.old plant.new) }
    ensures leaves { Leaves P.Plant (putting_away (loaded_of P.Plant plant.old) slot) plant.old plant.new }
    ensures loaded { OnOk result (loaded_of P.Plant plant.new ≡ Some slot) }
    ensures log_size { OnOk result ((P.view plant.new).log_size ≡ (P.view plant.old).log_size) }
    ensures memory { result ≡ Err ScanFault.Memory → Done P.Plant (putting_away (loaded_of P.Plant plant.old) slot) plant.old plant.new }
    ensures memory_log { result ≡ Err ScanFault.Memory → (P.view plant.new).log_size ≡ (P.view plant.old).log_size }
    ensures stays { StaysQuiet P.Plant plant.old plant.new }
    ensures cause { HasCauseAt ScanFault.Failed (P.view plant.old).faults (P.view plant.new).faults result }
    ensures loads { (P.view plant.new).loads ≤ (P.view plant.old).loads + 1 }
{
    load_tape(plant, slot)?;
    let (walk, place) = walk_tape(alloc, plant)?;
    let stop = if place < plant.tape_len() {
        Some(place)
    } else {
        None
    };
    let sections = sections_in(alloc, slot, walk, stop)?;
    Ok(sections)
}
