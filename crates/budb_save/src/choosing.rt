//! The choice of a tape to save on, and of one to read from.

ghost use Rattle.std.specs.Prelude.{◌≡◌, ◌≤◌, [], List as AnyList, IfOk, IfSome, IsTrue};
ghost use Rattle.crash_moments.specs.Moments.{HasCauseAt};
ghost use Rattle.plant_effects.specs.Runs.{state_of, Done, Leaves, SameNumbers, StaysQuiet};
ghost use Rattle.tape_text.specs.Items.{Item, Read};
ghost use Rattle.tape_scan.specs.Slots.{Slot};
ghost use Rattle.tape_scan.specs.Looking.{HasSlots};
ghost use Rattle.tape_choice.specs.Scene.{UnlessFailed};
ghost use Rattle.budb_save.specs.Choice.{name_fits, label_fits, first_fits, label_first, picked, pick_of, tape_pick, pick_at};

use crate::firsts::{First, read_first};
use plant_core::Plant;
use std::alloc::Global;
use tape_choice::ChoiceFault;
use tape_config::Port;
use tape_frames::Label;

/// The AFS name of a tape with a save.
pub(crate) const NAME: [u8; 14] = *b"Ubik_db_dump.1";

/// What a tape is wanted for.
#[derive(Clone, Copy, Debug, PartialEq, Eq)]
pub enum Wish {
    /// To save on.
    Saving,
    /// To read from.
    Reading,
}

/// A slot that was chosen.
#[derive(Debug, Drop)]
pub struct Picked {
    /// Its number.
    pub slot: u32,
    /// Its label, which it has but where it has no records.
    pub label: Option<Label>,
}

/// Whether a label's AFS name fits.
fn name_fits(wish: Wish, afs: &[u8]) -> bool
    ensures { result ≡ name_fits wish afs.now }
{
    match wish {
        Wish::Saving => afs.is_empty() || afs == NAME.as_slice(),
        Wish::Reading => afs == NAME.as_slice(),
    }
}

/// Whether a label fits.
fn label_fits(wish: Wish, label: &Label) -> bool
    ensures { result ≡ label_fits wish label.now }
{
    let fields = label.fields();
    fields.initial == 0 && name_fits(wish, fields.afs.as_slice())
}

/// Whether a tape fits on which this stands first.
fn first_fits(wish: Wish, first: &First) -> bool
    ensures { result ≡ first_fits wish first.now }
{
    match first {
        First::Blank => match wish {
            Wish::Saving => true,
            Wish::Reading => false,
        },
        First::Label(label) => label_fits(wish, label),
        First::Other => false,
    }
}

/// The label that stands first.
fn label_first(first: First) -> Option<Label>
    ensures { result ≡ label_first first }
{
    match first {
        First::Blank => None,
        First::Label(label) => Some(label),
        First::Other => None,
    }
}

/// What is known of the tape in a slot that is here, where it fits.
fn try_tape<P: Plant>(
    alloc: Global,
    plant: &mut P,
    wish: Wish,
    slot: u32,
) -> Result<Option<Picked>, ChoiceFault>
    requires sound { P.sound plant.old }
    requires here { IsTrue ((P.view plant.old).present slot) }
    ensures tried { P.tells → (items : AnyList Item) → Read ((state_of P.Plant plant.old).tape slot) items → IfOk result (λ c. c ≡ tape_pick wish slot items) }
    ensures slot { IfOk result (λ c. IfSome c (λ c. c.slot ≡ slot)) }
    ensures done { UnlessFailed result (Done P.Plant [] plant.old plant.new) }
    ensures leaves { Leaves P.Plant [] plant.old plant.new }
    ensures numbers { UnlessFailed result (SameNumbers P.Plant plant.old plant.new) }
    ensures stays { StaysQuiet P.Plant plant.old plant.new }
    ensures loads { (P.view plant.new).loads ≡ (P.view plant.old).loads }
    ensures cause { HasCauseAt ChoiceFault.Failed (P.view plant.old).faults (P.view plant.new).faults result }
{
    let first = read_first(alloc, plant, slot)?;
    if !first_fits(wish, &first) {
        return Ok(None);
    }
    Ok(Some(Picked {
        slot,
        label: label_first(first),
    }))
}

/// What is known of the tape in a slot, where the slot fits.
fn try_slot<P: Plant>(
    alloc: Global,
    plant: &mut P,
    wish: Wish,
    slot: u32,
) -> Result<Option<Picked>, ChoiceFault>
    requires { P.sound plant.old }
    ensures tried { P.tells → (s : Slot) → s.here ≡ (P.view plant.old).present slot → Read ((state_of P.Plant plant.old).tape slot) s.items → IfOk result (λ c. c ≡ pick_at wish slot s) }
    ensures slot { IfOk result (λ c. IfSome c (λ c. c.slot ≡ slot)) }
    ensures here { IfOk result (λ c. IfSome c (λ c. IsTrue ((P.view plant.old).present slot))) }
    ensures done { UnlessFailed result (Done P.Plant [] plant.old plant.new) }
    ensures leaves { Leaves P.Plant [] plant.old plant.new }
    ensures numbers { UnlessFailed result (SameNumbers P.Plant plant.old plant.new) }
    ensures stays { StaysQuiet P.Plant plant.old plant.new }
    ensures loads { (P.view plant.new).loads ≡ (P.view plant.old).loads }
    ensures cause { HasCauseAt ChoiceFault.Failed (P.view plant.old).faults (P.view plant.new).faults result }
{
    if !plant.here(slot) {
        return Ok(None);
    }
    try_tape(alloc, plant, wish, slot)
}

/// Chooses a tape: the least of the coordinator's slots that is here and whose tape fits. `None` exactly where no slot does. First records
/// are looked at alone; the loaded tape stays, and nothing is changed.
pub(crate) fn choose_save<P: Plant>(
    alloc: Global,
    plant: &mut P,
    wish: Wish,
    port: &Port,
) -> Result<Option<Picked>, ChoiceFault>
    requires { P.sound plant.old }
    ensures picked { P.tells → (slots : AnyList Slot) → HasSlots P.Plant slots plant.old → IfOk result (λ c. c ≡ pick_of (picked wish port.now slots)) }
    ensures here { IfOk result (λ c. IfSome c (λ c. IsTrue ((P.view plant.old).present c.slot))) }
    ensures first { IfOk result (λ c. IfSome c (λ c. port.now.first ≤ c.slot)) }
    ensures last { IfOk result (λ c. IfSome c (λ c. c.slot ≤ port.now.last)) }
    ensures done { UnlessFailed result (Done P.Plant [] plant.old plant.new) }
    ensures leaves { Leaves P.Plant [] plant.old plant.new }
    ensures numbers { UnlessFailed result (SameNumbers P.Plant plant.old plant.new) }
    ensures stays { StaysQuiet P.Plant plant.old plant.new }
    ensures loads { (P.view plant.new).loads ≡ (P.view plant.old).loads }
    ensures cause { HasCauseAt ChoiceFault.Failed (P.view plant.old).faults (P.view plant.new).faults result }
{
    let fields = port.fields();
    for slot in fields.first..fields.last + 1 {
        if let Some(picked) = try_slot(alloc, plant, wish, slot)? {
            return Ok(Some(picked));
        }
    }
    Ok(None)
}
