// Calls on the tapes of a plant.
ghost use Rattle.std.specs.Prelude.{◌≡◌, ◌+◌, ◌<◌, ◌≤◌, ℕ, [], ◌∷◌, Some, IfOk, OnOk, IsSome, IsTrue};
ghost use Rattle.crash_moments.specs.Moments.{HasCause};
ghost use Rattle.plant_core.specs.Effects.{puts, settles, cuts, putting_away};
ghost use Rattle.plant_core.specs.Records.{NoBad, ShowsAt, ShowsFirst, block_with, mark};
ghost use Rattle.plant_core.specs.Views.{loads_after};
ghost use Rattle.plant_effects.specs.Runs.{state_of, loaded_of, OnLoaded, TakesMore, Done, Leaves, SameNumbers, StaysQuiet};

use plant_core::{Block, Failed, Kind, Plant};

/// Loads the tape of a slot that is here. What was put on the one that is put away is settled. It counts one load at most,
/// whatever is answered. No other call counts one.
pub fn load_tape<P: Plant>(plant: &mut P, slot: u32) -> Result<(), Failed>
    requires sound { P.sound plant.old }
    requires here { IsTrue ((P.view plant.old).present slot) }
    ensures done { OnOk result (Done P.Plant (putting_away (loaded_of P.Plant plant.old) slot) plant.old plant.new) }
    ensures leaves { Leaves P.Plant (putting_away (loaded_of P.Plant plant.old) slot) plant.old plant.new }
    ensures loaded { OnOk result (loaded_of P.Plant plant.new ≡ Some slot) }
    ensures log_size { OnOk result ((P.view plant.new).log_size ≡ (P.view plant.old).log_size) }
    ensures stays { StaysQuiet P.Plant plant.old plant.new }
    ensures cause { HasCause (P.view plant.old).faults (P.view plant.new).faults result }
    ensures loads { (P.view plant.new).loads ≤ (P.view plant.old).loads + 1 }
    ensures counted { OnOk result ((P.view plant.new).loads ≡ loads_after (loaded_of P.Plant plant.old) slot (P.view plant.old).loads) }
{
    plant.load(slot)?;
    Ok(())
}

/// Shows the first record of the tape in a slot that is here, None where it has none. The loaded tape stays.
pub fn peek_record<P: Plant>(
    plant: &mut P,
    slot: u32,
    into: &mut Block,
) -> Result<Option<Kind>, Failed>
    requires sound { P.sound plant.old }
    requires here { IsTrue ((P.view plant.old).present slot) }
    ensures first { P.tells → IfOk result (λ shown. ShowsFirst ((state_of P.Plant plant.old).tape slot) shown into.new) }
    ensures done { OnOk result (Done P.Plant [] plant.old plant.new) }
    ensures leaves { Leaves P.Plant [] plant.old plant.new }
    ensures numbers { OnOk result (SameNumbers P.Plant plant.old plant.new) }
    ensures stays { StaysQuiet P.Plant plant.old plant.new }
    ensures cause { HasCause (P.view plant.old).faults (P.view plant.new).faults result }
    ensures loads { (P.view plant.new).loads ≡ (P.view plant.old).loads }
{
    let shown = plant.peek(slot, into)?;
    Ok(shown)
}

/// Shows a record of the loaded tape: its kind, and its bytes in `into` where it is a block.
pub fn get_record<P: Plant>(plant: &mut P, i: u32, into: &mut Block) -> Result<Kind, Failed>
    requires sound { P.sound plant.old }
    requires loaded { IsSome (loaded_of P.Plant plant.old) }
    requires within { i < (P.view plant.old).records }
    ensures found { P.tells → (k : ℕ) → loaded_of P.Plant plant.old ≡ Some k → IfOk result (λ kind. ShowsAt ((state_of P.Plant plant.old).tape k) i kind into.new) }
    ensures done { OnOk result (Done P.Plant [] plant.old plant.new) }
    ensures leaves { Leaves P.Plant [] plant.old plant.new }
    ensures numbers { OnOk result (SameNumbers P.Plant plant.old plant.new) }
    ensures stays { StaysQuiet P.Plant plant.old plant.new }
    ensures cause { HasCause (P.view plant.old).faults (P.view plant.new).faults result }
    ensures loads { (P.view plant.new).loads ≡ (P.view plant.old).loads }
{
    let kind = plant.tape_get(i, into)?;
    Ok(kind)
}

/// Puts a block on the loaded tape. The next mark, cut or load of another tape settles it.
pub fn put_block<P: Plant>(plant: &mut P, block: &Block) -> Result<(), Failed>
    requires sound { P.sound plant.old }
    requires loaded { IsSome (loaded_of P.Plant plant.old) }
    requires takes { OnLoaded P.Plant TakesMore plant.old }
    ensures sound { OnOk result (P.sound plant.new) }
    ensures done { (k : ℕ) → loaded_of P.Plant plant.old ≡ Some k → OnOk result (Done P.Plant (puts k (block_with block.now) ∷ []) plant.old plant.new) }
    ensures leaves { (k : ℕ) → loaded_of P.Plant plant.old ≡ Some k → Leaves P.Plant (puts k (block_with block.now) ∷ []) plant.old plant.new }
    ensures records { (P.view plant.old).records < 524288 → OnOk result ((P.view plant.new).records ≡ (P.view plant.old).records + 1) }
    ensures loaded { OnOk result (loaded_of P.Plant plant.new ≡ loaded_of P.Plant plant.old) }
    ensures log_size { OnOk result ((P.view plant.new).log_size ≡ (P.view plant.old).log_size) }
    ensures stays { StaysQuiet P.Plant plant.old plant.new }
    ensures cause { HasCause (P.view plant.old).faults (P.view plant.new).faults result }
    ensures loads { (P.view plant.new).loads ≡ (P.view plant.old).loads }
{
    plant.tape_put(block)?;
    Ok(())
}

/// Puts a mark on the loaded tape, which settles all that was put on it.
pub fn put_mark<P: Plant>(plant: &mut P) -> Result<(), Failed>
    requires sound { P.sound plant.old }
    requires loaded { IsSome (loaded_of P.Plant plant.old) }
    requires takes { OnLoaded P.Plant TakesMore plant.old }
    ensures sound { OnOk result (P.sound plant.new) }
    ensures done { (k : ℕ) → loaded_of P.Plant plant.old ≡ Some k → OnOk result (Done P.Plant (puts k mark ∷ settles k ∷ []) plant.old plant.new) }
    ensures leaves { (k : ℕ) → loaded_of P.Plant plant.old ≡ Some k → Leaves P.Plant (puts k mark ∷ settles k ∷ []) plant.old plant.new }
    ensures records { (P.view plant.old).records < 524288 → OnOk result ((P.view plant.new).records ≡ (P.view plant.old).records + 1) }
    ensures loaded { OnOk result (loaded_of P.Plant plant.new ≡ loaded_of P.Plant plant.old) }
    ensures log_size { OnOk result ((P.view plant.new).log_size ≡ (P.view plant.old).log_size) }
    ensures stays { StaysQuiet P.Plant plant.old plant.new }
    ensures cause { HasCause (P.view plant.old).faults (P.view plant.new).faults result }
    ensures loads { (P.view plant.new).loads ≡ (P.view plant.old).loads }
{
    plant.tape_mark()?;
    Ok(())
}

/// Keeps the first records of the loaded tape, settled. Where one is bad, none is kept.
pub fn cut_to<P: Plant>(plant: &mut P, n: u32) -> Result<(), Failed>
    requires sound { P.sound plant.old }
    requires loaded { IsSome (loaded_of P.Plant plant.old) }
    requires within { n ≤ (P.view plant.old).records }
    requires whole { 0 < n → OnLoaded P.Plant NoBad plant.old }
    ensures sound { OnOk result (P.sound plant.new) }
    ensures done { (k : ℕ) → loaded_of P.Plant plant.old ≡ Some k → OnOk result (Done P.Plant (cuts k n ∷ []) plant.old plant.new) }
    ensures leaves { (k : ℕ) → loaded_of P.Plant plant.old ≡ Some k → Leaves P.Plant (cuts k n ∷ []) plant.old plant.new }
    ensures records { OnOk result ((P.view plant.new).records ≡ n) }
    ensures loaded { OnOk result (loaded_of P.Plant plant.new ≡ loaded_of P.Plant plant.old) }
    ensures log_size { OnOk result ((P.view plant.new).log_size ≡ (P.view plant.old).log_size) }
    ensures stays { StaysQuiet P.Plant plant.old plant.new }
    ensures cause { HasCause (P.view plant.old).faults (P.view plant.new).faults result }
    ensures loads { (P.view plant.new).loads ≡ (P.view plant.old).loads }
{
    plant.tape_cut(n)?;
    Ok(())
}
