// The test for the conditions of puts, marks and cuts.
ghost use Rattle.std.specs.Prelude.{◌≡◌, ◌↔◌, ℕ, Some, [], IfOk, OnOk, IsSome, IsTrue};
ghost use Rattle.crash_moments.specs.Moments.{HasCause};
ghost use Rattle.plant_core.specs.Records.{NoBad};
ghost use Rattle.plant_effects.specs.Runs.{state_of, loaded_of, OnLoaded, TakesMore, Done, Leaves, SameNumbers, StaysQuiet};

use crate::tape::get_record;
use plant_core::{Failed, Kind, Plant};

/// Whether the loaded tape has no bad record: who wants to put, to mark or to cut can test it so. All its records up to the
/// first bad one are read. Nothing is changed.
pub fn is_whole<P: Plant>(plant: &mut P) -> Result<bool, Failed>
    requires sound { P.sound plant.old }
    requires loaded { IsSome (loaded_of P.Plant plant.old) }
    ensures whole { P.tells → (k : ℕ) → loaded_of P.Plant plant.old ≡ Some k → IfOk result (λ whole. IsTrue whole ↔ NoBad ((state_of P.Plant plant.old).tape k)) }
    ensures now { IfOk result (λ whole. IsTrue whole → OnLoaded P.Plant NoBad plant.new) }
    ensures done { OnOk result (Done P.Plant [] plant.old plant.new) }
    ensures leaves { Leaves P.Plant [] plant.old plant.new }
    ensures numbers { OnOk result (SameNumbers P.Plant plant.old plant.new) }
    ensures stays { StaysQuiet P.Plant plant.old plant.new }
    ensures cause { HasCause (P.view plant.old).faults (P.view plant.new).faults result }
    ensures loads { (P.view plant.new).loads ≡ (P.view plant.old).loads }
{
    let mut block = [0; 16384];
    for place in 0..plant.tape_len() {
        if get_record(plant, place, &mut block)? == Kind::Bad {
            return Ok(false);
        }
    }
    Ok(true)
}

/// The least number of records with which a tape takes no more (this project's own limit).
const RECORD_LIMIT: u32 = 524_288;

/// Whether the loaded tape takes one record more: it has fewer than 524,288, and none is bad. Nothing is changed.
pub fn takes_record<P: Plant>(plant: &mut P) -> Result<bool, Failed>
    requires sound { P.sound plant.old }
    requires loaded { IsSome (loaded_of P.Plant plant.old) }
    ensures takes { P.tells → (k : ℕ) → loaded_of P.Plant plant.old ≡ Some k → IfOk result (λ takes. IsTrue takes ↔ TakesMore ((state_of P.Plant plant.old).tape k)) }
    ensures now { IfOk result (λ takes. IsTrue takes → OnLoaded P.Plant TakesMore plant.new) }
    ensures done { OnOk result (Done P.Plant [] plant.old plant.new) }
    ensures leaves { Leaves P.Plant [] plant.old plant.new }
    ensures numbers { OnOk result (SameNumbers P.Plant plant.old plant.new) }
    ensures stays { StaysQuiet P.Plant plant.old plant.new }
    ensures cause { HasCause (P.view plant.old).faults (P.view plant.new).faults result }
    ensures loads { (P.view plant.new).loads ≡ (P.view plant.old).loads }
{
    if plant.tape_len() >= RECORD_LIMIT {
        return Ok(false);
    }
    let whole = is_whole(plant)?;
    Ok(whole)
}
