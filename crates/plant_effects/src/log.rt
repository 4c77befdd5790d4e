// Calls on the log of a plant.
ghost use Rattle.std.specs.Prelude.{◌≡◌, ◌↔◌, ◌+◌, ◌<◌, ◌≤◌, [], ◌∷◌, length, take, drop, Err, OnOk};
ghost use Rattle.crash_moments.specs.Moments.{HasCause, HasCauseAt};
ghost use Rattle.plant_core.specs.Effects.{commits, replaces};
ghost use Rattle.plant_effects.specs.Runs.{state_of, Done, Leaves, OnlyLooks, SameTape, SameNumbers, StaysQuiet};

use plant_core::{Failed, Plant, PutFault};

/// Appends bytes to the log of a plant, by one put and one commit. It takes no memory. It is `LogFull` exactly where the log
/// would have more than 268,435,456 bytes, and then nothing changes.
pub fn append_whole<P: Plant>(plant: &mut P, bytes: &[u8]) -> Result<(), PutFault>
    requires { P.sound plant.old }
    ensures full { result ≡ Err PutFault.LogFull ↔ 268435456 < (P.view plant.old).log_size + length bytes.now }
    ensures over_same { 268435456 < (P.view plant.old).log_size + length bytes.now → plant.new ≡ plant.old }
    ensures done { OnOk result (Done P.Plant (commits bytes.now ∷ []) plant.old plant.new) }
    ensures leaves { Leaves P.Plant (commits bytes.now ∷ []) plant.old plant.new }
    ensures size { OnOk result ((P.view plant.new).log_size ≡ (P.view plant.old).log_size + length bytes.now) }
    ensures tape { OnOk result (SameTape P.Plant plant.old plant.new) }
    ensures stays { StaysQuiet P.Plant plant.old plant.new }
    ensures cause { HasCauseAt PutFault.Failed (P.view plant.old).faults (P.view plant.new).faults result }
    ensures loads { (P.view plant.new).loads ≡ (P.view plant.old).loads }
{
    plant.log_put(bytes)?;
    match plant.log_commit() {
        Ok(()) => Ok(()),
        Err(_) => Err(PutFault::Failed),
    }
}

/// Makes these bytes the whole log of a plant, settled. It takes no memory. It is `LogFull` exactly where there are more than
/// 268,435,456, and then nothing changes.
pub fn replace_whole<P: Plant>(plant: &mut P, bytes: &[u8]) -> Result<(), PutFault>
    requires { P.sound plant.old }
    ensures full { result ≡ Err PutFault.LogFull ↔ 268435456 < length bytes.now }
    ensures over_same { 268435456 < length bytes.now → plant.new ≡ plant.old }
    ensures done { OnOk result (Done P.Plant (replaces bytes.now ∷ []) plant.old plant.new) }
    ensures leaves { Leaves P.Plant (replaces bytes.now ∷ []) plant.old plant.new }
    ensures size { OnOk result ((P.view plant.new).log_size ≡ length bytes.now) }
    ensures tape { OnOk result (SameTape P.Plant plant.old plant.new) }
    ensures stays { StaysQuiet P.Plant plant.old plant.new }
    ensures cause { HasCauseAt PutFault.Failed (P.view plant.old).faults (P.view plant.new).faults result }
    ensures loads { (P.view plant.new).loads ≡ (P.view plant.old).loads }
{
    plant.log_replace(bytes)?;
    Ok(())
}

/// Fills `into` with the bytes of the log of a plant from `at` on, also with what was put.
pub fn read_log<P: Plant>(plant: &mut P, at: u64, into: &mut [u8]) -> Result<(), Failed>
    requires sound { P.sound plant.old }
    requires within { at + length into.old ≤ (P.view plant.old).log_size }
    ensures bytes { P.tells → OnOk result (into.new ≡ take (length into.old) (drop at (state_of P.Plant plant.old).log)) }
    ensures done { OnOk result (Done P.Plant [] plant.old plant.new) }
    ensures leaves { Leaves P.Plant [] plant.old plant.new }
    ensures looks { OnlyLooks P.Plant plant.old plant.new }
    ensures numbers { OnOk result (SameNumbers P.Plant plant.old plant.new) }
    ensures stays { StaysQuiet P.Plant plant.old plant.new }
    ensures cause { HasCause (P.view plant.old).faults (P.view plant.new).faults result }
    ensures loads { (P.view plant.new).loads ≡ (P.view plant.old).loads }
{
    plant.log_read(at, into)?;
    Ok(())
}
