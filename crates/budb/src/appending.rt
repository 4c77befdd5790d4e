//! Appending the bytes of prepared changes to the log of a plant.

ghost use Rattle.std.specs.Prelude.{◌≡◌, ◌+◌, ◌<◌, [], ◌∷◌, ℕ, length, Err, OnOk};
ghost use Rattle.crash_moments.specs.Moments.{HasCauseAt};
ghost use Rattle.plant_core.specs.Effects.{commits};
ghost use Rattle.plant_effects.specs.Runs.{Done, Leaves, SameTape, StaysQuiet};

use crate::fault::PreparedFault;
use plant_core::{Plant, PutFault};
use plant_effects::append_whole;

/// The length of the log of a plant with these bytes behind it.
fn length_with<P: Plant>(plant: &P, bytes: &[u8]) -> u64
    requires { P.sound plant.now }
    ensures { result ≡ (P.view plant.now).log_size + length bytes.now }
{
    plant.log_len() + bytes.len() as u64
}

/// Appends bytes to the log of a plant by one commit. It takes no memory.
pub(crate) fn append_bytes<P: Plant>(plant: &mut P, bytes: &[u8]) -> Result<(), PreparedFault>
    requires { P.sound plant.old }
    ensures full { (n : ℕ) → result ≡ Err (PreparedFault.LogFull n) → (268435456 < n) × (n ≡ (P.view plant.old).log_size + length bytes.now) }
    ensures only_full { 268435456 < (P.view plant.old).log_size + length bytes.now → result ≡ Err (PreparedFault.LogFull ((P.view plant.old).log_size + length bytes.now)) }
    ensures over_same { 268435456 < (P.view plant.old).log_size + length bytes.now → plant.new ≡ plant.old }
    ensures done { OnOk result (Done P.Plant (commits bytes.now ∷ []) plant.old plant.new) }
    ensures leaves { Leaves P.Plant (commits bytes.now ∷ []) plant.old plant.new }
    ensures size { OnOk result ((P.view plant.new).log_size ≡ (P.view plant.old).log_size + length bytes.now) }
    ensures tape { OnOk result (SameTape P.Plant plant.old plant.new) }
    ensures stays { StaysQuiet P.Plant plant.old plant.new }
    ensures cause { HasCauseAt PreparedFault.Failed (P.view plant.old).faults (P.view plant.new).faults result }
{
    let length = length_with(plant, bytes);
    match append_whole(plant, bytes) {
        Ok(()) => Ok(()),
        Err(PutFault::LogFull) => Err(PreparedFault::LogFull { length }),
        Err(PutFault::Failed) => Err(PreparedFault::Failed),
    }
}
