// Telling a whole text.
ghost use Rattle.std.specs.Prelude.{[], ◌∷◌, OnOk};
ghost use Rattle.crash_moments.specs.Moments.{HasCause};
ghost use Rattle.plant_core.specs.Effects.{tells};
ghost use Rattle.plant_effects.specs.Runs.{Done, Leaves, SameNumbers, StaysTelling};

use plant_core::{Failed, Plant};

/// Tells all of a text to the output of a plant.
pub fn tell_whole<P: Plant>(plant: &mut P, text: &[u8]) -> Result<(), Failed>
    requires { P.sound plant.old }
    ensures done { OnOk result (Done P.Plant (tells text.now ∷ []) plant.old plant.new) }
    ensures leaves { Leaves P.Plant (tells text.now ∷ []) plant.old plant.new }
    ensures numbers { OnOk result (SameNumbers P.Plant plant.old plant.new) }
    ensures stays { StaysTelling P.Plant plant.old plant.new }
    ensures cause { HasCause (P.view plant.old).tell_faults (P.view plant.new).tell_faults result }
{
    let mut at = 0;
    while at < text.len() {
        let count = plant.tell(&text[at..])?;
        at += count;
    }
    Ok(())
}
