//! Records put on a loaded tape that is counted.

ghost use Rattle.std.specs.Prelude.{◌≡◌, ◌+◌, ◌<◌, ℕ, [], ◌∷◌, Some, OnOk};
ghost use Rattle.crash_moments.specs.Moments.{HasCause};
ghost use Rattle.plant_effects.specs.Runs.{loaded_of, Done, Leaves, StaysQuiet};
ghost use Rattle.tape_frames.specs.declared.frame.Frame.{Frame};
ghost use Rattle.tape_frames.specs.Frames.{spelling};
ghost use Rattle.tape_text.specs.Items.{Says, Filemark};
ghost use Rattle.tape_writer.specs.Puts.{IsCounted, puts_on};

use plant_core::{Block, Failed, Plant};
use plant_effects::{put_block, put_mark};

/// Puts the block of a frame on the loaded tape.
pub(crate) fn put_frame<P: Plant>(plant: &mut P, block: &Block) -> Result<(), Failed>
    requires counted { IsCounted P.Plant (P.view plant.old).records plant.old }
    requires few { (P.view plant.old).records < 524288 }
    ensures done { (k : ℕ) (f : Frame) → loaded_of P.Plant plant.old ≡ Some k → block.now ≡ spelling f → OnOk result (Done P.Plant (puts_on k (Says f ∷ [])) plant.old plant.new) }
    ensures leaves { (k : ℕ) (f : Frame) → loaded_of P.Plant plant.old ≡ Some k → block.now ≡ spelling f → Leaves P.Plant (puts_on k (Says f ∷ [])) plant.old plant.new }
    ensures counted { OnOk result (IsCounted P.Plant ((P.view plant.old).records + 1) plant.new) }
    ensures loaded { OnOk result (loaded_of P.Plant plant.new ≡ loaded_of P.Plant plant.old) }
    ensures log_size { OnOk result ((P.view plant.new).log_size ≡ (P.view plant.old).log_size) }
    ensures stays { StaysQuiet P.Plant plant.old plant.new }
    ensures cause { HasCause (P.view plant.old).faults (P.view plant.new).faults result }
{
    put_block(plant, block)?;
    Ok(())
}

/// Puts a filemark on the loaded tape, which settles it.
fn put_filemark<P: Plant>(plant: &mut P) -> Result<(), Failed>
    requires counted { IsCounted P.Plant (P.view plant.old).records plant.old }
    requires few { (P.view plant.old).records < 524288 }
    ensures done { (k : ℕ) → loaded_of P.Plant plant.old ≡ Some k → OnOk result (Done P.Plant (puts_on k (Filemark ∷ [])) plant.old plant.new) }
    ensures leaves { (k : ℕ) → loaded_of P.Plant plant.old ≡ Some k → Leaves P.Plant (puts_on k (Filemark ∷ [])) plant.old plant.new }
    ensures counted { OnOk result (IsCounted P.Plant ((P.view plant.old).records + 1) plant.new) }
    ensures loaded { OnOk result (loaded_of P.Plant plant.new ≡ loaded_of P.Plant plant.old) }
    ensures log_size { OnOk result ((P.view plant.new).log_size ≡ (P.view plant.old).log_size) }
    ensures stays { StaysQuiet P.Plant plant.old plant.new }
    ensures cause { HasCause (P.view plant.old).faults (P.view plant.new).faults result }
{
    put_mark(plant)?;
    Ok(())
}

/// Puts the block of a frame and a filemark on the loaded tape.
pub(crate) fn put_closed<P: Plant>(plant: &mut P, block: &Block) -> Result<(), Failed>
    requires counted { IsCounted P.Plant (P.view plant.old).records plant.old }
    requires few { (P.view plant.old).records + 1 < 524288 }
    ensures done { (k : ℕ) (f : Frame) → loaded_of P.Plant plant.old ≡ Some k → block.now ≡ spelling f → OnOk result (Done P.Plant (puts_on k (Says f ∷ Filemark ∷ [])) plant.old plant.new) }
    ensures leaves { (k : ℕ) (f : Frame) → loaded_of P.Plant plant.old ≡ Some k → block.now ≡ spelling f → Leaves P.Plant (puts_on k (Says f ∷ Filemark ∷ [])) plant.old plant.new }
    ensures counted { OnOk result (IsCounted P.Plant ((P.view plant.old).records + 2) plant.new) }
    ensures loaded { OnOk result (loaded_of P.Plant plant.new ≡ loaded_of P.Plant plant.old) }
    ensures log_size { OnOk result ((P.view plant.new).log_size ≡ (P.view plant.old).log_size) }
    ensures stays { StaysQuiet P.Plant plant.old plant.new }
    ensures cause { HasCause (P.view plant.old).faults (P.view plant.new).faults result }
{
    put_frame(plant, block)?;
    put_filemark(plant)?;
    Ok(())
}
