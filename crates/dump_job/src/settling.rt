//! A dump that is given up: the tape that it cut last is settled.

ghost use Rattle.std.specs.Prelude.{◌≡◌, None, OnOk, IfSome, IsTrue};
ghost use Rattle.crash_moments.specs.Moments.{HasCause};
ghost use Rattle.plant_core.specs.Records.{NoBad};
ghost use Rattle.plant_effects.specs.Runs.{state_of, Done, Leaves, StaysQuiet};
ghost use Rattle.dump_job.specs.Settling.{last_filled, last_cut, settling, settling_last};

use crate::fields::{Filled, JobFields, Phase};
use plant_core::{Failed, Plant};
use plant_effects::{cut_to, load_tape};

/// The slot of the last part that is ended.
fn last_filled(filled: &[Filled]) -> Option<u32>
    ensures { result ≡ last_filled filled.now }
{
    let count = filled.len();
    if count == 0 {
        return None;
    }
    Some(filled[count - 1].slot)
}

/// The slot of the tape that the dump cut last; none where it has cut none.
fn last_cut(job: &JobFields) -> Option<u32>
    ensures { result ≡ last_cut job.now }
{
    match job.phase {
        Phase::Tape => last_filled(job.filled.as_slice()),
        Phase::Clone
        | Phase::Head
        | Phase::Piece
        | Phase::VolumeEnd
        | Phase::PartEnd
        | Phase::DumpEnd
        | Phase::Over => Some(job.reel.slot),
    }
}

/// Settles the tape in a slot, whose records stay. It takes no memory.
fn settle_tape<P: Plant>(plant: &mut P, slot: u32) -> Result<(), Failed>
    requires sound { P.sound plant.old }
    requires here { IsTrue ((P.view plant.old).present slot) }
    requires whole { P.tells → NoBad ((state_of P.Plant plant.old).tape slot) }
    ensures done { OnOk result (Done P.Plant (settling P.Plant slot plant.old) plant.old plant.new) }
    ensures leaves { Leaves P.Plant (settling P.Plant slot plant.old) plant.old plant.new }
    ensures stays { StaysQuiet P.Plant plant.old plant.new }
    ensures cause { HasCause (P.view plant.old).faults (P.view plant.new).faults result }
{
    load_tape(plant, slot)?;
    let count = plant.tape_len();
    cut_to(plant, count)?;
    Ok(())
}

/// Settles the tape that the dump cut last, whose records stay: it is loaded and cut at its own length. Where it has cut none
/// no call is made. It takes no memory.
pub(crate) fn settle_job<P: Plant>(job: &JobFields, plant: &mut P) -> Result<(), Failed>
    requires sound { P.sound plant.old }
    requires here { IfSome (last_cut job.now) (λ slot. IsTrue ((P.view plant.old).present slot)) }
    requires whole { IfSome (last_cut job.now) (λ slot. P.tells → NoBad ((state_of P.Plant plant.old).tape slot)) }
    ensures nothing { last_cut job.now ≡ None → plant.new ≡ plant.old }
    ensures done { OnOk result (Done P.Plant (settling_last P.Plant (last_cut job.now) plant.old) plant.old plant.new) }
    ensures leaves { Leaves P.Plant (settling_last P.Plant (last_cut job.now) plant.old) plant.old plant.new }
    ensures stays { StaysQuiet P.Plant plant.old plant.new }
    ensures cause { HasCause (P.view plant.old).faults (P.view plant.new).faults result }
{
    match last_cut(job) {
        None => Ok(()),
        Some(slot) => settle_tape(plant, slot),
    }
}
