//! Reading a save from the loaded tape.

ghost use Rattle.std.specs.Prelude.{◌≡◌, ◌≢◌, [], ℕ, List as AnyList, Some, Err, IfOk, IsSome};
ghost use Rattle.crash_moments.specs.Moments.{HasCauseAt};
ghost use Rattle.plant_core.specs.Records.{Record};
ghost use Rattle.plant_effects.specs.Runs.{state_of, loaded_of, Done, Leaves, SameNumbers, StaysQuiet};
ghost use Rattle.budb_save.specs.Reading.{HasRead, ReadsSave, IsLabelled};

use crate::fault::Stopped;
use crate::judging::{Reading, Stage};
use bk_text::Bytes;
use plant_core::Plant;
use plant_effects::get_record;
use std::alloc::Global;

/// What a tape has of a save.
#[derive(Debug, Drop)]
pub(crate) enum SaveRead {
    /// All of it: these bytes.
    Whole(Bytes),
    /// The record with which no save goes on.
    Wrong(u32),
    /// A front of one.
    Wanting,
}

/// What was read, where no record is left.
fn read_whole(reading: Reading) -> SaveRead
    ensures { (permanent : AnyList ℕ) (records : AnyList Record) → IsLabelled permanent records → HasRead permanent records reading → ReadsSave records result }
{
    let Reading { stage, bytes } = reading;
    match stage {
        Stage::Closed => SaveRead::Whole(bytes),
        Stage::Labelled => SaveRead::Wanting,
        Stage::Marked => SaveRead::Wanting,
        Stage::Pieces(_) => SaveRead::Wanting,
    }
}

/// Reads a save from the loaded tape, whose first record is the label of one. Nothing is changed.
pub(crate) fn read_save<P: Plant>(alloc: Global, plant: &mut P) -> Result<SaveRead, Stopped>
    requires sound { P.sound plant.old }
    requires loaded { IsSome (loaded_of P.Plant plant.old) }
    ensures read { P.tells → (k : ℕ) (permanent : AnyList ℕ) → loaded_of P.Plant plant.old ≡ Some k → IsLabelled permanent ((state_of P.Plant plant.old).tape k) → IfOk result (ReadsSave ((state_of P.Plant plant.old).tape k)) }
    ensures done { result ≢ Err Stopped.Failed → Done P.Plant [] plant.old plant.new }
    ensures leaves { Leaves P.Plant [] plant.old plant.new }
    ensures numbers { result ≢ Err Stopped.Failed → SameNumbers P.Plant plant.old plant.new }
    ensures stays { StaysQuiet P.Plant plant.old plant.new }
    ensures loads { (P.view plant.new).loads ≡ (P.view plant.old).loads }
    ensures cause { HasCauseAt Stopped.Failed (P.view plant.old).faults (P.view plant.new).faults result }
{
    let mut block = [0; 16384];
    let mut reading = Reading::new(alloc);
    for place in 1..plant.tape_len() {
        match get_record(plant, place, &mut block) {
            Err(_) => return Err(Stopped::Failed),
            Ok(kind) => match reading.take_record(kind, &block) {
                Err(_) => return Err(Stopped::Memory),
                Ok(false) => return Ok(SaveRead::Wrong(place)),
                Ok(true) => {}
            },
        }
    }
    Ok(read_whole(reading))
}
