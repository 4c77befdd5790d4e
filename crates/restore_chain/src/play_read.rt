//! Reading the records of a tape as frames.

ghost use Rattle.std.specs.Prelude.{◌≡◌, ◌≢◌, ◌<◌, ℕ, [], List as AnyList, Err, IfOk, IfSome, IsSome};
ghost use Rattle.crash_moments.specs.Moments.{HasCauseAt};
ghost use Rattle.plant_effects.specs.Runs.{loaded_of, Done, Leaves, SameNumbers, StaysQuiet};
ghost use Rattle.tape_frames.specs.Frames.{Fits};
ghost use Rattle.tape_text.specs.Items.{Item};
ghost use Rattle.restore_chain.specs.Playing.{IsFrameOf, IsSaidAt, ReadsLoaded};

use crate::fault::LookFault;
use plant_core::{Block, Kind, Plant};
use plant_effects::get_record;
use std::alloc::{AllocError, Global};
use tape_frames::{Frame, FrameFault, decode};
use tape_text::one_item;

/// The frame whose block this is, where there is one.
fn frame_of(alloc: Global, block: &Block) -> Result<Option<Frame>, AllocError>
    ensures { IfOk result (IsFrameOf block.now) }
{
    match decode(alloc, block) {
        Ok(frame) => Ok(Some(frame)),
        Err(FrameFault::NotFrame { .. }) => Ok(None),
        Err(FrameFault::Memory) => Err(AllocError),
    }
}

/// Reads a record of the loaded tape as a frame: None where it isn't there, or is no frame's. Nothing is changed.
pub(crate) fn read_frame<P: Plant>(
    alloc: Global,
    plant: &mut P,
    place: u32,
) -> Result<Option<Frame>, LookFault>
    requires sound { P.sound plant.old }
    requires loaded { IsSome (loaded_of P.Plant plant.old) }
    ensures said { P.tells → (items : AnyList Item) → ReadsLoaded P.Plant items plant.old → IfOk result (IsSaidAt items place) }
    ensures there { IfOk result (λ found. IsSome found → place < (P.view plant.old).records) }
    ensures fits { IfOk result (λ found. IfSome found Fits) }
    ensures done { result ≢ Err LookFault.Failed → Done P.Plant [] plant.old plant.new }
    ensures leaves { Leaves P.Plant [] plant.old plant.new }
    ensures numbers { result ≢ Err LookFault.Failed → SameNumbers P.Plant plant.old plant.new }
    ensures stays { StaysQuiet P.Plant plant.old plant.new }
    ensures cause { HasCauseAt LookFault.Failed (P.view plant.old).faults (P.view plant.new).faults result }
    ensures loads { (P.view plant.new).loads ≡ (P.view plant.old).loads }
{
    one_item();
    if place >= plant.tape_len() {
        return Ok(None);
    }
    let mut block = [0; 16384];
    match get_record(plant, place, &mut block) {
        Err(_) => Err(LookFault::Failed),
        Ok(Kind::Mark) => Ok(None),
        Ok(Kind::Bad) => Ok(None),
        Ok(Kind::Block) => match frame_of(alloc, &block) {
            Ok(found) => Ok(found),
            Err(_) => Err(LookFault::Memory),
        },
    }
}
