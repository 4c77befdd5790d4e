//! What single records of a tape say.

ghost use Rattle.std.specs.Prelude.{◌≡◌, [], List as AnyList, IfOk, IsTrue};
ghost use Rattle.crash_moments.specs.Moments.{HasCauseAt};
ghost use Rattle.plant_core.specs.Records.{block_with};
ghost use Rattle.plant_effects.specs.Runs.{state_of, Done, Leaves, SameNumbers, StaysQuiet};
ghost use Rattle.tape_text.specs.Items.{Item, ReadsAs, Read};
ghost use Rattle.tape_choice.specs.Scene.{UnlessFailed};
ghost use Rattle.tape_choice.specs.Reads.{frame_of, label_from};
ghost use Rattle.budb_save.specs.Choice.{first_from, first_of};

use plant_core::{Kind, Plant};
use plant_effects::peek_record;
use std::alloc::{AllocError, Global};
use tape_choice::ChoiceFault;
use tape_frames::{Block, Frame, FrameFault, Label, decode, one_frame};

/// What stands first on a tape.
#[derive(Debug, Drop)]
pub(crate) enum First {
    /// The tape has no records.
    Blank,
    /// A label.
    Label(Label),
    /// Anything else.
    Other,
}

/// The frame whose block this is, where it is one.
fn frame_in(alloc: Global, block: &Block) -> Result<Option<Frame>, AllocError>
    ensures { (i : Item) → ReadsAs (block_with block.now) i → IfOk result (λ frame. frame ≡ frame_of i) }
{
    one_frame();
    match decode(alloc, block) {
        Ok(frame) => Ok(Some(frame)),
        Err(FrameFault::NotFrame { .. }) => Ok(None),
        Err(FrameFault::Memory) => Err(AllocError),
    }
}

/// The label that a frame is, or what stands in its place.
fn first_from(frame: Option<Frame>) -> First
    ensures { result ≡ first_from (label_from frame) }
{
    match frame {
        Some(Frame::Label(label)) => First::Label(label),
        Some(Frame::DumpHead(_)) => First::Other,
        Some(Frame::VolHead(_)) => First::Other,
        Some(Frame::Data(_)) => First::Other,
        Some(Frame::VolEnd(_)) => First::Other,
        Some(Frame::DumpEnd(_)) => First::Other,
        None => First::Other,
    }
}

/// What stands first on the tape in a slot that is here. The loaded tape stays.
pub(crate) fn read_first<P: Plant>(
    alloc: Global,
    plant: &mut P,
    slot: u32,
) -> Result<First, ChoiceFault>
    requires sound { P.sound plant.old }
    requires here { IsTrue ((P.view plant.old).present slot) }
    ensures first { P.tells → (items : AnyList Item) → Read ((state_of P.Plant plant.old).tape slot) items → IfOk result (λ first. first ≡ first_of items) }
    ensures done { UnlessFailed result (Done P.Plant [] plant.old plant.new) }
    ensures leaves { Leaves P.Plant [] plant.old plant.new }
    ensures numbers { UnlessFailed result (SameNumbers P.Plant plant.old plant.new) }
    ensures stays { StaysQuiet P.Plant plant.old plant.new }
    ensures loads { (P.view plant.new).loads ≡ (P.view plant.old).loads }
    ensures cause { HasCauseAt ChoiceFault.Failed (P.view plant.old).faults (P.view plant.new).faults result }
{
    let mut block = [0; 16384];
    match peek_record(plant, slot, &mut block) {
        Ok(None) => Ok(First::Blank),
        Ok(Some(Kind::Block)) => Ok(first_from(frame_in(alloc, &block)?)),
        Ok(Some(Kind::Mark)) => Ok(First::Other),
        Ok(Some(Kind::Bad)) => Ok(First::Other),
        Err(_) => Err(ChoiceFault::Failed),
    }
}
