//! The frame that a tape's first record says.

ghost use Rattle.std.specs.Prelude.{◌≡◌, List as AnyList, slice_get, Some, IfOk, IsTrue};
ghost use Rattle.plant_core.specs.Records.{Record, block_with, Shows};
ghost use Rattle.plant_effects.specs.Runs.{state_of};
ghost use Rattle.tape_text.specs.Items.{Item, ReadsAs, Read};
ghost use Rattle.tape_scan.specs.Looking.{LooksAt};
ghost use Rattle.restore_chain.specs.Planning.{frame_of};

use crate::fault::LookFault;
use plant_core::{Kind, Plant};
use plant_effects::peek_record;
use std::alloc::{AllocError, Global};
use tape_frames::{Block, Frame, FrameFault, decode};
use tape_text::one_item;

/// The frame whose block this is.
fn frame_in(alloc: Global, block: &Block) -> Result<Option<Frame>, AllocError>
    ensures { IfOk result (λ frame. (i : Item) → ReadsAs (block_with block.now) i → frame ≡ frame_of (Some i)) }
{
    one_item();
    match decode(alloc, block) {
        Ok(frame) => Ok(Some(frame)),
        Err(FrameFault::NotFrame { .. }) => Ok(None),
        Err(FrameFault::Memory) => Err(AllocError),
    }
}

/// The frame that a record says that is shown so.
fn frame_shown(alloc: Global, kind: Kind, block: &Block) -> Result<Option<Frame>, AllocError>
    ensures { IfOk result (λ frame. (r : Record) (i : Item) → Shows r kind block.now → ReadsAs r i → frame ≡ frame_of (Some i)) }
{
    match kind {
        Kind::Block => frame_in(alloc, block),
        Kind::Mark => Ok(None),
        Kind::Bad => Ok(None),
    }
}

/// The frame that the first record says of the tape in a slot that is here; `None` where it says none, and where there is no
/// record. The loaded tape stays.
pub(crate) fn first_frame<P: Plant>(
    alloc: Global,
    plant: &mut P,
    slot: u32,
) -> Result<Option<Frame>, LookFault>
    requires sound { P.sound plant.old }
    requires here { IsTrue ((P.view plant.old).present slot) }
    ensures frame { P.tells → (items : AnyList Item) → Read ((state_of P.Plant plant.old).tape slot) items → IfOk result (λ frame. frame ≡ frame_of (slice_get items 0)) }
    ensures looks { LooksAt P.Plant LookFault.Failed plant.old plant.new result }
    ensures loads { (P.view plant.new).loads ≡ (P.view plant.old).loads }
{
    let mut block = [0; 16384];
    match peek_record(plant, slot, &mut block) {
        Ok(Some(kind)) => match frame_shown(alloc, kind, &block) {
            Ok(frame) => Ok(frame),
            Err(_) => Err(LookFault::Memory),
        },
        Ok(None) => Ok(None),
        Err(_) => Err(LookFault::Failed),
    }
}
