//! The labels of tapes.

ghost use Rattle.std.specs.Prelude.{◌≡◌, ◌≢◌, [], ℕ, Err, IfOk, OnOk, OnErr, IsTrue};
ghost use Rattle.crash_moments.specs.Moments.{HasCauseAt};
ghost use Rattle.plant_effects.specs.Runs.{state_of, Done, Leaves, SameNumbers, StaysQuiet};
ghost use Rattle.backup_session.specs.Labels.{label_from, label_in, label_of};

use crate::stops::Stop;
use bk_text::form_tests;
use plant_core::{Kind, Plant};
use plant_effects::peek_record;
use std::alloc::{AllocError, Global};
use tape_frames::{Block, Frame, FrameFault, Label, decode, one_frame};

/// The label that a frame is.
fn label_from(frame: Frame) -> Option<Label>
    ensures { result ≡ label_from frame }
{
    match frame {
        Frame::Label(label) => Some(label),
        Frame::DumpHead(_) => None,
        Frame::VolHead(_) => None,
        Frame::Data(_) => None,
        Frame::VolEnd(_) => None,
        Frame::DumpEnd(_) => None,
    }
}

/// The label whose block this is.
fn label_in(alloc: Global, block: &Block) -> Result<Option<Label>, AllocError>
    ensures { IfOk result (λ label. label ≡ label_in block.now) }
{
    form_tests();
    one_frame();
    match decode(alloc, block) {
        Ok(frame) => Ok(label_from(frame)),
        Err(FrameFault::NotFrame { .. }) => Ok(None),
        Err(FrameFault::Memory) => Err(AllocError),
    }
}

/// The label of the tape in a slot that is here. The loaded tape stays.
pub(crate) fn label_of<P: Plant>(
    alloc: Global,
    plant: &mut P,
    slot: u32,
) -> Result<Option<Label>, Stop>
    requires sound { P.sound plant.old }
    requires here { IsTrue ((P.view plant.old).present slot) }
    ensures label { P.tells → IfOk result (λ label. label ≡ label_of ((state_of P.Plant plant.old).tape slot)) }
    ensures done { OnOk result (Done P.Plant [] plant.old plant.new) }
    ensures stopped { OnErr result (result ≢ Err Stop.Plant → Done P.Plant [] plant.old plant.new) }
    ensures leaves { Leaves P.Plant [] plant.old plant.new }
    ensures numbers { OnOk result (SameNumbers P.Plant plant.old plant.new) }
    ensures stays { StaysQuiet P.Plant plant.old plant.new }
    ensures cause { HasCauseAt Stop.Plant (P.view plant.old).faults (P.view plant.new).faults result }
    ensures never { result ≢ Err Stop.Cell }
{
    let mut block = [0; 16384];
    match peek_record(plant, slot, &mut block) {
        Ok(Some(Kind::Block)) => Ok(label_in(alloc, &block)?),
        Ok(_) => Ok(None),
        Err(_) => Err(Stop::Plant),
    }
}
