//! Reading what a record of the loaded tape says.

ghost use Rattle.std.specs.Prelude.{◌≡◌, ◌<◌, ℕ, [], Some, Err, IfOk, OnOk, IsSome};
ghost use Rattle.crash_moments.specs.Moments.{HasCauseAt};
ghost use Rattle.plant_core.specs.Records.{block_with};
ghost use Rattle.plant_effects.specs.Runs.{state_of, loaded_of, Done, Leaves, SameNumbers, StaysQuiet};
ghost use Rattle.tape_frames.specs.Pieces.{Tells};
ghost use Rattle.tape_text.specs.Items.{Item, ReadsAs};
ghost use Rattle.tape_text.specs.Items as items;
ghost use Rattle.tape_scan.specs.Steps.{IsOf, IsReadAt};

use crate::scanning_walk::TapeItem;
use crate::sections::ScanFault;
use plant_core::{Block, Kind, Plant};
use plant_effects::get_record;
use std::alloc::{AllocError, Global};
use tape_frames::{Data, Frame, FrameFault, Piece, decode, piece_of};

/// What is told of a piece of data.
fn told_of(whole: &Data) -> Piece
    ensures { Tells result whole.now }
{
    let own = whole.fields();
    Piece {
        dump: own.dump,
        index: own.index,
        used: own.used,
    }
}

/// What a frame says.
fn item_of(frame: Frame) -> TapeItem
    ensures { IsOf result (items.Says frame) }
{
    match frame {
        Frame::Label(label) => TapeItem::Label(label),
        Frame::DumpHead(head) => TapeItem::DumpHead(head),
        Frame::VolHead(head) => TapeItem::VolHead(head),
        Frame::Data(data) => TapeItem::Piece(told_of(&data)),
        Frame::VolEnd(end) => TapeItem::VolEnd(end),
        Frame::DumpEnd(end) => TapeItem::DumpEnd(end),
    }
}

/// What a block says.
fn item_in(alloc: Global, block: &Block) -> Result<TapeItem, AllocError>
    ensures { IfOk result (λ item. (said : Item) × IsOf item said × ReadsAs (block_with block.now) said) }
{
    if let Some(piece) = piece_of(block) {
        return Ok(TapeItem::Piece(piece));
    }
    match decode(alloc, block) {
        Ok(frame) => Ok(item_of(frame)),
        Err(FrameFault::NotFrame { .. }) => Ok(TapeItem::Nothing),
        Err(FrameFault::Memory) => Err(AllocError),
    }
}

/// What a record of the loaded tape says.
pub(crate) fn read_item<P: Plant>(
    alloc: Global,
    plant: &mut P,
    place: u32,
) -> Result<TapeItem, ScanFault>
    requires sound { P.sound plant.old }
    requires loaded { IsSome (loaded_of P.Plant plant.old) }
    requires within { place < (P.view plant.old).records }
    ensures item { P.tells → (k : ℕ) → loaded_of P.Plant plant.old ≡ Some k → IfOk result (IsReadAt ((state_of P.Plant plant.old).tape k) place) }
    ensures done { OnOk result (Done P.Plant [] plant.old plant.new) }
    ensures leaves { Leaves P.Plant [] plant.old plant.new }
    ensures numbers { OnOk result (SameNumbers P.Plant plant.old plant.new) }
    ensures memory { result ≡ Err ScanFault.Memory → Done P.Plant [] plant.old plant.new }
    ensures memory_numbers { result ≡ Err ScanFault.Memory → SameNumbers P.Plant plant.old plant.new }
    ensures stays { StaysQuiet P.Plant plant.old plant.new }
    ensures cause { HasCauseAt ScanFault.Failed (P.view plant.old).faults (P.view plant.new).faults result }
    ensures loads { (P.view plant.new).loads ≡ (P.view plant.old).loads }
{
    let mut block = [0; 16384];
    match get_record(plant, place, &mut block) {
        Ok(Kind::Block) => Ok(item_in(alloc, &block)?),
        Ok(Kind::Mark) => Ok(TapeItem::Filemark),
        Ok(Kind::Bad) => Ok(TapeItem::Nothing),
        Err(_) => Err(ScanFault::Failed),
    }
}
