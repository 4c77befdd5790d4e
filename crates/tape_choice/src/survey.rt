//! What is counted of the loaded tape's records.

ghost use Rattle.std.specs.Prelude.{◌≡◌, ◌+◌, ◌<◌, ◌≤◌, [], ℕ, List as AnyList, Some, take, slice_get, IfOk, OnOk, IsSome, IsTrue};
ghost use Rattle.crash_moments.specs.Moments.{HasCause, HasCauseAt};
ghost use Rattle.plant_core.specs.Records.{Record, Shows};
ghost use Rattle.plant_effects.specs.Runs.{state_of, loaded_of, Done, Leaves, SameNumbers, StaysQuiet};
ghost use Rattle.tape_text.specs.Items.{Item, ReadsAs, Read};
ghost use Rattle.tape_writer.specs.Filling.{uses_in};
ghost use Rattle.archive_model.specs.Holding.{is_so, is_head_frame};
ghost use Rattle.tape_choice.specs.Scene.{UnlessFailed};
ghost use Rattle.tape_choice.specs.Append.{is_mark};
ghost use Rattle.tape_choice.specs.Surveys.{survey_of, with_item, is_head_in};

use crate::fault::ChoiceFault;
use crate::reading::frame_in;
use plant_core::{Block, Failed, Kind, Plant};
use plant_effects::get_record;
use std::alloc::Global;
use tape_frames::{Frame, one_frame, uses_of};

/// What is counted of records.
#[derive(Clone, Copy, Debug, PartialEq, Eq)]
pub(crate) struct Survey {
    /// How many are filemarks.
    pub marks: u32,
    /// The uses that the first head of version 2 tells, 0 where there is none.
    pub uses: u32,
}

/// The uses that a record tells: none but a dump's head tells any.
fn uses_in(kind: Kind, block: &Block) -> u32
    ensures { (r : Record) (i : Item) → Shows r kind block.now → ReadsAs r i → result ≡ uses_in i }
{
    one_frame();
    match kind {
        Kind::Block => uses_of(block),
        Kind::Mark => 0,
        Kind::Bad => 0,
    }
}

/// Counts one record more.
fn with_record(seen: Survey, kind: Kind, block: &Block) -> Survey
    requires { seen.marks < 4294967295 }
    ensures is { (r : Record) (i : Item) → Shows r kind block.now → ReadsAs r i → result ≡ with_item seen i }
    ensures few { result.marks ≤ seen.marks + 1 }
{
    let marks = if kind == Kind::Mark {
        seen.marks + 1
    } else {
        seen.marks
    };
    let uses = if seen.uses == 0 {
        uses_in(kind, block)
    } else {
        seen.uses
    };
    Survey { marks, uses }
}

/// Counts the first records of the loaded tape.
pub(crate) fn count_records<P: Plant>(plant: &mut P, end: u32) -> Result<Survey, Failed>
    requires sound { P.sound plant.old }
    requires loaded { IsSome (loaded_of P.Plant plant.old) }
    requires within { end ≤ (P.view plant.old).records }
    ensures is { P.tells → (k : ℕ) (items : AnyList Item) → loaded_of P.Plant plant.old ≡ Some k → Read ((state_of P.Plant plant.old).tape k) items → IfOk result (λ seen. seen ≡ survey_of (take end items)) }
    ensures done { OnOk result (Done P.Plant [] plant.old plant.new) }
    ensures leaves { Leaves P.Plant [] plant.old plant.new }
    ensures numbers { OnOk result (SameNumbers P.Plant plant.old plant.new) }
    ensures stays { StaysQuiet P.Plant plant.old plant.new }
    ensures cause { HasCause (P.view plant.old).faults (P.view plant.new).faults result }
{
    let mut block = [0; 16384];
    let mut seen = Survey { marks: 0, uses: 0 };
    for place in 0..end {
        let kind = get_record(plant, place, &mut block)?;
        seen = with_record(seen, kind, &block);
    }
    Ok(seen)
}

/// Whether a frame is the head of a dump's part on a tape.
fn is_head_frame(frame: &Option<Frame>, id: u32, tape: u32) -> bool
    ensures is { result ≡ is_head_in id tape frame.now }
    ensures some { IsTrue result → 1 ≤ tape }
{
    match frame {
        Some(Frame::DumpHead(head)) => head.fields().id == id && head.fields().tape == tape,
        Some(Frame::Label(_)) => false,
        Some(Frame::VolHead(_)) => false,
        Some(Frame::Data(_)) => false,
        Some(Frame::VolEnd(_)) => false,
        Some(Frame::DumpEnd(_)) => false,
        None => false,
    }
}

/// Whether a record of the loaded tape is the head of a dump's part on a tape.
pub(crate) fn is_head_at<P: Plant>(
    alloc: Global,
    plant: &mut P,
    at: u32,
    id: u32,
    tape: u32,
) -> Result<bool, ChoiceFault>
    requires sound { P.sound plant.old }
    requires loaded { IsSome (loaded_of P.Plant plant.old) }
    ensures is { P.tells → (k : ℕ) (items : AnyList Item) → loaded_of P.Plant plant.old ≡ Some k → Read ((state_of P.Plant plant.old).tape k) items → IfOk result (λ is. is ≡ is_so (is_head_frame id tape) (slice_get items at)) }
    ensures some { IfOk result (λ is. IsTrue is → 1 ≤ tape) }
    ensures done { UnlessFailed result (Done P.Plant [] plant.old plant.new) }
    ensures leaves { Leaves P.Plant [] plant.old plant.new }
    ensures numbers { UnlessFailed result (SameNumbers P.Plant plant.old plant.new) }
    ensures stays { StaysQuiet P.Plant plant.old plant.new }
    ensures cause { HasCauseAt ChoiceFault.Failed (P.view plant.old).faults (P.view plant.new).faults result }
{
    if at >= plant.tape_len() {
        return Ok(false);
    }
    let mut block = [0; 16384];
    match get_record(plant, at, &mut block) {
        Ok(Kind::Block) => {
            let frame = frame_in(alloc, &block)?;
            Ok(is_head_frame(&frame, id, tape))
        }
        Ok(Kind::Mark) => Ok(false),
        Ok(Kind::Bad) => Ok(false),
        Err(_) => Err(ChoiceFault::Failed),
    }
}
