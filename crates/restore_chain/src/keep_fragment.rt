//! Reading one fragment of the loaded tape, to be kept.

ghost use Rattle.std.specs.Prelude.{◌≡◌, ◌<◌, List as AnyList, Some, IfOk, IsSome, slice_get};
ghost use Rattle.plant_effects.specs.Runs.{loaded_of};
ghost use Rattle.tape_frames.specs.declared.data.DataFields.{DataFields as AnyData};
ghost use Rattle.tape_frames.specs.declared.frame.Frame.TheVariants as frames;
ghost use Rattle.tape_frames.specs.Layouts.{FitsData};
ghost use Rattle.tape_text.specs.Items.{Item, Says};
ghost use Rattle.restore_chain.specs.Playing.{lying_of, ReadsLoaded, StandsBefore, HasSeen};
ghost use Rattle.restore_chain.specs.Keeping.{OnlyReads, KeepsOn, IsReadOf};

use crate::fault::LookFault;
use crate::keeping::{Kept, KeptPiece};
use crate::play_called::{Called, Seen, is_fit_call, is_head};
use crate::play_fragment::Step;
use crate::play_joined::Site;
use crate::play_judge::{Judged, judge};
use crate::play_read::read_frame;
use bk_text::List;
use plant_core::Plant;
use std::alloc::Global;
use tape_frames::Data;

/// How many bytes of a Data are used.
fn used_in(piece: &Data) -> u32
    ensures used { result ≡ piece.now.used }
    ensures fits { FitsData piece.now }
{
    piece.fields().used
}

/// Keeps the record behind those that were seen of a fragment.
fn keep_record<P: Plant>(
    alloc: Global,
    plant: &mut P,
    called: &Called,
    place: u32,
    seen: &mut Seen,
    pieces: &mut List<KeptPiece>,
) -> Result<Step, LookFault>
    requires sound { P.sound plant.old }
    requires loaded { IsSome (loaded_of P.Plant plant.old) }
    ensures keeps { P.tells → (items : AnyList Item) (ds : AnyList AnyData) → ReadsLoaded P.Plant items plant.old → StandsBefore (lying_of called.now) items place ds → HasSeen (lying_of called.now) ds seen.old → IfOk result (KeepsOn (lying_of called.now) items place ds seen.new pieces.old pieces.new) }
    ensures reads { OnlyReads P.Plant LookFault.Failed plant.old plant.new result }
{
    is_fit_call(called);
    match read_frame(alloc, plant, place) {
        Err(fault) => Err(fault),
        Ok(found) => match judge(found, called, seen) {
            Judged::Bad => Ok(Step::Bad),
            Judged::End => Ok(Step::Whole),
            Judged::Piece(piece) => {
                let used = used_in(&piece);
                let site = Site {
                    tape: called.tape,
                    place,
                };
                match pieces.push(KeptPiece { site, piece }) {
                    Err(_) => Err(LookFault::Memory),
                    Ok(()) => {
                        *seen = seen.with(used);
                        Ok(Step::More)
                    }
                }
            }
        },
    }
}

/// Keeps the Data and the end of a fragment behind its head.
fn keep_frames<P: Plant>(alloc: Global, plant: &mut P, called: &Called) -> Result<Kept, LookFault>
    requires sound { P.sound plant.old }
    requires loaded { IsSome (loaded_of P.Plant plant.old) }
    requires there { called.now.at < (P.view plant.old).records }
    ensures read { P.tells → (items : AnyList Item) → ReadsLoaded P.Plant items plant.old → slice_get items called.now.at ≡ Some (Says (frames.VolHead called.now.head)) → IfOk result (IsReadOf (lying_of called.now) items) }
    ensures reads { OnlyReads P.Plant LookFault.Failed plant.old plant.new result }
{
    is_fit_call(called);
    let tape = called.tape;
    let mut seen = Seen::new();
    let mut pieces = List::new(alloc);
    let end = plant.tape_len();
    for place in called.at + 1..end {
        match keep_record(alloc, plant, called, place, &mut seen, &mut pieces) {
            Err(fault) => return Err(fault),
            Ok(step) => match step {
                Step::More => {}
                Step::Whole => {
                    let end = Site { tape, place };
                    return Ok(Kept::Whole { pieces, end });
                }
                Step::Bad => return Ok(Kept::Bad(Site { tape, place })),
            },
        }
    }
    Ok(Kept::Bad(Site { tape, place: end }))
}

/// Reads a fragment of the loaded tape.
///
/// # Errors
///
/// `Failed` where a call of the plant was refused, and `Memory`.
pub(crate) fn keep_fragment<P: Plant>(
    alloc: Global,
    plant: &mut P,
    called: &Called,
) -> Result<Kept, LookFault>
    requires sound { P.sound plant.old }
    requires loaded { IsSome (loaded_of P.Plant plant.old) }
    ensures read { P.tells → (items : AnyList Item) → ReadsLoaded P.Plant items plant.old → IfOk result (IsReadOf (lying_of called.now) items) }
    ensures reads { OnlyReads P.Plant LookFault.Failed plant.old plant.new result }
{
    is_fit_call(called);
    let tape = called.tape;
    let place = called.at;
    match read_frame(alloc, plant, place) {
        Err(fault) => Err(fault),
        Ok(found) => match found {
            None => Ok(Kept::Bad(Site { tape, place })),
            Some(frame) => {
                if !is_head(frame, called) {
                    return Ok(Kept::Bad(Site { tape, place }));
                }
                keep_frames(alloc, plant, called)
            }
        },
    }
}
