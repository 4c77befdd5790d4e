//! Playing one fragment of the loaded tape.

ghost use Rattle.std.specs.Prelude.{◌≡◌, ◌≢◌, ◌<◌, [], List as AnyList, Some, Err, IfOk, OnOk, IsSome, slice_get};
ghost use Rattle.crash_moments.specs.Moments.{HasCauseAt};
ghost use Rattle.plant_effects.specs.Runs.{loaded_of, Done, Leaves, SameNumbers, StaysQuiet};
ghost use Rattle.dump_stream.specs.Inputs.{IsOpen};
ghost use Rattle.tape_frames.specs.declared.data.DataFields.{DataFields as AnyData};
ghost use Rattle.tape_frames.specs.declared.frame.Frame.TheVariants as frames;
ghost use Rattle.tape_text.specs.Items.{Item, Says};
ghost use Rattle.restore_chain.specs.Playing.{lying_of, ReadsLoaded, StandsBefore, HasSeen, Steps, EndsSo};

use crate::fault::LookFault;
use crate::play_called::{Called, Seen, is_fit_call, is_head};
use crate::play_joined::{Joined, Site};
use crate::play_judge::{Judged, judge};
use crate::play_read::read_frame;
use plant_core::Plant;
use std::alloc::Global;

/// What a record behind those that were seen of a fragment does.
#[derive(Clone, Copy, Debug, PartialEq, Eq)]
pub enum Step {
    /// It is the next Data.
    More,
    /// It ends the fragment.
    Whole,
    /// It isn't what is called for.
    Bad,
}

/// How a fragment ends.
#[derive(Clone, Copy, Debug, PartialEq, Eq)]
pub enum Ended {
    /// It stands, and this record is its end.
    Whole(u32),
    /// This is the first record that isn't what is called for.
    Bad(u32),
}

/// Plays the record behind those that were seen of a fragment.
fn play_record<P: Plant>(
    alloc: Global,
    plant: &mut P,
    called: &Called,
    place: u32,
    seen: &mut Seen,
    joined: &mut Joined,
) -> Result<Step, LookFault>
    requires sound { P.sound plant.old }
    requires loaded { IsSome (loaded_of P.Plant plant.old) }
    requires is_open { IsOpen joined.old.input }
    ensures steps { P.tells → (items : AnyList Item) (pieces : AnyList AnyData) → ReadsLoaded P.Plant items plant.old → StandsBefore (lying_of called.now) items place pieces → HasSeen (lying_of called.now) pieces seen.old → IfOk result (Steps (lying_of called.now) items place pieces seen.new joined.old joined.new) }
    ensures is_open { OnOk result (IsOpen joined.new.input) }
    ensures done { result ≢ Err LookFault.Failed → Done P.Plant [] plant.old plant.new }
    ensures leaves { Leaves P.Plant [] plant.old plant.new }
    ensures numbers { result ≢ Err LookFault.Failed → SameNumbers P.Plant plant.old plant.new }
    ensures stays { StaysQuiet P.Plant plant.old plant.new }
    ensures cause { HasCauseAt LookFault.Failed (P.view plant.old).faults (P.view plant.new).faults result }
{
    is_fit_call(called);
    match read_frame(alloc, plant, place) {
        Err(fault) => Err(fault),
        Ok(found) => match judge(found, called, seen) {
            Judged::Bad => Ok(Step::Bad),
            Judged::End => Ok(Step::Whole),
            Judged::Piece(piece) => {
                let fields = piece.fields();
                let site = Site {
                    tape: called.tape,
                    place,
                };
                match joined.take(site, fields) {
                    Err(_) => Err(LookFault::Memory),
                    Ok(()) => {
                        *seen = seen.with(fields.used);
                        Ok(Step::More)
                    }
                }
            }
        },
    }
}

/// Plays the Data and the end of a fragment behind its head.
fn play_frames<P: Plant>(
    alloc: Global,
    plant: &mut P,
    called: &Called,
    joined: &mut Joined,
) -> Result<Ended, LookFault>
    requires sound { P.sound plant.old }
    requires loaded { IsSome (loaded_of P.Plant plant.old) }
    requires is_open { IsOpen joined.old.input }
    requires there { called.now.at < (P.view plant.old).records }
    ensures ends { P.tells → (items : AnyList Item) → ReadsLoaded P.Plant items plant.old → slice_get items called.now.at ≡ Some (Says (frames.VolHead called.now.head)) → IfOk result (EndsSo (lying_of called.now) items joined.old joined.new) }
    ensures is_open { OnOk result (IsOpen joined.new.input) }
    ensures done { result ≢ Err LookFault.Failed → Done P.Plant [] plant.old plant.new }
    ensures leaves { Leaves P.Plant [] plant.old plant.new }
    ensures numbers { result ≢ Err LookFault.Failed → SameNumbers P.Plant plant.old plant.new }
    ensures stays { StaysQuiet P.Plant plant.old plant.new }
    ensures cause { HasCauseAt LookFault.Failed (P.view plant.old).faults (P.view plant.new).faults result }
{
    is_fit_call(called);
    let mut seen = Seen::new();
    let end = plant.tape_len();
    for place in called.at + 1..end {
        match play_record(alloc, plant, called, place, &mut seen, joined) {
            Err(fault) => return Err(fault),
            Ok(step) => match step {
                Step::More => {}
                Step::Whole => return Ok(Ended::Whole(place)),
                Step::Bad => return Ok(Ended::Bad(place)),
            },
        }
    }
    Ok(Ended::Bad(end))
}

/// Plays a fragment of the loaded tape: where it stands, its Data are joined to those before. Nothing is changed on the plant.
///
/// # Errors
///
/// `Failed` where a call of the plant was refused, and `Memory`. No more is to be joined then.
pub(crate) fn play_fragment<P: Plant>(
    alloc: Global,
    plant: &mut P,
    called: &Called,
    joined: &mut Joined,
) -> Result<Ended, LookFault>
    requires sound { P.sound plant.old }
    requires loaded { IsSome (loaded_of P.Plant plant.old) }
    requires is_open { IsOpen joined.old.input }
    ensures ends { P.tells → (items : AnyList Item) → ReadsLoaded P.Plant items plant.old → IfOk result (EndsSo (lying_of called.now) items joined.old joined.new) }
    ensures is_open { OnOk result (IsOpen joined.new.input) }
    ensures done { result ≢ Err LookFault.Failed → Done P.Plant [] plant.old plant.new }
    ensures leaves { Leaves P.Plant [] plant.old plant.new }
    ensures numbers { result ≢ Err LookFault.Failed → SameNumbers P.Plant plant.old plant.new }
    ensures stays { StaysQuiet P.Plant plant.old plant.new }
    ensures cause { HasCauseAt LookFault.Failed (P.view plant.old).faults (P.view plant.new).faults result }
{
    is_fit_call(called);
    match read_frame(alloc, plant, called.at) {
        Err(fault) => Err(fault),
        Ok(found) => match found {
            None => Ok(Ended::Bad(called.at)),
            Some(frame) => {
                if !is_head(frame, called) {
                    return Ok(Ended::Bad(called.at));
                }
                play_frames(alloc, plant, called, joined)
            }
        },
    }
}
