//! Frames put on the tape in hand, which is loaded first where it isn't.

ghost use Rattle.std.specs.Prelude.{◌≡◌, ◌≢◌, ◌+◌, ◌*◌, ◌≤◌, [], ◌∷◌, Ok, Some, OnOk, true, false, drop};
ghost use Rattle.crash_moments.specs.Moments.{HasCause};
ghost use Rattle.plant_core.specs.Effects.{putting_away};
ghost use Rattle.plant_effects.specs.Runs.{loaded_of, Done, Leaves, StaysQuiet};
ghost use Rattle.tape_frames.specs.declared.frame.Frame.TheVariants as frames;
ghost use Rattle.tape_text.specs.Items.{Says, Filemark};
ghost use Rattle.tape_writer.specs.Room.{HasRoom};
ghost use Rattle.tape_writer.specs.Puts.{IsCounted};
ghost use Rattle.dump_job.specs.Reels.{records_on, with_more, counts_on, IsOn, Puts};
ghost use Rattle.dump_job.specs.Volumes.{next_used, next_piece, piece_items, without_piece};

use crate::fields::{Hand, Reel};
use plant_core::{Failed, Plant};
use plant_effects::load_tape;
use tape_config::Port;
use tape_frames::{Data, DataFields, DumpEnd, VolEnd, VolHead};
use tape_writer::Writer;

/// Loads the tape of a slot, and says whether it has as many records as were counted. Where contents are told it has.
pub(crate) fn take_up<P: Plant>(plant: &mut P, slot: u32, count: u32) -> Result<bool, Failed>
    requires fit { IsOn P.Plant slot count plant.old }
    ensures counted { result ≡ Ok true → IsCounted P.Plant count plant.new }
    ensures told { P.tells → result ≢ Ok false }
    ensures done { OnOk result (Done P.Plant (putting_away (loaded_of P.Plant plant.old) slot) plant.old plant.new) }
    ensures leaves { Leaves P.Plant (putting_away (loaded_of P.Plant plant.old) slot) plant.old plant.new }
    ensures loaded { OnOk result (loaded_of P.Plant plant.new ≡ Some slot) }
    ensures log_size { OnOk result ((P.view plant.new).log_size ≡ (P.view plant.old).log_size) }
    ensures stays { StaysQuiet P.Plant plant.old plant.new }
    ensures cause { HasCause (P.view plant.old).faults (P.view plant.new).faults result }
{
    load_tape(plant, slot)?;
    Ok(plant.tape_len() == count)
}

/// The next piece of the stream, which is then given.
fn take_piece(hand: &mut Hand) -> Data
    requires { hand.old.stream ≢ [] }
    ensures piece { result ≡ next_piece hand.old }
    ensures hand { hand.new ≡ record hand.old { stream = drop (next_used hand.old) hand.old.stream } }
{
    let mut bytes = [0; 16352];
    let used = hand.stream.next(&mut bytes);
    let head = hand.head.fields();
    Data::new(DataFields {
        dump: head.dump,
        index: head.index,
        used: used as u32,
        bytes,
    })
}

/// Puts the head of a fragment, for which there is room with what must follow it. It takes no memory.
pub(crate) fn put_head<P: Plant>(
    plant: &mut P,
    port: &Port,
    reel: &mut Reel,
    head: &VolHead,
) -> Result<bool, Failed>
    requires fit { IsOn P.Plant reel.old.slot (records_on reel.old) plant.old }
    requires marks { reel.old.marks ≤ reel.old.blocks }
    requires room { HasRoom 4 2 (counts_on port.now reel.old) }
    ensures reel { result ≡ Ok true → reel.new ≡ with_more 1 0 reel.old }
    ensures same { result ≡ Ok false → reel.new ≡ reel.old }
    ensures room { result ≡ Ok true → HasRoom 3 2 (counts_on port.now reel.new) }
    ensures fit { result ≡ Ok true → IsOn P.Plant reel.new.slot (records_on reel.new) plant.new }
    ensures plant { Puts P.Plant reel.old.slot (Says (frames.VolHead head.now) ∷ []) result plant.old plant.new }
{
    let _limits = port.fields();
    if !take_up(plant, reel.slot, reel.blocks + reel.marks)? {
        return Ok(false);
    }
    let mut writer = Writer::new(port, reel.blocks, reel.marks);
    match writer.begin_volume(plant, head) {
        Ok(()) => {}
        Err(_) => return Err(Failed),
    }
    reel.blocks += 1;
    Ok(true)
}

/// Puts the next piece of a volume's stream, for which there is room with what must follow it. The piece is taken off the
/// stream once the tape is there. It takes no memory.
pub(crate) fn put_piece<P: Plant>(
    plant: &mut P,
    port: &Port,
    reel: &mut Reel,
    hand: &mut Hand,
) -> Result<bool, Failed>
    requires fit { IsOn P.Plant reel.old.slot (records_on reel.old) plant.old }
    requires marks { reel.old.marks ≤ reel.old.blocks }
    requires room { HasRoom 3 2 (counts_on port.now reel.old) }
    requires left { hand.old.stream ≢ [] }
    requires bytes { hand.old.bytes ≤ 16352 * reel.old.blocks }
    ensures reel { result ≡ Ok true → reel.new ≡ with_more 1 0 reel.old }
    ensures hand { result ≡ Ok true → hand.new ≡ without_piece hand.old }
    ensures same { result ≡ Ok false → reel.new ≡ reel.old }
    ensures same_hand { result ≡ Ok false → hand.new ≡ hand.old }
    ensures room { result ≡ Ok true → HasRoom 2 2 (counts_on port.now reel.new) }
    ensures fit { result ≡ Ok true → IsOn P.Plant reel.new.slot (records_on reel.new) plant.new }
    ensures plant { Puts P.Plant reel.old.slot (piece_items hand.old) result plant.old plant.new }
{
    let _limits = port.fields();
    if !take_up(plant, reel.slot, reel.blocks + reel.marks)? {
        return Ok(false);
    }
    let mut writer = Writer::new(port, reel.blocks, reel.marks);
    let piece = take_piece(hand);
    match writer.data(plant, &piece) {
        Ok(()) => {}
        Err(_) => return Err(Failed),
    }
    hand.bytes += piece.fields().used;
    reel.blocks += 1;
    Ok(true)
}

/// Puts the end of a fragment and a filemark. It takes no memory.
pub(crate) fn put_end<P: Plant>(
    plant: &mut P,
    port: &Port,
    reel: &mut Reel,
    end: &VolEnd,
) -> Result<bool, Failed>
    requires fit { IsOn P.Plant reel.old.slot (records_on reel.old) plant.old }
    requires marks { reel.old.marks ≤ reel.old.blocks }
    requires room { HasRoom 2 2 (counts_on port.now reel.old) }
    ensures reel { result ≡ Ok true → reel.new ≡ with_more 1 1 reel.old }
    ensures same { result ≡ Ok false → reel.new ≡ reel.old }
    ensures room { result ≡ Ok true → HasRoom 1 1 (counts_on port.now reel.new) }
    ensures fit { result ≡ Ok true → IsOn P.Plant reel.new.slot (records_on reel.new) plant.new }
    ensures plant { Puts P.Plant reel.old.slot (Says (frames.VolEnd end.now) ∷ Filemark ∷ []) result plant.old plant.new }
{
    let _limits = port.fields();
    if !take_up(plant, reel.slot, reel.blocks + reel.marks)? {
        return Ok(false);
    }
    let mut writer = Writer::new(port, reel.blocks, reel.marks);
    match writer.end_volume(plant, end) {
        Ok(()) => {}
        Err(_) => return Err(Failed),
    }
    reel.blocks += 1;
    reel.marks += 1;
    Ok(true)
}

/// Puts the end of a part and a filemark. It takes no memory.
pub(crate) fn put_last<P: Plant>(
    plant: &mut P,
    port: &Port,
    reel: &mut Reel,
    end: &DumpEnd,
) -> Result<bool, Failed>
    requires fit { IsOn P.Plant reel.old.slot (records_on reel.old) plant.old }
    requires marks { reel.old.marks ≤ reel.old.blocks }
    requires room { HasRoom 1 1 (counts_on port.now reel.old) }
    ensures reel { result ≡ Ok true → reel.new ≡ with_more 1 1 reel.old }
    ensures same { result ≡ Ok false → reel.new ≡ reel.old }
    ensures room { result ≡ Ok true → HasRoom 0 0 (counts_on port.now reel.new) }
    ensures fit { result ≡ Ok true → IsOn P.Plant reel.new.slot (records_on reel.new) plant.new }
    ensures plant { Puts P.Plant reel.old.slot (Says (frames.DumpEnd end.now) ∷ Filemark ∷ []) result plant.old plant.new }
{
    let _limits = port.fields();
    if !take_up(plant, reel.slot, reel.blocks + reel.marks)? {
        return Ok(false);
    }
    let mut writer = Writer::new(port, reel.blocks, reel.marks);
    match writer.end_dump(plant, end) {
        Ok(()) => {}
        Err(_) => return Err(Failed),
    }
    reel.blocks += 1;
    reel.marks += 1;
    Ok(true)
}
