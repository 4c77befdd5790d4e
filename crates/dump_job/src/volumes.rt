//! The steps that put a volume's fragments: head, piece and volume end. None takes memory.

ghost use Rattle.std.specs.Prelude.{◌≡◌, ◌≢◌, ◌+◌, ◌*◌, ◌≤◌, true, false, Ok, Some, IsSome, IfSome, []};
ghost use Rattle.tape_writer.specs.Room.{HasRoom};
ghost use Rattle.dump_job.specs.declared.fields.Hand.{Hand as AnyHand};
ghost use Rattle.dump_job.specs.Reels.{records_on, with_more, counts_on, IsOn, Puts};
ghost use Rattle.dump_job.specs.Volumes.{phase_behind, head_items, headed, piece_items, pieced, fragment_end, end_items, volume_ended, volume_cut};

use crate::fields::{Hand, JobFields, Phase, Reel};
use crate::puts::{put_end, put_head, put_piece};
use plant_core::{Failed, Plant};
use tape_config::Port;
use tape_frames::{VolEnd, VolEndFields};

/// How many records stand on the tape in hand.
pub(crate) fn count_on(port: &Port, reel: &Reel) -> u32
    requires marks { reel.now.marks ≤ reel.now.blocks }
    requires few { reel.now.blocks * 16384 ≤ port.now.capacity }
    ensures { result ≡ records_on reel.now }
{
    let _limits = port.fields();
    reel.blocks + reel.marks
}

/// What follows where this is left of the stream: another piece, or the volume's end.
fn next_phase(hand: &Hand) -> Phase
    ensures { result ≡ phase_behind hand.now.stream }
{
    if hand.stream.is_over() {
        Phase::VolumeEnd
    } else {
        Phase::Piece
    }
}

/// The end of the open fragment.
fn end_of(hand: &Hand, last: u32) -> VolEnd
    requires { last ≤ 1 }
    ensures { result ≡ fragment_end last hand.now }
{
    let head = hand.head.fields();
    VolEnd::new(VolEndFields {
        dump: head.dump,
        index: head.index,
        fragment: head.fragment,
        last,
        bytes: hand.bytes,
    })
}

/// Puts the head of the next fragment, for which there is room.
pub(crate) fn head_step<P: Plant>(job: &mut JobFields, plant: &mut P) -> Result<bool, Failed>
    requires fit { IsOn P.Plant job.old.reel.slot (records_on job.old.reel) plant.old }
    requires marks { job.old.reel.marks ≤ job.old.reel.blocks }
    requires room { HasRoom 4 2 (counts_on job.old.port job.old.reel) }
    requires hand { IsSome job.old.hand }
    ensures moved { (h : AnyHand) → job.old.hand ≡ Some h → result ≡ Ok true → job.new ≡ headed h job.old }
    ensures same { result ≡ Ok false → job.new ≡ job.old }
    ensures room { result ≡ Ok true → HasRoom 3 2 (counts_on job.new.port job.new.reel) }
    ensures fit { result ≡ Ok true → IsOn P.Plant job.new.reel.slot (records_on job.new.reel) plant.new }
    ensures plant { (h : AnyHand) → job.old.hand ≡ Some h → Puts P.Plant job.old.reel.slot (head_items h) result plant.old plant.new }
{
    let at = count_on(&job.port, &job.reel);
    match &mut job.hand {
        None => Ok(false),
        Some(hand) => {
            if !put_head(plant, &job.port, &mut job.reel, &hand.head)? {
                return Ok(false);
            }
            hand.at = at;
            hand.bytes = 0;
            job.phase = next_phase(hand);
            Ok(true)
        }
    }
}

/// Puts the next piece of the stream, for which there is room.
pub(crate) fn piece_step<P: Plant>(job: &mut JobFields, plant: &mut P) -> Result<bool, Failed>
    requires fit { IsOn P.Plant job.old.reel.slot (records_on job.old.reel) plant.old }
    requires marks { job.old.reel.marks ≤ job.old.reel.blocks }
    requires room { HasRoom 3 2 (counts_on job.old.port job.old.reel) }
    requires hand { IsSome job.old.hand }
    requires left { IfSome job.old.hand (λ h. h.stream ≢ []) }
    requires bytes { IfSome job.old.hand (λ h. h.bytes ≤ 16352 * job.old.reel.blocks) }
    ensures moved { (h : AnyHand) → job.old.hand ≡ Some h → result ≡ Ok true → job.new ≡ pieced h job.old }
    ensures same { result ≡ Ok false → job.new ≡ job.old }
    ensures room { result ≡ Ok true → HasRoom 2 2 (counts_on job.new.port job.new.reel) }
    ensures fit { result ≡ Ok true → IsOn P.Plant job.new.reel.slot (records_on job.new.reel) plant.new }
    ensures plant { (h : AnyHand) → job.old.hand ≡ Some h → Puts P.Plant job.old.reel.slot (piece_items h) result plant.old plant.new }
{
    match &mut job.hand {
        None => Ok(false),
        Some(hand) => {
            if !put_piece(plant, &job.port, &mut job.reel, hand)? {
                return Ok(false);
            }
            job.phase = next_phase(hand);
            Ok(true)
        }
    }
}

/// Puts the end of the open fragment and a filemark.
fn end_fragment<P: Plant>(job: &mut JobFields, plant: &mut P, last: u32) -> Result<bool, Failed>
    requires fit { IsOn P.Plant job.old.reel.slot (records_on job.old.reel) plant.old }
    requires marks { job.old.reel.marks ≤ job.old.reel.blocks }
    requires room { HasRoom 2 2 (counts_on job.old.port job.old.reel) }
    requires hand { IsSome job.old.hand }
    requires last { last ≤ 1 }
    ensures moved { result ≡ Ok true → job.new ≡ record job.old { reel = with_more 1 1 job.old.reel } }
    ensures same { result ≡ Ok false → job.new ≡ job.old }
    ensures room { result ≡ Ok true → HasRoom 1 1 (counts_on job.new.port job.new.reel) }
    ensures fit { result ≡ Ok true → IsOn P.Plant job.new.reel.slot (records_on job.new.reel) plant.new }
    ensures plant { (h : AnyHand) → job.old.hand ≡ Some h → Puts P.Plant job.old.reel.slot (end_items last h) result plant.old plant.new }
{
    match &job.hand {
        None => Ok(false),
        Some(hand) => {
            let end = end_of(hand, last);
            put_end(plant, &job.port, &mut job.reel, &end)
        }
    }
}

/// What follows a volume: another one, or the end of the dump.
fn phase_after(job: &JobFields) -> Phase
    requires { IsSome job.now.hand }
    ensures { (h : AnyHand) → job.now.hand ≡ Some h → result ≡ (volume_ended h job.now).phase }
{
    match &job.hand {
        None => Phase::DumpEnd,
        Some(hand) => {
            if hand.head.fields().index as usize + 1 < job.places.len() {
                Phase::Clone
            } else {
                Phase::DumpEnd
            }
        }
    }
}

/// Lets go of the volume in hand where every byte of it was put, so that the next one is taken up beside none.
fn let_go(hand: &mut Option<Hand>)
    ensures { hand.new ≡ hand.old }
{
    if let Some(hand) = hand {
        if hand.stream.is_over() {
            hand.stream.let_go();
        }
    }
}

/// Ends the volume's last fragment.
pub(crate) fn volume_end_step<P: Plant>(job: &mut JobFields, plant: &mut P) -> Result<bool, Failed>
    requires fit { IsOn P.Plant job.old.reel.slot (records_on job.old.reel) plant.old }
    requires marks { job.old.reel.marks ≤ job.old.reel.blocks }
    requires room { HasRoom 2 2 (counts_on job.old.port job.old.reel) }
    requires hand { IsSome job.old.hand }
    ensures moved { (h : AnyHand) → job.old.hand ≡ Some h → result ≡ Ok true → job.new ≡ volume_ended h job.old }
    ensures same { result ≡ Ok false → job.new ≡ job.old }
    ensures room { result ≡ Ok true → HasRoom 1 1 (counts_on job.new.port job.new.reel) }
    ensures fit { result ≡ Ok true → IsOn P.Plant job.new.reel.slot (records_on job.new.reel) plant.new }
    ensures plant { (h : AnyHand) → job.old.hand ≡ Some h → Puts P.Plant job.old.reel.slot (end_items 1 h) result plant.old plant.new }
{
    let phase = phase_after(job);
    if !end_fragment(job, plant, 1)? {
        return Ok(false);
    }
    let_go(&mut job.hand);
    job.phase = phase;
    Ok(true)
}

/// Ends a fragment that doesn't end its volume, since the tape is full.
pub(crate) fn cut_step<P: Plant>(job: &mut JobFields, plant: &mut P) -> Result<bool, Failed>
    requires fit { IsOn P.Plant job.old.reel.slot (records_on job.old.reel) plant.old }
    requires marks { job.old.reel.marks ≤ job.old.reel.blocks }
    requires room { HasRoom 2 2 (counts_on job.old.port job.old.reel) }
    requires hand { IsSome job.old.hand }
    ensures moved { result ≡ Ok true → job.new ≡ volume_cut job.old }
    ensures same { result ≡ Ok false → job.new ≡ job.old }
    ensures room { result ≡ Ok true → HasRoom 1 1 (counts_on job.new.port job.new.reel) }
    ensures fit { result ≡ Ok true → IsOn P.Plant job.new.reel.slot (records_on job.new.reel) plant.new }
    ensures plant { (h : AnyHand) → job.old.hand ≡ Some h → Puts P.Plant job.old.reel.slot (end_items 0 h) result plant.old plant.new }
{
    if !end_fragment(job, plant, 0)? {
        return Ok(false);
    }
    job.phase = Phase::PartEnd;
    Ok(true)
}
