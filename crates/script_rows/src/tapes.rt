//! What stands on a tape, a word for each record.

ghost use Rattle.std.specs.Prelude.{OnOk};

use crate::files::taken;
use media_core::MemMedia;
use plant_core::{Block, Kind, Plant};
use plant_effects::{get_record, load_tape};
use plant_media::MediaPlant;
use std::alloc::Global;
use tape_frames::{Frame, decode};

/// Loads the tape of a slot.
fn load<P: Plant>(plant: &mut P, slot: u32) -> anyhow::Result<()>
    requires { P.sound plant.old }
    ensures { OnOk result (P.sound plant.new) }
{
    if !plant.here(slot) {
        anyhow::bail!("there is no tape in slot {slot}");
    }
    load_tape(plant, slot)?;
    Ok(())
}

/// The word of a frame; of a piece how many bytes it has.
fn frame_word(alloc: Global, frame: &Frame) -> anyhow::Result<String> {
    let word = match frame {
        Frame::Label(_) => "label",
        Frame::DumpHead(_) => "head",
        Frame::VolHead(_) => "volume",
        Frame::VolEnd(_) => "end",
        Frame::DumpEnd(_) => "done",
        Frame::Data(piece) => {
            let count = piece.fields().used;
            let word = format!(in alloc; " {count}")?;
            return Ok(word);
        }
    };
    let word = format!(in alloc; " {word}")?;
    Ok(word)
}

/// The word of a block.
fn word_of(alloc: Global, block: &Block) -> anyhow::Result<String> {
    let Ok(frame) = decode(alloc, block) else {
        let word = String::from_str(alloc, " foreign")?;
        return Ok(word);
    };
    frame_word(alloc, &frame)
}

/// Adds the word of a record of the loaded tape.
fn add_word<P: Plant>(alloc: Global, plant: &mut P, i: u32, line: &mut String) -> anyhow::Result<()>
    requires { P.sound plant.old }
    ensures { OnOk result (P.sound plant.new) }
{
    if plant.loaded().is_none() || i >= plant.tape_len() {
        anyhow::bail!("there is no record {i}");
    }
    let mut block: Block = [0; 16384];
    match get_record(plant, i, &mut block)? {
        Kind::Mark => line.push_str(" mark")?,
        Kind::Bad => line.push_str(" bad")?,
        Kind::Block => line.push_str(word_of(alloc, &block)?.as_str())?,
    }
    Ok(())
}

/// How many records the loaded tape has.
fn count_of<P: Plant>(plant: &P) -> u32
    requires { P.sound plant.now }
{
    if plant.loaded().is_none() {
        return 0;
    }
    plant.tape_len()
}

/// The words of the records on the tape of a slot.
fn words<P: Plant>(alloc: Global, plant: &mut P, slot: u32) -> anyhow::Result<String>
    requires { P.sound plant.old }
    ensures { OnOk result (P.sound plant.new) }
{
    load(plant, slot)?;
    let count = count_of(plant);
    let mut line = format!(in alloc; "tape {slot} {count}:")?;
    for i in 0..count {
        add_word(alloc, plant, i, &mut line)?;
    }
    Ok(line)
}

/// The words of the records on the tape of a slot. The media stay as they are.
pub fn tape_line(alloc: Global, media: &mut MemMedia, slot: u32) -> anyhow::Result<String> {
    let shown = taken(alloc, media)?;
    match MediaPlant::open(shown) {
        Err(unopened) => {
            *media = unopened.media;
            anyhow::bail!("the journal isn't a log");
        }
        Ok(mut plant) => {
            let line = words(alloc, &mut plant, slot);
            *media = plant.into_media();
            line
        }
    }
}
