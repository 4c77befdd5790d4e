//! Scans of tapes over a plant.

ghost use Rattle.std.specs.Prelude.{◌≡◌, IfOk, OnOk};

use crate::records::{Record, file_of};
use media_core::{Media, MemMedia, Pick};
use plant_core::Plant;
use plant_media::MediaPlant;
use std::alloc::Global;
use tape_scan::{Found, Sections, assemble, scan_tape};

/// Puts the file of a tape into media.
fn fill(alloc: Global, media: &mut MemMedia, file: u32, records: &[Record]) -> anyhow::Result<()> {
    let bytes = file_of(alloc, records)?;
    if bytes.len() > 1_073_741_824 || !media.here(file) {
        anyhow::bail!("file {file} can't be filled");
    }
    if media.write(file, 0, bytes.as_slice()).is_err() {
        anyhow::bail!("file {file} wasn't written");
    }
    Ok(())
}

/// A plant with these tapes.
fn plant_of(alloc: Global, tapes: &[Vec<Record>]) -> anyhow::Result<MediaPlant<MemMedia>>
    ensures { IfOk result (λ plant. ⟦<MediaPlant<MemMedia> as Plant>⟧.sound plant) }
{
    let count = match u32::try_from(tapes.len()) {
        Ok(count) if count < 65_536 => count,
        _ => anyhow::bail!("there are too many tapes"),
    };
    let mut media = MemMedia::new(alloc, count + 1)?;
    for (slot, tape) in tapes.iter().enumerate() {
        let Ok(slot) = u32::try_from(slot) else {
            anyhow::bail!("there are too many tapes");
        };
        fill(alloc, &mut media, slot.saturating_add(1), tape.as_slice())?;
    }
    let media = media.reopen(Pick::New)?;
    match MediaPlant::open(media) {
        Ok(plant) => Ok(plant),
        Err(_) => anyhow::bail!("the plant wasn't opened"),
    }
}

/// Scans the tape in a slot.
pub fn scan_one<P: Plant>(alloc: Global, plant: &mut P, slot: u32) -> anyhow::Result<Sections>
    requires { P.sound plant.old }
    ensures { OnOk result (P.sound plant.new) }
{
    if !plant.here(slot) {
        anyhow::bail!("slot {slot} isn't here");
    }
    let sections = scan_tape(alloc, plant, slot)?;
    Ok(sections)
}

/// Scans the tapes in the first slots.
pub fn scan_first<P: Plant>(
    alloc: Global,
    plant: &mut P,
    count: u32,
) -> anyhow::Result<Vec<Sections>>
    requires { P.sound plant.old }
    ensures { OnOk result (P.sound plant.new) }
{
    let mut tapes = Vec::new(alloc);
    for slot in 0..count {
        tapes.push(scan_one(alloc, plant, slot)?)?;
    }
    Ok(tapes)
}

/// Puts together what scans of few tapes tell.
pub fn assembled(alloc: Global, tapes: &[Sections]) -> anyhow::Result<Found> {
    if tapes.len() > 65_535 {
        anyhow::bail!("there are too many tapes");
    }
    Ok(assemble(alloc, tapes)?)
}

/// What the scans of tapes tell.
pub fn scan_all(alloc: Global, tapes: &[Vec<Record>]) -> anyhow::Result<Vec<Sections>> {
    let mut plant = plant_of(alloc, tapes)?;
    scan_first(alloc, &mut plant, tapes.len().min(256) as u32)
}
