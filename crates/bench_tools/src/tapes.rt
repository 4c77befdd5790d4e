//! Times writing a tape of 256 MiB to the file of a slot by the writer of tapes, and scanning it again; or scans the tape in that
//! file, whatever it is.

ghost use Rattle.std.specs.Prelude.{IfOk};

use crate::writing::{RECORDS, write_tape};
use host_edge::DirMedia;
use plant_core::Plant;
use plant_media::MediaPlant;
use std::fs::File;
use std::io::Stdout;
use std::time::Instant;
use tape_scan::{Sections, scan_tape};

/// The plant in the folder `media`.
fn plant(rt: &HostRuntime) -> anyhow::Result<MediaPlant<DirMedia<HostRuntime, File, Stdout>>>
    ensures { IfOk result (λ plant. ⟦<MediaPlant<DirMedia<HostRuntime, File, Stdout>> as Plant>⟧.sound plant) }
{
    let media = DirMedia::open(rt, "media", rt.stdout())?;
    match MediaPlant::open(media) {
        Ok(plant) => Ok(plant),
        Err(_) => anyhow::bail!("the plant can't be opened"),
    }
}

/// Whether the tape is one whole part, up to its last record.
fn is_whole(scan: &Sections) -> bool {
    match scan.parts.as_slice().first() {
        Some(part) => scan.stop.is_none() && part.end == Some(RECORDS),
        None => false,
    }
}

/// Writes a tape in slot 0 of the folder `media` and scans it, and tells the microseconds of both on standard error.
pub fn time(rt: &HostRuntime) -> anyhow::Result<()> {
    let mut plant = plant(rt)?;
    let start = Instant::now(rt)?;
    write_tape(rt.alloc(), &mut plant)?;
    let writing = start.elapsed(rt)?.as_micros();
    let start = Instant::now(rt)?;
    if !plant.here(0) {
        anyhow::bail!("slot 0 isn't here");
    }
    let scan = scan_tape(rt.alloc(), &mut plant, 0)?;
    let scanning = start.elapsed(rt)?.as_micros();
    if !is_whole(&scan) {
        anyhow::bail!("the tape isn't whole");
    }
    eprintln!(rt; "written {writing} scanned {scanning}")?;
    Ok(())
}

/// Scans the tape in slot 0 of the folder `media`, and tells the record at which the scan stops, and the end of its first part.
pub fn scan(rt: &HostRuntime) -> anyhow::Result<()> {
    let mut plant = plant(rt)?;
    if !plant.here(0) {
        anyhow::bail!("slot 0 isn't here");
    }
    let scan = scan_tape(rt.alloc(), &mut plant, 0)?;
    let stop = scan.stop;
    let end = match scan.parts.as_slice().first() {
        Some(part) => part.end,
        None => None,
    };
    println!(rt; "stop {stop:?} end {end:?}")?;
    Ok(())
}
