//! Lists of tapes whose records come from others.

use crate::numbers::number;
use crate::print::{add_maybe, print_found, print_line};
use crate::records::Record;
use crate::scans::{assembled, scan_all};
use crate::world::World;
use std::alloc::Global;
use tape_scan::Sections;

/// A record of the tapes: `K.I` is record I of tape K.
fn placed(alloc: Global, world: &World, word: &str) -> anyhow::Result<Record> {
    let Some((tape, at)) = word.split_once('.') else {
        anyhow::bail!("{word} is no record");
    };
    let tape = number(tape)? as usize;
    let at = number(at)? as usize;
    match world.records(tape).get(at) {
        Some(record) => Ok(record.again(alloc)?),
        None => anyhow::bail!("there is no record {word}"),
    }
}

/// A record by its word.
fn record_by(alloc: Global, world: &World, word: &str) -> anyhow::Result<Record> {
    match word {
        "mark" => Ok(Record::Mark),
        "bad" => Ok(Record::Bad),
        _ => placed(alloc, world, word),
    }
}

/// The records of a tape.
fn tape_by(alloc: Global, world: &World, text: &str) -> anyhow::Result<Vec<Record>> {
    let mut records = Vec::new(alloc);
    for word in text.split_whitespace() {
        records.push(record_by(alloc, world, word)?)?;
    }
    Ok(records)
}

/// The tapes, which are parted by `/`.
fn tapes_by(alloc: Global, world: &World, rest: &str) -> anyhow::Result<Vec<Vec<Record>>> {
    let mut tapes = Vec::new(alloc);
    for text in rest.split('/') {
        tapes.push(tape_by(alloc, world, text)?)?;
    }
    Ok(tapes)
}

/// Prints for each tape how many parts its scan tells and where it stops.
fn print_stops(alloc: Global, scans: &[Sections], printed: &mut Vec<u8>) -> anyhow::Result<()> {
    let mut line = String::from_str(alloc, "mix")?;
    for scan in scans {
        let parts = scan.parts.len();
        line.push_str(format!(in alloc; " parts {parts} stop ")?.as_str())?;
        add_maybe(alloc, &mut line, scan.stop)?;
    }
    print_line(printed, line.as_str())
}

/// Prints what scans tell of tapes by the words of a step, and what is found over them.
pub fn print_mix(
    alloc: Global,
    world: &World,
    rest: &str,
    printed: &mut Vec<u8>,
) -> anyhow::Result<()> {
    let tapes = tapes_by(alloc, world, rest)?;
    let scans = scan_all(alloc, tapes.as_slice())?;
    print_stops(alloc, scans.as_slice(), printed)?;
    let found = assembled(alloc, scans.as_slice())?;
    print_found(alloc, printed, &found)
}
