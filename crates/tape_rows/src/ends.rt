//! Scans of each front of a tape.

use crate::print::{add_maybe, print_line};
use crate::records::{Record, copy_of};
use crate::scans::scan_all;
use std::alloc::{AllocError, Global};
use tape_scan::Sections;

/// The last part of a scan: how many parts and fragments were told, and how far the last ones stand there.
fn last_of(alloc: Global, scan: &Sections) -> anyhow::Result<String> {
    let count = scan.parts.len();
    let Some(part) = scan.parts.as_slice().last() else {
        return Ok(format!(in alloc; "parts 0")?);
    };
    let state = if part.end.is_some() { "closed" } else { "open" };
    let frags = part.frags.len();
    let last = match part.frags.as_slice().last() {
        None => "none",
        Some(frag) => match frag.last {
            None => "open",
            Some(true) => "end",
            Some(false) => "cut",
        },
    };
    Ok(format!(in alloc; "parts {count} {state} fragments {frags} {last}")?)
}

/// The scan of one tape with these records.
fn scan_of(alloc: Global, records: Vec<Record>) -> anyhow::Result<Vec<Sections>> {
    let mut tapes = Vec::new(alloc);
    tapes.push(records)?;
    scan_all(alloc, tapes.as_slice())
}

/// The records, and behind them the front of a block.
fn torn_behind(alloc: Global, front: &[Record]) -> Result<Vec<Record>, AllocError> {
    let mut torn = copy_of(alloc, front)?;
    torn.push(Record::Torn(9000))?;
    Ok(torn)
}

/// Prints what is told of a tape that ends behind so many records, and where the scan stops where it ends inside the next one.
fn print_end(
    alloc: Global,
    printed: &mut Vec<u8>,
    records: &[Record],
    count: usize,
) -> anyhow::Result<()> {
    let front = records.get(..count).unwrap_or(&[]);
    let whole = scan_of(alloc, copy_of(alloc, front)?)?;
    let torn = scan_of(alloc, torn_behind(alloc, front)?)?;
    let (Some(scan), Some(other)) = (whole.first(), torn.first()) else {
        anyhow::bail!("nothing was scanned");
    };
    let told = last_of(alloc, scan)?;
    let told = told.as_str();
    let mut line = format!(in alloc; "{count}: {told} stop ")?;
    add_maybe(alloc, &mut line, scan.stop)?;
    line.push_str(" torn ")?;
    add_maybe(alloc, &mut line, other.stop)?;
    print_line(printed, line.as_str())
}

/// Prints what is told of each front of a tape.
pub fn print_ends(alloc: Global, printed: &mut Vec<u8>, records: &[Record]) -> anyhow::Result<()> {
    for count in 0..records.len().saturating_add(1) {
        print_end(alloc, printed, records, count)?;
    }
    Ok(())
}
