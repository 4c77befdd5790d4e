//! A journal that is cut off, or of which one byte was changed, for each place in turn.

use crate::files::{blank, file_of_log, fill};
use crate::lines::print_line;
use crate::script::Script;
use crate::world::World;
use backup_top::Status;
use cell_core::CellMem;
use std::alloc::Global;

/// How a service begins with a journal of this log.
fn opened(alloc: Global, world: &World, log: &[u8]) -> anyhow::Result<Status> {
    let mut media = blank(alloc)?;
    let file = file_of_log(alloc, log)?;
    fill(alloc, &mut media, 0, file.as_slice())?;
    let mut cell = CellMem::new(alloc);
    let (status, _) = world
        .order
        .run(alloc, media, &mut cell, &Script::new(alloc))?;
    Ok(status)
}

/// Adds the word for an answer: the place at which the journal is refused, or `-` where it is opened.
fn add_word(alloc: Global, status: &Status, line: &mut String) -> anyhow::Result<()> {
    match status {
        Status::Done => line.push_str(" -")?,
        Status::BadLog { at } => {
            let word = format!(in alloc; " {at}")?;
            line.push_str(word.as_str())?;
        }
        _ => anyhow::bail!("a journal ends a service by another status"),
    }
    Ok(())
}

/// Prints, for each front of a log, the place at which it is refused, or `-` where it is opened.
pub fn cut(alloc: Global, world: &World, log: &[u8], printed: &mut Vec<u8>) -> anyhow::Result<()> {
    let mut line = String::from_str(alloc, "cuts")?;
    for count in 0..log.len().saturating_add(1) {
        let status = opened(alloc, world, log.get(..count).unwrap_or(log))?;
        add_word(alloc, &status, &mut line)?;
    }
    print_line(printed, line.as_str())
}

/// Prints, for each byte of a log that is changed by these bits, the place at which the log is refused, or `-` where it is opened.
pub fn change(
    alloc: Global,
    world: &World,
    bits: u8,
    log: &[u8],
    printed: &mut Vec<u8>,
) -> anyhow::Result<()> {
    let mut line = String::from_str(alloc, "changes")?;
    let mut changed = Vec::from_slice(alloc, log)?;
    for i in 0..log.len() {
        flip(&mut changed, i, bits);
        let status = opened(alloc, world, changed.as_slice())?;
        flip(&mut changed, i, bits);
        add_word(alloc, &status, &mut line)?;
    }
    print_line(printed, line.as_str())
}

/// Changes a byte of a list by these bits, where there is one.
fn flip(bytes: &mut Vec<u8>, i: usize, bits: u8) {
    if let Some(byte) = bytes.get_mut(i) {
        *byte ^= bits;
    }
}
