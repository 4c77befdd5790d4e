//! Lines of a source go into the journal, and each is told once it is on the disk.

ghost use Rattle.std.specs.Prelude.{◌≤◌};

use host_edge::{DirMedia, DiskFile};
use media_core::{Media, Source};
use std::alloc::Global;
use std::io::Write;
use std::rt::Files;

/// The exit statuses of a read, of the journal, of memory and of the output.
const READ: u8 = 3;

const JOURNAL: u8 = 4;

const MEMORY: u8 = 6;

const OUTPUT: u8 = 9;

/// The most bytes that the journal grows to.
const MOST: u64 = 1_000_000_000;

/// Tells all of a piece.
fn tell_all<R: Files<File = F> + AllocGlobal + Clone + Drop, F: DiskFile + Drop, W: Write + Drop>(
    media: &mut DirMedia<R, F, W>,
    piece: &[u8],
) -> Result<(), u8> {
    let mut at = 0;
    for _ in 0..u64::MAX {
        if at >= piece.len() {
            return Ok(());
        }
        match media.tell(&piece[at..]) {
            Ok(count) => at += count,
            Err(_) => return Err(OUTPUT),
        }
    }
    Err(OUTPUT)
}

/// Writes a line to the end of the journal, waits until it is on the disk, and tells it.
fn keep<R: Files<File = F> + AllocGlobal + Clone + Drop, F: DiskFile + Drop, W: Write + Drop>(
    media: &mut DirMedia<R, F, W>,
    line: &[u8],
) -> Result<(), u8> {
    let Ok(at) = media.len(0) else {
        return Err(JOURNAL);
    };
    if at > MOST || line.len() > 1_000_000 {
        return Err(JOURNAL);
    }
    if media.write(0, at, line).is_err() || media.sync(0).is_err() {
        return Err(JOURNAL);
    }
    tell_all(media, line)
}

/// Keeps each whole line at the front of what is pending, and leaves the rest.
fn keep_lines<R: Files<File = F> + AllocGlobal + Clone + Drop, F: DiskFile + Drop, W: Write + Drop>(
    media: &mut DirMedia<R, F, W>,
    pending: &mut Vec<u8>,
) -> Result<(), u8> {
    let mut start = 0;
    for at in 0..pending.len() {
        if pending[at] == b'\n' {
            keep(media, &pending[start..at + 1])?;
            start = at + 1;
        }
    }
    pending.drain(..start);
    Ok(())
}

/// Copies a source's lines into the journal. The answer is the exit status.
pub fn copy_lines<
    R: Files<File = F> + AllocGlobal + Clone + Drop,
    F: DiskFile + Drop,
    W: Write + Drop,
    S: Source,
>(alloc: Global, mut media: DirMedia<R, F, W>, source: &mut S) -> u8 {
    let mut pending = Vec::new(alloc);
    let mut buffer = [0u8; 4096];
    for _ in 0..u64::MAX {
        match source.read(&mut buffer) {
            Err(_) => return READ,
            Ok(count) => {
                if count == 0 {
                    return 0;
                }
                if pending.extend_from_slice(&buffer[..count]).is_err() {
                    return MEMORY;
                }
            }
        }
        match keep_lines(&mut media, &mut pending) {
            Ok(()) => {}
            Err(number) => return number,
        }
    }
    READ
}
