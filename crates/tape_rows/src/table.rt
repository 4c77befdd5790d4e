//! The table of rows. Each line of it is one step, and what it prints stands behind it:
//!
//! - `== NAME` begins a row with four blank tapes; it is printed.
//! - `dump ID INITIAL PARENT VOLUMES USES` says what the frames have in common that are put from then on, with uses 0 in version 1.
//!   So do `base NAME`, `set NAME`, `level PATH`, `cell NAME`, `permanent NAME` and `expires MOMENT`.
//! - `tape K` is the tape that records are put on: `put RECORD, RECORD, ..`, where a record is `label INITIAL TAPE`, `label 0 0 NAME`,
//!   `mark`, `head TAPE PART`, `volume INDEX FRAGMENT [NAME]`, `data INDEX USED`, `end INDEX FRAGMENT LAST BYTES`, `done TAPE MORE`,
//!   `bad`, `foreign KIND`, a block with a frame's front and this kind that is no frame, `saved KIND`, a block of a saved database,
//!   or `torn BYTES`, the front of a block. `one TAPE` puts all of a dump that has one volume of one piece. `cut N` keeps the first N
//!   records, `copy K` makes the tape the same as another.
//! - `scan` prints what a scan of the tape tells, `ends` what scans of its fronts tell, and `find` what is found over all tapes.
//!   `mix RECORD RECORD .. / RECORD .. / ..` prints how many parts scans tell of tapes with these records and where they stop, and what
//!   is found over them: `K.I` is record I of tape K, and there are `mark` and `bad`.
//! - `frame BYTES` prints whether a block is a frame, by its bytes in hexadecimal, behind which zeros stand; `@N` goes on at byte N.
//!   `frames BYTE COUNT BYTES` prints where it is refused with each of its first bytes made this one, and `-` where it is a frame.
//! - `fill BYTES LINE` dumps a volume whose stream has so many bytes to blank tapes by this line of a configuration, and prints
//!   what stands on them. `room BLOCKS MARKS MORE MORE LINE` prints whether so many blocks and filemarks more have room on a tape that
//!   has so many.
//!
//! Empty lines and lines that begin with `#` are passed over.

use crate::blocks::{print_frame, print_frames};
use crate::ends::print_ends;
use crate::filling::{Taken, fill, room};
use crate::frames::record_by;
use crate::mixes::print_mix;
use crate::numbers::{next_number, number, word};
use crate::print::{print_found, print_line, print_sections};
use crate::records::copy_of;
use crate::scans::{assembled, scan_all};
use crate::world::World;
use std::alloc::Global;

/// Takes the numbers that the frames of a dump have in common.
fn set_common(world: &mut World, rest: &str) -> anyhow::Result<()> {
    let (id, rest) = next_number(rest)?;
    let (initial, rest) = next_number(rest)?;
    let (parent, rest) = next_number(rest)?;
    let (volumes, rest) = next_number(rest)?;
    let uses = number(rest)?;
    let common = &mut world.common;
    common.id = id;
    common.initial = initial;
    common.parent = parent;
    common.volumes = volumes;
    common.uses = uses;
    Ok(())
}

/// Puts the records of a list of words.
fn put_all(alloc: Global, world: &mut World, rest: &str) -> anyhow::Result<()> {
    for step in rest.split(", ") {
        let record = record_by(alloc, &world.common, step)?;
        world.put(record)?;
    }
    Ok(())
}

/// Puts a dump of one volume with one piece.
fn put_one(alloc: Global, world: &mut World, rest: &str) -> anyhow::Result<()> {
    let tape = number(rest)?;
    let steps = format!(in alloc;
        "head {tape} 1, volume 0 1, data 0 9, end 0 1 1 9, mark, done {tape} 0, mark"
    )?;
    put_all(alloc, world, steps.as_str())
}

/// Keeps the first records of the tape.
fn cut(alloc: Global, world: &mut World, rest: &str) -> anyhow::Result<()> {
    let count = number(rest)? as usize;
    let front = copy_of(alloc, world.records(world.tape).get(..count).unwrap_or(&[]))?;
    world.set(front)
}

/// Makes the tape the same as another.
fn copy(alloc: Global, world: &mut World, rest: &str) -> anyhow::Result<()> {
    let other = number(rest)? as usize;
    let records = copy_of(alloc, world.records(other))?;
    world.set(records)
}

/// Takes a step that says a text of the dump. The answer is whether there is such a step.
fn name(alloc: Global, world: &mut World, verb: &str, rest: &str) -> anyhow::Result<bool> {
    let text = String::from_str(alloc, rest)?;
    let common = &mut world.common;
    match verb {
        "base" => common.base = text,
        "set" => common.set = text,
        "level" => common.level = text,
        "cell" => common.cell = text,
        "permanent" => common.permanent = text,
        _ => return Ok(false),
    }
    Ok(true)
}

/// Takes a step that makes the tapes others. The answer is whether there is such a step.
fn prepare(alloc: Global, world: &mut World, verb: &str, rest: &str) -> anyhow::Result<bool> {
    match verb {
        "dump" => set_common(world, rest)?,
        "expires" => world.common.expires = number(rest)?,
        "tape" => world.tape = number(rest)? as usize,
        "put" => put_all(alloc, world, rest)?,
        "one" => put_one(alloc, world, rest)?,
        "cut" => cut(alloc, world, rest)?,
        "copy" => copy(alloc, world, rest)?,
        _ => return name(alloc, world, verb, rest),
    }
    Ok(true)
}

fn print_scan(alloc: Global, world: &World, printed: &mut Vec<u8>) -> anyhow::Result<()> {
    let scans = scan_all(alloc, world.tapes.as_slice())?;
    match scans.get(world.tape) {
        Some(scan) => print_sections(alloc, printed, scan),
        None => anyhow::bail!("there is no such tape"),
    }
}

fn print_find(alloc: Global, world: &World, printed: &mut Vec<u8>) -> anyhow::Result<()> {
    let scans = scan_all(alloc, world.tapes.as_slice())?;
    let found = assembled(alloc, scans.as_slice())?;
    print_found(alloc, printed, &found)
}

fn print_fill(
    alloc: Global,
    world: &World,
    rest: &str,
    printed: &mut Vec<u8>,
) -> anyhow::Result<()> {
    let (bytes, line) = next_number(rest)?;
    fill(alloc, &world.common, line, bytes, printed)
}

fn print_room(alloc: Global, rest: &str, printed: &mut Vec<u8>) -> anyhow::Result<()> {
    let (blocks, rest) = next_number(rest)?;
    let (marks, rest) = next_number(rest)?;
    let taken = Taken { blocks, marks };
    let (blocks, rest) = next_number(rest)?;
    let (marks, line) = next_number(rest)?;
    room(alloc, line, taken, Taken { blocks, marks }, printed)
}

/// Takes a step that prints.
fn print(
    alloc: Global,
    world: &mut World,
    step: &str,
    printed: &mut Vec<u8>,
) -> anyhow::Result<()> {
    let (verb, rest) = word(step);
    match verb {
        "==" => {
            *world = World::new(alloc)?;
            print_line(printed, step)
        }
        "scan" => print_scan(alloc, world, printed),
        "find" => print_find(alloc, world, printed),
        "ends" => print_ends(alloc, printed, world.records(world.tape)),
        "mix" => print_mix(alloc, world, rest, printed),
        "frame" => print_frame(alloc, rest, printed),
        "frames" => print_frames(alloc, rest, printed),
        "fill" => print_fill(alloc, world, rest, printed),
        "room" => print_room(alloc, rest, printed),
        _ => anyhow::bail!("there is no step {step}"),
    }
}

/// Takes a step.
fn take_step(
    alloc: Global,
    world: &mut World,
    step: &str,
    printed: &mut Vec<u8>,
) -> anyhow::Result<()> {
    if step.is_empty() || step.starts_with('#') {
        return Ok(());
    }
    let (verb, rest) = word(step);
    if prepare(alloc, world, verb, rest)? {
        return Ok(());
    }
    print(alloc, world, step, printed)
}

/// Takes all steps of a table, and prints what they print.
pub fn run_table(alloc: Global, table: &str, printed: &mut Vec<u8>) -> anyhow::Result<()> {
    let mut world = World::new(alloc)?;
    for step in table.lines() {
        take_step(alloc, &mut world, step, printed)?;
    }
    Ok(())
}
