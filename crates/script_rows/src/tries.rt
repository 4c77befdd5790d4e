//! The steps of the table that run something many times, or over other media.

use crate::cuts::{change, cut};
use crate::lines::print_line;
use crate::mishaps::{Counts, makes_calls, try_calls, try_random};
use crate::numbers::{bytes, number, small_byte, small_number, two_words};
use crate::script::Script;
use crate::sweeps::{Places, sweep};
use crate::table::print_status;
use crate::trials::Mishap;
use crate::turning::Turn;
use crate::world::World;
use std::alloc::Global;

/// The moment at which a line is answered that is tried many times.
const MOMENT: u64 = 5000;

/// Prints counts; those of dumps where the row has looks at scanned tapes.
fn print_counts(
    alloc: Global,
    world: &World,
    counts: Counts,
    printed: &mut Vec<u8>,
) -> anyhow::Result<()> {
    let (runs, kept) = (counts.runs, counts.kept);
    let mut line = format!(in alloc; "runs {runs} kept {kept}")?;
    if world.scan_looks.count() > 0 {
        let (listed, again) = (counts.listed, counts.again);
        let more = format!(in alloc; " listed {listed} again {again}")?;
        line.push_str(more.as_str())?;
    }
    print_line(printed, line.as_str())
}

/// Tries a mishap in each call, and prints the counts.
fn try_mishaps(
    alloc: Global,
    world: &World,
    mishap: Mishap,
    printed: &mut Vec<u8>,
) -> anyhow::Result<()> {
    let counts = try_calls(alloc, world, mishap)?;
    print_counts(alloc, world, counts, printed)
}

/// Stops in calls at random by the words of a step, and prints the counts, how many runs were stopped, and whether the script makes just as many
/// calls as there are to choose from.
fn random_by(
    alloc: Global,
    world: &World,
    rest: &str,
    printed: &mut Vec<u8>,
) -> anyhow::Result<()> {
    let (seed, more) = two_words(rest)?;
    let (count, bound) = two_words(more)?;
    let (count, bound) = (small_number(count)?, small_number(bound)?);
    let counts = try_random(alloc, world, number(seed)?, count, bound)?;
    print_counts(alloc, world, counts, printed)?;
    let stopped = counts.stopped;
    let calls = if makes_calls(alloc, world, bound)? {
        "all"
    } else {
        "not all"
    };
    let line = format!(in alloc; "stopped {stopped} in {calls} of its calls")?;
    print_line(printed, line.as_str())
}

/// Runs the script over media with a byte that turns, by the words of a step.
fn turn_by(
    alloc: Global,
    world: &mut World,
    rest: &str,
    printed: &mut Vec<u8>,
) -> anyhow::Result<()> {
    let (lines, more) = two_words(rest)?;
    let (file, more) = two_words(more)?;
    let (at, byte) = two_words(more)?;
    let turn = Turn {
        lines: number(lines)?,
        file: small_number(file)?,
        at: number(at)?,
        byte: small_byte(byte)?,
    };
    let (status, told) = world.run_turning(alloc, turn)?;
    printed.extend_from_slice(told.as_slice())?;
    print_status(alloc, &status, printed)
}

/// Changes the bytes of a record in turn by the words of a step.
fn sweep_by(
    alloc: Global,
    world: &mut World,
    rest: &str,
    printed: &mut Vec<u8>,
) -> anyhow::Result<()> {
    let (slot, more) = two_words(rest)?;
    let (record, more) = two_words(more)?;
    let (first, more) = two_words(more)?;
    let (count, more) = two_words(more)?;
    let (step, more) = two_words(more)?;
    let (bits, line) = two_words(more)?;
    let places = Places {
        slot: small_number(slot)?,
        record: small_number(record)?,
        first: small_number(first)?,
        count: small_number(count)?,
        step: small_number(step)?,
        bits: small_byte(bits)?,
    };
    let mut script = Script::new(alloc);
    script.add(MOMENT, line)?;
    sweep(alloc, world, &script, &places, printed)
}

/// Changes the bytes of a journal's log in turn by the words of a step.
fn changes_by(
    alloc: Global,
    world: &World,
    rest: &str,
    printed: &mut Vec<u8>,
) -> anyhow::Result<()> {
    let (bits, log) = two_words(rest)?;
    let log = bytes(alloc, log)?;
    change(alloc, world, small_byte(bits)?, log.as_slice(), printed)
}

/// Cuts a journal's log off by the words of a step.
fn cuts_by(alloc: Global, world: &World, rest: &str, printed: &mut Vec<u8>) -> anyhow::Result<()> {
    let log = bytes(alloc, rest)?;
    cut(alloc, world, log.as_slice(), printed)
}

/// Takes a step that tries.
pub fn try_by(
    alloc: Global,
    world: &mut World,
    verb: &str,
    rest: &str,
    printed: &mut Vec<u8>,
) -> anyhow::Result<()> {
    match verb {
        "turn" => turn_by(alloc, world, rest, printed),
        "sweep" => sweep_by(alloc, world, rest, printed),
        "cuts" => cuts_by(alloc, world, rest, printed),
        "changes" => changes_by(alloc, world, rest, printed),
        "fails" => try_mishaps(alloc, world, Mishap::MediaFails, printed),
        "stops" => try_mishaps(alloc, world, Mishap::MediaStops, printed),
        "cells" => try_mishaps(alloc, world, Mishap::CellFails, printed),
        "reads" => try_mishaps(alloc, world, Mishap::ReadFails, printed),
        "random" => random_by(alloc, world, rest, printed),
        _ => anyhow::bail!("there is no step {verb}"),
    }
}
