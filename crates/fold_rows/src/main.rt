//! Folds lists of changes at random, and compares each database with what a plain model says, whose rules `plain.rt` states anew over
//! small numbers. The bytes of a list are put together in `bytes.rt` by the table of the changes' fields; they must be read as changes
//! that are written as the same bytes. A front of each list, and a list with a kind that is none, must be refused where the table says.
//! A line of standard input has a seed, and how many lists it gives. Nothing stands on this program; `budb_fold` stands below.
//!
//! The numbers in `stdout` were made by another model, in Python, that isn't kept here: it draws the same numbers, puts the bytes
//! together, reads them and folds them into dictionaries by the tables of `docs/FORMATS.md`, and counts.
#![tactic(auto)]

mod bytes;
mod counts;
mod plain;
mod random;
mod same;
mod steps;
mod trials;
mod words;

use crate::counts::{Counts, print_counts};
use crate::random::Random;
use crate::trials::{some_case, try_bad_kind, try_front, try_whole};
use std::alloc::Global;
use std::io::{self, Write};

/// Tries the lists of a line, and prints what was counted.
fn run_line(alloc: Global, line: &str, printed: &mut Vec<u8>) -> anyhow::Result<()> {
    let Some((seed, lists)) = line.split_once(' ') else {
        anyhow::bail!("a line has a seed and a number");
    };
    let (Ok(seed), Ok(lists)) = (seed.parse::<u32>(), lists.parse::<u32>()) else {
        anyhow::bail!("{line} has no two numbers below 2^32");
    };
    let mut random = Random {
        state: u64::from(seed),
    };
    let mut counts = Counts::new();
    for _ in 0..lists {
        let case = some_case(alloc, &mut random)?;
        try_whole(alloc, &mut random, &case, &mut counts)?;
        try_front(alloc, &mut random, &case, &mut counts)?;
        try_bad_kind(alloc, &mut random, &case, &mut counts)?;
    }
    print_counts(alloc, seed, lists, &counts, printed)
}

fn main(rt: HostRuntime) -> anyhow::Result<()> {
    let text = io::read_to_string(rt.alloc(), rt.reader())?;
    let mut printed = Vec::new(rt.alloc());
    for line in text.as_str().lines() {
        run_line(rt.alloc(), line, &mut printed)?;
    }
    io::writer(&rt).write_all(printed.as_slice())?;
    Ok(())
}
