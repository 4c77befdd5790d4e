//! Scans tapes that were made by hand, puts together the dumps that are whole over them, and prints what is found; reads blocks as
//! frames; and fills tapes. The tapes stand as a table on standard input, whose steps `table.rt` lists: a row more is a few lines of
//! text there and in `stdout`. Nothing stands on this program; `tape_scan` and `tape_writer` stand below.
//!
//! What scans tell of the lists of tapes that a step `mix` has, and what is found over them, was also found by plain slow functions
//! that go by the definitions: a tape text by the shape of its records, a dump by the first of all lists of parts. These aren't kept.
#![tactic(auto)]

mod blocks;
mod ends;
mod filling;
mod frames;
mod mixes;
mod numbers;
mod print;
mod records;
mod scans;
mod table;
mod world;

use crate::table::run_table;
use std::io::{self, Write};

fn main(rt: HostRuntime) -> anyhow::Result<()> {
    let table = io::read_to_string(rt.alloc(), rt.reader())?;
    let mut printed = Vec::new(rt.alloc());
    run_table(rt.alloc(), table.as_str(), &mut printed)?;
    io::writer(&rt).write_all(printed.as_slice())?;
    Ok(())
}
