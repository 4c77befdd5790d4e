//! Runs worked scripts over media, a cell, a clock and a source in memory, and prints what each one tells. The scripts stand as a table
//! on standard input, whose steps `table.rt` lists: a row more is a few lines of text there and in `stdout`. Nothing stands on this
//! program; `backup_top` stands below.
#![tactic(auto)]

mod cuts;
mod files;
mod lines;
mod mishaps;
mod numbers;
mod order;
mod report;
mod script;
mod streams;
mod sweeps;
mod table;
mod tapes;
mod trials;
mod tries;
mod turning;
mod volumes;
mod world;

use crate::table::run_table;
use std::io::{self, Write};

fn main(rt: HostRuntime) -> anyhow::Result<()> {
    let table = io::read_to_string(rt.alloc(), rt.reader())?;
    let mut printed = Vec::new(rt.alloc());
    run_table(rt.alloc(), table.as_str(), &mut printed)?;
    io::writer(&rt).write_all(printed.as_slice())?;
    Ok(())
}
