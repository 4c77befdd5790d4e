//! Tests of streams of volumes and of a cell in memory, of what no line of a script says. Nothing stands on these tests; `dump_stream`
//! and `cell_core` stand below.
#![tactic(auto)]

#[cfg(test)]
mod cells;
#[cfg(test)]
mod increments;
#[cfg(test)]
mod reading;
#[cfg(test)]
mod stamps;
#[cfg(test)]
mod writing;
