//! Tests of files in a folder as media, of what a program opens, of the system's clock and of the whole program, over fakes. `fakes`
//! and `world` are what the program runs in. Nothing stands on these tests; `backup_program` and `host_edge` stand below.
#![tactic(auto)]

#[cfg(test)]
mod cells;
#[cfg(test)]
mod clocks;
#[cfg(test)]
mod disk;
#[cfg(test)]
mod fakes;
#[cfg(test)]
mod files;
#[cfg(test)]
mod openings;
#[cfg(test)]
mod programs;
#[cfg(test)]
mod world;
