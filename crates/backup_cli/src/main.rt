//! The backup service of an AFS cell, as the program `afsbackup`. `main` hands on the current folder, the system's clock, and standard
//! input, output and errors, and ends with the exit status that it is given. It has no rule of its own. `backup_program` stands below
//! with all that it does, and so do `dir_cell` and `host_edge`, the real folder and the clock.
#![tactic(auto)]

use backup_program::program;
use dir_cell::FolderDoors;
use host_edge::SysClock;
use std::process::ExitCode;

/// Runs on standard input in the current folder, and ends with the number of the run's status.
fn main(rt: HostRuntime) -> ExitCode {
    let doors = FolderDoors::new(&rt);
    let mut clock = SysClock::new(rt);
    let number = program(
        &rt,
        &doors,
        &mut clock,
        rt.stdin(),
        &mut rt.stdout(),
        &mut rt.stderr(),
    );
    ExitCode::from(number)
}
