//! The programs of the benches and of the tests of a real folder, as modes of one. `stream` times reading a volume's stream and writing
//! it again, `tape` times writing a tape and scanning it, `scan` scans a tape, and `probe` opens the folders of the service, copies
//! lines of standard input into the journal, or works on the images of the cell by the words after it. Nothing stands on this program;
//! the scripts in `bench/` run it.
#![tactic(auto)]

mod copying;
mod probing;
mod streams;
mod tapes;
mod words;
mod working;
mod writing;

use crate::probing::probe;
use crate::words::words_of;
use std::io::Eprint;
use std::process::ExitCode;

/// What is printed where the first word is no mode.
const USAGE: &[u8] = b"usage: bench_tools stream | tape | scan | probe WORD..\n";

/// The exit status of a mode; what it failed by is told on the errors.
fn ended(rt: &HostRuntime, done: anyhow::Result<()>) -> u8 {
    match done {
        Ok(()) => 0,
        Err(error) => {
            let _ = eprintln!(rt; "{error}");
            1
        }
    }
}

/// Tells the modes.
fn tell(rt: &HostRuntime) -> u8 {
    let _ = rt.write_all(USAGE);
    2
}

/// Runs the mode that the first word names.
fn run(rt: &HostRuntime, words: &[String]) -> u8 {
    let Some((mode, rest)) = words.split_first() else {
        return tell(rt);
    };
    match mode.as_bytes() {
        b"stream" => ended(rt, streams::time(rt)),
        b"tape" => ended(rt, tapes::time(rt)),
        b"scan" => ended(rt, tapes::scan(rt)),
        b"probe" => probe(rt, rest),
        _ => tell(rt),
    }
}

fn main(rt: HostRuntime) -> ExitCode {
    match words_of(&rt) {
        Ok(words) => ExitCode::from(run(&rt, words.as_slice())),
        Err(_) => ExitCode::from(6),
    }
}
