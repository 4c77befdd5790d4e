//! The program over what it reads and what it prints to.

ghost use Rattle.std.specs.Prelude.{◌≡◌, ◌≢◌, ◌⊎◌, None, OnOk, MatchOption};
ghost use Rattle.std.specs.Io.KnownBytes.{Keeps, Appends};
ghost use Rattle.crash_moments.specs.Moments.{Rose};
ghost use Rattle.backup_top.specs.Statuses.{line_of_status};
ghost use Rattle.backup_top.specs.Replies.{usage_line};
ghost use Rattle.backup_top.specs.Runs.{Grows};
ghost use Rattle.backup_top.specs.Words.{asked};
ghost use Rattle.backup_top.specs.declared.words.Asked.TheVariants.{Nothing};
ghost use Rattle.backup_top.specs.declared.status.Status.TheVariants.{Usage, ReadFault, Memory, OutputFault};

use crate::status::Status;
use crate::top::run;
use cell_core::CellMem;
use host_edge::StdSource;
use media_core::{ClockMem, MemMedia, Source};
use std::alloc::{AllocError, Global};
use std::env::{self, Env};
use std::io::{self, ErrorKind, Read, Write};

/// How many files the media in memory have: the journal and four tapes.
const FILES: u32 = 5;

/// Their configuration.
const CONFIG: &[u8] = b"slots:0-3 0\n";

/// The one moment of their clock.
const MOMENT: u64 = 1_000_000;

/// The words after the program's name; none where some word is not text. The toolchain names no words of an environment, so
/// that no clause can say which they are: the tests over fakes do.
pub fn words_of<R: Env + AllocGlobal>(rt: &R) -> Result<Vec<String>, AllocError> {
    let mut words = Vec::new(rt.alloc());
    let args = match env::args(rt) {
        Ok(args) => args,
        Err(error) if error.kind() == ErrorKind::OutOfMemory => return Err(AllocError),
        Err(_) => return Ok(words),
    };
    for word in args.skip(1) {
        words.push(word)?;
    }
    Ok(words)
}

/// Prints what a run told. Where the output doesn't take all of it the status is `OutputFault`.
fn print_told<O: Write>(output: &mut O, told: &[u8], status: Status) -> Status
    ensures printed { result ≢ OutputFault → Appends (O.contents output.old) (O.contents output.new) told.now }
    ensures status { (result ≡ status) ⊎ (result ≡ OutputFault) }
{
    match output.write_all(told) {
        Ok(()) => status,
        Err(_) => Status::OutputFault,
    }
}

/// Prints the line of a status that nothing told. Where it can't be printed the exit status alone says it.
pub fn explain<E: Write>(errors: &mut E, status: Status) -> io::Result<()>
    ensures quiet { line_of_status status ≡ None → errors.new ≡ errors.old }
    ensures line { OnOk result (MatchOption (line_of_status status) (Keeps (E.contents errors.old) (E.contents errors.new)) (λ text. Appends (E.contents errors.old) (E.contents errors.new) text)) }
{
    match status.line() {
        Some(line) => errors.write_all(line),
        None => Ok(()),
    }
}

/// Runs on a source with these words, and prints what was told.
fn run_over<S: Source, O: Write>(
    alloc: Global,
    words: &Vec<String>,
    source: &mut S,
    output: &mut O,
) -> Status
    ensures usage { result ≡ Usage → asked words.now.items ≡ Nothing }
    ensures other_words { asked words.now.items ≡ Nothing → ((result ≡ Usage) ⊎ ((result ≡ OutputFault) ⊎ (result ≡ Memory))) × (source.new ≡ source.old) }
    ensures usage_line { result ≡ Usage → Appends (O.contents output.old) (O.contents output.new) usage_line }
    ensures grows { result ≢ OutputFault → Grows (O.contents output.old) (O.contents output.new) }
    ensures read_fault { result ≡ ReadFault → Rose (S.faults source.old) (S.faults source.new) }
    ensures no_fault { (result ≢ ReadFault) × (result ≢ OutputFault) → S.faults source.new ≡ S.faults source.old }
{
    let Ok(media) = MemMedia::new(alloc, FILES) else {
        return Status::Memory;
    };
    let Ok(mut clock) = ClockMem::new(alloc, &[MOMENT]) else {
        return Status::Memory;
    };
    let mut cell = CellMem::new(alloc);
    let (status, media) = run(alloc, words, CONFIG, media, &mut cell, &mut clock, source);
    print_told(output, media.told(), status)
}

/// Runs on an input with the words after the program's name. What is told goes to the output, and to the errors one line
/// where a run told nothing that says how it ended. Where the output refused some of it, a front of it may be there.
pub fn program<R: Env + AllocGlobal, I: Read + Drop, O: Write, E: Write>(
    rt: &R,
    input: I,
    output: &mut O,
    errors: &mut E,
) -> Status
    ensures usage_line { result ≡ Usage → Appends (O.contents output.old) (O.contents output.new) usage_line }
    ensures grows { result ≢ OutputFault → Grows (O.contents output.old) (O.contents output.new) }
    ensures quiet { line_of_status result ≡ None → errors.new ≡ errors.old }
{
    let mut source = StdSource::new(input);
    let status = match words_of(rt) {
        Ok(words) => run_over(rt.alloc(), &words, &mut source, output),
        Err(_) => Status::Memory,
    };
    let _ = explain(errors, status);
    status
}
