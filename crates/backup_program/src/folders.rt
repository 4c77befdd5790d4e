//! A run of a script in the folders that are opened.

ghost use Rattle.std.specs.Prelude.{◌≡◌, ◌⊎◌, ℕ, None};
ghost use Rattle.host_edge.specs.Openings.{exit_number};
ghost use Rattle.backup_top.specs.Statuses.{status_number, line_of_status};

use crate::refused_line::tell_refused;
use backup_top::{Asked, Status, asked_by, explain, run, words_of};
use cell_core::Cell;
use host_edge::{Doors, Explains, ExplainsMedia, Opened, StdSource, Unopened, open_all};
use media_core::{Clock, Media};
use std::alloc::{AllocError, Global};
use std::env::Env;
use std::io::{self, BufReader, IsTerminal, Read, Write};

/// Prints what couldn't be opened, and why. Where it can't be printed the exit status alone says it.
fn tell_unopened<E: Write>(errors: &mut E, unopened: &Unopened) -> io::Result<()> {
    writeln!(errors, "{unopened}")
}

/// The exit status of what couldn't be opened; the errors take the cause.
fn end_unopened<E: Write>(errors: &mut E, unopened: Unopened) -> u8
    ensures { result ≡ exit_number unopened }
{
    let _ = tell_unopened(errors, &unopened);
    unopened.number()
}

/// The exit status of a run; the errors take its line, where it told nothing of how it ended.
fn end<E: Write>(errors: &mut E, status: Status) -> u8
    ensures number { result ≡ status_number status }
    ensures quiet { line_of_status status ≡ None → errors.new ≡ errors.old }
{
    let _ = explain(errors, status);
    status.number()
}

/// Prints the path and the cause of what ended a run, where the system refused a call, or the configuration or the
/// journal is refused.
fn tell_cause<M: ExplainsMedia, C: Explains, S: Explains, E: Write>(
    alloc: Global,
    errors: &mut E,
    status: Status,
    config: &[u8],
    media: &M,
    cell: &C,
    source: &S,
) -> io::Result<()> {
    match status {
        Status::ReadFault => source.explain_fault(errors),
        Status::MediaFault => media.explain_fault(errors),
        Status::CellFault => cell.explain_fault(errors),
        Status::BadConfig { line } => tell_refused(alloc, errors, config, line),
        Status::OutputFault => media.explain_output(errors),
        Status::BadLog { at } => media.explain_log(errors, at),
        _ => Ok(()),
    }
}

/// What is waited for at a terminal, and what ends it.
const COMMANDS: &str =
    "reading commands from the terminal, one a line; the line quit or Ctrl-D ends";

const STREAM: &str = "reading a volume dump stream from the terminal; Ctrl-D ends";

/// Prints, as one line, what is waited for, where the input is a terminal.
fn tell_waiting<I: IsTerminal, E: Write>(errors: &mut E, input: &I, what: &str) -> io::Result<()> {
    if input.is_terminal() {
        writeln!(errors, "{what}")
    } else {
        Ok(())
    }
}

/// Runs a script in what was opened, which is locked until the end, and says the exit status. The errors take the
/// line of the status, where it told nothing of how it ended, behind it the path and the cause, and at last whether
/// an empty journal was made. The input is read in pieces, so that bytes behind the line that ends the script may be
/// taken.
fn run_opened<
    L: Drop,
    M: Media + ExplainsMedia + Drop,
    C: Cell + Explains + Drop,
    K: Clock,
    I: Read + IsTerminal + Drop,
    E: Write,
>(
    alloc: Global,
    words: &Vec<String>,
    opened: Opened<L, M, C>,
    clock: &mut K,
    input: I,
    errors: &mut E,
) -> u8 {
    let Opened {
        media,
        mut cell,
        config,
        lock: _lock,
    } = opened;
    let _ = tell_waiting(errors, &input, COMMANDS);
    let Ok(input) = BufReader::new(alloc, input) else {
        return end(errors, Status::Memory);
    };
    let mut source = StdSource::new(input);
    let (status, media) = run(
        alloc,
        words,
        config.as_slice(),
        media,
        &mut cell,
        clock,
        &mut source,
    );
    let number = end(errors, status);
    let _ = tell_cause(
        alloc,
        errors,
        status,
        config.as_slice(),
        &media,
        &cell,
        &source,
    );
    let _ = media.explain_made(errors);
    number
}

/// What the words of an environment ask for, and the words.
fn asked_of<R: Env + AllocGlobal>(rt: &R) -> Result<(Asked, Vec<String>), AllocError> {
    let words = words_of(rt)?;
    let asked = asked_by(rt.alloc(), &words)?;
    Ok((asked, words))
}

/// Runs on an input with the words after the program's name, and says the exit status. A script is run in what the
/// doors open, to whose media its replies are told; all else tells to the output. Where a run told nothing that says
/// how it ended, the errors take a line that does, and behind it one with the path and the cause of what was refused;
/// and what couldn't be opened with its cause. Where the input is a terminal they take a line in front that says what
/// is waited for, and where a run made an empty journal one at the end that says so.
pub fn program<
    R: Env + AllocGlobal,
    L: Drop,
    M: Media + ExplainsMedia + Drop,
    C: Cell + Explains + Drop,
    D: Doors<Lock = L, Media = M, Cell = C>,
    K: Clock,
    I: Read + IsTerminal + Drop,
    O: Write,
    E: Write,
>(rt: &R, doors: &D, clock: &mut K, input: I, output: &mut O, errors: &mut E) -> u8 {
    match asked_of(rt) {
        Err(_) => end(errors, Status::Memory),
        Ok((Asked::Run, words)) => match open_all(doors) {
            Err(unopened) => end_unopened(errors, unopened),
            Ok(opened) => run_opened(rt.alloc(), &words, opened, clock, input, errors),
        },
        Ok((asked, _)) => {
            if asked == Asked::Examine {
                let _ = tell_waiting(errors, &input, STREAM);
            }
            backup_top::program(rt, input, output, errors).number()
        }
    }
}
