//! The table of rows. Each line of it is one step, and what it prints stands behind it:
//!
//! - `== NAME` begins a row with blank media of five files, an empty cell and the configuration `slots:0-3 0`; it is printed.
//!   `slots N` gives the media so many slots in place of four.
//! - `config LINE` adds a line to the configuration, the first one in place of the line above. `words WORD..` stand behind the
//!   program's name in place of `run`.
//! - `fill FILE COUNT BYTE` makes that many equal bytes the front of a file, `log BYTES` gives the journal a log (in hexadecimal).
//!   `change FILE AT BYTE` makes a byte of a file another one.
//!   `block BYTES` and `mark` are records, a block as far as it isn't zeros, and `tape SLOT` puts those so far on a tape.
//!   `volume NAME` makes a volume, by one call of the cell, `spoil NAME AT` makes its image a bad one. `out SLOT` takes a tape
//!   out, `back SLOT` puts it back.
//! - `media N`, `cell N` and `read N` make the call of that number fail.
//! - `preamble N` adds the first N of five common lines to the script, `@MOMENT LINE` a line that is answered at that moment,
//!   `- LINE` one that isn't answered, `long N` a line of N bytes. `unended` takes the last line feed away. `each FIRST LAST MOMENT
//!   LINE` adds a line, or lines that are parted by `;`, for each number, which stands in place of a `%` in each. `bytes BYTES` adds bytes as
//!   they are (in hexadecimal).
//! - `run` runs the script and begins a new one: what it told is printed, and its status; `count` prints how many lines it told, how
//!   many of them are refusals, and the last one. `journal` prints the journal's log,
//!   `shape SLOT` the records of a tape, `show NAME` the vnodes of a volume.
//! - `stream BYTES` reads bytes (in hexadecimal) as a volume's stream, and prints how many it takes, how many vnodes it lists and how
//!   many bytes are written of it again; or `cut` or the place where it is refused.
//! - `turn LINES FILE AT BYTE` runs the script over media that tell no content and read that byte of a file, once so many lines were
//!   told. `sweep SLOT RECORD FIRST COUNT STEP BITS LINE` restores the volume of `sees` into an empty cell by this line, with each of so
//!   many bytes of a record in turn changed by these bits, and prints how often each answer came, and what volume it left.
//! - `cuts BYTES` prints where a journal is refused that is cut off behind each of these bytes, and `changes BITS BYTES` where each of
//!   the bytes is changed by these bits; `-` where it is opened.
//! - `look LINE` and `label LINE` are what a later service is asked of the journal and of the tape, and `sees NAME` is a volume that is
//!   shown behind that. `scan LINE` is what a service is asked then whose journal was lost, and `finds NAME` is a volume that is shown
//!   behind that. `inside MOMENT LINE` says that a stop inside the line before may leave what this line would, or these lines, which
//!   are parted by `;`. `lose SLOT` has the script so far go before a new one, behind which the tape of the slot is taken out and the
//!   journal is lost, and `regain SLOT` one behind which the tape is put back. `fails` and
//!   `stops` run the script with a failure of, or a stop in, each call of the media, `cells` and `reads` with a failure of each call of
//!   the cell and of each read of the source, and `random SEED COUNT CALLS` with so many stops, each in a call below that number. They
//!   print how many runs there were, and how many of them kept what is promised; with `scan` also how many dumps were listed behind all
//!   of them, and how many of these were listed again without the journal.
//!
//! Empty lines and lines that begin with `#` are passed over.

use crate::files::{file_of_log, fill, journal, move_tape, set_byte};
use crate::lines::print_line;
use crate::numbers::{bytes, number, small_byte, small_number, two_words};
use crate::streams::print_stream;
use crate::tapes::tape_line;
use crate::tries::try_by;
use crate::volumes::print_volume;
use crate::world::World;
use backup_top::Status;
use std::alloc::{AllocError, Global};

/// Fills a file by the words of a step.
fn fill_by(alloc: Global, world: &mut World, rest: &str) -> anyhow::Result<()> {
    let (file, more) = two_words(rest)?;
    let (count, byte) = two_words(more)?;
    let file = small_number(file)?;
    let byte = small_byte(byte)?;
    let count = small_number(count)?;
    let bytes = vec![in alloc; byte; count as usize]?;
    fill(alloc, &mut world.media, file, bytes.as_slice())
}

/// Gives the journal a log by the words of a step.
fn log_by(alloc: Global, world: &mut World, rest: &str) -> anyhow::Result<()> {
    let log = bytes(alloc, rest)?;
    let file = file_of_log(alloc, log.as_slice())?;
    fill(alloc, &mut world.media, 0, file.as_slice())
}

/// Makes the records so far a tape, by the words of a step.
fn tape_by(alloc: Global, world: &mut World, rest: &str) -> anyhow::Result<()> {
    let slot = small_number(rest)?;
    if slot > 3 {
        anyhow::bail!("there is no slot {slot}");
    }
    let file = file_of_log(alloc, world.records.as_slice())?;
    world.records.clear();
    fill(alloc, &mut world.media, slot + 1, file.as_slice())
}

/// Makes a volume's image a bad one by the words of a step.
fn spoil_by(alloc: Global, world: &mut World, rest: &str) -> anyhow::Result<()> {
    let (name, at) = two_words(rest)?;
    let at = number(at)?;
    world.spoil(alloc, name, at)
}

/// Changes a byte of a file by the words of a step.
fn change_by(world: &mut World, rest: &str) -> anyhow::Result<()> {
    let (file, more) = two_words(rest)?;
    let (at, byte) = two_words(more)?;
    let byte = small_byte(byte)?;
    set_byte(&mut world.media, small_number(file)?, number(at)?, byte)
}

/// Prints a status.
pub fn print_status(alloc: Global, status: &Status, printed: &mut Vec<u8>) -> anyhow::Result<()> {
    let number = status.number();
    let line = format!(in alloc; "status {number} {status:?}")?;
    print_line(printed, line.as_str())
}

/// Runs the script, and prints what was told and the status.
fn run_script(alloc: Global, world: &mut World, printed: &mut Vec<u8>) -> anyhow::Result<()> {
    let (status, told) = world.run(alloc)?;
    printed.extend_from_slice(told.as_slice())?;
    print_status(alloc, &status, printed)
}

/// Runs the script, and prints how many lines were told, how many of them are refusals, the last one, and the status.
fn count_lines(alloc: Global, world: &mut World, printed: &mut Vec<u8>) -> anyhow::Result<()> {
    let (status, told) = world.run(alloc)?;
    let (mut lines, mut refused) = (0u64, 0u64);
    let mut last: &[u8] = b"";
    for line in told.split(|byte| *byte == b'\n') {
        if !line.is_empty() {
            lines = lines.saturating_add(1);
            last = line;
        }
        if line.starts_with(b"refused ") {
            refused = refused.saturating_add(1);
        }
    }
    let front = format!(in alloc; "lines {lines} refused {refused} last ")?;
    printed.extend_from_slice(front.as_bytes())?;
    printed.extend_from_slice(last)?;
    printed.push(b'\n')?;
    print_status(alloc, &status, printed)
}

/// Prints the log of the journal.
fn print_journal(alloc: Global, world: &mut World, printed: &mut Vec<u8>) -> anyhow::Result<()> {
    let log = journal(alloc, &mut world.media)?;
    let count = log.len();
    let mut line = format!(in alloc; "journal {count}:")?;
    for byte in log.iter() {
        let byte = *byte;
        let word = format!(in alloc; " {byte:02x}")?;
        line.push_str(word.as_str())?;
    }
    print_line(printed, line.as_str())
}

/// Prints the records of a tape.
fn print_shape(
    alloc: Global,
    world: &mut World,
    rest: &str,
    printed: &mut Vec<u8>,
) -> anyhow::Result<()> {
    let line = tape_line(alloc, &mut world.media, small_number(rest)?)?;
    print_line(printed, line.as_str())
}

/// Adds a line that is answered at a moment.
fn add_line(world: &mut World, step: &str) -> anyhow::Result<bool> {
    let Some(rest) = step.strip_prefix('@') else {
        return Ok(false);
    };
    let (moment, line) = two_words(rest)?;
    world.script.add(number(moment)?, line)?;
    Ok(true)
}

/// A line with a number in place of its `%`, where it has one.
fn with_number(alloc: Global, line: &str, count: u32) -> Result<String, AllocError> {
    match line.split_once('%') {
        Some((front, back)) => format!(in alloc; "{front}{count}{back}"),
        None => String::from_str(alloc, line),
    }
}

/// Adds lines with this number.
fn add_numbered(
    alloc: Global,
    world: &mut World,
    moment: u64,
    lines: &str,
    count: u32,
) -> Result<(), AllocError> {
    for line in lines.split(';') {
        let line = with_number(alloc, line, count)?;
        world.script.add(moment, line.as_str())?;
    }
    Ok(())
}

/// Adds lines for each number.
fn add_each(alloc: Global, world: &mut World, rest: &str) -> anyhow::Result<()> {
    let (first, more) = two_words(rest)?;
    let (last, more) = two_words(more)?;
    let (moment, lines) = two_words(more)?;
    let moment = number(moment)?;
    for count in small_number(first)?..small_number(last)?.saturating_add(1) {
        add_numbered(alloc, world, moment, lines, count)?;
    }
    Ok(())
}

/// Adds what a stop inside the line before may leave.
fn add_inside(alloc: Global, world: &mut World, rest: &str) -> anyhow::Result<()> {
    let (moment, line) = two_words(rest)?;
    world.script.add_inside(alloc, number(moment)?, line)?;
    Ok(())
}

/// Takes a step that makes a row's world another one. The answer is whether there is such a step.
fn prepare(alloc: Global, world: &mut World, verb: &str, rest: &str) -> anyhow::Result<bool> {
    match verb {
        "config" => world.configure(rest)?,
        "words" => world.say(alloc, rest)?,
        "fill" => fill_by(alloc, world, rest)?,
        "log" => log_by(alloc, world, rest)?,
        "change" => change_by(world, rest)?,
        "block" => world.add_record(0, bytes(alloc, rest)?.as_slice())?,
        "mark" => world.add_record(1, b"")?,
        "tape" => tape_by(alloc, world, rest)?,
        "slots" => world.resize(alloc, small_number(rest)?)?,
        "volume" => world.create(alloc, rest)?,
        "spoil" => spoil_by(alloc, world, rest)?,
        "out" => move_tape(&mut world.media, small_number(rest)?, true)?,
        "back" => move_tape(&mut world.media, small_number(rest)?, false)?,
        "media" => world.media.fail_at(number(rest)?)?,
        "cell" => world.cell.fail_at(number(rest)?)?,
        "read" => world.order.failing_read = Some(number(rest)?),
        _ => return Ok(false),
    }
    Ok(true)
}

/// Takes a step that adds to a script. The answer is whether there is such a step.
fn write(alloc: Global, world: &mut World, verb: &str, rest: &str) -> anyhow::Result<bool> {
    match verb {
        "preamble" => world.script.add_preamble(small_number(rest)? as usize)?,
        "-" => world.script.add_silent(rest)?,
        "bytes" => world.script.add_bytes(bytes(alloc, rest)?.as_slice())?,
        "long" => world.script.add_long(small_number(rest)?)?,
        "unended" => world.script.leave_unended(),
        "each" => add_each(alloc, world, rest)?,
        "inside" => add_inside(alloc, world, rest)?,
        "lose" => world.go_before(alloc, small_number(rest)?, true)?,
        "regain" => world.go_before(alloc, small_number(rest)?, false)?,
        "sees" => world.seen.push(String::from_str(alloc, rest)?)?,
        "look" => world.journal_looks.add(0, rest)?,
        "label" => world.tape_looks.add(0, rest)?,
        "scan" => world.scan_looks.add(0, rest)?,
        "finds" => world.found.push(String::from_str(alloc, rest)?)?,
        _ => return Ok(false),
    }
    Ok(true)
}

/// Takes a step that prints.
fn print(
    alloc: Global,
    world: &mut World,
    verb: &str,
    rest: &str,
    step: &str,
    printed: &mut Vec<u8>,
) -> anyhow::Result<()> {
    match verb {
        "==" => {
            *world = World::new(alloc)?;
            print_line(printed, step)
        }
        "run" => run_script(alloc, world, printed),
        "count" => count_lines(alloc, world, printed),
        "journal" => print_journal(alloc, world, printed),
        "shape" => print_shape(alloc, world, rest, printed),
        "show" => print_volume(alloc, &mut world.cell, rest, printed),
        "stream" => print_stream(alloc, bytes(alloc, rest)?.as_slice(), printed),
        _ => try_by(alloc, world, verb, rest, printed),
    }
}

/// Takes a step.
fn take_step(
    alloc: Global,
    world: &mut World,
    step: &str,
    printed: &mut Vec<u8>,
) -> anyhow::Result<()> {
    if step.is_empty() || step.starts_with('#') || add_line(world, step)? {
        return Ok(());
    }
    let (verb, rest) = match step.split_once(' ') {
        Some(parts) => parts,
        None => (step, ""),
    };
    if prepare(alloc, world, verb, rest)? || write(alloc, world, verb, rest)? {
        return Ok(());
    }
    print(alloc, world, verb, rest, step, printed)
}

/// Takes all steps of a table, and prints what they print.
pub fn run_table(alloc: Global, table: &str, printed: &mut Vec<u8>) -> anyhow::Result<()> {
    let mut world = World::new(alloc)?;
    for step in table.lines() {
        take_step(alloc, &mut world, step, printed)?;
    }
    Ok(())
}
