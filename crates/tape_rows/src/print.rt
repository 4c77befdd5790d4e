//! Lines of what is found.

use budb_changes::{DumpRecord, TapePart, VolRecord};
use std::alloc::Global;
use tape_scan::{Found, FragFound, PartFound, PartId, Sections};

/// Prints a line.
pub fn print_line(printed: &mut Vec<u8>, line: &str) -> anyhow::Result<()> {
    printed.extend_from_slice(line.as_bytes())?;
    printed.push(b'\n')?;
    Ok(())
}

/// Adds a number, and a dash where there is none.
pub fn add_maybe(alloc: Global, line: &mut String, number: Option<u32>) -> anyhow::Result<()> {
    match number {
        None => line.push_str("-")?,
        Some(number) => line.push_str(format!(in alloc; "{number}")?.as_str())?,
    }
    Ok(())
}

/// Adds a text.
fn add_text(line: &mut String, bytes: &[u8]) -> anyhow::Result<()> {
    for byte in bytes {
        line.push(char::from(*byte))?;
    }
    Ok(())
}

/// A fragment: the volume's place and the fragment's number, where its head stands, and `end` where the volume ends with it, `cut`
/// where it doesn't, `open` where that isn't told.
fn add_frag(alloc: Global, line: &mut String, frag: &FragFound) -> anyhow::Result<()> {
    let head = frag.head.fields();
    let (index, fragment, at) = (head.index, head.fragment, frag.at);
    let last = match frag.last {
        None => "open",
        Some(true) => "end",
        Some(false) => "cut",
    };
    let words = format!(in alloc; " {index}.{fragment} at {at} {last}")?;
    line.push_str(words.as_str())?;
    Ok(())
}

fn print_part(alloc: Global, printed: &mut Vec<u8>, part: &PartFound) -> anyhow::Result<()> {
    let head = part.head.fields();
    let (id, number, tape, uses) = (head.id, head.part, head.tape, head.uses);
    let (first, marks) = (part.first, part.marks);
    let mut line = format!(in alloc;
        "part {id} {number} tape {tape} uses {uses} first {first} end "
    )?;
    add_maybe(alloc, &mut line, part.end)?;
    let more = if part.more { "more" } else { "no more" };
    let words = format!(in alloc; " marks {marks} {more}:")?;
    line.push_str(words.as_str())?;
    for frag in part.frags.as_slice() {
        add_frag(alloc, &mut line, frag)?;
    }
    print_line(printed, line.as_str())
}

/// Prints what a scan of a tape tells: its label, the record at which it stops, and a line for each part.
pub fn print_sections(alloc: Global, printed: &mut Vec<u8>, tape: &Sections) -> anyhow::Result<()> {
    let slot = tape.slot;
    let mut line = format!(in alloc; "tape {slot} label ")?;
    match &tape.label {
        None => line.push_str("-")?,
        Some(label) => {
            let fields = label.fields();
            let (initial, number) = (fields.initial, fields.tape);
            line.push_str(format!(in alloc; "{initial} {number}")?.as_str())?;
        }
    }
    line.push_str(" stop ")?;
    add_maybe(alloc, &mut line, tape.stop)?;
    print_line(printed, line.as_str())?;
    for part in tape.parts.as_slice() {
        print_part(alloc, printed, part)?;
    }
    Ok(())
}

fn add_tape(alloc: Global, line: &mut String, tape: &TapePart) -> anyhow::Result<()> {
    let (number, first, end) = (tape.tape, tape.first, tape.end);
    let (marks, uses) = (tape.marks, tape.uses);
    let words = format!(in alloc;
        " tape {number} first {first} end {end} marks {marks} uses {uses}"
    )?;
    line.push_str(words.as_str())?;
    Ok(())
}

fn print_volume(alloc: Global, printed: &mut Vec<u8>, volume: &VolRecord) -> anyhow::Result<()> {
    let fields = volume.fields();
    let mut line = String::from_str(alloc, "volume ")?;
    add_text(&mut line, fields.name.bytes())?;
    let (clone, from) = (fields.clone, fields.from);
    line.push_str(format!(in alloc; " clone {clone} from {from}:")?.as_str())?;
    for frag in fields.frags.as_slice() {
        let (tape, at) = (frag.tape, frag.at);
        line.push_str(format!(in alloc; " tape {tape} at {at}")?.as_str())?;
    }
    print_line(printed, line.as_str())
}

fn print_dump(alloc: Global, printed: &mut Vec<u8>, dump: &DumpRecord) -> anyhow::Result<()> {
    let fields = dump.fields();
    let (id, initial, parent) = (fields.id, fields.initial, fields.parent);
    let mut line = format!(in alloc; "dump {id} initial {initial} parent {parent} ")?;
    add_text(&mut line, fields.base.bytes())?;
    line.push_str(":")?;
    for tape in fields.tapes.as_slice() {
        add_tape(alloc, &mut line, tape)?;
    }
    print_line(printed, line.as_str())?;
    for volume in fields.volumes.as_slice() {
        print_volume(alloc, printed, volume)?;
    }
    Ok(())
}

fn print_left(alloc: Global, printed: &mut Vec<u8>, part: &PartId) -> anyhow::Result<()> {
    let (id, tape) = (part.id, part.tape);
    let line = format!(in alloc; "left {id} tape {tape}")?;
    print_line(printed, line.as_str())
}

/// Prints the whole dumps with their volumes, and the parts that are left over.
pub fn print_found(alloc: Global, printed: &mut Vec<u8>, found: &Found) -> anyhow::Result<()> {
    for dump in found.whole.as_slice() {
        print_dump(alloc, printed, dump)?;
    }
    for part in found.parts.as_slice() {
        print_left(alloc, printed, part)?;
    }
    Ok(())
}
