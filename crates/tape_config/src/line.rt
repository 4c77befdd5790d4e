//! What a line of a configuration says.

ghost use Rattle.std.specs.Prelude.{◌≡◌, if◌then◌else◌, IfSome, MatchOption};
ghost use Rattle.bk_text.specs.Alphabets.{IsHost};
ghost use Rattle.tape_config.specs.Lines.{offset_of, device_line, check_line, line_says, words_say, cell_of};
ghost use Rattle.bk_text.specs.Blanks.{words_of, is_same_word};
ghost use Rattle.tape_config.specs.Words.{slots_of, switch_of, name_check_word};

use crate::numbers::{plain_in, size_in};
use crate::words::{is_cell, is_name_check, slots_in, switch_in};
use bk_text::{Host, split_word};

/// A device line: the slots of a port, and what its tapes hold. The form of the device, `slots:a-b`, is this project's
/// own; the rest is of the OpenAFS Administration Reference, at `tapeconfig`.
#[derive(Clone, Copy, Debug, PartialEq, Eq)]
pub struct DeviceLine {
    /// The port offset, 0 to 58510.
    pub offset: u16,
    /// The capacity of a tape in bytes, above 0 and at most 4,000,000,000.
    pub capacity: u64,
    /// The size of a filemark in bytes, at most 4,000,000,000.
    pub filemark: u64,
    /// The first slot.
    pub first: u32,
    /// The last slot, at most 65,535.
    pub last: u32,
}

/// What a configuration keeps of a line.
#[derive(Clone, Copy, Debug, PartialEq, Eq)]
pub enum Entry {
    /// A port has these slots.
    Device(DeviceLine),
    /// Names of tapes are checked at a port or not. This line is this project's own; OpenAFS has such an instruction
    /// in a file for each tape coordinator.
    NameCheck { offset: u16, on: bool },
}

/// What a line says that doesn't name the cell.
#[derive(Clone, Copy, Debug, PartialEq, Eq)]
pub enum Line {
    /// Nothing: it has no words, or begins with `#`.
    Nothing,
    /// Something of a port.
    Says(Entry),
}

fn offset_in(word: &[u8]) -> Option<u16>
    ensures { result ≡ offset_of word.now }
{
    let offset = plain_in(word, 58510)?;
    Some(offset as u16)
}

/// The default capacity of a tape in bytes, where it is absent or 0.
const DEFAULT: u64 = 2_147_483_648;

fn read_device(
    capacity: Option<u64>,
    filemark: Option<u64>,
    device: &[u8],
    offset: &[u8],
) -> Option<Line>
    ensures { result ≡ device_line capacity filemark (slots_of device.now) (offset_of offset.now) }
{
    let capacity = capacity?;
    let filemark = filemark?;
    let (first, last) = slots_in(device)?;
    let offset = offset_in(offset)?;
    Some(Line::Says(Entry::Device(DeviceLine {
        offset,
        capacity: if capacity == 0 { DEFAULT } else { capacity },
        filemark,
        first,
        last,
    })))
}

fn read_check(switch: &[u8], offset: &[u8]) -> Option<Line>
    ensures { result ≡ check_line (switch_of switch.now) (offset_of offset.now) }
{
    let on = switch_in(switch)?;
    let offset = offset_in(offset)?;
    Some(Line::Says(Entry::NameCheck { offset, on }))
}

fn read_three(name: &[u8], switch: &[u8], offset: &[u8]) -> Option<Line>
    ensures { result ≡ (if is_same_word name.now name_check_word then check_line (switch_of switch.now) (offset_of offset.now) else None) }
{
    if is_name_check(name) {
        read_check(switch, offset)
    } else {
        None
    }
}

/// What the words of a line say.
fn read_words(line: &[u8]) -> Option<Line>
    ensures { result ≡ words_say (words_of line.now) }
{
    let Some((first, line)) = split_word(line) else {
        return Some(Line::Nothing);
    };
    let (second, line) = split_word(line)?;
    let Some((third, line)) = split_word(line) else {
        return read_device(Some(0), Some(0), first, second);
    };
    let Some((fourth, line)) = split_word(line) else {
        return read_three(first, second, third);
    };
    if split_word(line).is_some() {
        return None;
    }
    read_device(size_in(first), size_in(second), third, fourth)
}

/// What a line says that doesn't name the cell, without its end; `None` where it is of no form.
pub fn read_line(line: &[u8]) -> Option<Line>
    ensures { result ≡ line_says line.now }
{
    if !line.is_empty() && line[0] == b'#' {
        return Some(Line::Nothing);
    }
    read_words(line)
}

/// The name of the cell where a line says it. This line is this project's own; OpenAFS has that name in a file.
pub fn cell_in(line: &[u8]) -> Option<&[u8]>
    ensures is { MatchOption result (cell_of line.now ≡ None) (λ name. cell_of line.now ≡ Some name.now) }
    ensures form { IfSome result (λ name. IsHost name.now) }
{
    let (word, line) = split_word(line)?;
    let (name, line) = split_word(line)?;
    if split_word(line).is_none() && is_cell(word) && Host::is_host(name) {
        Some(name)
    } else {
        None
    }
}
