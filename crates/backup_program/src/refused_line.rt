//! What is said of a line of the configuration that is refused: the word that isn't understood.

ghost use Rattle.std.specs.Prelude.{◌≤◌, length};

use bk_text::{place_of, split_word};
use std::alloc::{AllocError, Global};
use std::io::{self, Write};
use tape_config::{Config, ConfigFault};

/// The most bytes of a word that are shown.
const SHOWN: usize = 64;

/// The most words that a line has, and one more.
const WORDS: usize = 5;

/// What stands in front of a word and behind it in a line in which every other word is understood.
type Frame = (&'static [u8], &'static [u8]);

/// The name of the cell.
const CELL: &[Frame] = &[(b" ", b" a"), (b"cell ", b"")];

/// A device and its port.
const DEVICE: &[Frame] = &[(b" ", b" 0"), (b"slots:0-0 ", b"")];

/// Whether tape names are checked at a port.
const CHECK: &[Frame] = &[
    (b" ", b" no 0"),
    (b"name_check ", b" 0"),
    (b"name_check no ", b""),
];

/// A capacity and a filemark in front of a device and its port.
const SIZES: &[Frame] = &[
    (b" ", b" 0 slots:0-0 0"),
    (b"0 ", b" slots:0-0 0"),
    (b"0 0 ", b" 0"),
    (b"0 0 slots:0-0 ", b""),
];

/// A line without a carriage return at its end.
fn without_return(line: &[u8]) -> &[u8] {
    match line {
        [front @ .., b'\r'] => front,
        _ => line,
    }
}

/// What stands behind the first line feed.
fn behind_line(text: &[u8]) -> &[u8] {
    let end = place_of(b'\n', text);
    match text.get(end..) {
        Some([_, behind @ ..]) => behind,
        _ => &[],
    }
}

/// The line of a number, counted from 1, without its line feed or the carriage return in front of that.
fn line_at(config: &[u8], number: u32) -> &[u8] {
    let mut rest = config;
    for _ in 1..number {
        rest = behind_line(rest);
    }
    let end = place_of(b'\n', rest);
    let line = &rest[..end];
    if end < rest.len() {
        without_return(line)
    } else {
        line
    }
}

/// The first words of a line, at most one more than a line may have.
fn words_in(alloc: Global, line: &[u8]) -> Result<Vec<&[u8]>, AllocError> {
    let mut words = Vec::new(alloc);
    let mut rest = line;
    for _ in 0..WORDS {
        let Some((word, behind)) = split_word(rest) else {
            break;
        };
        words.push(word)?;
        rest = behind;
    }
    Ok(words)
}

/// The frames of the words of a line, by how many they are; none where no line has so many.
fn frames_of(first: &[u8], count: usize) -> &'static [Frame] {
    match count {
        2 if first == b"cell".as_slice() => CELL,
        2 => DEVICE,
        3 => CHECK,
        4 => SIZES,
        _ => &[],
    }
}

/// Whether a word is understood in its frame.
fn is_understood(alloc: Global, frame: &Frame, word: &[u8]) -> Result<bool, AllocError> {
    let mut line = Vec::new(alloc);
    line.extend_from_slice(frame.0)?;
    line.extend_from_slice(word)?;
    line.extend_from_slice(frame.1)?;
    match Config::parse(alloc, line.as_slice()) {
        Ok(_) => Ok(true),
        Err(ConfigFault::Memory) => Err(AllocError),
        Err(_) => Ok(false),
    }
}

/// The first word that isn't understood in its frame.
fn first_strange<'a>(
    alloc: Global,
    words: &[&'a [u8]],
    frames: &[Frame],
) -> Result<Option<&'a [u8]>, AllocError> {
    for (word, frame) in words.iter().zip(frames.iter()) {
        if !is_understood(alloc, frame, word)? {
            return Ok(Some(*word));
        }
    }
    Ok(None)
}

/// The word of a refused line that isn't understood; none where each is, so that an earlier line says the same. A
/// line of too few or too many words is shown by its last one of those.
fn strange_word(alloc: Global, line: &[u8]) -> Result<Option<&[u8]>, AllocError> {
    let words = words_in(alloc, line)?;
    let first = words.first().copied().unwrap_or_default();
    let frames = frames_of(first, words.len());
    if frames.is_empty() {
        return Ok(words.last().copied());
    }
    first_strange(alloc, words.as_slice(), frames)
}

/// A word as it is printed: what is no printable ASCII is a question mark, and a long one is cut.
fn shown(alloc: Global, word: &[u8]) -> Result<String, AllocError> {
    let mut text = String::new(alloc);
    for byte in word.iter().take(SHOWN) {
        let printed = if byte.is_ascii_graphic() { *byte } else { b'?' };
        text.push(char::from(printed))?;
    }
    if word.len() > SHOWN {
        text.push_str("..")?;
    }
    Ok(text)
}

/// What is wrong with a line of the configuration.
fn why(alloc: Global, config: &[u8], number: u32) -> Result<String, AllocError> {
    match strange_word(alloc, line_at(config, number))? {
        Some(word) => shown(alloc, word),
        None => String::from_str(alloc, "an earlier line has its port, its slots or the cell"),
    }
}

/// Prints, as one line, which line of the configuration is refused, and the word that isn't understood.
pub(crate) fn tell_refused<E: Write>(
    alloc: Global,
    errors: &mut E,
    config: &[u8],
    number: u32,
) -> io::Result<()> {
    match why(alloc, config, number) {
        Ok(why) => writeln!(errors, "tapeconfig: refused at line {number}: {why}"),
        Err(_) => writeln!(errors, "tapeconfig: refused at line {number}"),
    }
}
