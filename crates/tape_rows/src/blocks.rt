//! Blocks by their bytes, and whether they are frames.

use crate::numbers::{next_number, number, word};
use crate::print::print_line;
use crate::records::block_of;
use std::alloc::{AllocError, Global};
use tape_frames::{Block, Frame, FrameFault, decode, uses_of};

/// A byte in hexadecimal.
fn byte_by(word: &str) -> anyhow::Result<u8> {
    match u8::from_str_radix(word, 16) {
        Ok(byte) => Ok(byte),
        Err(_) => anyhow::bail!("{word} is no byte"),
    }
}

/// Puts a byte at a place of a block, where it has it.
fn put_byte(block: &mut Block, at: usize, byte: u8) {
    if at < block.len() {
        block[at] = byte;
    }
}

/// The block of these bytes in hexadecimal, one behind another, and zeros elsewhere. `@N` goes on at byte N.
fn block_by(text: &str) -> anyhow::Result<Block> {
    let mut block = block_of(b"");
    let mut at: usize = 0;
    for word in text.split_whitespace() {
        match word.strip_prefix('@') {
            Some(place) => at = number(place)? as usize,
            None => {
                put_byte(&mut block, at, byte_by(word)?);
                at = at.saturating_add(1);
            }
        }
    }
    Ok(block)
}

/// The word of a frame.
fn word_of(frame: &Frame) -> &'static str {
    match frame {
        Frame::Label(_) => "label",
        Frame::DumpHead(_) => "head",
        Frame::VolHead(_) => "volume",
        Frame::Data(_) => "data",
        Frame::VolEnd(_) => "end",
        Frame::DumpEnd(_) => "done",
    }
}

/// Whether a frame is written as this block.
fn is_written(frame: &Frame, block: &Block) -> bool {
    let mut again = [1; 16384];
    frame.encode(&mut again);
    again == *block
}

/// The line of a frame: its word, and what it says of uses. One that is written as another block is told so.
fn frame_line(alloc: Global, frame: &Frame, block: &Block) -> Result<String, AllocError> {
    let word = word_of(frame);
    let uses = uses_of(block);
    if is_written(frame, block) {
        format!(in alloc; "{word} uses {uses}")
    } else {
        format!(in alloc; "{word} uses {uses} written as another block")
    }
}

/// The line of a block.
fn line_of(alloc: Global, block: &Block) -> anyhow::Result<String> {
    match decode(alloc, block) {
        Ok(frame) => Ok(frame_line(alloc, &frame, block)?),
        Err(FrameFault::NotFrame { at }) => {
            let uses = uses_of(block);
            Ok(format!(in alloc; "no frame at {at} uses {uses}")?)
        }
        Err(FrameFault::Memory) => anyhow::bail!("memory was refused"),
    }
}

/// Prints whether a block is a frame, by the words of a step.
pub fn print_frame(alloc: Global, rest: &str, printed: &mut Vec<u8>) -> anyhow::Result<()> {
    let block = block_by(rest)?;
    let line = line_of(alloc, &block)?;
    print_line(printed, line.as_str())
}

/// The word for the place at which a block is refused; a dash where it is a frame.
fn place_word(alloc: Global, block: &Block) -> anyhow::Result<String> {
    match decode(alloc, block) {
        Ok(_) => Ok(String::from_str(alloc, " -")?),
        Err(FrameFault::NotFrame { at }) => Ok(format!(in alloc; " {at}")?),
        Err(FrameFault::Memory) => anyhow::bail!("memory was refused"),
    }
}

/// Prints, for each of the first bytes of a block that is made this one, the place at which the block is refused.
pub fn print_frames(alloc: Global, rest: &str, printed: &mut Vec<u8>) -> anyhow::Result<()> {
    let (byte, rest) = word(rest);
    let (count, rest) = next_number(rest)?;
    let byte = byte_by(byte)?;
    let block = block_by(rest)?;
    let mut line = String::from_str(alloc, "places")?;
    for at in 0..count as usize {
        let mut changed = block;
        put_byte(&mut changed, at, byte);
        line.push_str(place_word(alloc, &changed)?.as_str())?;
    }
    print_line(printed, line.as_str())
}
