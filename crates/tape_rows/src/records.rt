//! Records of tapes as they stand in a file.

use std::alloc::{AllocError, Global};
use tape_frames::{Block, Frame};

/// The length of the front of a tape's file.
const FRONT: usize = 8192;

/// A record of a tape: a block by the bytes in front of its last zeros, a filemark, a record that is neither, or the first so many
/// bytes of a block, which nothing may follow.
#[derive(Drop)]
pub enum Record {
    Block(Vec<u8>),
    Mark,
    Bad,
    Torn(usize),
}

impl Record {
    /// The same record once more.
    pub fn again(&self, alloc: Global) -> Result<Record, AllocError> {
        match self {
            Record::Block(front) => Ok(Record::Block(Vec::from_slice(alloc, front.as_slice())?)),
            Record::Mark => Ok(Record::Mark),
            Record::Bad => Ok(Record::Bad),
            Record::Torn(count) => Ok(Record::Torn(*count)),
        }
    }
}

/// The record of a block.
pub fn record_of(alloc: Global, block: &Block) -> Result<Record, AllocError> {
    let mut count = 0usize;
    for (at, byte) in block.iter().enumerate() {
        if *byte != 0 {
            count = at + 1;
        }
    }
    let mut front = Vec::new(alloc);
    for byte in block.iter().take(count) {
        front.push(*byte)?;
    }
    Ok(Record::Block(front))
}

/// The record of a frame.
pub fn framed(alloc: Global, frame: &Frame) -> Result<Record, AllocError> {
    let mut block = [0; 16384];
    frame.encode(&mut block);
    record_of(alloc, &block)
}

/// The block that has these bytes, and zeros behind them.
pub fn block_of(front: &[u8]) -> Block {
    let mut block = [0; 16384];
    for (at, byte) in front.iter().enumerate() {
        if at < block.len() {
            block[at] = *byte;
        }
    }
    block
}

/// The same records once more.
pub fn copy_of(alloc: Global, records: &[Record]) -> Result<Vec<Record>, AllocError> {
    let mut copy = Vec::new(alloc);
    for record in records {
        copy.push(record.again(alloc)?)?;
    }
    Ok(copy)
}

/// Adds the bytes of a record.
fn add_bytes(bytes: &mut Vec<u8>, record: &Record) -> Result<(), AllocError> {
    match record {
        Record::Block(front) => {
            bytes.push(0)?;
            bytes.extend_from_slice(&block_of(front.as_slice()))?;
        }
        Record::Mark => {
            bytes.push(1)?;
            bytes.extend_from_slice(&[0; 16384])?;
        }
        Record::Bad => {
            bytes.push(2)?;
            bytes.extend_from_slice(&[0; 16384])?;
        }
        Record::Torn(count) => {
            for _ in 0..*count {
                bytes.push(0)?;
            }
        }
    }
    Ok(())
}

/// The file of a tape that has these records.
pub fn file_of(alloc: Global, records: &[Record]) -> anyhow::Result<Vec<u8>> {
    let mut file = vec![in alloc; 0u8; FRONT]?;
    for record in records {
        add_bytes(&mut file, record)?;
    }
    let length = (file.len() as u64).saturating_sub(8192);
    set_front(&mut file, length);
    Ok(file)
}

/// Sets the front of a file: its log begins at byte 8,192 and has this length.
fn set_front(file: &mut Vec<u8>, length: u64) {
    let bytes = length.to_be_bytes();
    if file.len() >= FRONT {
        file[0] = 1;
        file[14] = 32;
        for (at, byte) in bytes.iter().enumerate() {
            if at < 8 {
                file[16 + at] = *byte;
            }
        }
    }
}
