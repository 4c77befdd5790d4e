//! The bytes of changes, by the table of their fields.

use crate::steps::{Dump, Listing, Step};
use crate::words::{BASE, HOSTS, LEVELS, PARTS, PATTERNS, SETS, VOLUME, word};
use std::alloc::AllocError;

/// A text of up to 255 bytes behind its length in so many bytes.
fn put_text(bytes: &mut Vec<u8>, width: usize, text: &str) -> Result<(), AllocError> {
    for _ in 1..width {
        bytes.push(0)?;
    }
    bytes.push(text.len().min(255) as u8)?;
    bytes.extend_from_slice(text.as_bytes())
}

/// Numbers of four bytes, the highest byte first.
fn put_fours(bytes: &mut Vec<u8>, numbers: &[u32]) -> Result<(), AllocError> {
    for number in numbers {
        bytes.extend_from_slice(&number.to_be_bytes())?;
    }
    Ok(())
}

/// The record of a volume, whose fragments are one or two.
fn put_volume(bytes: &mut Vec<u8>, from: u32) -> Result<(), AllocError> {
    put_text(bytes, 1, VOLUME)?;
    put_fours(bytes, &[536870915])?;
    put_text(bytes, 1, word(&HOSTS, 2))?;
    put_text(bytes, 1, word(&PARTS, 1))?;
    put_fours(bytes, &[1600000000, from])?;
    if from == 0 {
        bytes.extend_from_slice(&[0, 1])?;
        put_fours(bytes, &[1, 1])
    } else {
        bytes.extend_from_slice(&[0, 2])?;
        put_fours(bytes, &[1, 7, 2, 1])
    }
}

/// The record of a dump with one tape, and what version 2 alone has: the uses and the permanent name of the tape, and the cell.
fn put_record(bytes: &mut Vec<u8>, listing: Listing, dump: &Dump) -> Result<(), AllocError> {
    let is_second = match listing {
        Listing::Done1 | Listing::Found1 => false,
        Listing::Done | Listing::Found => true,
    };
    put_fours(bytes, &[dump.id, dump.initial, dump.parent, 4294967295])?;
    put_text(bytes, 1, word(&SETS, dump.set))?;
    put_text(bytes, 2, word(&LEVELS, dump.level))?;
    put_text(bytes, 1, BASE)?;
    bytes.extend_from_slice(&[0, 1])?;
    put_fours(bytes, &[1, 1, 9, 2])?;
    if is_second {
        put_fours(bytes, &[3])?;
        put_text(bytes, 1, BASE)?;
    }
    put_fours(bytes, &[dump.volumes])?;
    for (at, from) in dump.froms.iter().enumerate() {
        if at < dump.volumes as usize {
            put_volume(bytes, *from)?;
        }
    }
    if is_second {
        put_text(bytes, 1, word(&HOSTS, 1))?;
    }
    Ok(())
}

/// The change that a step says.
pub fn put_step(bytes: &mut Vec<u8>, step: &Step) -> Result<(), AllocError> {
    bytes.push(step.kind())?;
    match step {
        Step::AddSet { set } | Step::DelSet { set } => put_text(bytes, 1, word(&SETS, *set)),
        Step::AddEntry { set, entry } => {
            put_text(bytes, 1, word(&SETS, *set))?;
            put_text(bytes, 1, word(&HOSTS, entry.server))?;
            put_text(bytes, 1, word(&PARTS, entry.part))?;
            put_text(bytes, 2, word(&PATTERNS, entry.pattern))
        }
        Step::DelEntry { set, number } => {
            put_text(bytes, 1, word(&SETS, *set))?;
            put_fours(bytes, &[*number])
        }
        Step::AddLevel { level, expiry } | Step::SetExpiry { level, expiry } => {
            put_text(bytes, 2, word(&LEVELS, *level))?;
            match expiry {
                0 => bytes.extend_from_slice(&[0]),
                1 => bytes.extend_from_slice(&[1]),
                2 => bytes.extend_from_slice(&[2, 0x65, 0x53, 0xf1, 0]),
                _ => bytes.extend_from_slice(&[3, 0, 1, 0, 2, 0, 3]),
            }
        }
        Step::DelLevel { level } => put_text(bytes, 2, word(&LEVELS, *level)),
        Step::AddHost { host, port } => {
            put_text(bytes, 1, word(&HOSTS, *host))?;
            bytes.extend_from_slice(&port.to_be_bytes())
        }
        Step::DelHost { port } => bytes.extend_from_slice(&port.to_be_bytes()),
        Step::Begin { id } | Step::Take { initial: id } | Step::Forget { id } => {
            put_fours(bytes, &[*id])
        }
        Step::List { listing, dump } => put_record(bytes, *listing, dump),
    }
}
