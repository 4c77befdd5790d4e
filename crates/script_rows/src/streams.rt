//! Streams of volumes, read and written again.

use crate::lines::print_line;
use bk_text::Out;
use dump_stream::{StreamFault, read, write};
use std::alloc::{AllocError, Global};
use vnode_model::Increment;

/// The line of a stream: how many of the bytes it takes, how many vnodes it lists, and how many bytes are written of it again.
fn read_line(alloc: Global, increment: &Increment, used: usize) -> anyhow::Result<String> {
    let mut out = Out::new(alloc);
    if write(increment, &mut out).is_err() {
        anyhow::bail!("a stream wasn't written");
    }
    let written = out.as_slice().len();
    let count = increment.fields().entries.len();
    let line = format!(in alloc; "stream {used} vnodes {count} written {written}")?;
    Ok(line)
}

/// The line of a refusal.
fn fault_line(alloc: Global, fault: &StreamFault) -> Result<String, AllocError> {
    match fault {
        StreamFault::Cut => String::from_str(alloc, "stream cut"),
        StreamFault::Bad { at } => {
            let at = *at;
            format!(in alloc; "stream bad {at}")
        }
        StreamFault::Memory => String::from_str(alloc, "stream memory"),
    }
}

/// The line of an answer.
fn line_of(alloc: Global, bytes: &[u8]) -> anyhow::Result<String> {
    match read(alloc, bytes) {
        Ok((increment, used)) => read_line(alloc, &increment, used),
        Err(fault) => Ok(fault_line(alloc, &fault)?),
    }
}

/// Prints how bytes are read as a stream.
pub fn print_stream(alloc: Global, bytes: &[u8], printed: &mut Vec<u8>) -> anyhow::Result<()> {
    let line = line_of(alloc, bytes)?;
    print_line(printed, line.as_str())
}
