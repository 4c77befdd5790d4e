//! Times reading a volume's dump stream and writing it again in pieces.

use dump_stream::{Writer, read};
use std::alloc::Global;
use std::io::{self, Eprint, Input, Print, Read, Write};
use std::time::{Clock, Instant};
use vnode_model::{Increment, Volume, apply};

/// How many bytes of a stream stand in a tape's frame.
const PIECE: usize = 16352;

fn input<R: Input + AllocGlobal>(rt: &R) -> io::Result<Vec<u8>> {
    let mut bytes = Vec::new(rt.alloc());
    rt.reader().read_to_end(&mut bytes)?;
    Ok(bytes)
}

fn increment_of(alloc: Global, bytes: &[u8]) -> anyhow::Result<Increment> {
    match read(alloc, bytes) {
        Ok((increment, _)) => Ok(increment),
        Err(_) => anyhow::bail!("the input is no stream"),
    }
}

fn volume_of(alloc: Global, increment: Increment) -> anyhow::Result<Volume> {
    match apply(alloc, None, increment) {
        Ok(volume) => Ok(volume),
        Err(_) => anyhow::bail!("the stream is no whole volume"),
    }
}

/// Writes all that is left, and tells how many bytes these were.
fn give<W: Write>(writer: &mut Writer, out: &mut W) -> io::Result<u64> {
    let mut piece = [0; PIECE];
    let mut total: u64 = 0;
    for _ in 0..u64::MAX {
        let count = writer.next(&mut piece);
        out.write_all(&piece[..count])?;
        total = total.saturating_add(count as u64);
        if count < PIECE {
            break;
        }
    }
    Ok(total)
}

/// Reads the stream on standard input, writes it to standard output, and tells the microseconds of both on standard
/// error.
pub fn time<R: Input + Print + Eprint + Clock + AllocGlobal>(rt: &R) -> anyhow::Result<()> {
    let bytes = input(rt)?;
    let start = Instant::now(rt)?;
    let increment = increment_of(rt.alloc(), &bytes)?;
    let reading = start.elapsed(rt)?.as_micros();
    let volume = volume_of(rt.alloc(), increment)?;
    let mut writer = Writer::new(volume, 0, 0);
    let start = Instant::now(rt)?;
    let total = give(&mut writer, &mut io::writer(rt))?;
    let writing = start.elapsed(rt)?.as_micros();
    eprintln!(rt; "bytes {total} read {reading} written {writing}")?;
    Ok(())
}
