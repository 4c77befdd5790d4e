// Help for the tests of files in memory: writes, and what stands in them after a crash.

use media_core::{Failed, Media, MemMedia, Pick};
use std::alloc::Global;
use std::test::Fail;

/// The journal, the first tape's file and the output.
#[derive(Drop)]
pub struct Left {
    pub journal: Vec<u8>,
    pub tape: Vec<u8>,
    pub told: Vec<u8>,
}

/// Writes a few bytes into a file, at most at its end.
pub fn put<M: Media>(media: &mut M, f: u32, at: u64, bytes: &[u8]) -> Result<(), Failed> {
    if !media.here(f) || at > 100 || bytes.len() > 100 {
        return Err(Failed);
    }
    let length = media.len(f)?;
    if length < at {
        return Err(Failed);
    }
    media.write(f, at, bytes)?;
    Ok(())
}

/// Syncs a file.
pub fn settle<M: Media>(media: &mut M, f: u32) -> Result<(), Failed> {
    if !media.here(f) {
        return Err(Failed);
    }
    media.sync(f)?;
    Ok(())
}

/// The bytes of a file.
pub fn bytes_of<M: Media>(alloc: Global, media: &mut M, f: u32) -> Result<Vec<u8>, Fail> {
    if !media.here(f) {
        return Err(Fail::from(Failed));
    }
    let length = media.len(f)?;
    let mut bytes = vec![in alloc; 0; length as usize]?;
    media.read(f, 0, &mut bytes)?;
    Ok(bytes)
}

/// Two files, of which the first tape's has 1, 2, 3 on the disk, and an output that has 9.
pub fn media_with_three(alloc: Global) -> Result<MemMedia, Fail> {
    let mut media = MemMedia::new(alloc, 2)?;
    put(&mut media, 1, 0, &[1, 2, 3])?;
    settle(&mut media, 1)?;
    media.tell(&[9])?;
    let media = media.reopen(Pick::Old)?;
    Ok(media)
}

/// What a crash leaves by a pick.
pub fn after_crash(alloc: Global, media: MemMedia, pick: Pick) -> Result<Left, Fail> {
    let mut again = media.reopen(pick)?;
    let journal = bytes_of(alloc, &mut again, 0)?;
    let tape = bytes_of(alloc, &mut again, 1)?;
    let told = again.told().to_vec(alloc)?;
    Ok(Left {
        journal,
        tape,
        told,
    })
}
