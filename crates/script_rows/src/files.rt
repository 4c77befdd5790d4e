//! Files of media in memory, as something else has written them, and the log of a journal as it stands.

ghost use Rattle.std.specs.Prelude.{◌≡◌, length, IfOk};

use crate::turning::{read_within, write_within};
use media_core::{Media, MemMedia, Pick};
use plant_core::{Failed, Plant};
use plant_effects::read_log;
use plant_media::MediaPlant;
use std::alloc::{AllocError, Global};
use std::mem;

/// How many files the media have: the journal and four tapes.
const FILES: u32 = 5;

/// The length of the front of a log's file.
const FRONT: usize = 8192;

/// The most bytes that are written to a file.
const MOST: usize = 1_048_576;

/// Media whose files are all here and empty.
pub fn blank(alloc: Global) -> Result<MemMedia, AllocError> {
    MemMedia::new(alloc, FILES)
}

/// Takes media out of their place, which is left with others.
pub fn taken(alloc: Global, media: &mut MemMedia) -> Result<MemMedia, AllocError> {
    let other = MemMedia::new(alloc, 1)?;
    Ok(mem::replace(media, other))
}

/// Makes bytes the front of a file, on the disk.
pub fn fill(alloc: Global, media: &mut MemMedia, file: u32, bytes: &[u8]) -> anyhow::Result<()> {
    if bytes.len() > MOST || !media.here(file) {
        anyhow::bail!("file {file} can't be filled");
    }
    if media.write(file, 0, bytes).is_err() {
        anyhow::bail!("file {file} wasn't written");
    }
    let written = taken(alloc, media)?;
    *media = written.reopen(Pick::New)?;
    Ok(())
}

/// The byte at a place of a file.
pub fn byte_at(media: &mut MemMedia, file: u32, at: u64) -> anyhow::Result<u8> {
    if !media.here(file) {
        anyhow::bail!("there is no file {file}");
    }
    let mut byte = [0u8; 1];
    if read_within(media, file, at, &mut byte).is_err() {
        anyhow::bail!("file {file} has no byte {at}");
    }
    Ok(byte[0])
}

/// Makes the byte at a place of a file another one.
pub fn set_byte(media: &mut MemMedia, file: u32, at: u64, byte: u8) -> anyhow::Result<()> {
    let _ = byte_at(media, file, at)?;
    if at >= MOST as u64 || !media.here(file) {
        anyhow::bail!("byte {at} of file {file} isn't written");
    }
    if write_within(media, file, at, &[byte]).is_err() {
        anyhow::bail!("byte {at} of file {file} wasn't written");
    }
    Ok(())
}

/// The file of a log that has these bytes.
pub fn file_of_log(alloc: Global, log: &[u8]) -> anyhow::Result<Vec<u8>> {
    let Ok(length) = u32::try_from(log.len()) else {
        anyhow::bail!("the log is too long");
    };
    let mut file = vec![in alloc; 0u8; FRONT]?;
    file[0] = 1;
    file[14] = 32;
    let bytes = length.to_be_bytes();
    file[20] = bytes[0];
    file[21] = bytes[1];
    file[22] = bytes[2];
    file[23] = bytes[3];
    file.extend_from_slice(log)?;
    Ok(file)
}

/// Takes the tape of a slot out, or puts it back.
pub fn move_tape(media: &mut MemMedia, slot: u32, out: bool) -> anyhow::Result<()> {
    if slot >= media.count() - 1 {
        anyhow::bail!("there is no slot {slot}");
    }
    if out {
        media.take_out(slot + 1);
    } else {
        media.put_back(slot + 1);
    }
    Ok(())
}

/// All bytes of a plant's log.
fn whole_log<P: Plant>(alloc: Global, plant: &mut P) -> Result<Vec<u8>, Failed>
    requires { P.sound plant.old }
{
    let length = plant.log_len();
    if length > 65_536 {
        return Err(Failed);
    }
    let Ok(mut bytes) = room(alloc, length as usize) else {
        return Err(Failed);
    };
    read_log(plant, 0, bytes.as_mut_slice())?;
    Ok(bytes)
}

/// Room for so many bytes.
fn room(alloc: Global, count: usize) -> Result<Vec<u8>, AllocError>
    ensures { IfOk result (λ room. length room.items ≡ count) }
{
    let room = vec![in alloc; 0u8; count]?;
    Ok(room)
}

/// The log of the media's journal. The media stay as they are.
pub fn journal(alloc: Global, media: &mut MemMedia) -> anyhow::Result<Vec<u8>> {
    let shown = taken(alloc, media)?;
    match MediaPlant::open(shown) {
        Err(unopened) => {
            *media = unopened.media;
            anyhow::bail!("the journal isn't a log");
        }
        Ok(mut plant) => {
            let log = whole_log(alloc, &mut plant);
            *media = plant.into_media();
            match log {
                Ok(bytes) => Ok(bytes),
                Err(_) => anyhow::bail!("the journal can't be read"),
            }
        }
    }
}
