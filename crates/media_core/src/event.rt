// What was asked of files and an output in memory. It is kept, so that a crash at each moment can be told.
ghost use Rattle.std.specs.Prelude.{◌≡◌, ◌≢◌, ◌<◌, ◌≤◌, ◌==◌, ◌++◌, [], ◌∷◌, ℕ, List, length, OnOk, OnErr, vec_len, if◌then◌else◌};
ghost use Rattle.media_core.specs.Media.{written};
ghost use Rattle.media_core.specs.Events.{file_bytes, Gains, TellsMore};
ghost use Rattle.media_core.specs.Emptied.{NoJournal};
ghost use Rattle.media_core.specs.declared.event.Event.{Event};

use crate::bytes::overwrite_in;
use std::alloc::{AllocError, Global};

/// Something that was asked: files and an output as they were found at a start, all of it on the disk; a write of bytes
/// into a file from an offset on; a sync of a file; a piece for the output.
#[derive(Drop)]
pub enum Event {
    Opened(Vec<Vec<u8>>, Vec<u8>),
    Write(u32, u64, Vec<u8>),
    Sync(u32),
    Tell(Vec<u8>),
}

/// Writes into one file, and keeps that it was asked. On an error all stays.
pub fn keep_write(
    alloc: Global,
    files: &mut Vec<Vec<u8>>,
    past: &mut Vec<Event>,
    f: u32,
    at: u64,
    from: &[u8],
) -> Result<(), AllocError>
    requires here { f < vec_len files.old }
    requires within { at ≤ length (file_bytes files.old.items f) }
    ensures count { vec_len files.new ≡ vec_len files.old }
    ensures ok { OnOk result ((k : ℕ) → file_bytes files.new.items k ≡ (if k == f then written at from.now (file_bytes files.old.items k) else file_bytes files.old.items k)) }
    ensures err { OnErr result ((k : ℕ) → file_bytes files.new.items k ≡ file_bytes files.old.items k) }
    ensures past { OnOk result (Gains past.old.items past.new.items f at from.now) }
    ensures past_err { OnErr result (past.new.items ≡ past.old.items) }
{
    let bytes = from.to_vec(alloc)?;
    past.push(Event::Write(f, at, bytes))?;
    match overwrite_in(files, f as usize, at as usize, from) {
        Ok(()) => Ok(()),
        Err(error) => {
            let _ = past.pop();
            Err(error)
        }
    }
}

/// Keeps that a sync was asked.
pub fn keep_sync(past: &mut Vec<Event>, f: u32) -> Result<(), AllocError>
    ensures ok { OnOk result (past.new.items ≡ past.old.items ++ Event.Sync f ∷ []) }
    ensures err { OnErr result (past.new.items ≡ past.old.items) }
{
    match past.push(Event::Sync(f)) {
        Ok(()) => Ok(()),
        Err(_) => Err(AllocError),
    }
}

/// Adds a piece to the output, and keeps it. On an error all stays.
pub fn keep_tell(
    alloc: Global,
    told: &mut Vec<u8>,
    past: &mut Vec<Event>,
    piece: &[u8],
) -> Result<(), AllocError>
    ensures ok { OnOk result (told.new.items ≡ told.old.items ++ piece.now) }
    ensures err { OnErr result (told.new.items ≡ told.old.items) }
    ensures past { OnOk result (TellsMore past.old.items past.new.items piece.now) }
    ensures past_err { OnErr result (past.new.items ≡ past.old.items) }
{
    let bytes = piece.to_vec(alloc)?;
    past.push(Event::Tell(bytes))?;
    match told.extend_from_slice(piece) {
        Ok(()) => Ok(()),
        Err(error) => {
            let _ = past.pop();
            Err(error)
        }
    }
}

/// Takes what was asked of file 0 out of an event.
fn empty_in(event: &mut Event)
    ensures { (es es' : List Event) → NoJournal es es' → NoJournal (es ++ event.old ∷ []) (es' ++ event.new ∷ []) }
{
    match event {
        Event::Opened(files, _) => empty_first(files),
        Event::Write(f, _, bytes) => {
            if *f == 0 {
                bytes.clear();
            }
        }
        Event::Sync(_) => {}
        Event::Tell(_) => {}
    }
}

/// Makes file 0 empty, where there is one.
pub fn empty_first(files: &mut Vec<Vec<u8>>)
    ensures count { vec_len files.new ≡ vec_len files.old }
    ensures first { file_bytes files.new.items 0 ≡ [] }
    ensures others { (k : ℕ) → k ≢ 0 → file_bytes files.new.items k ≡ file_bytes files.old.items k }
{
    if files.len() > 0 {
        files[0].clear();
    }
}

/// Takes what was asked of file 0 out of all events.
pub fn empty_in_all(past: &mut Vec<Event>)
    ensures { NoJournal past.old.items past.new.items }
{
    for index in 0..past.len() {
        empty_in(&mut past[index]);
    }
}
