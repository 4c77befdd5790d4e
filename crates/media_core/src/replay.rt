// Plays what was asked of files again, with what a crash may have left of it.
ghost use Rattle.std.specs.Prelude.{◌≡◌, ◌≢◌, ◌<◌, ◌≤◌, ◌==◌, ◌++◌, [], ◌∷◌, ℕ, List, length, min, OnOk, IfOk, vec_len, if◌then◌else◌};
ghost use Rattle.media_core.specs.Media.{written};
ghost use Rattle.media_core.specs.Events.{file_bytes, LeftAfter, PickedAfter};
ghost use Rattle.media_core.specs.Tracks.{Tracks};
ghost use Rattle.media_core.specs.declared.event.Event.{Event};

use crate::bytes::{copy_files, copy_of, make_room, overwrite_in, with_count};
use crate::event::Event;
use std::alloc::{AllocError, Global};

/// What a crash makes of the writes that wait for a sync of their file: `Old` loses them, `New` has them all, and `Torn`
/// has that byte in place of each of their bytes, at the length that a read gave.
#[derive(Clone, Copy, Debug)]
pub enum Pick {
    Old,
    New,
    Torn(u8),
}

/// Writes into one file, which may be past the last one. Past its end it writes at its end.
fn replay_write(
    alloc: Global,
    files: &mut Vec<Vec<u8>>,
    f: u32,
    at: u64,
    bytes: &[u8],
) -> Result<(), AllocError>
    ensures { OnOk result ((k : ℕ) → file_bytes files.new.items k ≡ (if k == f then written (min at (length (file_bytes files.old.items k))) bytes.now (file_bytes files.old.items k) else file_bytes files.old.items k)) }
{
    let f = f as usize;
    make_room(alloc, files, f)?;
    let place = (at as usize).min(files[f].len());
    overwrite_in(files, f, place, bytes)?;
    Ok(())
}

/// Puts a copy of a file in the place of another.
fn replay_sync(
    alloc: Global,
    files: &[Vec<u8>],
    picked: &mut Vec<Vec<u8>>,
    f: u32,
) -> Result<(), AllocError>
    ensures same { OnOk result (file_bytes picked.new.items f ≡ file_bytes files.now f) }
    ensures others { OnOk result ((k : ℕ) → k ≢ f → file_bytes picked.new.items k ≡ file_bytes picked.old.items k) }
{
    let f = f as usize;
    make_room(alloc, picked, f)?;
    let copy = copy_of(alloc, files, f)?;
    picked[f] = copy;
    Ok(())
}

/// Plays an event again: on the files, and on what a crash would make of them.
fn replay_event(
    alloc: Global,
    files: &mut Vec<Vec<u8>>,
    picked: &mut Vec<Vec<u8>>,
    event: &Event,
    pick: Pick,
) -> Result<(), AllocError>
    ensures { OnOk result ((es : List Event) → Tracks pick es files.old.items picked.old.items → Tracks pick (es ++ event.now ∷ []) files.new.items picked.new.items) }
{
    match event {
        Event::Opened(opened, _) => {
            let first = copy_files(alloc, opened)?;
            let second = copy_files(alloc, opened)?;
            *files = first;
            *picked = second;
            Ok(())
        }
        Event::Write(f, at, bytes) => match pick {
            Pick::Old => {
                replay_write(alloc, files, *f, *at, bytes)?;
                Ok(())
            }
            Pick::New => {
                replay_write(alloc, picked, *f, *at, bytes)?;
                replay_write(alloc, files, *f, *at, bytes)?;
                Ok(())
            }
            Pick::Torn(byte) => {
                let torn = vec![in alloc; byte; bytes.len()]?;
                replay_write(alloc, picked, *f, *at, &torn)?;
                replay_write(alloc, files, *f, *at, bytes)?;
                Ok(())
            }
        },
        Event::Sync(f) => {
            replay_sync(alloc, files, picked, *f)?;
            Ok(())
        }
        Event::Tell(_) => Ok(()),
    }
}

/// What a crash makes of all files by a pick.
fn all_picked(alloc: Global, past: &[Event], pick: Pick) -> Result<Vec<Vec<u8>>, AllocError>
    ensures left { IfOk result (λ picked. (k : ℕ) → LeftAfter past.now k (file_bytes picked.items k)) }
    ensures picked { IfOk result (λ picked. (k : ℕ) → PickedAfter pick past.now k (file_bytes picked.items k)) }
{
    let mut files = Vec::new(alloc);
    let mut picked = Vec::new(alloc);
    for event in past {
        replay_event(alloc, &mut files, &mut picked, event, pick)?;
    }
    Ok(picked)
}

/// What a crash makes of so many files by a pick.
pub fn picked_files(
    alloc: Global,
    past: &[Event],
    pick: Pick,
    count: usize,
) -> Result<Vec<Vec<u8>>, AllocError>
    requires absent { (k : ℕ) (c : List ℕ) → count ≤ k → LeftAfter past.now k c → c ≡ [] }
    ensures count { IfOk result (λ files. vec_len files ≡ count) }
    ensures left { IfOk result (λ files. (k : ℕ) → LeftAfter past.now k (file_bytes files.items k)) }
    ensures picked { IfOk result (λ files. (k : ℕ) → PickedAfter pick past.now k (file_bytes files.items k)) }
{
    let picked = all_picked(alloc, past, pick)?;
    let files = with_count(alloc, picked, count)?;
    Ok(files)
}
