// What was asked of a plant in memory. It is kept, so that a crash at each moment can be told.
ghost use Rattle.std.specs.Prelude.{◌≡◌, ◌<◌, ◌==◌, ◌++◌, [], ◌∷◌, ℕ, length, IfOk, OnOk, OnErr, vec_len, vec_capacity, if◌then◌else◌};
ghost use Rattle.plant_core.specs.Records.{block_with};
ghost use Rattle.plant_core.specs.Tapes.{record_of, records_at};
ghost use Rattle.plant_core.specs.Past.{GainsBytes};
ghost use Rattle.plant_core.specs.declared.event.Event.TheVariants as Of;

use crate::record::Block;
use crate::stored::{Stored, push_in};
use std::alloc::{AllocError, Global};

/// Something that was asked: a record put on the tape in a slot; all records of a tape settled; a tape cut to its first
/// records, settled; bytes put on the log; the log settled; the log replaced, settled; bytes for the output.
#[derive(Drop)]
pub enum Event {
    Put(u32, Stored),
    Settle(u32),
    Cut(u32, u32),
    LogPut(Vec<u8>),
    LogCommit,
    LogReplace(Vec<u8>),
    Tell(Vec<u8>),
}

/// Keeps that something was asked. On an error all events stay.
pub fn keep(past: &mut Vec<Event>, event: Event) -> Result<(), AllocError>
    ensures ok { OnOk result (past.new.items ≡ past.old.items ++ event ∷ []) }
    ensures err { OnErr result (past.new.items ≡ past.old.items) }
{
    match past.push(event) {
        Ok(()) => Ok(()),
        Err(_) => Err(AllocError),
    }
}

/// Keeps that something was asked, where there is room.
fn keep_within(past: &mut Vec<Event>, event: Event)
    requires { length past.old.items < vec_capacity past.old }
    ensures { past.new.items ≡ past.old.items ++ event ∷ [] }
{
    let _ = past.push(event);
}

/// Makes room for one event. All events stay.
fn make_room(past: &mut Vec<Event>) -> Result<(), AllocError>
    ensures kept { past.new.items ≡ past.old.items }
    ensures room { OnOk result (length past.new.items < vec_capacity past.new) }
{
    past.reserve(1)
}

/// Puts a record on a tape, and keeps that it was asked. On an error all stays.
pub fn keep_put(
    tapes: &mut Vec<Vec<Stored>>,
    past: &mut Vec<Event>,
    slot: u32,
    stored: Stored,
    kept: Stored,
) -> Result<(), AllocError>
    requires { slot < vec_len tapes.old }
    ensures count { vec_len tapes.new ≡ vec_len tapes.old }
    ensures ok { OnOk result ((k : ℕ) → records_at tapes.new.items k ≡ (if k == slot then records_at tapes.old.items k ++ record_of stored ∷ [] else records_at tapes.old.items k)) }
    ensures err { OnErr result ((k : ℕ) → records_at tapes.new.items k ≡ records_at tapes.old.items k) }
    ensures past { OnOk result (past.new.items ≡ past.old.items ++ Event.Put slot kept ∷ []) }
    ensures past_err { OnErr result (past.new.items ≡ past.old.items) }
{
    make_room(past)?;
    match push_in(tapes, slot as usize, stored) {
        Ok(()) => {
            keep_within(past, Event::Put(slot, kept));
            Ok(())
        }
        Err(error) => Err(error),
    }
}

/// Puts bytes behind a log, and keeps that it was asked. On an error all stays.
pub fn keep_log_put(
    alloc: Global,
    log: &mut Vec<u8>,
    past: &mut Vec<Event>,
    piece: &[u8],
) -> Result<(), AllocError>
    ensures ok { OnOk result (log.new.items ≡ log.old.items ++ piece.now) }
    ensures err { OnErr result (log.new.items ≡ log.old.items) }
    ensures past { OnOk result (GainsBytes Of.LogPut past.old.items past.new.items piece.now) }
    ensures past_err { OnErr result (past.new.items ≡ past.old.items) }
{
    let bytes = piece.to_vec(alloc)?;
    make_room(past)?;
    match log.extend_from_slice(piece) {
        Ok(()) => {
            keep_within(past, Event::LogPut(bytes));
            Ok(())
        }
        Err(error) => Err(error),
    }
}

/// Makes bytes the whole log, and keeps that it was asked. On an error all stays.
pub fn keep_log_replace(
    alloc: Global,
    log: &mut Vec<u8>,
    past: &mut Vec<Event>,
    bytes: &[u8],
) -> Result<(), AllocError>
    ensures ok { OnOk result (log.new.items ≡ bytes.now) }
    ensures err { OnErr result (log.new.items ≡ log.old.items) }
    ensures past { OnOk result (GainsBytes Of.LogReplace past.old.items past.new.items bytes.now) }
    ensures past_err { OnErr result (past.new.items ≡ past.old.items) }
{
    let kept = bytes.to_vec(alloc)?;
    let replaced = bytes.to_vec(alloc)?;
    keep(past, Event::LogReplace(kept))?;
    *log = replaced;
    Ok(())
}

/// Keeps that bytes were told. On an error all events stay.
pub fn keep_tell(alloc: Global, past: &mut Vec<Event>, piece: &[u8]) -> Result<(), AllocError>
    ensures past { OnOk result (GainsBytes Of.Tell past.old.items past.new.items piece.now) }
    ensures past_err { OnErr result (past.new.items ≡ past.old.items) }
{
    let bytes = piece.to_vec(alloc)?;
    keep(past, Event::Tell(bytes))?;
    Ok(())
}

/// A block twice: once for a tape, once for what is kept of the put.
pub fn two_blocks(alloc: Global, block: &Block) -> Result<(Stored, Stored), AllocError>
    ensures { IfOk result (λ both. (record_of both.0 ≡ block_with block.now) × (record_of both.1 ≡ block_with block.now)) }
{
    let stored = Box::new(alloc, *block)?;
    let kept = Box::new(alloc, *block)?;
    Ok((Stored::Block(stored), Stored::Block(kept)))
}
