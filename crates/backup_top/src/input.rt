//! Reading an input to its end.

ghost use Rattle.std.specs.Prelude.{◌≡◌, ◌≢◌, ℕ, ◌+◌, ◌^◌, ◌<◌, ◌≤◌, List, [], length, IfOk, Err};
ghost use Rattle.crash_moments.specs.Moments.{HasCauseAt};
ghost use Rattle.backup_top.specs.Inputs.{ReadsInput};
ghost use Rattle.dump_stream.specs.Inputs.{HasTaken};
ghost use Rattle.backup_top.specs.Intakes.{TakesNext, TakesAll};
ghost use Rattle.backup_top.specs.declared.input.ReadStop.TheVariants.{Failed, TooLong};

use dump_stream::{Input, InputReader};
use media_core::Source;
use std::alloc::{AllocError, Global};
use thiserror::Error;

/// Why an input wasn't read to its end.
#[derive(Clone, Copy, Debug, PartialEq, Eq, Drop, Error)]
pub enum ReadStop {
    /// A read failed.
    #[error("a read failed")]
    Failed,
    /// More bytes came than an input may have.
    #[error("the input is too long")]
    TooLong,
    /// Memory was refused.
    #[error("memory was refused")]
    Memory,
}

/// The most bytes that an input may have.
const MOST: usize = 536_870_912;

/// How many bytes are asked for at a time.
const PIECE: usize = 65_536;

/// Takes the next bytes of a source, at most as many as there is room for. False at its end.
fn take_next<S: Source>(
    source: &mut S,
    into: &mut [u8],
    input: &mut InputReader,
) -> Result<bool, ReadStop>
    requires some { 0 < length into.old }
    requires held { (bytes : List ℕ) × HasTaken bytes input.old }
    ensures taken { (bytes : List ℕ) → HasTaken bytes input.old → length bytes + length into.old < 2 ^ 64
        → TakesNext S.tells (S.left source.old) (S.left source.new) (length into.old) bytes input.new result }
    ensures cause { HasCauseAt Failed (S.faults source.old) (S.faults source.new) result }
    ensures few { result ≢ Err TooLong }
{
    match source.read(into) {
        Err(_) => Err(ReadStop::Failed),
        Ok(count) => {
            if count == 0 {
                return Ok(false);
            }
            match input.feed(&into[..count]) {
                Err(_) => Err(ReadStop::Memory),
                Ok(()) => Ok(true),
            }
        }
    }
}

/// Takes all bytes of a source.
fn take_all<S: Source>(
    source: &mut S,
    buffer: &mut [u8],
    input: &mut InputReader,
) -> Result<(), ReadStop>
    requires room { (0 < length buffer.old) × (length buffer.old < 2 ^ 32) }
    requires held { HasTaken [] input.old }
    ensures taken { TakesAll S.tells (S.left source.old) (S.left source.new) input.new result }
    ensures cause { HasCauseAt Failed (S.faults source.old) (S.faults source.new) result }
{
    while input.taken() <= MOST {
        let room = buffer.len().min(MOST + 1 - input.taken());
        match take_next(source, &mut buffer[..room], input) {
            Err(stop) => return Err(stop),
            Ok(more) => {
                if !more {
                    return Ok(());
                }
            }
        }
    }
    Err(ReadStop::TooLong)
}

/// Room for so many bytes.
fn room_for(alloc: Global, count: usize) -> Result<Vec<u8>, AllocError>
    ensures { IfOk result (λ room. length room.items ≡ count) }
{
    let room = vec![in alloc; 0u8; count]?;
    Ok(room)
}

/// Reads an input to its end.
pub fn read_input<S: Source>(alloc: Global, source: &mut S) -> Result<Input, ReadStop>
    ensures read { S.tells → ReadsInput (S.left source.old) (S.left source.new) result }
    ensures cause { HasCauseAt Failed (S.faults source.old) (S.faults source.new) result }
{
    match room_for(alloc, PIECE) {
        Err(_) => Err(ReadStop::Memory),
        Ok(mut buffer) => {
            let mut input = InputReader::new(alloc);
            match take_all(source, &mut buffer, &mut input) {
                Err(stop) => Err(stop),
                Ok(()) => Ok(input.finish()),
            }
        }
    }
}
