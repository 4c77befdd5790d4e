//! Reading a stream in pieces.

ghost use Rattle.std.specs.Prelude.{◌≡◌, ℕ, List, IfOk};
ghost use Rattle.dump_stream.specs.Sound.{IsSoundMachine, SoundAfter};
ghost use Rattle.dump_stream.specs.Reads.{IsAt, Runs};

use crate::machine::{Machine, Ran};
use std::alloc::{AllocError, Global};

/// Takes the bytes of a piece, up to the end of a stream.
pub fn run(machine: &mut Machine, alloc: Global, piece: &[u8]) -> Result<Ran, AllocError>
    requires { IsSoundMachine machine.old }
    ensures sound { IfOk result (λ ran. SoundAfter ran machine.new) }
    ensures ran { IfOk result (λ ran. (bytes : List ℕ) → IsAt bytes machine.old → Runs bytes piece.now ran machine.new) }
{
    let mut at = 0;
    while at < piece.len() {
        let count = machine.gulp(alloc, &piece[at..])?;
        at += count;
        if at == piece.len() {
            return Ok(Ran::More);
        }
        let fits = machine.step(alloc, piece[at])?;
        if !fits {
            return Ok(Ran::Stopped { at });
        }
        at += 1;
        if machine.has_ended() {
            return Ok(Ran::Ended { used: at });
        }
    }
    Ok(Ran::More)
}
