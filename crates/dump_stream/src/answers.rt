//! Reading a stream of the AFS volume dump format, version 1, by this project's reader rules.

ghost use Rattle.std.specs.Prelude.{◌≡◌, ℕ, List, [], Result};
ghost use Rattle.dump_stream.specs.Reads.{Answers, Agree, Runs};
ghost use Rattle.dump_stream.specs.Sound.{SoundAfter};
ghost use Rattle.vnode_model.specs.declared.increments.Increment.{Increment};
ghost use Rattle.dump_stream.specs.declared.answers.StreamFault.{StreamFault};
ghost use Rattle.dump_stream.specs.declared.answers.StreamFault.TheVariants.{Memory};

use crate::machine::{Machine, Ran};
use crate::pieces::run;
use std::alloc::{AllocError, Global};
use thiserror::Error;
use vnode_model::Increment;

/// Why bytes are no stream.
#[derive(Clone, Copy, Debug, PartialEq, Eq, Drop, Error)]
pub enum StreamFault {
    /// The bytes are a proper prefix of a stream.
    #[error("the stream is cut short")]
    Cut,
    /// No prefix of the bytes is a stream. The first `at` bytes begin some stream, and the first `at + 1` begin none.
    #[error("no stream has this byte at {at}")]
    Bad { at: usize },
    /// Memory was refused.
    #[error("memory was refused")]
    Memory,
}

impl From<AllocError> for StreamFault {
    ghost from_gives = { λ _ e. e ≡ Memory };

    fn from(_e: AllocError) -> StreamFault {
        StreamFault::Memory
    }
}

fn answer(alloc: Global, bytes: &[u8]) -> Result<(Increment, usize), StreamFault>
    ensures { Answers bytes.now result }
{
    let mut machine = Machine::new(alloc);
    match run(&mut machine, alloc, bytes) {
        Ok(ran) => answered(&mut machine, ran),
        Err(_) => Err(StreamFault::Memory),
    }
}

/// What a machine says that has run over bytes. What a stream says is taken out of it.
fn answered(machine: &mut Machine, ran: Ran) -> Result<(Increment, usize), StreamFault>
    requires { SoundAfter ran machine.old }
    ensures { (bytes : List ℕ) → Runs [] bytes ran machine.old → Answers bytes result }
{
    match ran {
        Ran::More => Err(StreamFault::Cut),
        Ran::Stopped { at } => Err(StreamFault::Bad { at }),
        Ran::Ended { used } => Ok((machine.take_increment(), used)),
    }
}

/// Reads the stream at the front of these bytes, and says how many bytes it has. What follows it is the caller's.
///
/// The format is the AFS volume dump format, version 1. The rules of this reader are this project's: the fields of a
/// section may come in any order, each at most once; an absent number is 0, an absent message or data is empty, an
/// absent access list is zeros; both names must be there; a section of a vnode with any field has its type; `h` may
/// stand in place of `f`; the vnodes have the order, the parity and the limits of a volume; any other tag is refused.
pub fn read(alloc: Global, bytes: &[u8]) -> Result<(Increment, usize), StreamFault>
    ensures answer { Answers bytes.now result }
    // No other answer fits, unless memory ran out.
    ensures only { (other : Result (Increment × ℕ) StreamFault) → Answers bytes.now other → Agree result other }
{
    answer(alloc, bytes)
}
