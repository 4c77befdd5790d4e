//! A whole input, read as one stream.

ghost use Rattle.std.specs.Prelude.{◌≡◌, ◌⊎◌, ℕ, ◌+◌, ◌^◌, ◌<◌, List, [], ◌++◌, length, IfOk, OnOk, MatchOption};
ghost use Rattle.dump_stream.specs.Reads.{Begins, IsBad};
ghost use Rattle.dump_stream.specs.Feeds.{HasFed, IsUnfinished};
ghost use Rattle.dump_stream.specs.Inputs.{IsFollowed, IsInput, HoldsAt, IsOpenAt};

use crate::answers::StreamFault;
use crate::reader::{Fed, Reader};
use std::alloc::{AllocError, Global};
use vnode_model::{Increment, Memory};

/// What a whole input is.
#[derive(Debug, Drop)]
pub enum Input {
    /// One stream, and what it says.
    Stream(Increment),
    /// A proper prefix of a stream, of so many bytes.
    Cut { length: usize },
    /// No prefix of it is a stream. The first `at` bytes begin some stream, and the first `at + 1` begin none.
    Bad { at: usize },
    /// A stream of so many bytes, and bytes behind it.
    Followed { at: usize },
}

/// How the bytes of an input so far are judged.
#[derive(Clone, Copy, Debug, PartialEq, Eq)]
enum Judged {
    /// They are a proper prefix of a stream.
    Going,
    /// The first of them are a stream, of so many bytes.
    Ended { at: usize },
    /// No stream goes on with the byte at this place.
    Bad { at: usize },
}

/// A whole input that comes in pieces and is read as one stream. Its bytes are all taken, also those behind the end of a
/// stream or behind the place of a refusal.
pub struct InputReader {
    reader: Reader,
    judged: Judged,
    taken: usize,
}

/// It is written out, as a machine's is.
impl Drop for InputReader {
    fn drop(self) {
        let InputReader {
            reader,
            judged,
            taken,
        } = self;
    }
}

/// How a piece is judged behind bytes of which no stream has ended.
fn judged_by(reader: &mut Reader, taken: usize, piece: &[u8]) -> Result<Judged, Memory>
    requires { IsUnfinished reader.old }
    ensures is_open { IfOk result (λ judged. IsOpenAt reader.new judged) }
    ensures held { (bytes : List ℕ) → HasFed bytes reader.old → taken ≡ length bytes → length bytes + length piece.now < 2 ^ 64
        → IfOk result (λ judged. HoldsAt (bytes ++ piece.now) reader.new judged) }
{
    match reader.feed(piece) {
        Ok(Fed::More) => Ok(Judged::Going),
        Ok(Fed::Done { used }) => Ok(Judged::Ended {
            at: taken.saturating_add(used),
        }),
        Err(StreamFault::Bad { at }) => Ok(Judged::Bad { at }),
        Err(StreamFault::Memory) => Err(AllocError),
        Err(StreamFault::Cut) => unreachable!(),
    }
}

impl InputReader {
    ghost use Rattle.dump_stream.specs.Inputs.{HasTaken, IsOpen};

    /// No byte was taken. It takes no memory.
    pub fn new(alloc: Global) -> Self
        ensures taken { HasTaken [] result }
        ensures is_open { IsOpen result }
    {
        InputReader {
            reader: Reader::new(alloc),
            judged: Judged::Going,
            taken: 0,
        }
    }

    /// How many bytes were taken.
    pub fn taken(&self) -> usize
        ensures { (bytes : List ℕ) → HasTaken bytes self.now → result ≡ length bytes }
    {
        self.taken
    }

    /// The first place at which the bytes so far stop being the front of an input that is one stream: the place of a
    /// refusal, or the length of a stream with bytes behind it. `None` where they are a stream or begin one.
    pub fn stops_at(&self) -> Option<usize>
        ensures { (bytes : List ℕ) → HasTaken bytes self.now → MatchOption result (Begins bytes) (λ at. IsBad bytes at ⊎ IsFollowed bytes at) }
    {
        match self.judged {
            Judged::Going => None,
            Judged::Bad { at } => Some(at),
            Judged::Ended { at } => {
                if at < self.taken {
                    return Some(at);
                }
                None
            }
        }
    }

    /// Takes the next piece.
    ///
    /// # Errors
    ///
    /// `Memory` where memory is refused. The input can't be judged then, and no more is to be asked of this reader.
    pub fn feed(&mut self, piece: &[u8]) -> Result<(), Memory>
        requires { IsOpen self.old }
        ensures is_open { OnOk result (IsOpen self.new) }
        ensures taken { (bytes : List ℕ) → HasTaken bytes self.old → length bytes + length piece.now < 2 ^ 64 → OnOk result (HasTaken (bytes ++ piece.now) self.new) }
    {
        match self.judged {
            Judged::Going => {
                let judged = judged_by(&mut self.reader, self.taken, piece)?;
                self.judged = judged;
                self.taken = self.taken.saturating_add(piece.len());
                Ok(())
            }
            Judged::Ended { .. } | Judged::Bad { .. } => {
                self.taken = self.taken.saturating_add(piece.len());
                Ok(())
            }
        }
    }

    /// What the input is, which has ended. It takes no memory.
    pub fn finish(self) -> Input
        requires { IsOpen self }
        ensures { (bytes : List ℕ) → HasTaken bytes self → IsInput bytes result }
    {
        let mut input = self;
        input.take_input()
    }

    /// What the input is, which has ended. What its stream says is taken out of the reader.
    fn take_input(&mut self) -> Input
        requires { IsOpen self.old }
        ensures { (bytes : List ℕ) → HasTaken bytes self.old → IsInput bytes result }
    {
        match self.judged {
            Judged::Bad { at } => Input::Bad { at },
            Judged::Going => Input::Cut { length: self.taken },
            Judged::Ended { at } => {
                if at < self.taken {
                    return Input::Followed { at };
                }
                Input::Stream(self.reader.take_increment())
            }
        }
    }
}

/// An input is one of the four, and one alone.
pub fn an_input_is_one_thing()
    ensures { (bytes : List ℕ) (one other : Input) → IsInput bytes one → IsInput bytes other → one ≡ other }
{}
