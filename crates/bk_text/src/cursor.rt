//! Reading big-endian number fields from bytes.

ghost use Rattle.std.specs.Prelude.{◌≡◌, ◌∷◌, [], ◌≤◌, length, MatchResult};
ghost use Rattle.std.specs.Int.{w16, w32, w64};
ghost use Rattle.bk_text.specs.Fields.{Reading, Took, TookNumber, Lacks};

use crate::numbers::{read_u16, read_u32, read_u64};
use std::marker::Model;
use thiserror::Error;

/// Fewer bytes are left than were asked for. `at` is the length of all the bytes.
#[derive(Clone, Copy, Debug, PartialEq, Eq, Drop, Error)]
#[error("the input ends at byte {at}")]
pub struct Short {
    pub at: usize,
}

/// Bytes that are read from the front on. A call that finds fewer bytes than it needs takes none. No call takes memory.
#[derive(Drop)]
pub struct Cursor<'a> {
    bytes: &'a [u8],
    at: usize,
}

impl<'a> Model for Cursor<'a> {
    ghost use Rattle.std.specs.Prelude.{length, ◌≤◌};
    ghost use Rattle.bk_text.specs.Fields.{Reading};

    ghost Value = { Reading };

    ghost view = { λ c. record { bytes = c.bytes.now; at = c.at } };

    ghost invariant = { λ c. c.at ≤ length c.bytes.now };
}

impl<'a> Cursor<'a> {
    /// Stands at the front of these bytes.
    pub fn new(bytes: &'a [u8]) -> Self
        ensures { result ≡ record { bytes = bytes.now; at = 0 } }
    {
        Cursor { bytes, at: 0 }
    }

    /// The number of bytes that were taken.
    pub fn at(&self) -> usize
        ensures at { result ≡ self.now.at }
        ensures within { self.now.at ≤ length self.now.bytes }
    {
        self.at
    }

    /// The next `n` bytes.
    pub fn take(&mut self, n: usize) -> Result<&'a [u8], Short>
        ensures { MatchResult result (λ piece. Took n self.old self.new piece.now) (λ short. Lacks n self.old self.new short.at) }
    {
        let rest = &self.bytes[self.at..];
        if rest.len() < n {
            return Err(Short {
                at: self.bytes.len(),
            });
        }
        self.at += n;
        Ok(&rest[..n])
    }

    /// The next byte.
    pub fn byte(&mut self) -> Result<u8, Short>
        ensures { MatchResult result (λ v. Took 1 self.old self.new (v ∷ [])) (λ short. Lacks 1 self.old self.new short.at) }
    {
        let piece = self.take(1)?;
        Ok(piece[0])
    }

    /// The next number of two bytes.
    pub fn two(&mut self) -> Result<u16, Short>
        ensures { MatchResult result (λ v. TookNumber w16 2 self.old self.new v) (λ short. Lacks 2 self.old self.new short.at) }
    {
        let piece = self.take(2)?;
        Ok(read_u16(piece))
    }

    /// The next number of four bytes.
    pub fn four(&mut self) -> Result<u32, Short>
        ensures { MatchResult result (λ v. TookNumber w32 4 self.old self.new v) (λ short. Lacks 4 self.old self.new short.at) }
    {
        let piece = self.take(4)?;
        Ok(read_u32(piece))
    }

    /// The next number of eight bytes.
    pub fn eight(&mut self) -> Result<u64, Short>
        ensures { MatchResult result (λ v. TookNumber w64 8 self.old self.new v) (λ short. Lacks 8 self.old self.new short.at) }
    {
        let piece = self.take(8)?;
        Ok(read_u64(piece))
    }
}
