//! A partition's name.

ghost use Rattle.std.specs.Prelude.{◌≡◌, ◌∷◌, ◌↔◌, IsTrue, IfOk, MatchOption};
ghost use Rattle.bk_text.specs.Alphabets.{IsName};
ghost use Rattle.bk_text.specs.Partitions.{IsPartText, ParsesPart, IsBare, without_slash};
ghost use Rattle.bk_text.specs.Tests.{part_test};

use crate::list::Bytes;
use crate::texts::TextFault;
use crate::words::{Alphabet, fault_in, is_word};
use std::alloc::{AllocError, Global};
use std::marker::Model;

/// A partition's name: 1 to 31 bytes of 33 to 126 without `/`, the first one not `-`. A slash in front of it is read
/// and dropped. Contracts see the bytes without it.
#[derive(Debug, Drop)]
pub struct Part {
    bytes: Bytes,
}

impl Model for Part {
    ghost use Rattle.std.specs.Prelude.{List, ℕ};
    ghost use Rattle.bk_text.specs.Alphabets.{IsName};

    ghost Value = { List ℕ };

    ghost view = { λ a. a.bytes };

    ghost invariant = { λ a. IsName a.bytes };
}

impl Clone for Part {
    ghost is_clone = { λ a b. b ≡ a };

    fn clone(&self) -> Result<Part, AllocError> {
        Ok(Part {
            bytes: self.bytes.copy()?,
        })
    }
}

/// What stands behind the slash at a text's front.
fn behind_slash(text: &[u8]) -> Option<&[u8]>
    ensures { MatchOption result (IsBare text.now) (λ rest. text.now ≡ 47 ∷ rest.now) }
{
    if !text.is_empty() && text[0] == b'/' {
        Some(&text[1..])
    } else {
        None
    }
}

/// A text without the slash that may stand at its front.
pub fn without_slash(text: &[u8]) -> &[u8]
    ensures { result.now ≡ without_slash text.now }
{
    match text.split_first() {
        Some((first, rest)) if *first == b'/' => rest,
        _ => text,
    }
}

impl Part {
    /// Whether these bytes are a partition's name, perhaps behind one slash.
    pub fn is_part(text: &[u8]) -> bool
        ensures form { IsTrue result ↔ IsPartText text.now }
        ensures test { result ≡ part_test text.now }
    {
        is_word(Alphabet::Plain, 31, without_slash(text))
    }

    /// Reads a partition's name, perhaps behind one slash. The place of a refusal counts the slash.
    pub fn parse(alloc: Global, text: &[u8]) -> Result<Self, TextFault>
        ensures { ParsesPart text.now result }
    {
        match behind_slash(text) {
            Some(name) => match fault_in(Alphabet::Plain, 31, name) {
                Some(at) => Err(TextFault::BadText { at: at + 1 }),
                None => Ok(Part::from_bytes(alloc, name)?),
            },
            None => match fault_in(Alphabet::Plain, 31, text) {
                Some(at) => Err(TextFault::BadText { at }),
                None => Ok(Part::from_bytes(alloc, text)?),
            },
        }
    }

    /// The partition of this name, without a slash.
    pub fn from_bytes(alloc: Global, bytes: &[u8]) -> Result<Self, AllocError>
        requires { IsName bytes.now }
        ensures { IfOk result (λ kept. kept ≡ bytes.now) }
    {
        Ok(Part {
            bytes: Bytes::from_slice(alloc, bytes)?,
        })
    }

    /// The name's bytes, without a slash.
    pub fn bytes(&self) -> &[u8]
        ensures value { result.now ≡ self.now }
        ensures form { IsName self.now }
    {
        self.bytes.as_slice()
    }
}
